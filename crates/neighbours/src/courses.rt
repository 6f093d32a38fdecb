// The courses of a term in rising number: the first that has a verdict, and what is left behind it is read anew.
ghost use Rattle.std.specs.Prelude.{◌≡◌, ◌≤◌, ◌<◌};
ghost use Rattle.rules.specs.Step.{live, joined, over_courses};
ghost use Rattle.rules.specs.Spares.{up};
ghost use Rattle.rules.specs.Neighbours.{needs, takes, rule12_course};
ghost use Rattle.frame.specs.State.{year_in, step_in};
ghost use Rattle.neighbours.specs.Verdicts.{Gathered, IsFirst};

use crate::{First, Opened, Range};
use frame::State;
use rules::Verdict;
use year::pairs;

// The first course from `start` on that has a verdict, the open courses of term j being gathered.
fn first_of(s: &State, opened: &Opened, range: Range, j: usize, start: usize) -> Option<First>
    requires gathered { Gathered (year_in s.now) j opened.now }
    requires is_term { j < 16 }
    requires within { start ≤ s.now.courses }
    ensures { IsFirst (year_in s.now) j range.least.0 range.most.0 start result }
{
    for course in start..s.courses {
        let c = pairs::course_in(s.weight, &s.list, course);
        if pairs::is_open(c, j) {
            let verdict = opened.verdict(opened.place[course] as usize, c.weight, range);
            if verdict != Verdict::Stays {
                return Some(First { course, verdict });
            }
        }
    }
    None
}

// The first from `start` on in a state: none where it can fire on no rest of the open courses.
fn next_verdict(s: &State, rising: &[u8], j: usize, start: usize) -> Option<First>
    requires from_lightest { rising.now ≡ up (year_in s.now) }
    requires is_term { j < s.now.terms }
    requires within { start ≤ s.now.courses }
    ensures { IsFirst (year_in s.now) j (needs (year_in s.now) j) (takes (year_in s.now) j) start result }
{
    let range = Range::of(s, j);
    let opened = Opened::gathered(s, rising, j);
    if !opened.may_fire(range) {
        return None;
    }
    first_of(s, &opened, range, j, start)
}

// The courses of term j, one after the other: each step reads anew what the one before it left.
pub fn each_course(s: &mut State, rising: &[u8], j: usize)
    requires from_lightest { rising.now ≡ up (year_in s.old) }
    requires is_term { j < s.old.terms }
    ensures { step_in s.new ≡ joined (step_in s.old) (over_courses (rule12_course j) (live (year_in s.old))) }
{
    let mut start = 0;
    // Not `while let`: behind the last course nothing is gathered anew.
    while start < s.courses {
        let Some(f) = next_verdict(s, rising, j, start) else {
            return;
        };
        s.judge(f.course, j, f.verdict);
        start = f.course + 1;
    }
}
