// The courses of a term in rising number: the verdict on each, and what it makes of the course's list and of the sums.
ghost use Rattle.std.specs.Prelude.{◌≡◌, ◌<◌};
ghost use Rattle.rules.specs.Step.{over_courses};
ghost use Rattle.frame.specs.State.{step_in};
ghost use Rattle.lists.specs.TermVerdict.{course_judged};

use crate::{TermVerdict, verdicts};
use frame::State;
use year::pairs;

// The courses of term j, one after the other.
pub fn each_course(s: &mut State, j: usize, whole: TermVerdict)
    requires in_range { j < s.old.terms }
    ensures { step_in s.new ≡ over_courses (course_judged whole j) (step_in s.old) }
{
    let t = s.term[j];
    for i in 0..s.courses {
        let c = pairs::course_in(s.weight, &s.list, i);
        let u = s.sums[j];
        let v = verdicts::course_verdict(whole, c, t, u, j);
        s.judge(i, j, v);
    }
}
