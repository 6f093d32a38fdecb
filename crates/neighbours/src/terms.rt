// A term of rule 12: what the rule says of the whole of it, and what it does there.
ghost use Rattle.std.specs.Prelude.{◌≡◌, ◌<◌};
ghost use Rattle.rules.specs.Step.{next};
ghost use Rattle.rules.specs.Spares.{up};
ghost use Rattle.rules.specs.Neighbours.{rule12};
ghost use Rattle.frame.specs.State.{year_in, step_in, step_of};
ghost use Rattle.neighbours.specs.Verdicts.{RightIn, SaysOf};

use crate::{Opened, Range, Says, courses, gathering};
use frame::State;
use rules::Rule;
use year::Credits;

// Of the open courses of term j: nothing where their sums are calm, else no plan where it fires on all of them, and nothing again
// where it can fire on no rest of them.
fn of_open(s: &State, rising: &[u8], j: usize, range: Range) -> Result<Says, Rule>
    requires from_lightest { rising.now ≡ up (year_in s.now) }
    requires is_term { j < 16 }
    ensures { RightIn (year_in s.now) j range.least.0 range.most.0 result }
{
    let opened = Opened::gathered(s, rising, j);
    if opened.is_calm(range) {
        return Ok(Says::Nothing);
    }
    if opened.fires(opened.count, opened.count, Credits(0), range) {
        return Err(Rule::Neighbours);
    }
    if opened.may_fire(range) {
        return Ok(Says::Courses);
    }
    Ok(Says::Nothing)
}

// Term j. With no course open there, or none that is heavier than what the term still takes or than the range is wide, it says
// nothing.
fn says(s: &State, rising: &[u8], j: usize) -> Result<Says, Rule>
    requires from_lightest { rising.now ≡ up (year_in s.now) }
    requires is_term { j < s.now.terms }
    ensures { SaysOf (year_in s.now) j result }
{
    let u = s.sums[j];
    if s.term[j].high.0 < u.fixed.0 {
        return Err(Rule::Neighbours);
    }
    if u.free.0 == 0 {
        return Ok(Says::Nothing);
    }
    let range = Range::of(s, j);
    let last = gathering::last_open(s, rising, j);
    let heaviest = orders::heaviest(s.weight, &rising[..last]);
    if heaviest.0 <= range.most.0 && heaviest.0 <= range.width().0 {
        return Ok(Says::Nothing);
    }
    of_open(s, rising, j, range)
}

// The rule at term j: its courses are gone through where it says something of some of them.
pub fn term_judged(s: &mut State, rising: &[u8], j: usize) -> Result<(), Rule>
    requires from_lightest { rising.now ≡ up (year_in s.old) }
    requires is_term { j < s.old.terms }
    ensures { step_of s.new result ≡ next rule12 (step_in s.old) j }
{
    if says(s, rising, j)? == Says::Courses {
        courses::each_course(s, rising, j);
    }
    Ok(())
}
