// Rule 12: neighbouring sums. It goes through the open courses of each term and strikes the term from lists, or leaves it alone
// there.
#![tactic(auto)]

mod courses;
mod fires;
mod gathering;
mod screen;
mod terms;
mod verdicts;

ghost use Rattle.std.specs.Prelude.{◌≡◌, ◌≤◌};
ghost use Rattle.rules.specs.Step.{over_terms};
ghost use Rattle.rules.specs.Spares.{up};
ghost use Rattle.rules.specs.Neighbours.{rule12};
ghost use Rattle.frame.specs.State.{year_in, step_in, step_of};
ghost use Rattle.neighbours.specs.Lightest.{Summed};

use frame::State;
use rules::{Rule, Verdict};
use year::{Credits, Year};

// A range of credits, which a term can have: what it still needs, and what it still takes.
#[derive(Clone, Copy)]
pub struct Range {
    pub least: Credits,
    pub most: Credits,
    pub ghost ordered: { least.0 ≤ most.0 },
    pub ghost small: { most.0 ≤ 64000 },
}

// The open courses of a term from lightest to heaviest: how many there are, what the lightest of them weigh, and at which
// place each course stands.
#[derive(Clone, Copy)]
pub struct Opened {
    pub count: usize,
    pub upto: [u32; 65],
    pub place: [u8; Year::COURSES],
    pub ghost summed: { Summed count upto },
}

// A course and the verdict on it.
#[derive(Clone, Copy)]
pub struct First {
    pub course: usize,
    pub verdict: Verdict,
}

// What the rule says of a whole term that has a plan: nothing, as no course has a verdict; or its courses may have theirs.
#[derive(Clone, Copy, PartialEq, Eq)]
pub enum Says {
    Nothing,
    Courses,
}

// Rule 12 over the terms of the year, up to one where it finds no plan. `rising` is its courses from lightest to heaviest.
pub fn rule_12(s: &mut State, rising: &[u8]) -> Result<(), Rule>
    requires from_lightest { rising.now ≡ up (year_in s.old) }
    ensures { step_of s.new result ≡ over_terms rule12 (step_in s.old) }
{
    for j in 0..s.terms {
        terms::term_judged(s, rising, j)?;
    }
    Ok(())
}
