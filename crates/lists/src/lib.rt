// Rules 3 and 10: they go through the courses of each term and strike the term from lists, or leave it alone there.
#![tactic(auto)]

mod courses;
mod heaviest;
mod verdicts;

ghost use Rattle.std.specs.Prelude.{◌≡◌};
ghost use Rattle.rules.specs.Step.{over_terms};
ghost use Rattle.frame.specs.State.{step_in, step_of};
ghost use Rattle.rules.specs.Lists.{rule3, rule10};

use frame::State;
use rules::Rule;

// What a rule says of a whole term, beside `Verdict`, what it says of a course: its open courses have their verdicts by credits
// (rule 3), or the term is full or needs them all (rule 10).
#[derive(Clone, Copy, PartialEq, Eq)]
pub enum TermVerdict {
    ByCredits,
    Full,
    NeedsAll,
}

// Rule 3 over the terms of the year. It never finds that there is no plan.
pub fn rule_3(s: &mut State)
    ensures { step_in s.new ≡ over_terms rule3 (step_in s.old) }
{
    let heaviest = heaviest::heaviest(s);
    for j in 0..s.terms {
        if let Some(whole) = verdicts::term_verdict_3(s.term[j], s.sums[j], heaviest[j]) {
            courses::each_course(s, j, whole);
        }
    }
}

// Rule 10 over the terms of the year, up to one where it finds no plan.
pub fn rule_10(s: &mut State) -> Result<(), Rule>
    ensures { step_of s.new result ≡ over_terms rule10 (step_in s.old) }
{
    for j in 0..s.terms {
        if let Some(whole) = verdicts::term_verdict_10(s.term[j], s.sums[j])? {
            courses::each_course(s, j, whole);
        }
    }
    Ok(())
}
