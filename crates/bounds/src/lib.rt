// Rules 1, 2, 4 and 5: a term's bounds against its own sums, and against the other terms' bounds, over the terms of the year.
#![tactic(auto)]

mod shared;
mod terms;

ghost use Rattle.std.specs.Prelude.{◌≡◌};
ghost use Rattle.year.specs.Sums.{all_credits};
ghost use Rattle.frame.specs.State.{year_in, step_in, step_of};
ghost use Rattle.rules.specs.Round.{in_row, passes_of};

use frame::State;
use rules::Rule;
use year::{Courses, Credits};

// The sums of each bound over all terms.
#[derive(Clone, Copy)]
pub struct Totals {
    pub low: Credits,
    pub high: Credits,
    pub least: Courses,
    pub most: Courses,
}

// Rules 1 and 2. `all` is the sum of the weights.
pub fn rules_1_2(s: &mut State, all: Credits) -> Result<(), Rule>
    requires all_value { all.0 ≡ all_credits (year_in s.old) }
    ensures { step_of s.new result ≡ in_row (passes_of 1 2) (step_in s.old) }
{
    terms::over_own_sums::<Credits>(s)?;
    terms::over_other_terms(s, all)
}

// Rules 4 and 5.
pub fn rules_4_5(s: &mut State) -> Result<(), Rule>
    ensures { step_of s.new result ≡ in_row (passes_of 4 5) (step_in s.old) }
{
    let courses = Courses(s.courses as u32);
    terms::over_own_sums::<Courses>(s)?;
    terms::over_other_terms(s, courses)
}
