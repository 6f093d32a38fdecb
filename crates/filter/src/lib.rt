// Filtering: rounds until one alters nothing, and the answer.
#![tactic(auto)]

mod rounds;

ghost use Rattle.std.specs.Prelude.{◌≡◌};
ghost use Rattle.filter.specs.Filter.{filter_of};

use rules::Rule;
use year::{SoundYear, Year};

// How a filtering ended: settled or open with the number of rounds, no plan with the rule and the round that found it, or refusal 8.
#[derive(Clone, Copy, PartialEq, Eq)]
pub enum Answer {
    Settled(u32),
    Open(u32),
    NoPlan(Rule, u32),
    Unsound,
}

#[derive(Clone, Copy)]
pub struct Filtered {
    pub answer: Answer,
    pub year: Year,
}

// Filters a year that is known to be sound. Where there is no plan, it hands back the year it was given.
pub fn filter_sound(y: SoundYear) -> Filtered
    ensures { result ≡ filter_of y.year }
{
    rounds::run(y)
}

// Filters a year. Refused, or where there is no plan, it hands back the year it was given.
pub fn filter(y: Year) -> Filtered
    ensures { result ≡ filter_of y }
{
    match y.sound() {
        Some(sound) => filter_sound(sound),
        None => Filtered {
            answer: Answer::Unsound,
            year: y,
        },
    }
}
