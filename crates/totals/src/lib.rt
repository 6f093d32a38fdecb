// What is counted or measured over a year beside the sums that it carries.
#![tactic(auto)]

pub mod measure;

ghost use Rattle.std.specs.Prelude.{◌≡◌, ◌≤◌};
ghost use Rattle.year.specs.SumsOf.{none_open};
ghost use Rattle.year.specs.Sums.{is_placed, all_placed, all_credits};

use year::{Course, Credits, SoundYear, Sums, Year};

// The course has one term.
pub fn is_placed(c: Course) -> bool
    ensures { result ≡ is_placed c }
{
    c.list.is_power_of_two()
}

// No course is open in any of the first terms.
pub fn none_open(terms: usize, sums: &[Sums; Year::TERMS]) -> bool
    requires { terms ≤ 16 }
    ensures { result ≡ none_open terms sums.now }
{
    sums[..terms].iter().all(|s| s.free.0 == 0)
}

// Every course has one term: none is open in any.
pub fn all_placed(y: &SoundYear) -> bool
    ensures { result ≡ all_placed y.now.year }
{
    none_open(y.year.terms, &y.year.sums)
}

// All credits of the year.
pub fn all_credits(y: &SoundYear) -> Credits
    ensures { result.0 ≡ all_credits y.now.year }
{
    let mut total = Credits(0);
    for weight in &y.year.weight[..y.year.courses] {
        total.0 += *weight;
    }
    total
}
