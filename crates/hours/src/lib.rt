// The registrar's hours list: joined to a list of terms it gives a year. Records of 16 bytes, hours and no credits.
#![tactic(auto)]

mod entries;
mod lists;

ghost use Rattle.std.specs.Prelude.{◌≡◌};
ghost use Rattle.year.specs.SoundYear.{answer_inside};
ghost use Rattle.hours.specs.Joining.{join_of, given_back};

use records::Refusal;
use year::{SoundYear, Year};

// The editions of the handbook by which hours are weighed.
#[derive(Clone, Copy, PartialEq, Eq)]
pub enum Edition {
    First,
    Second,
}

// A number of hours, as the registrar sends them. No number of credits before it is weighed.
#[derive(Clone, Copy, PartialEq, Eq)]
pub struct Hours(pub u32);

// Why two lists were not joined: the first fault of the terms' list or of the hours list, with its record's place there.
#[derive(Clone, Copy, PartialEq, Eq)]
pub enum JoiningRefusal {
    InTerms(Refusal),
    InHours(Refusal),
}

// What a joining gives back: the answer, and the year, which beside a refusal is the one of one term, all bounds 0, no course.
#[derive(Clone, Copy)]
pub struct Joined {
    pub answer: Result<(), JoiningRefusal>,
    pub year: Year,
}

// The letter that an hours record starts with, "H", and the bytes of the longest hours list.
pub const LETTER: u8 = 72;

pub const LONGEST: usize = Year::COURSES * records::RECORD;

// The year of a list of terms and a list of hours, from any two byte strings. The terms are judged first, all of them.
pub fn join_sound(terms: &[u8], hours: &[u8]) -> Result<SoundYear, JoiningRefusal>
    ensures { answer_inside result ≡ join_of terms.now hours.now }
{
    let front = lists::read_terms(terms).map_err(JoiningRefusal::InTerms)?;
    lists::read_hours(front, hours).map_err(JoiningRefusal::InHours)
}

// The same with a plain year, which is there beside a refusal too.
pub fn join(terms: &[u8], hours: &[u8]) -> Joined
    ensures { result ≡ given_back (join_of terms.now hours.now) }
{
    match join_sound(terms, hours) {
        Ok(joined) => Joined {
            answer: Ok(()),
            year: joined.year,
        },
        Err(refusal) => Joined {
            answer: Err(refusal),
            year: Year::empty(),
        },
    }
}
