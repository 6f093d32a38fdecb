// Years that a program makes by hand: from their terms and courses, and with their sums filled in.
ghost use Rattle.std.specs.Prelude.{◌≡◌, ℕ, ◌≤◌, ◌<◌, ◌^◌, get_or};
ghost use Rattle.year.specs.Doors.{with_sums};
ghost use Rattle.year.specs.ByHand.{summed_of, unsummed, by_hand};

use crate::{Course, Sums, Term, Year, sound, summing};

// The year with the sums over its lists.
pub fn with_sums(y: Year) -> Year
    requires sizes { (y.terms ≤ 16) × (y.courses ≤ 64) }
    requires each_course { (i : ℕ) → i < y.courses → (get_or y.weight i 0 ≤ 1000) × (get_or y.list i 0 < 2 ^ y.terms) }
    ensures { result ≡ with_sums y }
{
    let sums = summing::sums_over(&y.weight[..y.courses], &y.list[..y.courses], y.terms);
    Year { sums, ..y }
}

// A year of its terms and its courses, with sums of 0.
fn unsummed(
    terms: usize,
    courses: usize,
    term: [Term; Year::TERMS],
    course: [Course; Year::COURSES],
) -> Year
    ensures { result ≡ unsummed terms courses term course }
{
    let mut weight = [0u32; Year::COURSES];
    let mut list = [0u16; Year::COURSES];
    for i in 0..Year::COURSES {
        weight[i] = course[i].weight.0;
        list[i] = course[i].list;
    }
    Year {
        terms,
        courses,
        term,
        weight,
        list,
        sums: [Sums::default(); Year::TERMS],
    }
}

impl Year {
    // Fills the sums in: a year that is sound but for them gets them, any other comes back as it was given.
    pub fn summed(self) -> Year
        ensures { result ≡ summed_of self }
    {
        if sound::is_sound_but_sums(&self) {
            return with_sums(self);
        }
        self
    }

    // A year of given sizes, its terms and its courses entry by entry, with its sums; what is not sound has sums of 0.
    pub fn by_hand(
        terms: usize,
        courses: usize,
        term: [Term; Year::TERMS],
        course: [Course; Year::COURSES],
    ) -> Year
        ensures { result ≡ by_hand terms courses term course }
    {
        unsummed(terms, courses, term, course).summed()
    }
}
