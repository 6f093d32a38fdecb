// What a year is: its terms, its courses, the sums of its terms, its limits; what is sound; the doors; the narrowings.
#![tactic(auto)]

mod bar;
pub mod by_hand;
mod checks;
pub mod doors;
mod limits;
pub mod pairs;
mod place;
pub mod sound;
pub mod summing;
pub mod tighter;

ghost use Rattle.std.specs.Prelude.{◌≡◌};
ghost use Rattle.year.specs.Doors.{empty_year};
ghost use Rattle.year.specs.Sound.{Sound};

// A number of credits. Never compared with a number of courses.
#[derive(Clone, Copy, Default, PartialEq, Eq)]
pub struct Credits(pub u32);

// A number of courses.
#[derive(Clone, Copy, Default, PartialEq, Eq)]
pub struct Courses(pub u32);

// A term's bounds: credits from `low` to `high`, and a count of courses from `least` to `most`.
#[derive(Clone, Copy, Default)]
pub struct Term {
    pub low: Credits,
    pub high: Credits,
    pub least: Courses,
    pub most: Courses,
}

// A course with its weight and its list of terms: bit j of the list says that term j is listed.
#[derive(Clone, Copy)]
pub struct Course {
    pub weight: Credits,
    pub list: u16,
}

// The four sums of a term: the credits fixed in it (p), those fixed or open (P), the number fixed and the number open.
#[derive(Clone, Copy, Default, PartialEq, Eq)]
pub struct Sums {
    pub fixed: Credits,
    pub possible: Credits,
    pub placed: Courses,
    pub free: Courses,
}

// A year of `terms` terms and `courses` courses; course i has entry i of the weights, in credits, and of the lists.
// Entries past the last are zero in a sound year, and its sums are those over the lists.
#[derive(Clone, Copy)]
pub struct Year {
    pub terms: usize,
    pub courses: usize,
    pub term: [Term; Year::TERMS],
    pub weight: [u32; Year::COURSES],
    pub list: [u16; Year::COURSES],
    pub sums: [Sums; Year::TERMS],
}

// A year that is known to be sound: what is made of it needs no test. It is as large as a year, so it is lent where it is read.
#[derive(Clone, Copy)]
pub struct SoundYear {
    pub year: Year,
    pub ghost sound: { Sound year },
}

// What a bound is of: a term's credits or the number of its courses. Each has a bound on either side.
#[derive(Clone, Copy, PartialEq, Eq)]
pub enum Quantity {
    Credits,
    Counts,
}

#[derive(Clone, Copy, PartialEq, Eq)]
pub enum Side {
    Low,
    High,
}

// Why a term's bounds are not made tighter: the low one would lie above the high one.
#[derive(Clone, Copy, PartialEq, Eq)]
pub struct Crossed;

// Why a narrowing is refused: by 8, 10, 11 or 12.
#[derive(Clone, Copy, PartialEq, Eq)]
pub enum NarrowingRefusal {
    Unsound,
    Missing,
    Outside,
    Crossing,
}

#[derive(Clone, Copy)]
pub struct Narrowed {
    pub answer: Result<(), NarrowingRefusal>,
    pub year: Year,
}

// Why a year has no imbalance: it is not sound, or not settled; refusal 8 or 14.
#[derive(Clone, Copy, PartialEq, Eq)]
pub enum ImbalanceRefusal {
    Unsound,
    Unsettled,
}

impl Year {
    // The largest year.
    pub const TERMS: usize = 16;

    pub const COURSES: usize = 64;

    // The heaviest course, and the largest bounds.
    pub const WEIGHT: Credits = Credits(1000);

    pub const CREDITS: Credits = Credits(64000);

    pub const COUNT: Courses = Courses(64);

    // The year of one term, all bounds 0, with no course.
    pub fn empty() -> Year
        ensures { result ≡ empty_year }
    {
        Year {
            terms: 1,
            courses: 0,
            term: [Term::default(); Year::TERMS],
            weight: [0; Year::COURSES],
            list: [0; Year::COURSES],
            sums: [Sums::default(); Year::TERMS],
        }
    }
}
