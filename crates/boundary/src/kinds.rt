// The narrowings by the numbers that calls name them with.
ghost use Rattle.std.specs.Prelude.{◌≡◌};
ghost use Rattle.boundary.specs.Calls.{narrow_of};
ghost use Rattle.boundary.specs.Kinds.{Named, kind_number};

use year::{Courses, Credits, Narrowed, Year};

// Kinds 0 to 5, in this order.
#[derive(Clone, Copy, PartialEq, Eq)]
pub enum Kind {
    Place,
    Bar,
    RaiseLowCredits,
    LowerHighCredits,
    RaiseLowCount,
    LowerHighCount,
}

// A number that names no narrowing.
#[derive(Clone, Copy, PartialEq, Eq)]
pub struct UnknownKind;

impl TryFrom<u32> for Kind {
    type Error = UnknownKind;

    ghost try_from_gives = { Named };

    fn try_from(number: u32) -> Result<Kind, UnknownKind> {
        match number {
            0 => Ok(Kind::Place),
            1 => Ok(Kind::Bar),
            2 => Ok(Kind::RaiseLowCredits),
            3 => Ok(Kind::LowerHighCredits),
            4 => Ok(Kind::RaiseLowCount),
            5 => Ok(Kind::LowerHighCount),
            _ => Err(UnknownKind),
        }
    }
}

impl Kind {
    #[tactic(auto, unfolding(crate::specs::Calls::narrow_of))]
    // The narrowing of this kind: of course a and term b, or of term a to b.
    pub fn narrow(self, y: Year, a: u32, b: u32) -> Narrowed
        ensures { result ≡ narrow_of y (kind_number self) a b }
    {
        match self {
            Kind::Place => y.place(a as usize, b as usize),
            Kind::Bar => y.bar(a as usize, b as usize),
            Kind::RaiseLowCredits => y.raise_low_credits(a as usize, Credits(b)),
            Kind::LowerHighCredits => y.lower_high_credits(a as usize, Credits(b)),
            Kind::RaiseLowCount => y.raise_low_count(a as usize, Courses(b)),
            Kind::LowerHighCount => y.lower_high_count(a as usize, Courses(b)),
        }
    }
}
