// The four narrowings of bounds: methods on the year by value, each with its answer beside the year.
// A refused one hands back the year as it was given.
ghost use Rattle.std.specs.Prelude.{◌≡◌};
ghost use Rattle.year.specs.Narrow.{answered, tighten_of, raise_low_credits_of, lower_high_credits_of, raise_low_count_of, lower_high_count_of};

use crate::tighter::{self, Amount};
use crate::{Courses, Credits, Crossed, Narrowed, NarrowingRefusal, Side, Year, checks, doors};

impl Year {
    // Raises the low credits of term j to v.
    pub fn raise_low_credits(mut self, j: usize, v: Credits) -> Narrowed
        ensures { result ≡ raise_low_credits_of self j v.0 }
    {
        let answer = self.try_tighten(Side::Low, j, v);
        Narrowed { answer, year: self }
    }

    // Lowers the high credits of term j to v.
    pub fn lower_high_credits(mut self, j: usize, v: Credits) -> Narrowed
        ensures { result ≡ lower_high_credits_of self j v.0 }
    {
        let answer = self.try_tighten(Side::High, j, v);
        Narrowed { answer, year: self }
    }

    // Raises the low count of term j to v.
    pub fn raise_low_count(mut self, j: usize, v: Courses) -> Narrowed
        ensures { result ≡ raise_low_count_of self j v.0 }
    {
        let answer = self.try_tighten(Side::Low, j, v);
        Narrowed { answer, year: self }
    }

    // Lowers the high count of term j to v.
    pub fn lower_high_count(mut self, j: usize, v: Courses) -> Narrowed
        ensures { result ≡ lower_high_count_of self j v.0 }
    {
        let answer = self.try_tighten(Side::High, j, v);
        Narrowed { answer, year: self }
    }

    // Tightens one bound of term j, of credits or of courses as v is, to v.
    fn try_tighten<A: Amount>(&mut self, side: Side, j: usize, v: A) -> Result<(), NarrowingRefusal>
        ensures { answered result self.new ≡ tighten_of side A.quantity self.old j (A.number v) }
    {
        let outside = A::largest().number() < v.number();
        checks::checked(self, self.terms <= j, outside)?;
        match tighter::tighten(side, self.term[j], v) {
            Err(Crossed) => return Err(NarrowingRefusal::Crossing),
            Ok(None) => {}
            Ok(Some(t)) => doors::bound(self, j, t),
        }
        Ok(())
    }
}
