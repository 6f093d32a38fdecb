// Placing a course: a method on the year by value, with its answer beside the year.
// A refused one hands back the year as it was given.
ghost use Rattle.std.specs.Prelude.{◌≡◌};
ghost use Rattle.year.specs.Narrow.{answered, place_of};

use crate::{Narrowed, NarrowingRefusal, Year, checks, doors};

impl Year {
    // Places course i in term j: only j is left on its list.
    pub fn place(mut self, i: usize, j: usize) -> Narrowed
        ensures { result ≡ place_of self i j }
    {
        let answer = self.try_place(i, j);
        Narrowed { answer, year: self }
    }

    fn try_place(&mut self, i: usize, j: usize) -> Result<(), NarrowingRefusal>
        ensures { answered result self.new ≡ place_of self.old i j }
    {
        checks::named(self, i, j)?;
        if !doors::lists(self.list[i], j) {
            return Err(NarrowingRefusal::Crossing);
        }
        doors::place(self, i, j);
        Ok(())
    }
}
