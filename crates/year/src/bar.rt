// Barring a course from a term: a method on the year by value, with its answer beside the year.
// A refused one hands back the year as it was given.
ghost use Rattle.std.specs.Prelude.{◌≡◌};
ghost use Rattle.year.specs.Narrow.{answered, bar_of};

use crate::{Narrowed, NarrowingRefusal, Year, checks, doors};

impl Year {
    // Bars course i from term j. A term that is not listed alters nothing.
    pub fn bar(mut self, i: usize, j: usize) -> Narrowed
        ensures { result ≡ bar_of self i j }
    {
        let answer = self.try_bar(i, j);
        Narrowed { answer, year: self }
    }

    fn try_bar(&mut self, i: usize, j: usize) -> Result<(), NarrowingRefusal>
        ensures { answered result self.new ≡ bar_of self.old i j }
    {
        checks::named(self, i, j)?;
        let list = self.list[i];
        if !doors::lists(list, j) {
            return Ok(());
        }
        if list == doors::power(j) {
            return Err(NarrowingRefusal::Crossing);
        }
        doors::strike(self, i, j);
        Ok(())
    }
}
