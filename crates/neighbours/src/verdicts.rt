// The range of a term, and what rule 12 says of an open course there.
ghost use Rattle.std.specs.Prelude.{◌≡◌, ◌+◌, ◌-◌, ◌<◌};
ghost use Rattle.rules.specs.Neighbours.{needs, takes};
ghost use Rattle.frame.specs.State.{year_in};
ghost use Rattle.neighbours.specs.Lightest.{Lent};
ghost use Rattle.neighbours.specs.Verdicts.{verdict_by};

use crate::{Opened, Range};
use frame::State;
use rules::Verdict;
use year::Credits;

impl Range {
    // What term j still needs and still takes.
    pub fn of(s: &State, j: usize) -> Range
        requires is_term { j < s.now.terms }
        ensures { (result.least.0 ≡ needs (year_in s.now) j) × (result.most.0 ≡ takes (year_in s.now) j) }
    {
        let t = s.term[j];
        let p = s.sums[j].fixed.0;
        Range {
            least: Credits(t.low.0.saturating_sub(p)),
            most: Credits(t.high.0.saturating_sub(p)),
        }
    }

    // How many numbers it has room for.
    pub fn width(self) -> Credits
        ensures { result.0 ≡ self.most.0 - self.least.0 + 1 }
    {
        Credits(self.most.0 - self.least.0 + 1)
    }

    // The range with w less, and not below 0.
    fn less(self, w: Credits) -> Range
        ensures { (result.least.0 ≡ self.least.0 - w.0) × (result.most.0 ≡ self.most.0 - w.0) }
    {
        Range {
            least: Credits(self.least.0.saturating_sub(w.0)),
            most: Credits(self.most.0.saturating_sub(w.0)),
        }
    }
}

impl Opened {
    // The verdict on the course of weight w that stands at a place among them.
    pub fn verdict(&self, place: usize, w: Credits, range: Range) -> Verdict
        requires lent { Lent self.now.upto (self.now.count - 1) place w.0 }
        requires some { 0 < self.now.count }
        ensures { result ≡ verdict_by self.now.upto self.now.count place w.0 range.least.0 range.most.0 }
    {
        let n = self.count - 1;
        if range.most.0 < w.0 || self.fires(n, place, w, range.less(w)) {
            return Verdict::Struck;
        }
        if self.fires(n, place, w, range) {
            return Verdict::Fixed;
        }
        Verdict::Stays
    }
}
