// Whether rule 12 can say something of any course at all: one look at the sums of all open courses of a term, for all of them.
ghost use Rattle.std.specs.Prelude.{◌≡◌, false, ◌+◌, ◌≤◌};
ghost use Rattle.neighbours.specs.Lightest.{NoneReach, Quiet};
ghost use Rattle.neighbours.specs.Opened.{at};

use crate::{Opened, Range};
use year::Credits;

impl Opened {
    // For some k, the k heaviest of the first m, with `lighter` more, stay below the range, and the k + 1 from place s on, with
    // `heavier` more, pass it.
    fn some_reach(
        &self,
        m: usize,
        s: usize,
        lighter: Credits,
        heavier: Credits,
        range: Range,
    ) -> bool
        requires places { (m ≤ self.now.count) × (s ≤ self.now.count) × (self.now.count ≤ m + s + 1) }
        requires light { (lighter.0 ≤ 64000) × (heavier.0 ≤ 64000) }
        ensures { result ≡ false → NoneReach (at self.now.upto) self.now.count m s lighter.0 heavier.0 range.least.0 range.most.0 }
    {
        for k in 0..self.count - s {
            let heaviest = self.upto[m] - self.upto[m - k];
            if range.least.0 <= heaviest + lighter.0 {
                return false;
            }
            if range.most.0 < self.upto[s + (k + 1)] - self.upto[s] + heavier.0 {
                return true;
            }
        }
        false
    }

    // Some one of them may exceed the range, or have it fire on the rest. At each k', the k heaviest of the rest weigh at least
    // those of all but the heaviest, and the k + 1 outside the k' at most those from one place on; with the one left out, the
    // heaviest more.
    pub fn may_fire(&self, range: Range) -> bool
        ensures { result ≡ false → Quiet (at self.now.upto) self.now.count range.least.0 range.most.0 }
    {
        let n = self.count;
        if n == 0 {
            return false;
        }
        let heaviest = self.upto[n] - self.upto[n - 1];
        if range.most.0 < heaviest {
            return true;
        }
        let width = range.width().0;
        for k2 in 0..n - 1 {
            let before = self.upto[k2];
            if range.least.0 <= before || heaviest <= before + width {
                return false;
            }
            let next = Credits(self.upto[k2 + 1]);
            if self.some_reach(n, k2, next, Credits(heaviest), range) {
                return true;
            }
            if self.some_reach(n - 1, k2 + 1, Credits(before), Credits(0), range) {
                return true;
            }
        }
        false
    }
}
