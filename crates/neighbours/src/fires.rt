// Whether rule 12 fires on the open courses of a term by what the lightest of them weigh; one of them may be left out.
ghost use Rattle.std.specs.Prelude.{◌≡◌, ◌+◌, ◌≤◌, ◌<◌, length, get_or};
ghost use Rattle.theory.specs.Tests.{any};
ghost use Rattle.neighbours.specs.Lightest.{left_out, Lent, neighbours_by, fires_by};

use crate::{Opened, Range};
use year::Credits;

impl Opened {
    // What the t lightest weigh, where the one at place `out`, of weight w, is left out.
    fn lightest(&self, out: usize, w: Credits, t: usize) -> Credits
        requires { (t < length self.now.upto) × (out < t → (t + 1 < length self.now.upto) × (w.0 ≤ get_or self.now.upto (t + 1) 0)) }
        ensures { result.0 ≡ left_out self.now.upto out w.0 t }
    {
        if t <= out {
            return Credits(self.upto[t]);
        }
        Credits(self.upto[t + 1] - w.0)
    }

    // `lent` stays a clause here: which one is left out is not in the type.
    // It fires with these k' lightest and some k of n: the k heaviest plus those weigh the more the larger k is, and so the first
    // k at which they reach the range ends it.
    fn fires_with(&self, n: usize, out: usize, w: Credits, range: Range, k2: usize) -> bool
        requires lent { Lent self.now.upto n out w.0 }
        requires fewer { k2 < n }
        ensures { result ≡ any n (neighbours_by (left_out self.now.upto out w.0) n range.least.0 range.most.0 k2) }
    {
        let all = self.lightest(out, w, n);
        let before = self.lightest(out, w, k2);
        for k in 0..n - k2 {
            let heaviest = all.0 - self.lightest(out, w, n - k).0;
            if range.least.0 <= heaviest + before.0 {
                return false;
            }
            if range.most.0 < self.lightest(out, w, k2 + (k + 1)).0 - before.0 {
                return true;
            }
        }
        false
    }

    // It fires on n. A k' with which it does is followed by one that exceeds the lightest before it by more than the range is wide:
    // none is where these reach the range, or come that near to the heaviest.
    pub fn fires(&self, n: usize, out: usize, w: Credits, range: Range) -> bool
        requires lent { Lent self.now.upto n out w.0 }
        ensures { result ≡ fires_by (left_out self.now.upto out w.0) n range.least.0 range.most.0 }
    {
        if n == 0 || range.least.0 == 0 {
            return false;
        }
        let width = range.width().0;
        let heaviest = self.lightest(out, w, n).0 - self.lightest(out, w, n - 1).0;
        for k2 in 0..n {
            let before = self.lightest(out, w, k2).0;
            if range.least.0 <= before || heaviest <= before + width {
                return false;
            }
            let gap = self.lightest(out, w, k2 + 1).0 - before;
            if before + width < gap && self.fires_with(n, out, w, range, k2) {
                return true;
            }
        }
        false
    }
}
