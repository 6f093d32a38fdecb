// The open courses of a term, gathered in the order from lightest to heaviest.
ghost use Rattle.std.specs.Prelude.{◌≡◌, true, false, ℕ, ◌+◌, ◌-◌, ◌≤◌, ◌<◌};
ghost use Rattle.rules.specs.Spares.{up};
ghost use Rattle.frame.specs.State.{year_in};
ghost use Rattle.neighbours.specs.Lightest.{Calm};
ghost use Rattle.neighbours.specs.Opened.{at, open_in, Ordered};
ghost use Rattle.neighbours.specs.Verdicts.{Gathered};

use crate::{Opened, Range};
use frame::State;
use year::{Year, pairs};

// How many places there are up to the last that holds an open course of term j, and with it the heaviest.
pub fn last_open(s: &State, order: &[u8], j: usize) -> usize
    requires ordered { Ordered s.now.weight.now s.now.list order.now s.now.courses }
    requires is_term { j < 16 }
    ensures within { result ≤ s.now.courses }
    ensures none_behind { (t : ℕ) → result ≤ t → t < s.now.courses → open_in s.now.weight.now s.now.list j (at order.now t) ≡ false }
{
    for k in (0..s.courses).rev() {
        let i = order[k] as usize;
        if pairs::is_open(pairs::course_in(s.weight, &s.list, i), j) {
            return k + 1;
        }
    }
    0
}

impl Opened {
    // The open courses of term j. What is stored for a course that is not open is stored over by the next.
    pub fn gathered(s: &State, rising: &[u8], j: usize) -> Opened
        requires from_lightest { rising.now ≡ up (year_in s.now) }
        requires is_term { j < 16 }
        ensures { Gathered (year_in s.now) j result }
    {
        let mut r = Opened {
            count: 0,
            upto: [0; 65],
            place: [0u8; Year::COURSES],
        };
        for course in &rising[..s.courses] {
            let i = *course as usize;
            let c = r.count;
            r.upto[c + 1] = r.upto[c] + s.weight[i];
            r.place[i] = c as u8;
            r.count = c + usize::from(pairs::is_open(pairs::course_in(s.weight, &s.list, i), j));
        }
        r
    }

    // Rule 12 says nothing of any of them in the range.
    pub fn is_calm(&self, range: Range) -> bool
        ensures { result ≡ true → Calm (at self.now.upto) self.now.count (range.most.0 - range.least.0 + 1) range.most.0 }
    {
        let n = self.count;
        if n == 0 {
            return true;
        }
        let width = range.width().0;
        let heaviest = self.upto[n] - self.upto[n - 1];
        if range.most.0 < heaviest || width < self.upto[1] {
            return false;
        }
        for t in 1..n {
            let bar = width + self.upto[t - 1];
            if heaviest <= bar {
                return true;
            }
            if bar < self.upto[t + 1] - self.upto[t] {
                return false;
            }
        }
        true
    }
}
