// A course and a term under a verdict.
ghost use Rattle.std.specs.Prelude.{◌≡◌, true, ◌^◌, ◌≤◌, ◌<◌};
ghost use Rattle.year.specs.Year.{course_at, is_open};
ghost use Rattle.rules.specs.Step.{joined, judged};
ghost use Rattle.rules.specs.declared.Verdict.TheVariants.{Stays, Struck};
ghost use Rattle.frame.specs.State.{year_in, step_in};
ghost use Rattle.frame.specs.Verdicts.{list_after};

use crate::State;
use rules::Verdict;
use year::{doors, pairs, summing};

// A course's list after a verdict in term j.
pub fn list_after(v: Verdict, list: u16, j: usize) -> u16
    requires is_term { j < 16 }
    requires is_listed { v ≡ Struck → 2 ^ j ≤ list }
    ensures { result ≡ list_after v list j }
{
    match v {
        Verdict::Struck => list - doors::power(j),
        Verdict::Fixed => doors::power(j),
        Verdict::Stays => list,
    }
}

impl State<'_> {
    // Course i comes under a verdict in term j, where only an open course has one.
    pub fn judge(&mut self, i: usize, j: usize, v: Verdict)
        requires in_range { (i < self.old.courses) × (j < self.old.terms) }
        requires only_open { (v ≡ Stays → ⊥) → is_open (course_at (year_in self.old) i) j ≡ true }
        ensures { step_in self.new ≡ joined (step_in self.old) (judged (year_in self.old) i j v) }
    {
        if v == Verdict::Stays {
            return;
        }
        let c = pairs::course_in(self.weight, &self.list, i);
        let after = list_after(v, c.list, j);
        self.sums = summing::changed(self.sums, c, after);
        self.list[i] = after;
        self.altered = true;
    }
}
