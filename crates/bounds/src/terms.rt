// Rules 1, 2, 4 and 5: a term's bounds against its own sums, and against the other terms' bounds.
ghost use Rattle.std.specs.Prelude.{◌≡◌, ℕ, ◌-◌, ◌≤◌, ◌<◌, length};
ghost use Rattle.year.specs.Sound.{TermSound};
ghost use Rattle.year.specs.Sums.{all_of};
ghost use Rattle.rules.specs.Step.{over_terms};
ghost use Rattle.frame.specs.State.{year_in, step_in, step_of};
ghost use Rattle.frame.specs.Bounds.{term_in, told};
ghost use Rattle.bounds.specs.AtTerm.{totals_to, totals_with, totals_after, own_sums_of, other_terms_of, own_rule, other_rule};

use crate::Totals;
use crate::shared::Shared;
use frame::State;
use rules::Rule;
use year::{Courses, Credits, Sums, Term, tighter};

// ---- sums of bounds

fn with_term(x: Totals, t: Term) -> Totals
    requires term_sound { TermSound t }
    requires room { (x.low.0 ≤ 1024000) × (x.high.0 ≤ 1024000) × (x.least.0 ≤ 1024) × (x.most.0 ≤ 1024) }
    ensures { result ≡ totals_with x t }
{
    Totals {
        low: Credits(x.low.0 + t.low.0),
        high: Credits(x.high.0 + t.high.0),
        least: Courses(x.least.0 + t.least.0),
        most: Courses(x.most.0 + t.most.0),
    }
}

// The sums of each bound over the terms.
fn totals(term: &[Term]) -> Totals
    requires few { length term.now ≤ 16 }
    requires terms_sound { (k : ℕ) → k < length term.now → TermSound (term_in term.now k) }
    ensures { result ≡ totals_to term.now (length term.now) }
{
    let mut x = Totals {
        low: Credits(0),
        high: Credits(0),
        least: Courses(0),
        most: Courses(0),
    };
    for t in term {
        x = with_term(x, *t);
    }
    x
}

// The sums of the bounds after those of one term were altered from t to v.
fn changed(x: Totals, t: Term, v: Term) -> Totals
    requires term_sound { TermSound v }
    requires among { (t.low.0 ≤ x.low.0) × (t.high.0 ≤ x.high.0) × (t.least.0 ≤ x.least.0) × (t.most.0 ≤ x.most.0) }
    requires room { (x.low.0 ≤ 1024000) × (x.high.0 ≤ 1024000) × (x.least.0 ≤ 1024) × (x.most.0 ≤ 1024) }
    ensures { result ≡ totals_after x t v }
{
    Totals {
        low: Credits(x.low.0 - t.low.0 + v.low.0),
        high: Credits(x.high.0 - t.high.0 + v.high.0),
        least: Courses(x.least.0 - t.least.0 + v.least.0),
        most: Courses(x.most.0 - t.most.0 + v.most.0),
    }
}

// ---- at a term

// Rule 1 for credits, rule 4 for counts.
fn own_sums<A: Shared>(t: Term, u: Sums) -> Result<Option<Term>, Rule>
    requires few { (u.placed.0 ≤ 64) × (u.free.0 ≤ 64) }
    ensures { result ≡ told (own_sums_of A.quantity t u) }
{
    frame::outcome_of(
        A::own_rule(),
        false,
        tighter::within(t, A::fixed(u), A::possible(u)),
    )
}

// Rule 2 for credits, rule 5 for counts.
fn other_terms<A: Shared>(t: Term, x: Totals, all: A) -> Result<Option<Term>, Rule>
    ensures { result ≡ told (other_terms_of A.quantity t x (A.number all)) }
{
    let all = all.number();
    let lows = A::lows(x).saturating_sub(A::low(t).number());
    let highs = A::highs(x).saturating_sub(A::high(t).number());
    let low = A::of(all.saturating_sub(highs));
    let high = A::of(all.saturating_sub(lows));
    frame::outcome_of(A::other_rule(), all < lows, tighter::within(t, low, high))
}

// ---- over the terms

// Rule 1 or 4.
pub fn over_own_sums<A: Shared>(s: &mut State) -> Result<(), Rule>
    ensures { step_of s.new result ≡ over_terms (own_rule A.quantity) (step_in s.old) }
{
    for j in 0..s.terms {
        let outcome = own_sums::<A>(s.term[j], s.sums[j]);
        s.tighten(j, outcome)?;
    }
    Ok(())
}

// Rule 2 or 5. The sums over all terms are kept up to date from term to term.
pub fn over_other_terms<A: Shared>(s: &mut State, all: A) -> Result<(), Rule>
    requires all_value { A.number all ≡ all_of A.quantity (year_in s.old) }
    ensures { step_of s.new result ≡ over_terms (other_rule A.quantity) (step_in s.old) }
{
    let m = s.terms;
    let mut x = totals(&s.term[..m]);
    for j in 0..m {
        let t = s.term[j];
        let outcome = other_terms(t, x, all);
        s.tighten(j, outcome)?;
        x = changed(x, t, s.term[j]);
    }
    Ok(())
}
