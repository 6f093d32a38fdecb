// The imbalance of a settled year.
ghost use Rattle.std.specs.Prelude.{◌≡◌, ◌*◌, ◌-◌, ◌≤◌};
ghost use Rattle.theory.specs.Tests.{all};
ghost use Rattle.theory.specs.Sum.{sum};
ghost use Rattle.theory.specs.Pairs.{square};
ghost use Rattle.year.specs.Sums.{fixed_credits};
ghost use Rattle.year.specs.Imbalance.{fits, fits_at, imbalance_of};

use year::{Credits, ImbalanceRefusal, SoundYear, Sums, Term, Year};

// The sums are within the term's bounds.
fn fits(t: Term, s: Sums) -> bool
    ensures { result ≡ fits t s.fixed.0 s.placed.0 }
{
    (t.low.0 <= s.fixed.0)
        & (s.fixed.0 <= t.high.0)
        & (t.least.0 <= s.placed.0)
        & (s.placed.0 <= t.most.0)
}

// What is fixed in each term is within its bounds.
fn all_fit(y: &SoundYear) -> bool
    ensures { result ≡ all y.now.year.terms (fits_at y.now.year) }
{
    let mut good = true;
    for k in 0..y.year.terms {
        good = good & fits(y.year.term[k], y.year.sums[k]);
    }
    good
}

// The credits of some terms: of all together, and the sum of their squares.
#[derive(Clone, Copy)]
struct Loads {
    all: Credits,
    squares: u64,
}

// What is fixed in the terms of a year.
fn loads_of(y: &SoundYear) -> Loads
    ensures all { result.all.0 ≡ sum y.now.year.terms (fixed_credits y.now.year) }
    ensures squares { result.squares ≡ sum y.now.year.terms (λ k. square (fixed_credits y.now.year k)) }
{
    let mut all = Credits(0);
    let mut squares: u64 = 0;
    for k in 0..y.year.terms {
        let x = y.year.sums[k].fixed.0;
        all.0 += x;
        let wide = u64::from(x);
        squares += wide * wide;
    }
    Loads { all, squares }
}

// Terms times the sum of squared term credits, less the square of all credits.
fn difference(terms: usize, l: Loads) -> u64
    requires { (terms ≤ 16) × (l.all.0 ≤ 64000) × (l.squares ≤ square l.all.0) × (square l.all.0 ≤ terms * l.squares) }
    ensures { result ≡ terms * l.squares - square l.all.0 }
{
    let all = u64::from(l.all.0);
    terms as u64 * l.squares - all * all
}

// The imbalance of a sound year as it stands.
#[tactic(auto, using(year::proofs::ImbalanceLaws::imbalance_open, year::proofs::ImbalanceLaws::imbalance_unfit))]
pub fn imbalance_sound(y: &SoundYear) -> Result<u64, ImbalanceRefusal>
    ensures { result ≡ imbalance_of y.now.year }
{
    if !crate::all_placed(y) || !all_fit(y) {
        return Err(ImbalanceRefusal::Unsettled);
    }
    Ok(difference(y.year.terms, loads_of(y)))
}

// The imbalance of the year as it stands.
pub fn imbalance(y: Year) -> Result<u64, ImbalanceRefusal>
    ensures { result ≡ imbalance_of y }
{
    let Some(y) = y.sound() else {
        return Err(ImbalanceRefusal::Unsound);
    };
    imbalance_sound(&y)
}
