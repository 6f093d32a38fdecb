// What each other term can still spare, in an array of sixteen: set up, asked and charged. In bytes, so that all sixteen go through a step at once.
ghost use Rattle.std.specs.Prelude.{◌≡◌, ℕ, ◌-◌, ◌≤◌, ◌<◌};
ghost use Rattle.theory.specs.Tests.{any};
ghost use Rattle.theory.specs.Tab.{tab};
ghost use Rattle.year.specs.Sound.{TermSound};
ghost use Rattle.frame.specs.Bounds.{term_in, least_in};
ghost use Rattle.year.specs.Sums.{sums_in};
ghost use Rattle.walks.specs.Sparing.{tallies_of, spare_from, stuck, charged_at};

use crate::Tallies;
use year::{Sums, Term, Year};

pub fn tallies_of(sums: &[Sums; Year::TERMS]) -> Tallies
    requires { (k : ℕ) → k < 16 → ((sums_in sums.now k).placed.0 ≤ 64) × ((sums_in sums.now k).free.0 ≤ 64) }
    ensures { result ≡ tallies_of sums.now }
{
    let mut free = [0u8; Year::TERMS];
    let mut placed = [0u8; Year::TERMS];
    for k in 0..Year::TERMS {
        free[k] = sums[k].free.0 as u8;
        placed[k] = sums[k].placed.0 as u8;
    }
    Tallies { free, placed }
}

pub fn low_counts(term: &[Term; Year::TERMS]) -> [u8; Year::TERMS]
    requires { (k : ℕ) → k < 16 → TermSound (term_in term.now k) }
    ensures { result ≡ tab 16 (least_in term.now) }
{
    let mut s = [0u8; Year::TERMS];
    for k in 0..Year::TERMS {
        s[k] = term[k].least.0 as u8;
    }
    s
}

// The open courses of each term less those that its low count still needs.
pub fn spares(tallies: Tallies, least: [u8; Year::TERMS]) -> [u8; Year::TERMS]
    ensures { result ≡ tab 16 (spare_from tallies least) }
{
    let mut s = [0u8; Year::TERMS];
    for k in 0..Year::TERMS {
        s[k] = tallies.free[k].saturating_sub(least[k].saturating_sub(tallies.placed[k]));
    }
    s
}

// Some term on the list has nothing to spare.
pub fn blocked(spare: [u8; Year::TERMS], list: u16) -> bool
    ensures { result ≡ any 16 (stuck spare list) }
{
    let mut found = false;
    for k in 0..Year::TERMS {
        found = found | (((list >> k) % 2 == 1) & (spare[k] == 0));
    }
    found
}

// One is taken from the spare of each term on the list.
pub fn charged(spare: [u8; Year::TERMS], list: u16) -> [u8; Year::TERMS]
    ensures { result ≡ tab 16 (charged_at spare list) }
{
    let mut s = [0u8; Year::TERMS];
    for k in 0..Year::TERMS {
        s[k] = spare[k].saturating_sub(((list >> k) % 2) as u8);
    }
    s
}
