// Sizes: the weight of each course with several terms, and for each term what of the room c is not free there.
// What they count for at t, and the most that they count for at any t. Arrays of sizes are numbers, since they are lent.
ghost use Rattle.std.specs.Prelude.{◌≡◌, ℕ, ◌≤◌, ◌<◌, length, get_or};
ghost use Rattle.theory.specs.Packing.{share};
ghost use Rattle.theory.specs.Sum.{sum};
ghost use Rattle.theory.specs.Tab.{tab};
ghost use Rattle.packing.specs.Sizes.{size_of, size_in, used_in, first_of, size_at, capped, share_sum, cap_sum};

use frame::State;
use year::{Course, Credits, Year, pairs};

// The weight of a course with several terms.
fn course_size(c: Course) -> Credits
    ensures { result.0 ≡ size_of c }
{
    if totals::is_placed(c) {
        return Credits(0);
    }
    c.weight
}

// The sizes of the courses; 0 past the last.
pub fn course_sizes(s: &State) -> [u32; Year::COURSES]
    ensures { result ≡ tab 64 (first_of s.now.courses (size_in s.now.weight.now s.now.list)) }
{
    let mut r = [0u32; Year::COURSES];
    for i in 0..s.courses {
        r[i] = course_size(pairs::course_in(s.weight, &s.list, i)).0;
    }
    r
}

// The sizes of the terms with room c; 0 past the last.
pub fn term_sizes(s: &State, c: Credits) -> [u32; Year::TERMS]
    ensures { result ≡ tab 16 (first_of s.now.terms (used_in s.now.term s.now.sums c.0)) }
{
    let mut r = [0u32; Year::TERMS];
    for k in 0..s.terms {
        let free = s.term[k].high.0.saturating_sub(s.sums[k].fixed.0);
        r[k] = c.0.saturating_sub(free);
    }
    r
}

// What a size counts for at t: all of c above c - t, nothing below t, itself between.
fn share(c: Credits, t: Credits, x: Credits) -> Credits
    requires { t.0 ≤ c.0 }
    ensures { (result.0 ≡ share c.0 t.0 x.0) × (result.0 ≤ c.0) }
{
    if c.0 - t.0 < x.0 {
        return c;
    }
    if x.0 < t.0 {
        return Credits(0);
    }
    x
}

// The most that a size counts for at any t up to half of c.
fn capped(c: Credits, x: Credits) -> Credits
    ensures { (result.0 ≡ capped c.0 x.0) × (result.0 ≤ c.0) }
{
    if c.0 / 2 < x.0 { c } else { x }
}

// What the sizes count for together, by what one size counts for: each answer at size i is the number f i, and at most 64,000.
fn sum_by<F: Fn(Credits) -> Credits>(sizes: &[u32], count: F) -> Credits
    requires few { length sizes.now ≤ 64 }
    requires counted { F.IsAlwaysCallable count }
    requires light { (i : ℕ) (x r : Credits) → i < length sizes.now → x.0 ≡ get_or sizes.now i 0 → F.post count x r → r.0 ≤ 64000 }
    ensures small { result.0 ≤ 4096000 }
    ensures is { (f : ℕ → ℕ)
        → ((i : ℕ) (x r : Credits) → i < length sizes.now → x.0 ≡ get_or sizes.now i 0 → F.post count x r → r.0 ≡ f i)
        → result.0 ≡ sum (length sizes.now) f }
{
    let mut sum = Credits(0);
    for size in sizes {
        sum.0 += count(Credits(*size)).0;
    }
    sum
}

// What all sizes count for at t.
pub fn share_sum(x: &[u32], c: Credits, t: Credits) -> Credits
    requires { (length x.now ≤ 64) × (c.0 ≤ 64000) × (t.0 ≤ c.0) }
    ensures { (result.0 ≡ share_sum x.now c.0 t.0) × (result.0 ≤ 4096000) }
{
    sum_by(x, |size| share(c, t, size))
}

// The most that all sizes count for at any t up to half of c.
pub fn cap_sum(x: &[u32], c: Credits) -> Credits
    requires { (length x.now ≤ 64) × (c.0 ≤ 64000) }
    ensures { (result.0 ≡ cap_sum x.now c.0) × (result.0 ≤ 4096000) }
{
    sum_by(x, |size| capped(c, size))
}

// All sizes together.
pub fn total(x: &[u32]) -> Credits
    requires few { length x.now ≤ 64 }
    requires light { (i : ℕ) → i < length x.now → get_or x.now i 0 ≤ 1000 }
    ensures { (result.0 ≡ sum (length x.now) (size_at x.now)) × (result.0 ≤ 64000) }
{
    sum_by(x, |size| size)
}
