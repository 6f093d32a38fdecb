// The sums of sixteen terms: over the courses of two columns, and after the list of one course has changed.
ghost use Rattle.std.specs.Prelude.{◌≡◌, ℕ, ◌≤◌, ◌<◌, ◌^◌, length, get_or};
ghost use Rattle.theory.specs.Choice.{choose};
ghost use Rattle.theory.specs.Tab.{tab};
ghost use Rattle.year.specs.Sums.{no_sums, sums_in};
ghost use Rattle.year.specs.SumsOf.{sums_to, part_of, Within, sums_moved, changed_at};

use crate::{Course, Courses, Credits, Sums, Year, doors, pairs};

// The first where the test passes, the second where it fails: a loop that chooses by this call has no branch.
fn choose<T: Copy>(test: bool, a: T, b: T) -> T
    ensures { result ≡ choose test a b }
{
    if test { a } else { b }
}

// ---- all courses

// Credits while they are added up: those of a whole year fit sixteen bits, of which a vector holds twice as many.
#[derive(Clone, Copy)]
struct ShortCredits(u16);

// Courses while they are added up.
#[derive(Clone, Copy)]
struct ShortCourses(u16);

// The sums of term j over the courses of two columns, as many as there are weights, with no branch in the loop.
fn sums_in(weight: &[u32], list: &[u16], j: usize) -> Sums
    requires few { length weight.now ≤ 64 }
    requires lists_there { length weight.now ≤ length list.now }
    requires term_there { j < 16 }
    requires light { (i : ℕ) → i < length weight.now → get_or weight.now i 0 ≤ 1000 }
    ensures { result ≡ sums_to weight.now list.now (length weight.now) j }
{
    let alone = doors::power(j);
    let mut fixed = ShortCredits(0);
    let mut possible = ShortCredits(0);
    let mut placed = ShortCourses(0);
    let mut listed = ShortCourses(0);
    for i in 0..weight.len() {
        let w = weight[i] as u16;
        let l = list[i];
        let lists = doors::lists(l, j);
        fixed.0 += choose(l == alone, w, 0);
        possible.0 += choose(lists, w, 0);
        placed.0 += u16::from(l == alone);
        listed.0 += u16::from(lists);
    }
    Sums {
        fixed: Credits(u32::from(fixed.0)),
        possible: Credits(u32::from(possible.0)),
        placed: Courses(u32::from(placed.0)),
        free: Courses(u32::from(listed.0 - placed.0)),
    }
}

// The sums of sixteen entries over the courses of two columns, as many as there are weights, which list none but the first m terms:
// those of the others are 0.
pub fn sums_over(weight: &[u32], list: &[u16], m: usize) -> [Sums; Year::TERMS]
    requires few { length weight.now ≤ 64 }
    requires lists_there { length weight.now ≤ length list.now }
    requires terms_there { m ≤ 16 }
    requires courses_sized { (i : ℕ) → i < length weight.now → (get_or weight.now i 0 ≤ 1000) × (get_or list.now i 0 < 2 ^ m) }
    ensures { result ≡ tab 16 (sums_to weight.now list.now (length weight.now)) }
{
    let mut s = [Sums::default(); Year::TERMS];
    for j in 0..m {
        s[j] = sums_in(weight, list, j);
    }
    s
}

// ---- one list changed

// What a course adds to the sums of term k.
fn part_of(c: Course, k: usize) -> Sums
    requires { k < 16 }
    ensures { result ≡ part_of c k }
{
    let fixed = pairs::is_fixed(c, k);
    let lists = doors::lists(c.list, k);
    Sums {
        fixed: choose(fixed, c.weight, Credits(0)),
        possible: choose(lists, c.weight, Credits(0)),
        placed: Courses(u32::from(fixed)),
        free: Courses(u32::from(lists & !fixed)),
    }
}

// The sums of a term, with what a course adds in the place of what it added.
fn moved(s: Sums, goes: Sums, comes: Sums) -> Sums
    requires goes_within { Within s goes }
    requires comes_small { (comes.fixed.0 ≤ 1000) × (comes.possible.0 ≤ 1000) × (comes.placed.0 ≤ 1) × (comes.free.0 ≤ 1) }
    ensures { result ≡ sums_moved s goes comes }
{
    Sums {
        fixed: Credits(s.fixed.0 + comes.fixed.0 - goes.fixed.0),
        possible: Credits(s.possible.0 + comes.possible.0 - goes.possible.0),
        placed: Courses(s.placed.0 + comes.placed.0 - goes.placed.0),
        free: Courses(s.free.0 + comes.free.0 - goes.free.0),
    }
}

// The one place that alters sums: the list of course c has become another, and the sums of the terms that it had or has are
// altered by its weight and by one. All sixteen go the same way, with no branch.
pub fn changed(s: [Sums; Year::TERMS], c: Course, list: u16) -> [Sums; Year::TERMS]
    requires light { c.weight.0 ≤ 1000 }
    requires counted { (k : ℕ) → k < 16 → Within (sums_in s k) (part_of c k) }
    ensures { result ≡ tab 16 (changed_at s c list) }
{
    let d = pairs::course_of(c.weight.0, list);
    let mut r = s;
    for k in 0..Year::TERMS {
        r[k] = moved(s[k], part_of(c, k), part_of(d, k));
    }
    r
}
