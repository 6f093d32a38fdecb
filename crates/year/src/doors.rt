// The two doors: a year is altered by replacing one term's bounds or one course's list, with the sums that this makes, and in
// no other way.
ghost use Rattle.std.specs.Prelude.{◌≡◌, true, ◌<◌, ◌^◌};
ghost use Rattle.theory.specs.Bits.{has};
ghost use Rattle.year.specs.Year.{course_at, lists};
ghost use Rattle.year.specs.Doors.{with_term, with_list, placed, struck};
ghost use Rattle.year.specs.Sound.{Sound};

use crate::{Term, Year, pairs, summing};

// The list of term j alone.
pub fn power(j: usize) -> u16
    requires { j < 16 }
    ensures { result ≡ 2 ^ j }
{
    1u16 << j
}

// Term j is on the list.
pub fn lists(list: u16, j: usize) -> bool
    requires { j < 16 }
    ensures { result ≡ has list j }
{
    (list >> j) % 2 == 1
}

// Other bounds of term j.
pub fn bound(y: &mut Year, j: usize, t: Term)
    requires { j < 16 }
    ensures { y.new ≡ with_term y.old j t }
{
    y.term[j] = t;
}

// Another list of course i, and the sums that this makes.
// The year and its soundness come apart, here and below: no `&mut SoundYear`, since what is made is sound only if the list is a good one.
pub fn relist(y: &mut Year, i: usize, list: u16)
    requires sound { Sound y.old }
    requires course_there { i < y.old.courses }
    ensures { y.new ≡ with_list y.old i list }
{
    let c = pairs::course_of(y.weight[i], y.list[i]);
    y.sums = summing::changed(y.sums, c, list);
    y.list[i] = list;
}

// Course i in term j alone.
pub fn place(y: &mut Year, i: usize, j: usize)
    requires sound { Sound y.old }
    requires course_there { i < y.old.courses }
    requires term_there { j < 16 }
    ensures { y.new ≡ placed y.old i j }
{
    relist(y, i, power(j));
}

// Course i, which lists term j, without it.
pub fn strike(y: &mut Year, i: usize, j: usize)
    requires sound { Sound y.old }
    requires course_there { i < y.old.courses }
    requires term_there { j < 16 }
    requires listed { lists (course_at y.old i) j ≡ true }
    ensures { y.new ≡ struck y.old i j }
{
    relist(y, i, y.list[i] - power(j));
}
