// The weight of the heaviest course that is open in each term. Lists only shrink, so it bounds the open courses of every later
// year as well.
ghost use Rattle.std.specs.Prelude.{◌≡◌, ◌<◌, max};
ghost use Rattle.theory.specs.Sum.{pick};
ghost use Rattle.theory.specs.Tab.{tab};
ghost use Rattle.year.specs.Year.{is_open};
ghost use Rattle.frame.specs.State.{year_in};
ghost use Rattle.lists.specs.Heaviest.{heaviest_with, heaviest_at};

use frame::State;
use year::{Course, Credits, Year, pairs};

// The weight at hand, or the course's if that is open in term k and heavier.
fn heavier(heaviest: Credits, c: Course, k: usize) -> Credits
    requires { k < 16 }
    ensures { result.0 ≡ max heaviest.0 (pick (is_open c k) c.weight.0) }
{
    let weight = if pairs::is_open(c, k) { c.weight.0 } else { 0 };
    Credits(heaviest.0.max(weight))
}

// All sixteen weights, with one course more.
fn add_course(heaviest: &mut [Credits; Year::TERMS], c: Course)
    ensures { heaviest.new ≡ tab 16 (heaviest_with heaviest.old c) }
{
    for k in 0..Year::TERMS {
        heaviest[k] = heavier(heaviest[k], c, k);
    }
}

// All sixteen, over the courses of the year.
pub fn heaviest(s: &State) -> [Credits; Year::TERMS]
    ensures { result ≡ tab 16 (heaviest_at (year_in s.now)) }
{
    let mut heaviest = [Credits(0); Year::TERMS];
    for i in 0..s.courses {
        add_course(&mut heaviest, pairs::course_in(s.weight, &s.list, i));
    }
    heaviest
}
