// A year filtered or narrowed into a lent list.
ghost use Rattle.std.specs.Prelude.{◌≡◌, ◌+◌, ◌*◌, ◌≤◌, length};
ghost use Rattle.filter.specs.Filter.{filter_of};
ghost use Rattle.boundary.specs.Packed.{packed, narrowing_told, answer_told};
ghost use Rattle.boundary.specs.Calls.{filter_left, narrow_of, narrow_left};

use crate::codes;
use crate::kinds::Kind;
use filter::{Answer, Filtered};
use year::{Narrowed, NarrowingRefusal, SoundYear, Year};

// Filters a year that was read into a list as long as the one that it was read from, by any filtering that gives of it what the
// definition gives.
pub fn filter_into<F: FnOnce(SoundYear) -> Filtered>(
    y: SoundYear,
    filtering: F,
    out: &mut [u8],
) -> u64
    requires room { (y.year.terms + y.year.courses) * 16 ≤ length out.old }
    requires may_filter { F.pre filtering y }
    requires filters { (f : _) → F.post filtering y f → f ≡ filter_of y.year }
    ensures value { result ≡ packed (answer_told (filter_of y.year).answer) }
    ensures out_after { out.new ≡ filter_left (filter_of y.year).answer (filter_of y.year).year out.old }
{
    let Filtered { answer, year } = filtering(y);
    match answer {
        Answer::Settled(_) | Answer::Open(_) => records::write_sound(&SoundYear { year }, out),
        Answer::NoPlan(_, _) | Answer::Unsound => {}
    }
    codes::answer(answer)
}

// Of a kind past the last there is no narrowing.
pub fn narrow_into(y: Year, kind: u32, a: u32, b: u32, out: &mut [u8]) -> u64
    ensures value { result ≡ packed (narrowing_told (narrow_of y kind a b).answer) }
    ensures out_after { out.new ≡ narrow_left (narrow_of y kind a b).answer (narrow_of y kind a b).year out.old }
{
    let Ok(kind) = Kind::try_from(kind) else {
        return codes::narrowing(Err(NarrowingRefusal::Missing));
    };
    let Narrowed { answer, year } = kind.narrow(y, a, b);
    if answer.is_ok() {
        let _ = records::write(year, out);
    }
    codes::narrowing(answer)
}
