// What a narrowing is refused by before it is tried, in the order of the numbers.
ghost use Rattle.std.specs.Prelude.{◌≡◌, false};
ghost use Rattle.year.specs.Narrow.{answered, checked, no_such};

use crate::{NarrowingRefusal, Year};

// By 8, by 10 where the year lacks what it names, by 11 where its bound is outside the sizes.
pub fn checked(y: &Year, missing: bool, outside: bool) -> Result<(), NarrowingRefusal>
    ensures { result ≡ (checked y.now missing outside (answered (Ok tt) y.now)).answer }
{
    if !y.is_sound() {
        return Err(NarrowingRefusal::Unsound);
    }
    if missing {
        return Err(NarrowingRefusal::Missing);
    }
    if outside {
        return Err(NarrowingRefusal::Outside);
    }
    Ok(())
}

// By 8, or by 10 where the year lacks course i or term j.
pub fn named(y: &Year, i: usize, j: usize) -> Result<(), NarrowingRefusal>
    ensures { result ≡ (checked y.now (no_such y.now i j) false (answered (Ok tt) y.now)).answer }
{
    checked(y, y.courses <= i || y.terms <= j, false)
}
