// The terms as bins: whether one is over its high credits already, and the room of the largest.
ghost use Rattle.std.specs.Prelude.{◌≡◌};
ghost use Rattle.theory.specs.Tests.{any};
ghost use Rattle.packing.specs.Bins.{burst_in, room_in};

use frame::State;
use year::Credits;

// What is fixed in some term exceeds its high credits. With no early end the loop becomes vector code.
pub fn bursting(s: &State) -> bool
    ensures { result ≡ any s.now.terms (burst_in s.now.term s.now.sums) }
{
    let mut found = false;
    for k in 0..s.terms {
        found |= s.term[k].high.0 < s.sums[k].fixed.0;
    }
    found
}

// The largest high credits of a term.
pub fn room(s: &State) -> Credits
    ensures { result.0 ≡ room_in s.now.term s.now.terms }
{
    Credits(
        s.term[..s.terms]
            .iter()
            .fold(0, |most, t| t.high.0.max(most)),
    )
}
