// For measuring alone: the call of `tested` under its own name as C calls it, with the very same clauses.
#![tactic(auto)]

ghost use Rattle.std.specs.Prelude.{◌≡◌, length};
ghost use Rattle.boundary.specs.Calls.{filter_code, filter_out};

// As `turfsteeple_filter`: filters the year of a list into a lent list.
#[unsafe(no_mangle)]
pub extern "C" fn tested_filter(list: &[u8], out: &mut [u8]) -> u64
    ensures value { result ≡ filter_code list.now (length out.old) }
    ensures out_after { out.new ≡ filter_out list.now out.old }
{
    tested::tested_filter(list, out)
}
