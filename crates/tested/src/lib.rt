// For measuring alone: a filtering as a Rattle program asks for it, its year tested for soundness first, as a call of the boundary.
// `tested_c` exports it.
#![tactic(auto)]

ghost use Rattle.std.specs.Prelude.{◌≡◌, length};
ghost use Rattle.boundary.specs.Calls.{filter_code, filter_out};

// As `turfsteeple_filter`: filters the year of a list into a lent list.
pub fn tested_filter(list: &[u8], out: &mut [u8]) -> u64
    ensures value { result ≡ filter_code list.now (length out.old) }
    ensures out_after { out.new ≡ filter_out list.now out.old }
{
    boundary::filter_by(list, |y| filter::filter(y.year), out)
}
