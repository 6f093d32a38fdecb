// The archive for other languages: each call of `boundary` under its own name as C calls it, with the very same clauses. A crate is a
// library or a static library, not both, and `tested` and `promises` stand on the library.
#![tactic(auto)]

ghost use Rattle.std.specs.Prelude.{◌≡◌, length};
ghost use Rattle.boundary.specs.Calls.{read_code, filter_code, filter_out, narrow_code, narrow_out, imbalance_code, join_code, join_out};

// Reads a list.
#[unsafe(no_mangle)]
pub extern "C" fn turfsteeple_read(list: &[u8]) -> u64
    ensures { result ≡ read_code list.now }
{
    boundary::turfsteeple_read(list)
}

// Filters the year of a list into a lent list.
#[unsafe(no_mangle)]
pub extern "C" fn turfsteeple_filter(list: &[u8], out: &mut [u8]) -> u64
    ensures value { result ≡ filter_code list.now (length out.old) }
    ensures out_after { out.new ≡ filter_out list.now out.old }
{
    boundary::turfsteeple_filter(list, out)
}

// Narrows the year of a list into a lent list.
#[unsafe(no_mangle)]
pub extern "C" fn turfsteeple_narrow(list: &[u8], kind: u32, a: u32, b: u32, out: &mut [u8]) -> u64
    ensures value { result ≡ narrow_code list.now kind a b (length out.old) }
    ensures out_after { out.new ≡ narrow_out list.now kind a b out.old }
{
    boundary::turfsteeple_narrow(list, kind, a, b, out)
}

// The imbalance of the year of a list.
#[unsafe(no_mangle)]
pub extern "C" fn turfsteeple_imbalance(list: &[u8]) -> u64
    ensures { result ≡ imbalance_code list.now }
{
    boundary::turfsteeple_imbalance(list)
}

// Joins a list of terms and an hours list, and writes the year into a lent list.
#[unsafe(no_mangle)]
pub extern "C" fn turfsteeple_join(terms: &[u8], hours: &[u8], out: &mut [u8]) -> u64
    ensures value { result ≡ join_code terms.now hours.now (length out.old) }
    ensures out_after { out.new ≡ join_out terms.now hours.now out.old }
{
    boundary::turfsteeple_join(terms, hours, out)
}
