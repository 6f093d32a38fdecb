// The calls for other languages: functions on byte slices and numbers, each with its answer packed into one number. `boundary_c` exports
// them under these names.
// A list that does not read is refused as by reading, two lists that do not join as by joining; then a buffer shorter than what is to be
// written by 9; then the call's own answer.
#![tactic(auto)]

pub mod codes;
mod into;
pub mod kinds;

ghost use Rattle.std.specs.Prelude.{◌≡◌, length};
ghost use Rattle.filter.specs.Filter.{filter_of};
ghost use Rattle.boundary.specs.Calls.{read_code, filter_code, filter_out, narrow_code, narrow_out, imbalance_code, join_code, join_out};

use filter::Filtered;
use records::Received;
use year::SoundYear;

// Reads a list.
pub fn turfsteeple_read(list: &[u8]) -> u64
    ensures { result ≡ read_code list.now }
{
    let Received { answer, .. } = records::read(list);
    match answer {
        Ok(()) => codes::DONE,
        Err(refusal) => codes::refused(refusal),
    }
}

// Filters the year of a list into a lent list.
pub fn turfsteeple_filter(list: &[u8], out: &mut [u8]) -> u64
    ensures value { result ≡ filter_code list.now (length out.old) }
    ensures out_after { out.new ≡ filter_out list.now out.old }
{
    filter_by(list, filter::filter_sound, out)
}

// The same by any filtering that gives of a sound year what the definition gives.
pub fn filter_by<F: FnOnce(SoundYear) -> Filtered>(list: &[u8], filtering: F, out: &mut [u8]) -> u64
    requires may_filter { (y : SoundYear) → F.pre filtering y }
    requires filters { (y : SoundYear) (f : Filtered) → F.post filtering y f → f ≡ filter_of y.year }
    ensures value { result ≡ filter_code list.now (length out.old) }
    ensures out_after { out.new ≡ filter_out list.now out.old }
{
    match records::read_sound(list) {
        Ok(_) if out.len() < list.len() => codes::SHORT,
        Ok(year) => into::filter_into(year, filtering, out),
        Err(refusal) => codes::refused(refusal),
    }
}

// Narrows the year of a list into a lent list.
pub fn turfsteeple_narrow(list: &[u8], kind: u32, a: u32, b: u32, out: &mut [u8]) -> u64
    ensures value { result ≡ narrow_code list.now kind a b (length out.old) }
    ensures out_after { out.new ≡ narrow_out list.now kind a b out.old }
{
    let Received { answer, year } = records::read(list);
    match answer {
        Ok(()) if out.len() < list.len() => codes::SHORT,
        Ok(()) => into::narrow_into(year, kind, a, b, out),
        Err(refusal) => codes::refused(refusal),
    }
}

// The imbalance of the year of a list.
pub fn turfsteeple_imbalance(list: &[u8]) -> u64
    ensures { result ≡ imbalance_code list.now }
{
    match records::read_sound(list) {
        Ok(year) => codes::imbalance(&year),
        Err(refusal) => codes::refused(refusal),
    }
}

// Joins a list of terms and an hours list, and writes the year into a lent list.
pub fn turfsteeple_join(terms: &[u8], hours: &[u8], out: &mut [u8]) -> u64
    ensures value { result ≡ join_code terms.now hours.now (length out.old) }
    ensures out_after { out.new ≡ join_out terms.now hours.now out.old }
{
    match hours::join_sound(terms, hours) {
        Ok(_) if out.len() < terms.len() + hours.len() => codes::SHORT,
        Ok(year) => {
            records::write_sound(&year, out);
            codes::DONE
        }
        Err(refusal) => codes::unjoined(refusal),
    }
}
