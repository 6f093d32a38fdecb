// The two lists, record by record up to the first fault.
ghost use Rattle.std.specs.Prelude.{◌≡◌};
ghost use Rattle.year.specs.SoundYear.{answer_inside};
ghost use Rattle.hours.specs.Joining.{term_list, bad_hours, hours_list};

use crate::{LONGEST, entries};
use records::{Fault, RECORD, Refusal};
use year::SoundYear;

// The terms of a list that may hold nothing else.
pub fn read_terms(s: &[u8]) -> Result<SoundYear, Refusal>
    ensures { answer_inside result ≡ term_list s.now }
{
    if records::bad_length(s.len()) {
        return Err(Fault::Length.at(0));
    }
    let mut y = records::blank();
    for k in 0..s.len() / RECORD {
        let t = entries::term_alone(s, k * RECORD, y.terms).map_err(|f| f.at(k))?;
        records::add_term(&mut y, t);
    }
    Ok(SoundYear { year: y })
}

fn bad_hours(n: usize) -> bool
    ensures { result ≡ bad_hours n }
{
    LONGEST < n || n % RECORD != 0
}

// A year of terms alone, with a course more for each record of an hours list.
pub fn read_hours(front: SoundYear, s: &[u8]) -> Result<SoundYear, Refusal>
    requires no_course { front.year.courses ≡ 0 }
    ensures { answer_inside result ≡ hours_list front.year s.now }
{
    if bad_hours(s.len()) {
        return Err(Fault::Length.at(0));
    }
    let mut z = front.year;
    for k in 0..s.len() / RECORD {
        let c = entries::hours_record(s, k * RECORD, z.courses, z.terms).map_err(|f| f.at(k))?;
        records::add_course(&mut z, c);
    }
    records::sum_up(&mut z);
    Ok(SoundYear { year: z })
}
