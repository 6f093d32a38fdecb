// Answers packed into one number.
ghost use Rattle.std.specs.Prelude.{◌≡◌, ◌<◌, ◌^◌, Err, Result};
ghost use Rattle.year.specs.Imbalance.{imbalance_of};
ghost use Rattle.records.specs.Numbers.{reading_place};
ghost use Rattle.hours.specs.Numbers.{joining_place};
ghost use Rattle.boundary.specs.Packed.{told, packed, reading_told, joining_told, narrowing_told, measured_told, answer_detail, answer_told};

use filter::Answer;
use hours::JoiningRefusal;
use records::Refusal;
use year::{ImbalanceRefusal, NarrowingRefusal, SoundYear};

// The answer of a call that is done and has nothing to tell, and to a buffer that is too short.
pub const DONE: u64 = 0;

pub const SHORT: u64 = 9;

// Number, detail and value in one: a byte, a byte and 48 bits.
fn pack(number: u64, detail: u32, value: u64) -> u64
    requires { (number < 256) × (detail < 256) × (value < 2 ^ 48) }
    ensures { result ≡ packed (told number detail value) }
{
    number + u64::from(detail) * 256 + value * 65536
}

// A refused list.
pub fn refused(refusal: Refusal) -> u64
    requires { refusal.record < 4294967296 }
    ensures { result ≡ packed (reading_told (Err refusal)) }
{
    pack(
        u64::from(records::fault_number(refusal.fault)),
        0,
        refusal.record as u64,
    )
}

// Two lists that do not join.
pub fn unjoined(refusal: JoiningRefusal) -> u64
    requires { joining_place (Err refusal) < 4294967296 }
    ensures { result ≡ packed (joining_told (Err refusal)) }
{
    let (list, at_fault) = match refusal {
        JoiningRefusal::InTerms(r) => (1, r),
        JoiningRefusal::InHours(r) => (2, r),
    };
    pack(
        u64::from(records::fault_number(at_fault.fault)),
        list,
        at_fault.record as u64,
    )
}

pub fn narrowing(answer: Result<(), NarrowingRefusal>) -> u64
    ensures { result ≡ packed (narrowing_told answer) }
{
    match answer {
        Ok(()) => DONE,
        Err(NarrowingRefusal::Unsound) => 8,
        Err(NarrowingRefusal::Missing) => 10,
        Err(NarrowingRefusal::Outside) => 11,
        Err(NarrowingRefusal::Crossing) => 12,
    }
}

// Of a sound year.
pub fn imbalance(y: &SoundYear) -> u64
    ensures { result ≡ packed (measured_told (imbalance_of y.now.year)) }
{
    match totals::measure::imbalance_sound(y) {
        Ok(v) => pack(0, 0, v),
        Err(ImbalanceRefusal::Unsound) => 8,
        Err(ImbalanceRefusal::Unsettled) => 14,
    }
}

pub fn answer(a: Answer) -> u64
    requires { answer_detail a < 256 }
    ensures { result ≡ packed (answer_told a) }
{
    match a {
        Answer::Settled(n) => pack(0, 1, u64::from(n)),
        Answer::Open(n) => pack(0, 2, u64::from(n)),
        Answer::NoPlan(rule, n) => pack(13, rule.number(), u64::from(n)),
        Answer::Unsound => 8,
    }
}
