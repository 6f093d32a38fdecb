// Years as records of 16 bytes: any byte string is read, or refused at its first fault; a sound year is written into a lent buffer.
#![tactic(auto)]

mod blocks;
pub mod bytes;
pub mod entries;

ghost use Rattle.std.specs.Prelude.{◌≡◌, ℕ, ◌+◌, ◌*◌, ◌^◌, ◌≤◌, ◌<◌, length, get_or};
ghost use Rattle.year.specs.Doors.{with_sums};
ghost use Rattle.year.specs.SoundYear.{answer_inside};
ghost use Rattle.records.specs.Numbers.{fault_number};
ghost use Rattle.records.specs.Reading.{blank_year, add_term, add_course, refusal, bad_length, read_list, received};
ghost use Rattle.records.specs.Writing.{write_answer, written};

use year::{Course, SoundYear, Term, Year, summing};

// What is wrong with a byte string: the paper's refusals 1 to 7.
#[derive(Clone, Copy, PartialEq, Eq)]
pub enum Fault {
    Length,
    Letter,
    Number,
    Size,
    Order,
    List,
    Padding,
}

// Why a list was refused: its first fault, with its record's place.
#[derive(Clone, Copy, PartialEq, Eq)]
pub struct Refusal {
    pub fault: Fault,
    pub record: usize,
}

// What a reading hands back: the answer, and the year, which beside a refusal is the one of one term, all bounds 0, no course.
#[derive(Clone, Copy)]
pub struct Received {
    pub answer: Result<(), Refusal>,
    pub year: Year,
}

// Why a year was not written: refusals 8 and 9.
#[derive(Clone, Copy, PartialEq, Eq)]
pub enum WritingRefusal {
    Unsound,
    Short,
}

impl Fault {
    // A list whose record k has the fault.
    pub fn at(self, k: usize) -> Refusal
        ensures { result ≡ refusal self k }
    {
        Refusal {
            fault: self,
            record: k,
        }
    }
}

// The bytes of a record, and of the longest list: that of the largest year.
pub const RECORD: usize = 16;

pub const LONGEST: usize = (Year::TERMS + Year::COURSES) * RECORD;

// The letters that records start with, "T" and "C".
pub const TERM_LETTER: u8 = 84;

pub const COURSE_LETTER: u8 = 67;

// The paper's number of a fault.
pub fn fault_number(f: Fault) -> u32
    ensures number { result ≡ fault_number f }
    ensures fits_a_byte { result < 256 }
{
    match f {
        Fault::Length => 1,
        Fault::Letter => 2,
        Fault::Number => 3,
        Fault::Size => 4,
        Fault::Order => 5,
        Fault::List => 6,
        Fault::Padding => 7,
    }
}

// The year before its first record.
pub fn blank() -> Year
    ensures { result ≡ blank_year }
{
    Year {
        terms: 0,
        ..Year::empty()
    }
}

// One term more, and one course more.
pub fn add_term(y: &mut Year, t: Term)
    requires room { y.old.terms < 16 }
    ensures { y.new ≡ add_term y.old t }
{
    y.term[y.terms] = t;
    y.terms += 1;
}

pub fn add_course(y: &mut Year, c: Course)
    requires room { y.old.courses < 64 }
    ensures { y.new ≡ add_course y.old c }
{
    y.weight[y.courses] = c.weight.0;
    y.list[y.courses] = c.list;
    y.courses += 1;
}

// The year with the sums over its lists.
pub fn sum_up(y: &mut Year)
    requires sizes { (y.old.terms ≤ 16) × (y.old.courses ≤ 64) }
    requires each_course { (i : ℕ) → i < y.old.courses
        → (get_or y.old.weight i 0 ≤ 1000) × (get_or y.old.list i 0 < 2 ^ y.old.terms) }
    ensures { y.new ≡ with_sums y.old }
{
    y.sums = summing::sums_over(&y.weight[..y.courses], &y.list[..y.courses], y.terms);
}

pub fn bad_length(n: usize) -> bool
    ensures { result ≡ bad_length n }
{
    n == 0 || LONGEST < n || n % RECORD != 0
}

// Reads a year from any byte string. Terms come first, and one at least; courses are asked for first, since a list has more of them.
pub fn read_sound(list: &[u8]) -> Result<SoundYear, Refusal>
    ensures { answer_inside result ≡ read_list list.now }
{
    if bad_length(list.len()) {
        return Err(Fault::Length.at(0));
    }
    let mut y = blank();
    for k in 0..list.len() / RECORD {
        let at = k * RECORD;
        if list[at] == COURSE_LETTER && 1 <= y.terms {
            let c = entries::read_course(list, at, y.courses, y.terms).map_err(|f| f.at(k))?;
            add_course(&mut y, c);
        } else if list[at] == TERM_LETTER && y.courses == 0 {
            let t = entries::read_term(list, at, y.terms).map_err(|f| f.at(k))?;
            add_term(&mut y, t);
        } else {
            return Err(Fault::Letter.at(k));
        }
    }
    sum_up(&mut y);
    Ok(SoundYear { year: y })
}

// The same with a plain year, which is there beside a refusal too.
pub fn read(list: &[u8]) -> Received
    ensures { result ≡ received (read_list list.now) }
{
    match read_sound(list) {
        Ok(read) => Received {
            answer: Ok(()),
            year: read.year,
        },
        Err(refusal) => Received {
            answer: Err(refusal),
            year: Year::empty(),
        },
    }
}

// Writes the records of a year that is known to be sound into the front of a buffer that is known to have room for them.
pub fn write_sound(y: &SoundYear, buf: &mut [u8])
    requires room { (y.now.year.terms + y.now.year.courses) * 16 ≤ length buf.old }
    ensures { buf.new ≡ written y.now.year buf.old }
{
    blocks::put_terms(y, buf);
    blocks::put_courses(y, buf);
}

// Writes the records of a sound year into the front of a buffer that has room for them.
pub fn write(y: Year, buf: &mut [u8]) -> Result<(), WritingRefusal>
    ensures answer { result ≡ write_answer y (length buf.old) }
    ensures buf_after { buf.new ≡ written y buf.old }
{
    let Some(y) = y.sound() else {
        return Err(WritingRefusal::Unsound);
    };
    if buf.len() < (y.year.terms + y.year.courses) * RECORD {
        return Err(WritingRefusal::Short);
    }
    write_sound(&y, buf);
    Ok(())
}
