// One record: the term or course that it holds, or the first of its faults in the paper's order. A good one is known by one test.
// Its conditions are joined by `&` and `|`, as the definition has them: with `||` the proof has a case for each.
ghost use Rattle.std.specs.Prelude.{◌≡◌, ◌+◌, ◌≤◌, ◌<◌, length};
ghost use Rattle.records.specs.Reading.{bears_next, term_by_itself, course_by, course_by_itself, term_record, course_record};

use crate::{Fault, bytes};
use year::{Course, Courses, Credits, Term, Year};

// The record at `at` bears the next number of its kind, of which the largest year has `most`.
pub fn bears_next(s: &[u8], at: usize, next: usize, most: usize) -> bool
    requires { at + 16 ≤ length s.now }
    ensures { result ≡ bears_next s.now at next most }
{
    usize::from(s[at + 1]) == next && next < most
}

// The record at `at` as a term's, its letter and its number set aside.
pub fn term_by_itself(s: &[u8], at: usize) -> Result<Term, Fault>
    requires { at + 16 ≤ length s.now }
    ensures { result ≡ term_by_itself s.now at }
{
    let credits = Year::CREDITS;
    let count = Year::COUNT;
    let low = bytes::word(s, at, 2);
    let high = bytes::word(s, at, 4);
    let least = bytes::word(s, at, 6);
    let most = bytes::word(s, at, 8);
    let outside = (credits.0 < low) | (credits.0 < high) | (count.0 < least) | (count.0 < most);
    let crossed = (high < low) | (most < least);
    if bytes::blank_from(s, at, 10) & !outside & !crossed {
        return Ok(Term {
            low: Credits(low),
            high: Credits(high),
            least: Courses(least),
            most: Courses(most),
        });
    }
    if outside {
        return Err(Fault::Size);
    }
    if crossed {
        return Err(Fault::Order);
    }
    Err(Fault::Padding)
}

// A course of a weight and a list, in a year of that many terms, from a record whose other bytes are zero or not.
pub fn course_by(weight: Credits, list: u32, zeros: bool, terms: usize) -> Result<Course, Fault>
    requires list_bound { list < 65536 }
    requires terms_bound { terms ≤ 16 }
    ensures { result ≡ course_by weight.0 list zeros terms }
{
    let heaviest = Year::WEIGHT;
    let outside = (weight.0 < 1) | (heaviest.0 < weight.0);
    let unlisted = (list == 0) | (list >> terms != 0);
    if zeros & !outside & !unlisted {
        return Ok(Course {
            weight,
            list: list as u16,
        });
    }
    if outside {
        return Err(Fault::Size);
    }
    if unlisted {
        return Err(Fault::List);
    }
    Err(Fault::Padding)
}

// The record at `at` as a course's, its letter and its number set aside, in a year of that many terms.
pub fn course_by_itself(s: &[u8], at: usize, terms: usize) -> Result<Course, Fault>
    requires at_in_bounds { at + 16 ≤ length s.now }
    requires terms_bound { terms ≤ 16 }
    ensures { result ≡ course_by_itself s.now at terms }
{
    let weight = Credits(bytes::word(s, at, 2));
    course_by(
        weight,
        bytes::word(s, at, 4),
        bytes::blank_from(s, at, 6),
        terms,
    )
}

// The record at `at`, which starts with a term's letter, as the term with the next number.
pub fn read_term(s: &[u8], at: usize, number: usize) -> Result<Term, Fault>
    requires { at + 16 ≤ length s.now }
    ensures { result ≡ term_record s.now at number }
{
    if !bears_next(s, at, number, Year::TERMS) {
        return Err(Fault::Number);
    }
    term_by_itself(s, at)
}

// The record at `at`, which starts with a course's letter, as the course with the next number in a year of that many terms.
pub fn read_course(s: &[u8], at: usize, number: usize, terms: usize) -> Result<Course, Fault>
    requires at_in_bounds { at + 16 ≤ length s.now }
    requires terms_bound { terms ≤ 16 }
    ensures { result ≡ course_record s.now at number terms }
{
    if !bears_next(s, at, number, Year::COURSES) {
        return Err(Fault::Number);
    }
    course_by_itself(s, at, terms)
}
