// One record of either list: its faults in the paper's order, or the term or the course that it holds.
ghost use Rattle.std.specs.Prelude.{◌≡◌, ◌+◌, ◌≤◌, ◌<◌, length};
ghost use Rattle.hours.specs.Entries.{weight_by, weighed, hours_by_itself, hours_record, term_alone};

use crate::{Edition, Hours, LETTER};
use records::{Fault, TERM_LETTER, bytes};
use year::{Course, Credits, Term, Year};

// The credits of a course by its hours: half the laboratory hours count, rounded down or up by the edition.
fn weight(edition: Edition, lecture: Hours, laboratory: Hours) -> Credits
    requires { (lecture.0 < 65536) × (laboratory.0 < 65536) }
    ensures { result.0 ≡ weight_by edition lecture.0 laboratory.0 }
{
    match edition {
        Edition::First => Credits(lecture.0 + laboratory.0 / 2),
        Edition::Second => Credits(lecture.0 + (laboratory.0 + 1) / 2),
    }
}

// The record at `at` as a course in a year of that many terms, weighed by an edition.
fn weighed_by(edition: Edition, s: &[u8], at: usize, terms: usize) -> Result<Course, Fault>
    requires at_in_bounds { at + 16 ≤ length s.now }
    requires terms_bound { terms ≤ 16 }
    ensures { result ≡ weighed edition s.now at terms }
{
    let lecture = Hours(bytes::word(s, at, 4));
    let laboratory = Hours(bytes::word(s, at, 6));
    let w = weight(edition, lecture, laboratory);
    let list = bytes::word(s, at, 8);
    let zeros = (s[at + 3] == 0) & bytes::blank_from(s, at, 10);
    records::entries::course_by(w, list, zeros, terms)
}

// The record at `at` as an hours record, its letter and its number set aside.
fn hours_by_itself(s: &[u8], at: usize, terms: usize) -> Result<Course, Fault>
    requires at_in_bounds { at + 16 ≤ length s.now }
    requires terms_bound { terms ≤ 16 }
    ensures { result ≡ hours_by_itself s.now at terms }
{
    // No `Edition::try_from`: with it a joining of 64 courses takes 9 % more instructions.
    match s[at + 2] {
        1 => weighed_by(Edition::First, s, at, terms),
        2 => weighed_by(Edition::Second, s, at, terms),
        _ => Err(Fault::Size),
    }
}

// The record at `at` of an hours list, as the course with the next number in a year of that many terms.
pub fn hours_record(s: &[u8], at: usize, number: usize, terms: usize) -> Result<Course, Fault>
    requires at_in_bounds { at + 16 ≤ length s.now }
    requires terms_bound { terms ≤ 16 }
    ensures { result ≡ hours_record s.now at number terms }
{
    if s[at] != LETTER {
        return Err(Fault::Letter);
    }
    if !records::entries::bears_next(s, at, number, Year::COURSES) {
        return Err(Fault::Number);
    }
    hours_by_itself(s, at, terms)
}

// The record at `at` of a list of terms alone, as the term with the next number.
pub fn term_alone(s: &[u8], at: usize, number: usize) -> Result<Term, Fault>
    requires { at + 16 ≤ length s.now }
    ensures { result ≡ term_alone s.now at number }
{
    if s[at] != TERM_LETTER {
        return Err(Fault::Letter);
    }
    records::entries::read_term(s, at, number)
}
