// The records of a sound year laid into a lent buffer, one behind the other.
ghost use Rattle.std.specs.Prelude.{◌≡◌, ◌+◌, ◌*◌, ◌≤◌, ◌<◌, length};
ghost use Rattle.records.specs.Writing.{term_bytes, course_bytes, term_block, course_block, joined};
ghost use Rattle.records.specs.Laid.{laid};

use crate::{COURSE_LETTER, RECORD, TERM_LETTER};
use year::{Course, SoundYear, Term, pairs};

// A term's record, and a course's.
fn term_bytes(number: usize, t: Term) -> [u8; RECORD]
    requires number_fits { number < 256 }
    requires bounds_fit { (t.low.0 < 65536) × (t.high.0 < 65536) × (t.least.0 < 65536) × (t.most.0 < 65536) }
    ensures { result ≡ term_bytes number t }
{
    let mut r = [0; RECORD];
    r[0] = TERM_LETTER;
    r[1] = number as u8;
    r[2..4].copy_from_slice(&(t.low.0 as u16).to_be_bytes());
    r[4..6].copy_from_slice(&(t.high.0 as u16).to_be_bytes());
    r[6..8].copy_from_slice(&(t.least.0 as u16).to_be_bytes());
    r[8..10].copy_from_slice(&(t.most.0 as u16).to_be_bytes());
    r
}

fn course_bytes(number: usize, c: Course) -> [u8; RECORD]
    requires number_fits { number < 256 }
    requires weight_fits { c.weight.0 < 65536 }
    ensures { result ≡ course_bytes number c }
{
    let mut r = [0; RECORD];
    r[0] = COURSE_LETTER;
    r[1] = number as u8;
    r[2..4].copy_from_slice(&(c.weight.0 as u16).to_be_bytes());
    r[4..6].copy_from_slice(&c.list.to_be_bytes());
    r
}

// Sixteen bytes laid into the buffer from a place on.
fn put(buf: &mut [u8], at: usize, r: [u8; RECORD])
    requires { at + 16 ≤ length buf.old }
    ensures { buf.new ≡ laid buf.old at r }
{
    buf[at..at + RECORD].copy_from_slice(&r);
}

// The terms' records, at the front.
pub fn put_terms(y: &SoundYear, buf: &mut [u8])
    requires room { y.now.year.terms * 16 ≤ length buf.old }
    ensures { buf.new ≡ laid buf.old 0 (joined (term_block y.now.year) y.now.year.terms) }
{
    for j in 0..y.year.terms {
        put(buf, j * RECORD, term_bytes(j, y.year.term[j]));
    }
}

// The courses' records, behind the terms'.
pub fn put_courses(y: &SoundYear, buf: &mut [u8])
    requires room { (y.now.year.terms + y.now.year.courses) * 16 ≤ length buf.old }
    ensures { buf.new ≡ laid buf.old (y.now.year.terms * 16) (joined (course_block y.now.year) y.now.year.courses) }
{
    for i in 0..y.year.courses {
        let c = pairs::course_of(y.year.weight[i], y.year.list[i]);
        put(buf, (y.year.terms + i) * RECORD, course_bytes(i, c));
    }
}
