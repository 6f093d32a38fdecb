// The listing of a list of records: the answer of its filtering and the filtered year as text, or why there is none.
#![tactic(auto)]

ghost use Rattle.std.specs.Prelude.{◌≡◌, ◌<◌, ◌++◌, length, take};
ghost use Rattle.text.specs.Page.{Room};
ghost use Rattle.records.specs.Writing.{joined};
ghost use Rattle.filter.specs.Filter.{filter_of};
ghost use Rattle.display.specs.Numbers.{listed_length};
ghost use Rattle.display.specs.Listing.{term_line, course_line, term_line_at, course_line_at, year_text, pair_text, filtered_text, listing_of, listed_of, listed_in};

use filter::Answer;
use text::Page;
use year::{Course, SoundYear, Term, pairs};

// Refusal 9: the lent buffer is shorter than the text.
#[derive(Clone, Copy, PartialEq, Eq, Debug)]
pub struct TooShort;

// No text is longer, so a buffer of as many bytes is never too short.
pub const LONGEST: usize = Page::ROOM;

// The paper's number of a year that is not sound.
const UNSOUND: u32 = 8;

// T, number, credits low and high, count low and high.
#[tactic(auto, unfolding(crate::specs::Listing::term_line))]
fn term_line(page: &mut Page, j: usize, t: Term)
    requires term { j < 16 }
    requires room { Room page.old (term_line j t) }
    ensures { page.new ≡ page.old ++ term_line j t }
{
    page.line(b"T", &[j as u32, t.low.0, t.high.0, t.least.0, t.most.0]);
}

// C, number, weight, terms with commas.
fn course_line(page: &mut Page, i: usize, c: Course)
    requires course { i < 64 }
    requires room { Room page.old (course_line i c) }
    ensures { page.new ≡ page.old ++ course_line i c }
{
    page.row(b"C", &[i as u32, c.weight.0]);
    page.put(b" ");
    page.terms(c.list);
    page.put(b"\n");
}

fn term_lines(page: &mut Page, y: &SoundYear)
    requires room { Room page.old (joined (term_line_at y.now.year) y.now.year.terms) }
    ensures { page.new ≡ page.old ++ joined (term_line_at y.now.year) y.now.year.terms }
{
    let y = &y.year;
    for j in 0..y.terms {
        term_line(page, j, y.term[j]);
    }
}

fn course_lines(page: &mut Page, y: &SoundYear)
    requires room { Room page.old (joined (course_line_at y.now.year) y.now.year.courses) }
    ensures { page.new ≡ page.old ++ joined (course_line_at y.now.year) y.now.year.courses }
{
    let y = &y.year;
    for i in 0..y.courses {
        course_line(page, i, pairs::course_of(y.weight[i], y.list[i]));
    }
}

// An answer that names the rounds, and the year.
fn with_year(page: &mut Page, word: &[u8], rounds: u32, y: &SoundYear)
    requires room { Room page.old (year_text word.now rounds y.now.year) }
    ensures { page.new ≡ page.old ++ year_text word.now rounds y.now.year }
{
    page.line(word, &[rounds]);
    term_lines(page, y);
    course_lines(page, y);
}

// A word with two numbers.
fn with_pair(page: &mut Page, word: &[u8], a: u32, b: u32)
    requires { Room page.old (pair_text word.now a b) }
    ensures { page.new ≡ page.old ++ pair_text word.now a b }
{
    page.line(word, &[a, b]);
}

// The listing of a sound year.
fn filtered(page: &mut Page, y: SoundYear)
    requires room { Room page.old (filtered_text (filter_of y.year)) }
    ensures { page.new ≡ page.old ++ filtered_text (filter_of y.year) }
{
    let f = filter::filter_sound(y);
    match f.answer {
        Answer::Settled(n) => with_year(page, b"SETTLED", n, &SoundYear { year: f.year }),
        Answer::Open(n) => with_year(page, b"OPEN", n, &SoundYear { year: f.year }),
        Answer::NoPlan(rule, n) => with_pair(page, b"NOPLAN", rule.number(), n),
        Answer::Unsound => with_pair(page, b"REFUSED", UNSOUND, 0),
    }
}

// The listing of a byte string.
fn received(page: &mut Page, list: &[u8])
    requires { Room page.old (listing_of list.now) }
    ensures { page.new ≡ page.old ++ listing_of list.now }
{
    match records::read_sound(list) {
        Ok(year) => filtered(page, year),
        Err(refusal) => {
            let number = records::fault_number(refusal.fault);
            with_pair(page, b"REFUSED", number, refusal.record as u32);
        }
    }
}

// The listing of any byte string into the front of a lent buffer. It is written apart first, so that a buffer that is too short is untouched.
pub fn listing(list: &[u8], out: &mut [u8]) -> Result<usize, TooShort>
    ensures value { result ≡ listed_of list.now (length out.old) }
    ensures out_after { out.new ≡ listed_in list.now out.old }
{
    let mut page = Page::new();
    received(&mut page, list);
    let text = page.text();
    let n = text.len();
    if out.len() < n {
        return Err(TooShort);
    }
    out[..n].copy_from_slice(text);
    Ok(n)
}

// The part of a buffer that holds the text, by the answer that its listing gave.
pub fn front(out: &[u8], answer: Result<usize, TooShort>) -> &[u8]
    ensures { result.now ≡ take (listed_length answer) out.now }
{
    let n = answer.unwrap_or(0);
    &out[..n.min(out.len())]
}
