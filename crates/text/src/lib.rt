// Text in fixed memory: bytes, numbers in decimal, lines, and terms with commas. Each is written into a lent buffer from a place on; the
// result is the place behind it. A page has a buffer of its own, and the place behind its text so far.
#![tactic(auto)]

ghost use Rattle.std.specs.Prelude.{◌≡◌, ℕ, ◌+◌, ◌<◌, ◌≤◌, List, [], ◌++◌, length, take};
ghost use Rattle.text.specs.Text.{decimal_of, numbered_of, numbers_of, row_of, line_of, terms_of};
ghost use Rattle.text.specs.Put.{Put, comma_of, piece_of};
ghost use Rattle.text.specs.Page.{Room};

use std::marker::Model;
use year::Year;

// Bytes as they are.
#[tactic(auto, using(crate::proofs::PutLaws::put_part))]
pub fn put(buf: &mut [u8], at: usize, s: &[u8]) -> usize
    requires { at + length s.now ≤ length buf.old }
    ensures { Put buf.old at s.now buf.new result }
{
    let end = at + s.len();
    buf[at..end].copy_from_slice(s);
    end
}

// The digits before the last, and the last.
// By hand (tried): `write!` tells its bytes after an Ok alone, and never that it is Ok, and a text that has room must not fail.
fn digits(buf: &mut [u8], at: usize, n: u32) -> usize
    requires { at + length (decimal_of n) ≤ length buf.old }
    ensures { Put buf.old at (decimal_of n) buf.new result }
{
    let last = if n >= 10 { digits(buf, at, n / 10) } else { at };
    put(buf, last, &[b'0' + (n % 10) as u8])
}

// A number in decimal.
pub fn number(buf: &mut [u8], at: usize, n: u32) -> usize
    requires { at + length (decimal_of n) ≤ length buf.old }
    ensures { Put buf.old at (decimal_of n) buf.new result }
{
    digits(buf, at, n)
}

// A number behind a blank.
fn numbered(buf: &mut [u8], at: usize, n: u32) -> usize
    requires { at + length (numbered_of n) ≤ length buf.old }
    ensures { Put buf.old at (numbered_of n) buf.new result }
{
    let end = put(buf, at, b" ");
    number(buf, end, n)
}

// Numbers, each behind a blank.
fn numbers(buf: &mut [u8], at: usize, ns: &[u32]) -> usize
    requires { at + length (numbers_of ns.now) ≤ length buf.old }
    ensures { Put buf.old at (numbers_of ns.now) buf.new result }
{
    let mut end = at;
    for n in ns {
        end = numbered(buf, end, *n);
    }
    end
}

// A word and numbers behind it.
pub fn row(buf: &mut [u8], at: usize, word: &[u8], ns: &[u32]) -> usize
    requires { at + length (row_of word.now ns.now) ≤ length buf.old }
    ensures { Put buf.old at (row_of word.now ns.now) buf.new result }
{
    let end = put(buf, at, word);
    numbers(buf, end, ns)
}

// The same as a whole line.
pub fn line(buf: &mut [u8], at: usize, word: &[u8], ns: &[u32]) -> usize
    requires { at + length (line_of word.now ns.now) ≤ length buf.old }
    ensures { Put buf.old at (line_of word.now ns.now) buf.new result }
{
    let end = row(buf, at, word, ns);
    put(buf, end, b"\n")
}

// A comma, where some term stands before.
fn comma(buf: &mut [u8], at: usize, some: bool) -> usize
    requires { at + length (comma_of some) ≤ length buf.old }
    ensures { Put buf.old at (comma_of some) buf.new result }
{
    if some { put(buf, at, b",") } else { at }
}

// Term j, where the list names it.
fn piece(buf: &mut [u8], at: usize, some: bool, list: u16, j: usize) -> usize
    requires term { j < 16 }
    requires room { at + length (piece_of some list j) ≤ length buf.old }
    ensures { Put buf.old at (piece_of some list j) buf.new result }
{
    if (list >> j) % 2 == 1 {
        let end = comma(buf, at, some);
        number(buf, end, j as u32)
    } else {
        at
    }
}

// The terms of a list, a bit each, with commas between them.
pub fn terms(buf: &mut [u8], at: usize, list: u16) -> usize
    requires { at + length (terms_of list) ≤ length buf.old }
    ensures { Put buf.old at (terms_of list) buf.new result }
{
    let mut end = at;
    let mut some = false;
    for j in 0..Year::TERMS {
        end = piece(buf, end, some, list, j);
        some |= (list >> j) % 2 == 1;
    }
    end
}

// A text in fixed memory that grows at its end.
#[derive(Drop)]
pub struct Page {
    bytes: [u8; Page::ROOM],
    end: usize,
}

// Clauses see the text so far.
impl Model for Page {
    ghost Value = { List ℕ };

    ghost view = { λ p. take p.end p.bytes };

    ghost invariant = { λ p. p.end ≤ 3436 };
}

impl Page {
    // As many bytes as the longest listing may have.
    pub const ROOM: usize = 3436;

    pub fn new() -> Self
        ensures { result ≡ [] }
    {
        Page {
            bytes: [0; Page::ROOM],
            end: 0,
        }
    }

    // All that was put.
    pub fn text(&self) -> &[u8]
        ensures { result.now ≡ self.now }
    {
        &self.bytes[..self.end]
    }

    // Bytes as they are.
    pub fn put(&mut self, s: &[u8])
        requires { Room self.old s.now }
        ensures { self.new ≡ self.old ++ s.now }
    {
        self.end = put(&mut self.bytes, self.end, s);
    }

    // A number in decimal.
    pub fn number(&mut self, n: u32)
        requires { Room self.old (decimal_of n) }
        ensures { self.new ≡ self.old ++ decimal_of n }
    {
        self.end = number(&mut self.bytes, self.end, n);
    }

    // A word and numbers behind it.
    pub fn row(&mut self, word: &[u8], ns: &[u32])
        requires { Room self.old (row_of word.now ns.now) }
        ensures { self.new ≡ self.old ++ row_of word.now ns.now }
    {
        self.end = row(&mut self.bytes, self.end, word, ns);
    }

    // The same as a whole line.
    pub fn line(&mut self, word: &[u8], ns: &[u32])
        requires { Room self.old (line_of word.now ns.now) }
        ensures { self.new ≡ self.old ++ line_of word.now ns.now }
    {
        self.end = line(&mut self.bytes, self.end, word, ns);
    }

    // The terms of a list, a bit each, with commas between them.
    pub fn terms(&mut self, list: u16)
        requires { Room self.old (terms_of list) }
        ensures { self.new ≡ self.old ++ terms_of list }
    {
        self.end = terms(&mut self.bytes, self.end, list);
    }
}
