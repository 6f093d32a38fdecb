// Bytes and two-byte numbers of a record that starts at a place of a byte string.
ghost use Rattle.std.specs.Prelude.{◌≡◌, ◌+◌, ◌≤◌, ◌<◌, length};
ghost use Rattle.records.specs.Bytes.{word_at, blank_from};

use crate::RECORD;

// The number in bytes k and k + 1 of the record at `at`, high byte first.
pub fn word(s: &[u8], at: usize, k: usize) -> u32
    requires { at + (k + 1) < length s.now }
    ensures number { result ≡ word_at s.now at k }
    ensures two_bytes { result < 65536 }
{
    u32::from(s[at + k]) * 256 + u32::from(s[at + (k + 1)])
}

// The bytes of the record at `at` from byte k on are zero.
pub fn blank_from(s: &[u8], at: usize, k: usize) -> bool
    requires k_bound { k ≤ 16 }
    requires at_in_bounds { at + 16 ≤ length s.now }
    ensures { result ≡ blank_from s.now at k }
{
    // No `all`, which stops at a byte: its branches cost eleven instructions more for each record.
    let mut blank = true;
    for b in &s[at + k..at + RECORD] {
        blank &= *b == 0;
    }
    blank
}
