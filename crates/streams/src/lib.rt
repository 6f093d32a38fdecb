// A list read from a reader and its listing written to a writer, in fixed memory: all that the programs do, but for names and handles.
#![tactic(auto)]

ghost use Rattle.std.specs.Prelude.{◌<◌, IfOk, IfSome, OnOk, length, take};
ghost use Rattle.std.specs.Io.{ReadsAtMost};
ghost use Rattle.std.specs.Io.KnownBytes.{Appends, Consumes, IsAtEnd};
ghost use Rattle.display.specs.Listing.{listing_of};

use std::io;
use std::io::{Read, Write};

// As much of an input as is read: more than the longest list has, which is refused whatever stands behind.
const ROOM: usize = 4096;

// Reads one list and writes its listing. It does not wait for the end of an input that is too long already.
pub fn list<R: Read, W: Write>(input: &mut R, output: &mut W) -> io::Result<()>
    ensures { OnOk result (IfSome (R.remaining input.old)
        (λ bytes. Appends (W.contents output.old) (W.contents output.new) (listing_of bytes))) }
{
    let mut bytes = [0u8; ROOM];
    let n = fill(input, &mut bytes)?;
    let mut text = [0u8; display::LONGEST];
    let answer = display::listing(&bytes[..n], &mut text);
    output.write_all(display::front(&text, answer))
}

// Reads until the buffer is full or the input ends, and answers how many bytes stand at the buffer's front.
fn fill<R: Read>(input: &mut R, buf: &mut [u8]) -> io::Result<usize>
    ensures bound { ReadsAtMost result buf.new }
    ensures bytes { IfOk result (λ n. Consumes (R.remaining input.old) (R.remaining input.new) (take n buf.new)) }
    ensures end { IfOk result (λ n. n < length buf.new → IsAtEnd (R.remaining input.new)) }
{
    // Only a read tells how far the next one begins, so no `for` counts.
    let mut done = 0;
    while done < buf.len() {
        let n = input.read(&mut buf[done..])?;
        if n == 0 {
            break;
        }
        done += n;
    }
    Ok(done)
}
