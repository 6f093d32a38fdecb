// Reads one list of records from standard input and writes its listing.
#![tactic(auto)]

use std::io;

fn main(rt: HostRuntime) -> io::Result<()> {
    streams::list(&mut rt.stdin(), &mut rt.stdout())
}
