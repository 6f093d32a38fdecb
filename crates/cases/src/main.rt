// Writes the listing of each file that an argument names, each under its name.
#![tactic(auto)]

use std::env::{Env, FillError};
use std::fs::Files;
use std::io::{ErrorKind, Write};
use std::{fs, io, str};

// As long as the longest path that the system takes.
const LONGEST_NAME: usize = 4096;

// Opens a file to read it. std takes no path that is not UTF-8.
fn open<R: Files>(files: &R, name: &[u8]) -> io::Result<R::File> {
    let Ok(path) = str::from_utf8(name) else {
        return Err(io::Error::from(ErrorKind::InvalidFilename));
    };
    fs::open(files, path)
}

// A file that cannot be opened has its name and no listing, and is told of on standard error.
fn one<R: Files + Print + Eprint>(rt: &R, name: &[u8]) -> io::Result<()> {
    let mut out = io::writer(rt);
    out.write_all(name)?;
    out.write_all(b"\n")?;
    match open(rt, name) {
        Ok(mut file) => streams::list(&mut file, &mut out),
        Err(e) => eprintln!(rt; "open: {e}"),
    }
}

fn main(rt: HostRuntime) -> io::Result<()> {
    let mut name = [0u8; LONGEST_NAME];
    for i in 1..usize::MAX {
        match rt.arg(i, &mut name) {
            Ok(n) => one(&rt, &name[..n])?,
            Err(FillError::TooLong) => one(&rt, b"")?,
            Err(FillError::NotPresent) => break,
        }
    }
    Ok(())
}
