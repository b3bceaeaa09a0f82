// An inner crate: whole files in lent buffers, for the programs at the desk.
#![tactic(auto)]

ghost use Rattle.std.specs.Prelude.{IfOk};
ghost use Rattle.files.specs.inner.Counts.{IsPrefixLen};

use output::text;
use std::fs;
use std::io::{Error, ErrorKind, Read};
use std::rt::Files;

pub mod routine; // a routine's two files

// Why a file is not in the buffer: there is none of that name; or it is longer, or cannot be opened or read to its end.
#[derive(Clone, Copy, Debug, PartialEq, Eq)]
pub enum FileError {
    Missing,
    Unfit,
}

impl From<Error> for FileError {
    fn from(e: Error) -> FileError {
        match e.kind() {
            ErrorKind::NotFound => FileError::Missing,
            _ => FileError::Unfit,
        }
    }
}

// How many bytes the whole file has, at the start of the buffer. No file is opened by a name that is not UTF-8. One
// more byte is asked for: its absence tells the end from a failure, and from more to come.
pub fn load(rt: &impl Files, name: &[u8], buf: &mut [u8]) -> Result<usize, FileError>
    ensures { IfOk result (λ n. IsPrefixLen n buf.new) }
{
    let Ok(path) = str::from_utf8(name) else {
        return Err(FileError::Unfit);
    };
    let mut file = fs::open(rt, path)?;
    let length = fill(&mut file, buf);
    match file.read(&mut [0u8; 1]) {
        Ok(0) => Ok(length),
        _ => Err(FileError::Unfit),
    }
}

// Reads until the buffer is full, the file ends or a read fails, and answers how many bytes it put at the start of the
// buffer.
pub fn fill(file: &mut impl Read, buf: &mut [u8]) -> usize
    ensures { IsPrefixLen result buf.new }
{
    let mut done = 0;
    while done < buf.len() {
        match file.read(&mut buf[done..]) {
            Ok(0) | Err(_) => break,
            Ok(n) => done += n,
        }
    }
    done
}

// The line for a file that is missing, cannot be read or is longer (document 01, "One routine, read aloud").
pub fn unfit(rt: &impl Print, name: &[u8]) {
    text(rt, b"FILE ");
    text(rt, name);
    text(rt, b"\n");
}
