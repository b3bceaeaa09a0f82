// A routine's two files in the folder that a program is run in: first the image, press.bin or, where there is none, the
// S-record file press.s19 (document 02, a); then the ticket, press.tkt.
ghost use Rattle.std.specs.Prelude.{IfSome};
ghost use Rattle.files.specs.inner.Counts.{IsPrefixLen};

use crate::{FileError, load, unfit};
use std::rt::Files;
use ticket::read;

// Whether the first is an S-record file, and their lengths.
#[derive(Clone, Copy)]
pub struct Routine {
    pub records: bool,
    pub first: usize,
    pub ticket: usize,
}

#[derive(Clone, Copy)]
struct First {
    records: bool,
    length: usize,
}

// A file's length; of one that does not fit the line is printed.
fn load_or_say(rt: &(impl Files + Print), name: &[u8], buf: &mut [u8]) -> Option<usize>
    ensures { IfSome result (λ n. IsPrefixLen n buf.new) }
{
    match load(rt, name, buf) {
        Ok(length) => Some(length),
        Err(_) => {
            unfit(rt, name);
            None
        }
    }
}

// A press.bin that is there and does not fit is not replaced.
fn load_first(rt: &(impl Files + Print), buf: &mut [u8]) -> Option<First>
    ensures { IfSome result (λ f. IsPrefixLen f.length buf.new) }
{
    match load(rt, b"press.bin", buf) {
        Ok(length) => Some(First {
            records: false,
            length,
        }),
        Err(FileError::Missing) => Some(First {
            records: true,
            length: load_or_say(rt, b"press.s19", buf)?,
        }),
        Err(FileError::Unfit) => {
            unfit(rt, b"press.bin");
            None
        }
    }
}

// Where one does not fit, its line is printed and no more is read.
pub fn load_routine(
    rt: &(impl Files + Print),
    first: &mut [u8],
    ticket: &mut [u8],
) -> Option<Routine>
    ensures { IfSome result (λ r. IsPrefixLen r.first first.new × IsPrefixLen r.ticket ticket.new) }
{
    let f = load_first(rt, first)?;
    let length = load_or_say(rt, b"press.tkt", ticket)?;
    Some(Routine {
        records: f.records,
        first: f.length,
        ticket: length,
    })
}

// How many bytes of a buffer the ticket's code window takes; none where the ticket is refused.
pub fn room(ticket: &[u8], buf: &[u8]) -> usize
    ensures { IsPrefixLen result buf.now }
{
    let length = match read(ticket) {
        Ok(t) => t.header.code.length as usize,
        Err(_) => 0,
    };
    length.min(buf.len())
}
