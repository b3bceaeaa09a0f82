// An inner crate: what a person is told of a routine that is refused. Below the line of the checking program: the cause
// in words, what stands at the place, and what to do. Of what is printed nothing is promised but the proved lines;
// tests/trace and tests/refusals compare it.
#![tactic(auto)]

use crate::command::ticket_line;
use crate::figures::{figures_line, lengths_line};
use crate::file::file_lines;
use crate::hex::word;
use crate::place::place_line;
use crate::words::{to_do, words};
use answers::{Cause, Refusal};
use commands::header::Window;
use output::{decimal, text};
use text::verdict::put_verdict;
use ticket::fields::Ticket;
use ticket::read;

mod words; // what a cause says, and what to do
mod command; // what stands at an offset of the ticket
mod file; // a line of an S-record file
mod given; // a byte that none of its lines gives
mod place; // the instruction at an address
mod figures; // windows, lengths and the limit
mod hex; // numbers in hexadecimal

fn verdict_line(rt: &impl Print, x: Refusal) {
    let mut line = [0u8; 64];
    let n = put_verdict(Err(x), &mut line);
    text(rt, &line[..n]);
}

// Whether a cause is found in the ticket's bytes: 1 to 8, and 29 of home.
fn of_ticket(cause: Cause) -> bool {
    matches!(cause.number(), 1..=8 | 29)
}

// Whether it is found in an S-record file.
pub fn of_file(cause: Cause) -> bool {
    matches!(
        cause,
        Cause::BadRecord | Cause::BadChecksum | Cause::BadAddress
    )
}

// The place in a ticket is an offset, from 10 to 20 an address; 9 has none.
fn place_label(rt: &impl Print, x: Refusal) {
    // An offset fits 16 bits. A ticket's file has at most 65,536 bytes, so only the end of one that long would not: but
    // where the place is the end, the file stops between two commands after 22 + 11 n bytes, with home after 25 + 11 n,
    // and neither is ever 65,536.
    let place = (x.place % 65536) as u16;
    if of_ticket(x.cause) {
        word(rt, b" at offset $", place);
    } else if x.cause != Cause::BadImage {
        word(rt, b" at $", place);
    }
}

// The place in an S-record file is a line, counted from 1, but for a byte that is never given.
fn line_label(rt: &impl Print, x: Refusal) {
    if x.place != 0 {
        text(rt, b" at line ");
        decimal(rt, x.place as u64);
    }
}

fn cause_line(rt: &impl Print, x: Refusal) {
    decimal(rt, x.cause.number() as u64);
    if of_file(x.cause) {
        line_label(rt, x);
    } else {
        place_label(rt, x);
    }
    text(rt, b": ");
    text(rt, words(x.cause));
    text(rt, b"\n");
}

fn judged_lines(rt: &impl Print, x: Refusal, t: &Ticket, image: &[u8]) {
    if x.cause == Cause::BadImage {
        lengths_line(rt, t.header.code, image);
        return;
    }
    place_line(rt, t, (x.place % 65536) as u16, image);
    figures_line(rt, x.cause, t.header);
}

// What stands at the place: in a ticket that is refused at reading a command or a byte, else an instruction or figures.
fn place_lines(rt: &impl Print, x: Refusal, ticket: &[u8], image: &[u8]) {
    match read(ticket) {
        Ok(t) => judged_lines(rt, x, &t, image),
        Err(_) => ticket_line(rt, x, ticket),
    }
}

fn to_do_line(rt: &impl Print, x: Refusal) {
    text(rt, b"to do: ");
    text(rt, to_do(x.cause));
    text(rt, b"\n");
}

pub fn refused(rt: &impl Print, x: Refusal, ticket: &[u8], image: &[u8]) {
    verdict_line(rt, x);
    cause_line(rt, x);
    place_lines(rt, x, ticket, image);
    to_do_line(rt, x);
}

// Where an S-record file is refused, so that there is no image: 25 to 27. Of a ticket that is not read the code window
// is empty.
pub fn refused_file(rt: &impl Print, x: Refusal, ticket: &[u8], file: &[u8]) {
    let code = match read(ticket) {
        Ok(t) => t.header.code,
        Err(_) => Window::EMPTY,
    };
    verdict_line(rt, x);
    cause_line(rt, x);
    file_lines(rt, x, file, code);
    to_do_line(rt, x);
}
