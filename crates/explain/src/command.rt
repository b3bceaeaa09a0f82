// What stands at an offset of the ticket: a command, with the mark that it belongs to, or a byte after the end.
use crate::hex::{byte, word};
use answers::{Cause, Refusal};
use commands::command::Command;
use commands::encode::width_of;
use commands::parse::parse;
use output::text;

fn name(b: u8) -> &'static [u8] {
    match b {
        0x00 => b"end",
        0x01 => b"code window",
        0x02 => b"data window",
        0x03 => b"stack window",
        0x04 => b"entry",
        0x05 => b"mark",
        0x06 => b"name",
        0x07 => b"home",
        _ => b"unknown",
    }
}

fn command(rt: &impl Print, b: u8) {
    byte(rt, b"command $", b);
    text(rt, b" (");
    text(rt, name(b));
    text(rt, b")");
}

// The latest mark's address after one more command.
fn with(latest: Option<u16>, c: Command) -> Option<u16> {
    match c {
        Command::Mark(a, _) => Some(a),
        Command::Header(_) | Command::Name(_, _) | Command::End => latest,
    }
}

// The address of the latest mark before an offset at which a command begins. A command has at least one byte.
#[tactic(auto, unfolding(commands::specs::Bytes::width_of))]
fn mark_before(ticket: &[u8], place: u32) -> Option<u16> {
    let mut latest = None;
    let mut at: usize = 0;
    while at < place as usize {
        let Some(rest) = ticket.get(at..) else {
            break;
        };
        let Ok(c) = parse(rest) else {
            break;
        };
        latest = with(latest, c);
        at += width_of(c) as usize;
    }
    latest
}

// The address of a mark that may be cut short: it is the first operand.
fn own_address(ticket: &[u8], at: usize) -> Option<u16> {
    match ticket.get(at..) {
        Some([_, high, low, ..]) => Some(u16::from_be_bytes([*high, *low])),
        _ => None,
    }
}

fn after(rt: &impl Print, mark: Option<u16>) {
    match mark {
        Some(a) => word(rt, b", after the mark at $", a),
        None => text(rt, b", before the first mark"),
    }
}

fn mark(rt: &impl Print, ticket: &[u8], place: u32) {
    match own_address(ticket, place as usize) {
        Some(a) => word(rt, b", of the mark at $", a),
        None => after(rt, mark_before(ticket, place)),
    }
}

fn command_line(rt: &impl Print, ticket: &[u8], place: u32) {
    match ticket.get(place as usize) {
        Some(b) => {
            command(rt, *b);
            if *b == 0x05 {
                mark(rt, ticket, place);
            } else {
                after(rt, mark_before(ticket, place));
            }
        }
        None => {
            text(rt, b"end of the ticket");
            after(rt, mark_before(ticket, place));
        }
    }
    text(rt, b"\n");
}

// A byte after the end is no command, whatever it is.
fn byte_line(rt: &impl Print, ticket: &[u8], place: u32) {
    if let Some(b) = ticket.get(place as usize) {
        byte(rt, b"byte $", *b);
        text(rt, b", after the end\n");
    }
}

pub fn ticket_line(rt: &impl Print, x: Refusal, ticket: &[u8]) {
    if x.cause == Cause::AfterEnd {
        byte_line(rt, ticket, x.place);
    } else {
        command_line(rt, ticket, x.place);
    }
}
