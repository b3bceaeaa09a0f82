// Tickets given to the writer as fields, one to a line, and what it answers. A line has, in hexadecimal and each at its
// place: = and the ticket to begin with (H with two marks, which takes 48 bytes, or L with 4,096 marks, which takes
// 45,082); the room that the output has; the three windows, the entry, the limit and home; the number of marks; then an
// index and the mark that goes there, its address, cost, depth and need. The rest of the line says what is altered.
use crate::build::{build, word};
use crate::print::refusal;
use answers::Refusal;
use commands::command::Claim;
use commands::header::{Header, Window};
use output::{decimal, text};
use registers::{Cycles, StackBytes};
use ticket::fields::{Mark, Ticket};
use ticket::{read, write};

fn base_ticket(letter: u8) -> Result<Ticket, Refusal> {
    let mut space = [0u8; 90200];
    let bytes = if letter == b'L' {
        build(b"L R1000 1000 00", &mut space)
    } else {
        build(b"H M8000 M8001 00", &mut space)
    };
    read(bytes)
}

fn long(s: &[u8], i: usize) -> u32 {
    (word(s, i) as u32) * 65536 + (word(s, i.wrapping_add(4)) as u32)
}

fn window(s: &[u8], i: usize) -> Window {
    Window {
        start: word(s, i),
        length: word(s, i.wrapping_add(5)),
    }
}

fn header(s: &[u8]) -> Header {
    Header {
        code: window(s, 12),
        data: window(s, 22),
        stack: window(s, 32),
        entry: word(s, 42),
        limit: Cycles(long(s, 47)),
        home: word(s, 56),
    }
}

fn mark(s: &[u8]) -> Mark {
    Mark {
        address: word(s, 71),
        claim: Claim {
            cost: Cycles(long(s, 76)),
            depth: StackBytes(word(s, 85)),
            need: StackBytes(word(s, 90)),
        },
    }
}

fn altered(s: &[u8; 95]) -> Result<Ticket, Refusal> {
    let mut t = base_ticket(s[1])?;
    t.header = header(s);
    t.count = word(s, 61);
    let i = word(s, 66) as usize;
    if i < 4096 {
        t.marks[i] = mark(s);
    }
    Ok(t)
}

// Writes to the first bytes of the output.
fn write_in(s: &[u8; 95], out: &mut [u8]) -> Result<u32, Refusal> {
    let room = (long(s, 3) as usize).min(out.len());
    write(&altered(s)?, &mut out[..room])
}

// How many bytes were written, after which all are as they were.
fn answer(rt: &impl Print, w: Result<u32, Refusal>) -> usize {
    match w {
        Err(r) => {
            refusal(rt, r);
            0
        }
        Ok(n) => {
            decimal(rt, n as u64);
            text(rt, b" bytes");
            n as usize
        }
    }
}

fn kept(written: usize, out: &[u8]) -> bool {
    match out.get(written..) {
        Some(rest) => rest.iter().all(|b| *b == 0xaa),
        None => false,
    }
}

pub fn wrote(rt: &impl Print, s: &[u8]) {
    let Some((fields, why)) = s.split_first_chunk() else {
        return;
    };
    text(rt, why);
    text(rt, b" -> ");
    let mut out = [0xaau8; 90200];
    let w = write_in(fields, &mut out);
    if kept(answer(rt, w), &out) {
        text(rt, b", the rest kept\n");
    } else {
        text(rt, b", THE REST CHANGED\n");
    }
}
