// Bad input: memories of other lengths, every place of the four opcode maps, and instructions that wrap at $FFFF. A
// refusal leaves memory as it was, which is looked at byte by byte.
ghost use Rattle.std.specs.Prelude.{◌<◌};

use crate::documented::memory_with;
use crate::print::{ran, stepped};
use answers::{Cause, Refusal};
use check::same;
use output::{decimal, text};
use registers::Registers;
use stepper::answer::Stepped;
use stepper::environment::Environment;
use stepper::{run, step};

fn from(pc: u16) -> Registers {
    Registers::reset().with_pc(pc)
}

fn kept(rt: &impl Print, before: &[u8], after: &[u8]) {
    if same(before, after) {
        text(rt, b"memory kept\n");
    } else {
        text(rt, b"MEMORY CHANGED\n");
    }
}

// The run begins at home: the length is looked at before it.
fn length(rt: &impl Print, mem: &mut [u8], pc: u16) {
    decimal(rt, mem.len() as u64);
    text(rt, b" bytes, step: ");
    stepped(rt, step(from(pc), mem));
    decimal(rt, mem.len() as u64);
    text(rt, b" bytes, run: ");
    ran(rt, run(from(pc), mem, Environment { home: pc }, 100));
}

// NOPs.
fn length_of<const N: usize>(rt: &impl Print, pc: u16)
    requires { N < 100000 }
{
    let was = [0x01u8; N];
    let mut mem = was;
    length(rt, &mut mem, pc);
    kept(rt, &was, &mem);
}

pub fn lengths(rt: &impl Print) {
    length(rt, &mut [], 0);
    length_of::<65535>(rt, 0x8000);
    length_of::<65537>(rt, 0);
}

// What a step at $8000 comes to, with a refusal only where it has PC for its place and kept memory. Kept apart from the
// same of vectors, which steps on another memory: the two programs share no library that steps are tried in.
#[derive(Clone, Copy)]
enum Outcome {
    Done,
    Empty, // 22
    Waits, // 23
    Wrong,
}

fn refused(x: Refusal, unchanged: bool) -> Outcome {
    match x.cause {
        _ if !unchanged | (x.place != 0x8000) => Outcome::Wrong,
        Cause::NoInstruction => Outcome::Empty,
        Cause::Waits => Outcome::Waits,
        _ => Outcome::Wrong,
    }
}

fn tried(first: u8, second: u8) -> Outcome {
    let was = memory_with(0x8000, &[first, second]);
    let mut mem = was;
    match step(from(0x8000), &mut mem) {
        Ok(_) => Outcome::Done,
        Err(x) => refused(x, same(&was, &mem)),
    }
}

#[derive(Clone, Copy)]
struct Counts {
    done: u32,
    empty: u32,
    waits: u32,
    wrong: u32,
}

fn counted(c: Counts, o: Outcome) -> Counts {
    match o {
        Outcome::Done => Counts {
            done: c.done.wrapping_add(1),
            ..c
        },
        Outcome::Empty => Counts {
            empty: c.empty.wrapping_add(1),
            ..c
        },
        Outcome::Waits => Counts {
            waits: c.waits.wrapping_add(1),
            ..c
        },
        Outcome::Wrong => Counts {
            wrong: c.wrong.wrapping_add(1),
            ..c
        },
    }
}

// The 256 places of a map: of the first one, or of that after a byte.
fn tally(prefix: Option<u8>) -> Counts {
    let mut n = Counts {
        done: 0,
        empty: 0,
        waits: 0,
        wrong: 0,
    };
    for op in 0..=255 {
        n = counted(
            n,
            match prefix {
                None => tried(op, 0),
                Some(first) => tried(first, op),
            },
        );
    }
    n
}

fn map(rt: &impl Print, name: &[u8], prefix: Option<u8>) {
    let n = tally(prefix);
    text(rt, name);
    decimal(rt, n.done as u64);
    text(rt, b" done, ");
    decimal(rt, n.empty as u64);
    text(rt, b" refused 22, ");
    decimal(rt, n.waits as u64);
    text(rt, b" refused 23, ");
    decimal(rt, n.wrong as u64);
    text(rt, b" wrong\n");
}

pub fn places(rt: &impl Print) {
    map(rt, b"map 0: ", None);
    map(rt, b"map 18: ", Some(0x18));
    map(rt, b"map 1a: ", Some(0x1a));
    map(rt, b"map cd: ", Some(0xcd));
}

// An instruction whose first byte stands at $FFFF.
fn across(rt: &impl Print, name: &[u8], code: &[u8]) {
    let mut mem = memory_with(0xffff, code);
    text(rt, name);
    stepped(rt, step(from(0xffff), &mut mem));
}

// Home comes before a refused opcode, and both before a budget of 0.
fn no_budget(rt: &impl Print, name: &[u8], pc: u16, op: u8, home: u16) {
    let mut mem = memory_with(0x8000, &[op]);
    text(rt, name);
    ran(rt, run(from(pc), &mut mem, Environment { home }, 0));
}

pub fn wraps(rt: &impl Print) {
    across(rt, b"LDAA #$42 at $FFFF: ", b"\x86\x42");
    across(rt, b"INY at $FFFF: ", b"\x18\x08");
    across(rt, b"JMP $1234 at $FFFF: ", b"\x7e\x12\x34");
    across(rt, b"$18 $18 at $FFFF: ", b"\x18\x18");
    across(rt, b"STOP at $FFFF: ", b"\xcf");
    no_budget(rt, b"budget 0, home: ", 0, 0, 0);
    no_budget(rt, b"budget 0, $41: ", 0x8000, 0x41, 0);
    no_budget(rt, b"budget 0, WAI: ", 0x8000, 0x3e, 0);
    no_budget(rt, b"budget 0, NOP: ", 0x8000, 0x01, 0);
    no_budget(rt, b"budget 0, $41 at home: ", 0x8000, 0x41, 0x8000);
    no_budget(rt, b"budget 0, WAI at home: ", 0x8000, 0x3e, 0x8000);
    no_budget(rt, b"budget 0, NOP at home: ", 0x8000, 0x01, 0x8000);
    no_budget(rt, b"budget 0, TEST at $0000, not home: ", 0, 0, 0x8000);
}
