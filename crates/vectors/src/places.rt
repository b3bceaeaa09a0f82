// The places of the opcode maps: which of them hold an instruction, and how many vectors each has.
use crate::loaded::background;
use answers::{Cause, Refusal};
use check::same;
use memory::put_byte;
use output::{counted, decimal, text};
use registers::Registers;
use stepper::step;

// What a step at $8000 comes to, with a refusal only where it names PC and kept memory; kept apart from that of cases.
#[derive(Clone, Copy)]
enum Stands {
    Done,
    Empty,
    Waits,
    Wrong,
}

fn refused(x: Refusal, kept: bool) -> Stands {
    match x.cause {
        _ if !kept | (x.place != 0x8000) => Stands::Wrong,
        Cause::NoInstruction => Stands::Empty,
        Cause::Waits => Stands::Waits,
        _ => Stands::Wrong,
    }
}

fn tried(first: u8, second: u8) -> Stands {
    let mut mem = background();
    put_byte(&mut mem, 0x8000, first);
    put_byte(&mut mem, 0x8001, second);
    let was = mem;
    match step(Registers::reset().with_pc(0x8000), &mut mem) {
        Ok(_) => Stands::Done,
        Err(x) => refused(x, same(&was, &mem)),
    }
}

// The byte that leads to a map; as in listings, with which this program shares no library that lists the maps.
fn prefix(map: usize) -> u8 {
    match map {
        1 => 0x18,
        2 => 0x1a,
        _ => 0xcd,
    }
}

fn tried_at(place: usize) -> Stands {
    let low = (place % 256) as u8;
    if place < 256 {
        tried(low, 0)
    } else {
        tried(prefix(place / 256), low)
    }
}

#[derive(Clone, Copy)]
struct Tally {
    done: u32,
    waits: u32,
    wrong: u32,
    covered: u32,
    few: u32,
}

fn tallied(t: Tally, s: Stands, vectors: u32) -> Tally {
    match s {
        Stands::Done => Tally {
            done: t.done.wrapping_add(1),
            covered: t.covered.wrapping_add(u32::from(0 < vectors)),
            few: t.few.wrapping_add(u32::from(vectors < 100)),
            ..t
        },
        Stands::Waits => Tally {
            waits: t.waits.wrapping_add(1),
            ..t
        },
        Stands::Empty => t,
        Stands::Wrong => Tally {
            wrong: t.wrong.wrapping_add(1),
            ..t
        },
    }
}

fn tally_all(places: &[u32; 1024]) -> Tally {
    let mut t = Tally {
        done: 0,
        waits: 0,
        wrong: 0,
        covered: 0,
        few: 0,
    };
    for (place, vectors) in places.iter().enumerate() {
        t = tallied(t, tried_at(place), *vectors);
    }
    t
}

fn waits(first: u8) -> bool {
    matches!(tried(first, 0), Stands::Waits)
}

// WAI, STOP and TEST, and no other instruction.
fn waiting(rt: &impl Print, n: u32) {
    text(rt, b"WAI, STOP, TEST: ");
    if waits(0x3e) & waits(0xcf) & waits(0x00) & (n == 3) {
        text(rt, b"refused 23\n");
    } else {
        text(rt, b"NOT REFUSED 23\n");
    }
}

pub fn report(rt: &impl Print, places: &[u32; 1024]) {
    let t = tally_all(places);
    text(rt, b"places: ");
    decimal(rt, t.covered as u64);
    text(rt, b" of ");
    decimal(rt, t.done.wrapping_add(t.waits) as u64);
    text(rt, b"\n");
    counted(rt, b"places with fewer than 100 vectors: ", t.few as u64);
    waiting(rt, t.waits);
    counted(rt, b"places refused otherwise: ", t.wrong as u64);
}
