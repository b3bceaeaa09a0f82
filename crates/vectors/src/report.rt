// A difference by its line and place: what differs, what was expected and what step answered.
use crate::hex::{hex_byte_in, registers_in};
use crate::line::Line;
use crate::loaded::{expected_in, memory_in, opcode_place_in};
use memory::Memory;
use output::{byte, decimal, registers, text, word};
use registers::Cycles;
use stepper::answer::{Reached, Stepped};
use stepper::step;

// What differs of an answer that is done.
fn parts(rt: &impl Print, p: Reached, q: Reached) {
    if p.registers.with_flags(0) != q.registers.with_flags(0) {
        text(rt, b" registers");
    }
    if p.registers.flags != q.registers.flags {
        text(rt, b" flags");
    }
    if p.cycles != q.cycles {
        text(rt, b" cycles");
    }
}

fn outcome(rt: &impl Print, r: Reached) {
    registers(rt, r.registers);
    text(rt, b" cycles ");
    decimal(rt, r.cycles.0 as u64);
    text(rt, b"\n");
}

fn answered(rt: &impl Print, a: Stepped) {
    text(rt, b"  answered: ");
    match a {
        Ok(r) => outcome(rt, r),
        Err(x) => {
            text(rt, b"refused ");
            decimal(rt, x.cause.number() as u64);
            text(rt, b"\n");
        }
    }
}

// The first byte of memory that differs, what is expected there and what is found.
fn memory(rt: &impl Print, mem: &Memory, expected: &Memory) {
    let mut bytes = mem.iter().zip(expected).enumerate();
    if let Some((i, (found, due))) = bytes.find(|(_, (found, due))| found != due) {
        word(rt, b"  memory at ", (i % 65536) as u16);
        byte(rt, b": expected ", *due);
        byte(rt, b", found ", *found);
        text(rt, b"\n");
    }
}

pub fn difference(rt: &impl Print, number: u32, l: Line<'_>) {
    let s = l.text;
    let mut mem = memory_in(l);
    let expected = expected_in(l);
    let q = Reached {
        registers: registers_in(s, 33),
        cycles: Cycles(hex_byte_in(s, 3) as u32),
    };
    let a = step(registers_in(s, 6), &mut mem);
    text(rt, b"line ");
    decimal(rt, number as u64);
    word(rt, b", place ", opcode_place_in(l));
    text(rt, b":");
    match a {
        Ok(p) => parts(rt, p, q),
        Err(_) => text(rt, b" refused"),
    }
    if mem != expected {
        text(rt, b" memory");
    }
    text(rt, b"\n  expected: ");
    outcome(rt, q);
    answered(rt, a);
    memory(rt, &mem, &expected);
}
