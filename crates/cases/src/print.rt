// Answers as text, one to a line.
use answers::Refusal;
use output::{decimal, registers, text, word};
use stepper::answer::{Ran, Reached, Stepped};

// The registers and the cycles.
fn reached(rt: &impl Print, r: Reached) {
    registers(rt, r.registers);
    text(rt, b" cycles ");
    decimal(rt, r.cycles.0 as u64);
    text(rt, b"\n");
}

// Document 01's number and place.
fn refusal(rt: &impl Print, x: Refusal) {
    text(rt, b"refused ");
    decimal(rt, x.cause.number() as u64);
    word(rt, b" at ", (x.place % 65536) as u16);
}

pub fn stepped(rt: &impl Print, s: Stepped) {
    match s {
        Ok(r) => reached(rt, r),
        Err(x) => {
            refusal(rt, x);
            text(rt, b"\n");
        }
    }
}

pub fn ran(rt: &impl Print, a: Ran) {
    match a {
        Ran::Home(r) => {
            text(rt, b"home: ");
            reached(rt, r);
        }
        Ran::Spent(r) => {
            text(rt, b"spent: ");
            reached(rt, r);
        }
        Ran::Refused(r, x) => {
            refusal(rt, x);
            text(rt, b": ");
            reached(rt, r);
        }
    }
}
