// A step and a run on register bytes, and the numbers that a call answers.
ghost use Rattle.std.specs.Prelude.{◌≡◌, List, ℕ, ◌<◌};
ghost use Rattle.monitor.specs.RegisterBytes.{packed};
ghost use Rattle.monitor.specs.StepperCalls.{stepper_call, step_bytes_of, run_bytes_of};
ghost use Rattle.monitor.specs.inner.Replies.{stepper_replied};

use crate::register_bytes::{RegisterBytes, pack, unpack};
use answers::{Cause, Refusal};
use registers::{Cycles, Registers};
use stepper::answer::Ran;
use stepper::environment::Environment;

// A reset or a step is done, or a run is home.
pub const DONE: u32 = 0;

pub const BAD_LENGTH: u32 = 21;

// Past the numbers of the papers' refusals, which go to 37.
const SPENT: u32 = 100;

// A run refused on its way: the refusal's cause and place, and the cycles before it.
#[derive(Clone, Copy)]
pub struct StoppedRun {
    pub cause: Cause,
    pub cycles: Cycles,
    pub place: u16,
}

// What a call answers beside the lent bytes; what it does not answer is left as it was lent.
#[derive(Clone, Copy)]
pub enum StepperReply {
    Done(u32, Cycles), // an outcome that is no refusal
    Stopped(StoppedRun),
    Refused(u32, u16), // nothing was done: number and place
}

// Of a refusal of a step or of a run: its place is PC or 0.
fn address_of(x: Refusal) -> u16
    requires { x.place < 65536 }
    ensures { result ≡ x.place }
{
    x.place as u16
}

// The registers reached are stored.
fn reached(q: Registers, regs: &mut RegisterBytes, a: StepperReply) -> StepperReply
    ensures { (regs.new ≡ packed q) × (result ≡ a) }
{
    pack(q, regs);
    a
}

// A refused step stores nothing. The step itself answers 21 at 0 of a memory of another length.
pub fn step_on(regs: &mut [u8], mem: &mut [u8]) -> StepperReply
    ensures { (c p : ℕ) → stepper_replied result c p regs.new mem.new
        ≡ step_bytes_of c p regs.old mem.old }
{
    let Some(bytes) = regs.as_mut_array() else {
        return StepperReply::Refused(BAD_LENGTH, 0);
    };
    let r = unpack(bytes);
    match stepper::step(r, mem) {
        Ok(q) => reached(q.registers, bytes, StepperReply::Done(DONE, q.cycles)),
        Err(x) => StepperReply::Refused(x.cause.number() as u32, address_of(x)),
    }
}

// Every answer of a run holds the registers reached, a refusal on the way too.
pub fn run_on(regs: &mut [u8], mem: &mut [u8], home: u16, budget: u32) -> StepperReply
    ensures { (c p : ℕ) → stepper_replied result c p regs.new mem.new
        ≡ run_bytes_of c p regs.old mem.old home budget }
{
    let Some(bytes) = regs.as_mut_array() else {
        return StepperReply::Refused(BAD_LENGTH, 0);
    };
    if mem.len() != 65536 {
        return StepperReply::Refused(BAD_LENGTH, 0); // before home is looked at
    }
    let r = unpack(bytes);
    match stepper::run(r, mem, Environment { home }, budget) {
        Ran::Home(q) => reached(q.registers, bytes, StepperReply::Done(DONE, q.cycles)),
        Ran::Spent(q) => reached(q.registers, bytes, StepperReply::Done(SPENT, q.cycles)),
        Ran::Refused(q, x) => {
            let s = StoppedRun {
                cause: x.cause,
                cycles: q.cycles,
                place: address_of(x),
            };
            reached(q.registers, bytes, StepperReply::Stopped(s))
        }
    }
}

// Only the numbers that are answered are written.
pub fn answer(a: StepperReply, cycles: &mut u32, place: &mut u16) -> u32
    ensures { (rs m : List ℕ) → stepper_call result cycles.new place.new rs m
        ≡ stepper_replied a cycles.old place.old rs m }
{
    match a {
        StepperReply::Done(n, k) => {
            *cycles = k.0;
            n
        }
        StepperReply::Stopped(s) => {
            *cycles = s.cycles.0;
            *place = s.place;
            s.cause.number() as u32
        }
        StepperReply::Refused(n, p) => {
            *place = p;
            n
        }
    }
}
