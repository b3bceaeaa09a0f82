// Whether a step comes to what a line says: every register, all eight flags, the lowest SP, the cycles and all 65,536
// bytes.
ghost use Rattle.std.specs.Prelude.{◌≡◌, true, ◌↔◌};
ghost use Rattle.stepper.specs.Answer.{answer_of, done};
ghost use Rattle.vectors.specs.Vector.{StepAgrees};

use crate::hex::{hex_byte_in, registers_in};
use crate::line::Line;
use crate::loaded::{expected_in, memory_in};
use check::same;
use registers::{Cycles, Registers};
use stepper::answer::Stepped;
use stepper::step;

// Whether an answer is these registers after so many cycles.
fn is_done(a: Stepped, q: Registers, k: Cycles) -> bool
    ensures { (result ≡ true) ↔ (answer_of a ≡ done q k) }
{
    match a {
        Ok(p) => (p.cycles == k) & (p.registers == q),
        Err(_) => false,
    }
}

// Whether a step agrees with a line.
pub fn step_agrees(l: Line<'_>) -> bool
    ensures { (result ≡ true) ↔ (StepAgrees l.entry.text.now) }
{
    let s = l.text;
    let mut mem = memory_in(l);
    let a = step(registers_in(s, 6), &mut mem);
    if !is_done(a, registers_in(s, 33), Cycles(hex_byte_in(s, 3) as u32)) {
        return false;
    }
    let expected = expected_in(l);
    same(&mem, &expected)
}
