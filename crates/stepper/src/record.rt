// One instruction on a lent register record: document 01's "one thin call advances it by a step".
ghost use Rattle.std.specs.Prelude.{◌≡◌};
ghost use Rattle.stepper.specs.Record.{afterwards, advance_of};

use crate::step;
use answers::Refusal;
use registers::{Cycles, Registers};

// What is answered beside the lent record and memory.
pub type Advanced = Result<Cycles, Refusal>;

// The registers that a step leads to, or, refused, those before it; and the answer.
#[derive(Clone, Copy)]
pub struct AdvancedCopy {
    pub registers: Registers,
    pub answer: Advanced,
}

// The thin call: the lent record goes to the stepper by value, and what that leads to is stored in it.
#[tactic(auto, unfolding(crate::specs::Record::advance_of))]
pub fn advance(r: &mut Registers, mem: &mut [u8]) -> Advanced
    ensures { afterwards result r.new mem.new ≡ advance_of r.old mem.old }
{
    let reached = step(*r, mem)?;
    *r = reached.registers;
    Ok(reached.cycles)
}

// The same for a caller that has the registers as a value: a record is made of them, and lent to `advance`.
pub fn advance_copy(r: Registers, mem: &mut [u8]) -> AdvancedCopy
    ensures { afterwards result.answer result.registers mem.new ≡ advance_of r mem.old }
{
    let mut registers = r;
    let answer = advance(&mut registers, mem);
    AdvancedCopy { registers, answer }
}
