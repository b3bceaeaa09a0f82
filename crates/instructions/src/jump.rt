// Branches, jumps and calls.
ghost use Rattle.std.specs.Prelude.{◌≡◌, cond};
ghost use Rattle.registers.specs.Registers.{with_pc};
ghost use Rattle.opcodes.specs.declared.instruction.Action.TheVariants as Action;
ghost use Rattle.instructions.specs.Outcome.{all_set, none_set};
ghost use Rattle.instructions.specs.inner.Sited.{GoesTo, GoesOnBits, JumpsTo, StoresAt};

use memory::{Memory, push_word};
use opcodes::condition::test_holds;
use registers::Registers;
use registers::word::wrapping_sub;

// Whether every bit of the mask is set in v; whether none is.
fn all_set(v: u8, mask: u8) -> bool
    ensures { result ≡ all_set v mask }
{
    (v & mask) == mask
}

fn none_set(v: u8, mask: u8) -> bool
    ensures { result ≡ none_set v mask }
{
    (v & mask) == 0
}

// On to the target of a branch that is taken.
fn branch_if(taken: bool, t: u16, r: Registers) -> Registers
    ensures { result ≡ with_pc r (cond taken t r.pc) }
{
    if taken { r.with_pc(t) } else { r }
}

// BRA .. BLE, by the number of the test.
pub fn branch(test: u8, t: u16, r: Registers) -> Registers
    ensures { GoesTo (Action.Branch test) t r result }
{
    branch_if(test_holds(test, r.flags), t, r)
}

// BRSET of the byte v.
#[tactic(auto, unfolding(crate::proofs::Effects::opened))]
pub fn branch_set(v: u8, mask: u8, t: u16, r: Registers) -> Registers
    ensures { GoesOnBits Action.Brset v mask t r result }
{
    branch_if(all_set(v, mask), t, r)
}

// BRCLR of the byte v.
#[tactic(auto, unfolding(crate::proofs::Effects::opened))]
pub fn branch_clear(v: u8, mask: u8, t: u16, r: Registers) -> Registers
    ensures { GoesOnBits Action.Brclr v mask t r result }
{
    branch_if(none_set(v, mask), t, r)
}

// JMP.
#[tactic(auto, unfolding(crate::proofs::Effects::opened))]
pub fn jump(at: u16, r: Registers) -> Registers
    ensures { JumpsTo Action.Jmp at r result }
{
    r.with_pc(at)
}

// JSR and BSR: PC stands past the instruction.
#[tactic(auto, unfolding(crate::proofs::Effects::opened))]
pub fn call(at: u16, r: Registers, mem: &mut Memory) -> Registers
    ensures { StoresAt Action.Call at r mem.old result mem.new }
{
    push_word(mem, r.sp, r.pc);
    r.with_pc_sp(at, wrapping_sub(r.sp, 2))
}
