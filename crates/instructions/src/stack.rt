// Pushes and pulls, what moves SP alone, and RTS.
ghost use Rattle.opcodes.specs.declared.instruction.Action.TheVariants as Action;
ghost use Rattle.instructions.specs.inner.Sited.{Does, Leaves};

use crate::named::{accumulator, index_register, with_accumulator, with_index};
use memory::{Memory, byte_at, put_byte, word_at};
use opcodes::instruction::{Accumulator, Index};
use registers::Registers;
use registers::word::{wrapping_add, wrapping_sub};

// PSHA, PSHB.
#[tactic(auto, unfolding(crate::proofs::Effects::opened))]
pub fn push_byte(c: Accumulator, r: Registers, mem: &mut Memory) -> Registers
    ensures { Does (Action.PushByte c) r mem.old result mem.new }
{
    put_byte(mem, r.sp, accumulator(c, r));
    r.with_sp(wrapping_sub(r.sp, 1))
}

// PSHX, PSHY.
#[tactic(auto, unfolding(crate::proofs::Effects::opened))]
pub fn push_word(i: Index, r: Registers, mem: &mut Memory) -> Registers
    ensures { Does (Action.PushWord i) r mem.old result mem.new }
{
    memory::push_word(mem, r.sp, index_register(i, r));
    r.with_sp(wrapping_sub(r.sp, 2))
}

// PULA, PULB.
#[tactic(auto, unfolding(crate::proofs::Effects::opened))]
pub fn pull_byte(c: Accumulator, r: Registers, mem: &Memory) -> Registers
    ensures { Does (Action.PullByte c) r mem.now result mem.now }
{
    let s = wrapping_add(r.sp, 1);
    let v = byte_at(mem, s);
    with_accumulator(c, r, v, r.flags).with_sp(s)
}

// PULX, PULY.
#[tactic(auto, unfolding(crate::proofs::Effects::opened))]
pub fn pull_word(i: Index, r: Registers, mem: &Memory) -> Registers
    ensures { Does (Action.PullWord i) r mem.now result mem.now }
{
    let v = word_at(mem, wrapping_add(r.sp, 1));
    with_index(i, r, v).with_sp(wrapping_add(r.sp, 2))
}

// DES.
#[tactic(auto, unfolding(crate::proofs::Effects::opened))]
pub fn reserve(r: Registers) -> Registers
    ensures { Leaves Action.Des r result }
{
    r.with_sp(wrapping_sub(r.sp, 1))
}

// INS.
#[tactic(auto, unfolding(crate::proofs::Effects::opened))]
pub fn release(r: Registers) -> Registers
    ensures { Leaves Action.Ins r result }
{
    r.with_sp(wrapping_add(r.sp, 1))
}

// TXS, TYS.
#[tactic(auto, unfolding(crate::proofs::Effects::opened))]
pub fn set_stack(i: Index, r: Registers) -> Registers
    ensures { Leaves (Action.SetStack i) r result }
{
    r.with_sp(wrapping_sub(index_register(i, r), 1))
}

// RTS.
#[tactic(auto, unfolding(crate::proofs::Effects::opened))]
pub fn return_from(r: Registers, mem: &Memory) -> Registers
    ensures { Does Action.Rts r mem.now result mem.now }
{
    r.with_pc_sp(word_at(mem, wrapping_add(r.sp, 1)), wrapping_add(r.sp, 2))
}
