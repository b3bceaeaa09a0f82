// The stores and the read-modify-writes, at an address.
ghost use Rattle.std.specs.Prelude.{◌≡◌};
ghost use Rattle.registers.specs.Registers.{data_of, with_flags, with_data};
ghost use Rattle.memory.specs.Memory.{with_byte};
ghost use Rattle.opcodes.specs.declared.instruction.Action.TheVariants as Action;
ghost use Rattle.instructions.specs.inner.Sited.{StoresAt, ModifiesAt, MasksAt};

use crate::named::{accumulator, word_register};
use arithmetic::byte::{bclr, bset, logic8, unary};
use arithmetic::codes::Coded;
use arithmetic::word::logic16;
use memory::{Memory, byte_at, put_byte, put_word};
use opcodes::instruction::{Accumulator, Unary, Word};
use registers::Registers;

// STAA, STAB.
#[tactic(auto, unfolding(crate::proofs::Effects::opened))]
pub fn store_byte(c: Accumulator, at: u16, r: Registers, mem: &mut Memory) -> Registers
    ensures { StoresAt (Action.StoreByte c) at r mem.old result mem.new }
{
    let v = accumulator(c, r);
    put_byte(mem, at, v);
    r.with_flags(logic8(v, r.flags))
}

// STD, STX, STY, STS.
#[tactic(auto, unfolding(crate::proofs::Effects::opened))]
pub fn store_word(w: Word, at: u16, r: Registers, mem: &mut Memory) -> Registers
    ensures { StoresAt (Action.StoreWord w) at r mem.old result mem.new }
{
    let v = word_register(w, r);
    put_word(mem, at, v);
    r.with_flags(logic16(v, r.flags))
}

// A byte made for memory goes to an address, and its condition codes to the flags.
fn put_result(b: Coded<u8>, at: u16, r: Registers, mem: &mut Memory) -> Registers
    ensures { (result ≡ with_data r (with_flags (data_of r) b.flags))
        × (mem.new ≡ with_byte mem.old at b.value) }
{
    put_byte(mem, at, b.value);
    r.with_flags(b.flags)
}

// NEG, COM, LSR, ROR, ASR, ASL, ROL, DEC, INC, CLR.
#[tactic(auto, unfolding(crate::proofs::Effects::opened))]
pub fn modify(u: Unary, at: u16, r: Registers, mem: &mut Memory) -> Registers
    ensures { ModifiesAt (Action.Modify u) at r mem.old result mem.new }
{
    let b = unary(u, byte_at(mem, at), r.flags);
    put_result(b, at, r, mem)
}

// BSET.
#[tactic(auto, unfolding(crate::proofs::Effects::opened))]
pub fn set_bits(mask: u8, at: u16, r: Registers, mem: &mut Memory) -> Registers
    ensures { MasksAt Action.Bset mask at r mem.old result mem.new }
{
    let b = bset(byte_at(mem, at), mask, r.flags);
    put_result(b, at, r, mem)
}

// BCLR.
#[tactic(auto, unfolding(crate::proofs::Effects::opened))]
pub fn clear_bits(mask: u8, at: u16, r: Registers, mem: &mut Memory) -> Registers
    ensures { MasksAt Action.Bclr mask at r mem.old result mem.new }
{
    let b = bclr(byte_at(mem, at), mask, r.flags);
    put_result(b, at, r, mem)
}
