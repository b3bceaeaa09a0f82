// The instructions that leave memory and PC alone; of these LDS moves SP. Each is called with its case as a constant.
ghost use Rattle.opcodes.specs.declared.instruction.Action.TheVariants as Action;
ghost use Rattle.instructions.specs.inner.Sited.{Leaves, TakesByte, TakesWord};

use crate::named::{accumulator, to_word, with_accumulator, word_register};
use arithmetic::byte::{binary, tst, unary};
use arithmetic::word::{add16, logic16, sub16};
use opcodes::instruction::{Accumulator, Binary, Unary, Word};
use registers::Registers;

// NEGA, NEGB ..: a byte of an accumulator.
#[tactic(auto, unfolding(crate::proofs::Effects::opened))]
pub fn unary_on(u: Unary, c: Accumulator, r: Registers) -> Registers
    ensures { Leaves (Action.Unary u c) r result }
{
    let made = unary(u, accumulator(c, r), r.flags);
    with_accumulator(c, r, made.value, made.flags)
}

// TSTA, TSTB.
#[tactic(auto, unfolding(crate::proofs::Effects::opened))]
pub fn test_accumulator(c: Accumulator, r: Registers) -> Registers
    ensures { Leaves (Action.TstAccumulator c) r result }
{
    r.with_flags(tst(accumulator(c, r), r.flags))
}

// SUBA, SUBB ..: a byte of an accumulator and the operand byte v.
#[tactic(auto, unfolding(crate::proofs::Effects::opened))]
pub fn binary_on(b: Binary, c: Accumulator, v: u8, r: Registers) -> Registers
    ensures { TakesByte (Action.Binary b c) v r result }
{
    let made = binary(b, accumulator(c, r), v, r.flags);
    with_accumulator(c, r, made.value, made.flags)
}

// TST of memory.
#[tactic(auto, unfolding(crate::proofs::Effects::opened))]
pub fn test_byte(v: u8, r: Registers) -> Registers
    ensures { TakesByte Action.TstMemory v r result }
{
    r.with_flags(tst(v, r.flags))
}

// LDD, LDX, LDY, LDS.
#[tactic(auto, unfolding(crate::proofs::Effects::opened))]
pub fn load_word(w: Word, v: u16, r: Registers) -> Registers
    ensures { TakesWord (Action.LoadWord w) v r result }
{
    let q = to_word(w, r, v, logic16(v, r.flags));
    match w {
        Word::D | Word::X | Word::Y => q,
        Word::S => q.with_sp(v),
    }
}

// ADDD.
#[tactic(auto, unfolding(crate::proofs::Effects::opened))]
pub fn add_word(v: u16, r: Registers) -> Registers
    ensures { TakesWord Action.Addd v r result }
{
    let made = add16(r.d(), v, r.flags);
    r.with_d(made.value, made.flags)
}

// SUBD.
#[tactic(auto, unfolding(crate::proofs::Effects::opened))]
pub fn subtract_word(v: u16, r: Registers) -> Registers
    ensures { TakesWord Action.Subd v r result }
{
    let made = sub16(r.d(), v, r.flags);
    r.with_d(made.value, made.flags)
}

// CPD, CPX, CPY.
#[tactic(auto, unfolding(crate::proofs::Effects::opened))]
pub fn compare_word(w: Word, v: u16, r: Registers) -> Registers
    ensures { TakesWord (Action.CompareWord w) v r result }
{
    r.with_flags(sub16(word_register(w, r), v, r.flags).flags)
}
