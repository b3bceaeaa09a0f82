// The registers by name: what an action has as its data.
ghost use Rattle.std.specs.Prelude.{◌≡◌};
ghost use Rattle.registers.specs.Registers.{data_of, with_data};
ghost use Rattle.instructions.specs.Named.{accumulator_of, with_accumulator, index_register_of, with_index};
ghost use Rattle.instructions.specs.Named.{word_register_of, to_word};

use opcodes::instruction::{Accumulator, Index, Word};
use registers::Registers;

#[tactic(auto, unfolding(crate::specs::Named::accumulator_of))]
pub fn accumulator(c: Accumulator, r: Registers) -> u8
    ensures { result ≡ accumulator_of c (data_of r) }
{
    match c {
        Accumulator::A => r.a,
        Accumulator::B => r.b,
    }
}

#[tactic(auto, unfolding(crate::specs::Named::with_accumulator))]
pub fn with_accumulator(c: Accumulator, r: Registers, v: u8, f: u8) -> Registers
    ensures { result ≡ with_data r (with_accumulator c (data_of r) v f) }
{
    match c {
        Accumulator::A => r.with_a(v, f),
        Accumulator::B => r.with_b(v, f),
    }
}

#[tactic(auto, unfolding(crate::specs::Named::index_register_of))]
pub fn index_register(i: Index, r: Registers) -> u16
    ensures { result ≡ index_register_of i (data_of r) }
{
    match i {
        Index::X => r.x,
        Index::Y => r.y,
    }
}

#[tactic(auto, unfolding(crate::specs::Named::with_index))]
pub fn with_index(i: Index, r: Registers, v: u16) -> Registers
    ensures { result ≡ with_data r (with_index i (data_of r) v) }
{
    match i {
        Index::X => r.with_x(v, r.flags),
        Index::Y => r.with_y(v, r.flags),
    }
}

#[tactic(auto, unfolding(crate::specs::Named::word_register_of))]
pub fn word_register(w: Word, r: Registers) -> u16
    ensures { result ≡ word_register_of w r.sp (data_of r) }
{
    match w {
        Word::D => r.d(),
        Word::X => r.x,
        Word::Y => r.y,
        Word::S => r.sp,
    }
}

// LDS sets the flags alone here: SP is not among the data.
#[tactic(auto, unfolding(crate::specs::Named::to_word))]
pub fn to_word(w: Word, r: Registers, v: u16, f: u8) -> Registers
    ensures { result ≡ with_data r (to_word w (data_of r) v f) }
{
    match w {
        Word::D => r.with_d(v, f),
        Word::X => r.with_x(v, f),
        Word::Y => r.with_y(v, f),
        Word::S => r.with_flags(f),
    }
}
