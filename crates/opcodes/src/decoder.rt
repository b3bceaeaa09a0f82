// The instruction at a place of the opcode maps, as an action with an operand. The verdict goes by it; the step goes by
// the tables' numbers.
ghost use Rattle.std.specs.Prelude.{◌≡◌, ◌<◌};
ghost use Rattle.opcodes.specs.Tables.{action_at, mode_at};
ghost use Rattle.opcodes.specs.Decode.{word_from, operand_of, instruction_of};

use crate::instruction::{Action, Address, Decoded, Mode, Operand};
use crate::lookup::{mode_number_at, number_at};
use crate::numbered::{action_of, mode_of};

pub fn action_at(place: usize) -> Action
    requires { place < 1024 }
    ensures { result ≡ action_at place }
{
    action_of(number_at(place))
}

pub fn mode_at(place: usize) -> Mode
    requires { place < 1024 }
    ensures { result ≡ mode_at place }
{
    mode_of(mode_number_at(place))
}

fn word_from(high: u8, low: u8) -> u16
    ensures { result ≡ word_from high low }
{
    u16::from_be_bytes([high, low])
}

// An operand of a mode, from the three bytes after the opcode.
#[tactic(auto, unfolding(crate::specs::Decode::operand_of))]
fn operand_of(mode: Mode, u: u8, v: u8, w: u8) -> Operand
    ensures { result ≡ operand_of mode u v w }
{
    match mode {
        Mode::Inherent => Operand::Inherent,
        Mode::Immediate8 => Operand::Immediate(u as u16),
        Mode::Immediate16 => Operand::Immediate(word_from(u, v)),
        Mode::Direct => Operand::Direct(u),
        Mode::Extended => Operand::Extended(word_from(u, v)),
        Mode::IndexedX => Operand::IndexedX(u),
        Mode::IndexedY => Operand::IndexedY(u),
        Mode::Relative => Operand::Relative(u),
        Mode::MaskDirect => Operand::Mask(Address::Fixed(u as u16), v),
        Mode::MaskX => Operand::Mask(Address::IndexedX(u), v),
        Mode::MaskY => Operand::Mask(Address::IndexedY(u), v),
        Mode::MaskBranchDirect => Operand::MaskBranch(Address::Fixed(u as u16), v, w),
        Mode::MaskBranchX => Operand::MaskBranch(Address::IndexedX(u), v, w),
        Mode::MaskBranchY => Operand::MaskBranch(Address::IndexedY(u), v, w),
    }
}

// The instruction of a place, whose operand's bytes are u, v and w.
#[tactic(auto, unfolding(crate::specs::Decode::instruction_of))]
pub fn decode(place: usize, u: u8, v: u8, w: u8) -> Decoded
    requires { place < 1024 }
    ensures { result ≡ instruction_of place u v w }
{
    Decoded {
        action: action_at(place),
        operand: operand_of(mode_at(place), u, v, w),
    }
}
