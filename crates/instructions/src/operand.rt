// Where an operand stands, and what a bit instruction has besides.
ghost use Rattle.std.specs.Prelude.{◌≡◌};
ghost use Rattle.registers.specs.Word.{wrapping_add, target_of};
ghost use Rattle.memory.specs.Memory.{byte_at};
ghost use Rattle.opcodes.specs.inner.Numbers.{mode_of};
ghost use Rattle.instructions.specs.inner.Sited.{address_at};

use memory::{Memory, byte_at, word_at};
use registers::Registers;
use registers::word::{target, wrapping_add};

// Past an index register by the unsigned offset that stands at `from`.
fn indexed(index: u16, from: u16, mem: &Memory) -> u16
    ensures { result ≡ wrapping_add index (byte_at mem.now from) }
{
    wrapping_add(index, byte_at(mem, from) as u16)
}

// The address of an operand of mode k, whose bytes start at `from`; PC stands past the instruction. An immediate
// operand stands there itself.
#[tactic(auto, unfolding(crate::specs::inner::Sited::address_at))]
pub fn address(k: u8, from: u16, r: Registers, mem: &Memory) -> u16
    ensures { result ≡ address_at (mode_of k) from r mem.now }
{
    match k {
        3 | 8 | 11 => byte_at(mem, from) as u16, // direct: alone, with a mask, with a mask and an offset
        4 => word_at(mem, from), // extended
        5 | 9 | 12 => indexed(r.x, from, mem), // indexed by X, likewise
        6 | 10 | 13 => indexed(r.y, from, mem), // indexed by Y, likewise
        7 => target(r.pc, byte_at(mem, from)), // relative
        _ => from, // inherent; immediate, a byte or a word; no other number is a mode's
    }
}

// The mask of a bit instruction stands after the operand's first byte.
pub fn mask(from: u16, mem: &Memory) -> u8
    ensures { result ≡ byte_at mem.now (wrapping_add from 1) }
{
    byte_at(mem, wrapping_add(from, 1))
}

// The offset of BRSET and BRCLR stands after the mask.
pub fn bit_target(from: u16, next: u16, mem: &Memory) -> u16
    ensures { result ≡ target_of next (byte_at mem.now (wrapping_add from 2)) }
{
    target(next, byte_at(mem, wrapping_add(from, 2)))
}
