// What a line says of memory and of the step, and the place of its instruction in the opcode maps.
ghost use Rattle.std.specs.Prelude.{◌≡◌, ◌+◌, ◌*◌, ◌<◌, ◌≤◌, length};
ghost use Rattle.memory.specs.Memory.{applied};
ghost use Rattle.vectors.specs.Vector.{background, stores_in, memory_in, expected_in, opcode_place_in};

use crate::hex::{hex_byte_in, hex_word_in};
use crate::line::Line;
use memory::{Memory, byte_at, put_byte};
use opcodes::lookup::page_of;

#[tactic(auto, unfolding(crate::specs::Vector::background))]
pub fn background() -> Memory
    ensures { result ≡ background }
{
    [0x3c; 65536]
}

// n bytes go to their addresses. Their groups start at place `from` of the line.
fn load(mem: &mut Memory, s: &[u8], from: usize, n: usize)
    requires { from + 7 * n ≤ length s.now + 1 }
    ensures { mem.new ≡ applied (stores_in s.now from n) mem.old }
{
    for k in 0..n {
        let i = from + 7 * k;
        put_byte(mem, hex_word_in(s, i), hex_byte_in(s, i + 4));
    }
}

// The memory before the step.
#[tactic(auto, unfolding(crate::specs::Vector::memory_in))]
pub fn memory_in(l: Line<'_>) -> Memory
    ensures { result ≡ memory_in l.entry.text.now }
{
    let s = l.text;
    let mut mem = background();
    load(&mut mem, s, 63, hex_byte_in(s, 60) as usize);
    mem
}

// The memory that is expected after it.
#[tactic(auto, unfolding(crate::specs::Vector::expected_in))]
pub fn expected_in(l: Line<'_>) -> Memory
    ensures { result ≡ expected_in l.entry.text.now }
{
    let s = l.text;
    let n = hex_byte_in(s, 60) as usize;
    let w = hex_byte_in(s, 63 + 7 * n) as usize;
    let mut mem = memory_in(l);
    load(&mut mem, s, 66 + 7 * n, w);
    mem
}

// The place of the instruction at PC: its first byte, or 256 times its map and its second byte.
#[tactic(auto, unfolding(crate::specs::Vector::opcode_place_in, opcodes::specs::Decode::opcode_place, registers::specs::Word::wrapping_add, crate::specs::Hex::registers_in))]
pub fn opcode_place_in(l: Line<'_>) -> u16
    ensures { (result ≡ opcode_place_in l.entry.text.now) × (result < 1024) }
{
    let mem = memory_in(l);
    let pc = hex_word_in(l.text, 22);
    let first = byte_at(&mem, pc);
    let page = page_of(first);
    if page == 0 {
        return first as u16;
    }
    page + (byte_at(&mem, pc.wrapping_add(1)) as u16)
}
