// An inner crate: a memory of 65,536 plain bytes, whose addresses wrap.
#![tactic(auto)]

ghost use Rattle.std.specs.Prelude.{◌≡◌};
ghost use Rattle.memory.specs.Memory.{byte_at, word_at, with_byte};
ghost use Rattle.memory.specs.inner.Stored.{with_stored, with_pushed};

use registers::word::{wrapping_add, wrapping_sub};

pub type Memory = [u8; 65536];

#[tactic(auto, unfolding(crate::specs::Memory::byte_at))]
pub fn byte_at(mem: &Memory, at: u16) -> u8
    ensures { result ≡ byte_at mem.now at }
{
    mem[at as usize]
}

// High byte first.
#[tactic(auto, unfolding(crate::specs::Memory::word_at))]
pub fn word_at(mem: &Memory, at: u16) -> u16
    ensures { result ≡ word_at mem.now at }
{
    u16::from_be_bytes([byte_at(mem, at), byte_at(mem, wrapping_add(at, 1))])
}

#[tactic(auto, unfolding(crate::specs::Memory::with_byte))]
pub fn put_byte(mem: &mut Memory, at: u16, v: u8)
    ensures { mem.new ≡ with_byte mem.old at v }
{
    mem[at as usize] = v;
}

// A 16-bit store: the high byte first.
#[tactic(auto, unfolding(crate::specs::inner::Stored::with_stored))]
pub fn put_word(mem: &mut Memory, at: u16, v: u16)
    ensures { mem.new ≡ with_stored mem.old at v }
{
    let [high, low] = v.to_be_bytes();
    put_byte(mem, at, high);
    put_byte(mem, wrapping_add(at, 1), low);
}

// A 16-bit push: the low byte at sp, then the high byte below it.
#[tactic(auto, unfolding(crate::specs::inner::Stored::with_pushed))]
pub fn push_word(mem: &mut Memory, sp: u16, v: u16)
    ensures { mem.new ≡ with_pushed mem.old sp v }
{
    let [high, low] = v.to_be_bytes();
    put_byte(mem, sp, low);
    put_byte(mem, wrapping_sub(sp, 1), high);
}
