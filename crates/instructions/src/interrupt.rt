// SWI and RTI: all the registers onto the stack, and back.
ghost use Rattle.std.specs.Prelude.{◌≡◌};
ghost use Rattle.registers.specs.Word.{wrapping_sub};
ghost use Rattle.memory.specs.Memory.{applied};
ghost use Rattle.memory.specs.inner.Stored.{with_pushed};
ghost use Rattle.instructions.specs.Interrupt.{stacked_of, interrupted_of, resumed_of};

use crate::inherent::{replaced, with_i};
use memory::{Memory, byte_at, push_word, put_byte, word_at};
use registers::Registers;
use registers::word::{wrapping_add, wrapping_sub};

// PC, Y and X: the first six of the nine bytes.
fn stack_words(r: Registers, mem: &mut Memory)
    ensures { mem.new ≡ with_pushed (with_pushed (with_pushed mem.old r.sp r.pc)
        (wrapping_sub r.sp 2) r.y) (wrapping_sub r.sp 4) r.x }
{
    push_word(mem, r.sp, r.pc);
    push_word(mem, wrapping_sub(r.sp, 2), r.y);
    push_word(mem, wrapping_sub(r.sp, 4), r.x);
}

#[tactic(auto, unfolding(memory::specs::inner::Stored::with_pushed, crate::specs::Interrupt::stacked_of))]
fn stack_all(r: Registers, mem: &mut Memory)
    ensures { mem.new ≡ applied (stacked_of r) mem.old }
{
    stack_words(r, mem);
    put_byte(mem, wrapping_sub(r.sp, 6), r.a);
    put_byte(mem, wrapping_sub(r.sp, 7), r.b);
    put_byte(mem, wrapping_sub(r.sp, 8), r.flags);
}

// SWI.
#[tactic(auto, unfolding(crate::specs::Interrupt::interrupted_of))]
pub fn interrupt(r: Registers, mem: &mut Memory) -> Registers
    ensures { (result ≡ interrupted_of r mem.old)
        × (mem.new ≡ applied (stacked_of r) mem.old) }
{
    stack_all(r, mem);
    Registers {
        sp: wrapping_sub(r.sp, 9),
        pc: word_at(mem, 0xfff6),
        flags: with_i(r.flags, true),
        ..r
    }
}

// RTI.
#[tactic(auto, unfolding(crate::specs::Interrupt::resumed_of))]
pub fn resume(r: Registers, mem: &Memory) -> Registers
    ensures { result ≡ resumed_of r mem.now }
{
    Registers {
        x: word_at(mem, wrapping_add(r.sp, 4)),
        y: word_at(mem, wrapping_add(r.sp, 6)),
        sp: wrapping_add(r.sp, 9),
        pc: word_at(mem, wrapping_add(r.sp, 8)),
        a: byte_at(mem, wrapping_add(r.sp, 3)),
        b: byte_at(mem, wrapping_add(r.sp, 2)),
        flags: replaced(byte_at(mem, wrapping_add(r.sp, 1)), r.flags),
        ..r
    }
}
