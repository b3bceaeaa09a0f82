// The slot that a routine is judged into once, and started from again and again: 26 bytes, high byte first. An inner
// module of the C calls.
ghost use Rattle.std.specs.Prelude.{◌≡◌, ℕ, ◌+◌, ◌<◌, length};
ghost use Rattle.monitor.specs.inner.Replies.{reply_number, reply_place, start_replied};
ghost use Rattle.monitor.specs.RoutineCalls.{certify_call, certify_bytes_of, start_slot_of};
ghost use Rattle.monitor.specs.Slot.{slot_of, window_in, header_in};
ghost use Rattle.monitor.specs.inner.Put.{put_window};

use crate::big_endian::{long_in, put_long, put_word, word_in};
use crate::routine_calls::{data_in, stored};
use answers::{Cause, Refusal, refuse};
use commands::header::{Header, Window};
use registers::Cycles;
use verdict::{Certificate, certify, start};

type Slot = [u8; 26];

fn window_in(slot: &[u8], at: usize) -> Window
    requires { at + 3 < length slot.now }
    ensures { result ≡ window_in slot.now at }
{
    Window {
        start: word_in(slot, at),
        length: word_in(slot, at + 2),
    }
}

#[tactic(auto, unfolding(crate::specs::Slot::header_in))]
fn header_in(slot: &Slot) -> Header
    ensures { result ≡ header_in slot.now }
{
    Header {
        code: window_in(slot, 0),
        data: window_in(slot, 4),
        stack: window_in(slot, 8),
        entry: word_in(slot, 12),
        limit: Cycles(long_in(slot, 14)),
        home: word_in(slot, 24),
    }
}

fn put_window(slot: &mut [u8], at: usize, w: Window)
    requires { at + 3 < length slot.old }
    ensures { (slot.new ≡ put_window slot.old at w)
        × (length slot.new ≡ length slot.old) }
{
    put_word(slot, at, w.start);
    put_word(slot, at + 2, w.length);
}

fn put_slot(c: Certificate, slot: &mut Slot)
    ensures { slot.new ≡ slot_of c }
{
    put_window(slot, 0, c.header.code);
    put_window(slot, 4, c.header.data);
    put_window(slot, 8, c.header.stack);
    put_word(slot, 12, c.header.entry);
    put_long(slot, 14, c.header.limit.0);
    put_long(slot, 18, c.cost.0);
    put_word(slot, 22, c.stack.0);
    put_word(slot, 24, c.header.home);
}

// Judges a routine and, where it is accepted, fills the slot.
pub fn certify_into(ticket: &[u8], image: &[u8], slot: &mut [u8]) -> Result<(), Refusal>
    ensures { (p : ℕ) → certify_call (reply_number result) (reply_place result p) slot.new
        ≡ certify_bytes_of p ticket.now image.now slot.old }
{
    let Some(bytes) = slot.as_mut_array() else {
        return Err(refuse(Cause::BadLength, 0));
    };
    let c = certify(ticket, image)?;
    put_slot(c, bytes);
    Ok(())
}

// Starts the routine that the slot was filled for, without judging it. The answer is home.
pub fn start_from(
    slot: &[u8],
    image: &[u8],
    regs: &mut [u8],
    mem: &mut [u8],
) -> Result<u16, Refusal>
    ensures { (h p : ℕ) → start_replied result h p regs.new mem.new
        ≡ start_slot_of h p slot.now image.now regs.old mem.old }
{
    let Some(filled) = slot.as_array() else {
        return Err(refuse(Cause::BadLength, 0));
    };
    let Some(bytes) = regs.as_mut_array() else {
        return Err(refuse(Cause::BadLength, 0));
    };
    let d = data_in(bytes);
    stored(start(header_in(filled), image, d, mem), bytes)
}
