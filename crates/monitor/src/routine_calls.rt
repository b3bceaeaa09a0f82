// A routine judged and started on the registers' bytes, and the number that a call answers. An inner module of the C
// calls.
ghost use Rattle.std.specs.Prelude.{List, ◌≡◌, ℕ};
ghost use Rattle.answers.specs.Cause.{number_of};
ghost use Rattle.registers.specs.Registers.{data_of};
ghost use Rattle.monitor.specs.RegisterBytes.{unpacked};
ghost use Rattle.monitor.specs.inner.Replies.{reply_number, reply_place, start_replied};
ghost use Rattle.monitor.specs.RoutineCalls.{start_call, of_started, start_bytes_of};

use crate::register_bytes::{RegisterBytes, pack, unpack};
use crate::stepper_calls::DONE;
use answers::{Cause, Refusal, refuse};
use registers::Data;
use verdict::{Started, start_routine};

// A refusal's number; its place is written.
pub fn refused(x: Refusal, place: &mut u32) -> u32
    ensures { (result ≡ number_of x.cause) × (place.new ≡ x.place) }
{
    *place = x.place;
    x.cause.number() as u32
}

// Of a call that has nothing to answer beside the lent bytes but a refusal's place: only a refusal writes it.
pub fn answer(a: Result<(), Refusal>, place: &mut u32) -> u32
    ensures { (result ≡ reply_number a) × (place.new ≡ reply_place a place.old) }
{
    match a {
        Ok(()) => DONE,
        Err(x) => refused(x, place),
    }
}

// A start writes home, a refusal its place.
pub fn answer_start(a: Result<u16, Refusal>, home: &mut u16, place: &mut u32) -> u32
    ensures { (rs m : List ℕ) → start_call result home.new place.new rs m
        ≡ start_replied a home.old place.old rs m }
{
    match a {
        Ok(h) => {
            *home = h;
            DONE
        }
        Err(x) => refused(x, place),
    }
}

// A, B, X, Y and flags, as they are lent.
pub fn data_in(regs: &RegisterBytes) -> Data
    ensures { result ≡ data_of (unpacked regs.now) }
{
    let r = unpack(regs);
    Data {
        x: r.x,
        y: r.y,
        a: r.a,
        b: r.b,
        flags: r.flags,
    }
}

// The start's registers are stored; a refusal stores nothing.
pub fn stored(s: Started, regs: &mut RegisterBytes) -> Result<u16, Refusal>
    ensures { (h p : ℕ) (m : List ℕ) → start_replied result h p regs.new m
        ≡ of_started s h p regs.old m }
{
    let q = s?;
    pack(q.registers, regs);
    Ok(q.home)
}

// Judges a routine and, where it is accepted, starts it. The answer is home.
pub fn start_on(
    ticket: &[u8],
    image: &[u8],
    regs: &mut [u8],
    mem: &mut [u8],
) -> Result<u16, Refusal>
    ensures { (h p : ℕ) → start_replied result h p regs.new mem.new
        ≡ start_bytes_of h p ticket.now image.now regs.old mem.old }
{
    let Some(bytes) = regs.as_mut_array() else {
        return Err(refuse(Cause::BadLength, 0));
    };
    let d = data_in(bytes);
    stored(start_routine(ticket, image, d, mem), bytes)
}
