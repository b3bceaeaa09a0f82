// The press monitor's C calls: thin entries over the stepper and the verdict, on numbers and byte slices. Each takes
// any input. What a call does not answer it leaves as it was lent. Their header is include/jugrond.h.
#![tactic(auto)]

ghost use Rattle.std.specs.Prelude.{◌≡◌};
ghost use Rattle.rules.specs.Checks.{verdict_of};
ghost use Rattle.verdict.specs.Promise.{Promised};
ghost use Rattle.verdict.specs.Certification.{certification_of, verdict_in};
ghost use Rattle.verdict.specs.Routine.{CertificateComesHome};
ghost use Rattle.monitor.specs.StepperCalls.{stepper_call, reset_bytes_of, step_bytes_of, run_bytes_of};
ghost use Rattle.monitor.specs.RoutineCalls.{verdict_call, of_judged, start_call, start_bytes_of, certify_call};
ghost use Rattle.monitor.specs.RoutineCalls.{certify_bytes_of, start_slot_of};
ghost use Rattle.monitor.specs.Home.{StartedBytesComeHome, FilledSlotComesHome, StartsFromFilledSlot};

use crate::register_bytes::pack;
use registers::Registers;
use verdict::certify;

mod big_endian; // numbers in lent bytes, high byte first
mod register_bytes; // the registers as 13 bytes
mod stepper_calls; // a step and a run, and the numbers that a call answers
mod routine_calls; // a routine judged and started, and the number that a call answers
mod slot; // a routine judged into a slot, and started from it

#[unsafe(no_mangle)]
pub extern "C" fn jugrond_reset(regs: &mut [u8]) -> u32
    ensures { (result ≡ (reset_bytes_of regs.old).outcome)
        × (regs.new ≡ (reset_bytes_of regs.old).registers) }
{
    let Some(bytes) = regs.as_mut_array() else {
        return stepper_calls::BAD_LENGTH;
    };
    pack(Registers::reset(), bytes);
    stepper_calls::DONE
}

// One instruction.
#[unsafe(no_mangle)]
pub extern "C" fn jugrond_step(
    regs: &mut [u8],
    mem: &mut [u8],
    cycles: &mut u32,
    place: &mut u16,
) -> u32
    ensures { stepper_call result cycles.new place.new regs.new mem.new
        ≡ step_bytes_of cycles.old place.old regs.old mem.old }
{
    stepper_calls::answer(stepper_calls::step_on(regs, mem), cycles, place)
}

// Instructions until PC is home, a refusal, or one that would pass the budget; what was done before a refusal stays
// done.
#[unsafe(no_mangle)]
pub extern "C" fn jugrond_run(
    regs: &mut [u8],
    mem: &mut [u8],
    home: u16,
    budget: u32,
    cycles: &mut u32,
    place: &mut u16,
) -> u32
    ensures { stepper_call result cycles.new place.new regs.new mem.new
        ≡ run_bytes_of cycles.old place.old regs.old mem.old home budget }
{
    stepper_calls::answer(
        stepper_calls::run_on(regs, mem, home, budget),
        cycles,
        place,
    )
}

// The verdict on a routine. An acceptance writes entry, home, cost and stack, a refusal its place.
#[unsafe(no_mangle)]
pub extern "C" fn jugrond_verdict(
    ticket: &[u8],
    image: &[u8],
    entry: &mut u16,
    home: &mut u16,
    cost: &mut u32,
    stack: &mut u16,
    place: &mut u32,
) -> u32
    ensures { (verdict_call result entry.new home.new cost.new stack.new
        place.new ≡ of_judged (certification_of ticket.now image.now)
        entry.old home.old cost.old stack.old place.old)
        × (verdict_of ticket.now image.now
        ≡ verdict_in (certification_of ticket.now image.now))
        × Promised ticket.now image.now
        × CertificateComesHome ticket.now image.now }
{
    match certify(ticket, image) {
        Ok(c) => {
            *entry = c.header.entry;
            *home = c.header.home;
            *cost = c.cost.0;
            *stack = c.stack.0;
            stepper_calls::DONE
        }
        Err(x) => routine_calls::refused(x, place),
    }
}

// Judges a routine and, where it is accepted, starts it with A, B, X, Y and flags as they are lent: what is started
// comes home, to the home that is answered.
#[unsafe(no_mangle)]
pub extern "C" fn jugrond_start(
    ticket: &[u8],
    image: &[u8],
    regs: &mut [u8],
    mem: &mut [u8],
    home: &mut u16,
    place: &mut u32,
) -> u32
    ensures { (start_call result home.new place.new regs.new mem.new
        ≡ start_bytes_of home.old place.old ticket.now image.now
        regs.old mem.old)
        × StartedBytesComeHome home.old place.old ticket.now image.now
        regs.old mem.old }
{
    routine_calls::answer_start(
        routine_calls::start_on(ticket, image, regs, mem),
        home,
        place,
    )
}

// Judges a routine and, where it is accepted, fills the slot: every start from it comes home.
#[unsafe(no_mangle)]
pub extern "C" fn jugrond_certify(
    ticket: &[u8],
    image: &[u8],
    slot: &mut [u8],
    place: &mut u32,
) -> u32
    ensures { (certify_call result place.new slot.new
        ≡ certify_bytes_of place.old ticket.now image.now slot.old)
        × FilledSlotComesHome place.old ticket.now image.now slot.old }
{
    routine_calls::answer(slot::certify_into(ticket, image, slot), place)
}

// Starts the routine that a slot was filled for, without judging it: from a slot that was filled for this image it
// comes home.
#[unsafe(no_mangle)]
pub extern "C" fn jugrond_start_certified(
    slot: &[u8],
    image: &[u8],
    regs: &mut [u8],
    mem: &mut [u8],
    home: &mut u16,
    place: &mut u32,
) -> u32
    ensures { (start_call result home.new place.new regs.new mem.new
        ≡ start_slot_of home.old place.old slot.now image.now
        regs.old mem.old)
        × StartsFromFilledSlot slot.now image.now }
{
    routine_calls::answer_start(slot::start_from(slot, image, regs, mem), home, place)
}
