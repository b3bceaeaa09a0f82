// The instructions of a run, one by one: a line for each, or what was seen at each address.
ghost use Rattle.std.specs.Prelude.{◌<◌};

use marks::{claim_at, index_of};
use measure::look::measure;
use memory::{Memory, byte_at};
use output::text;
use registers::{Cycles, Registers};
use stepper::record::advance_copy;
use text::listing::{Listing, list};
use text::step::{Traced, put_step};
use text::summary::{Visits, put_summary};
use ticket::fields::{Ticket, blank};

// A run of a routine with its ticket: the registers and the memory that it starts from, the cycles that it spends, and
// those that bound the look ahead.
#[derive(Clone, Copy)]
pub struct Walk<'a> {
    pub ticket: &'a Ticket,
    pub start: Registers,
    pub memory: &'a Memory,
    pub total: u32,
    pub limit: u32,
}

fn listing_at(mem: &Memory, a: u16) -> Listing {
    list(
        a,
        byte_at(mem, a),
        byte_at(mem, a.wrapping_add(1)),
        byte_at(mem, a.wrapping_add(2)),
        byte_at(mem, a.wrapping_add(3)),
        byte_at(mem, a.wrapping_add(4)),
    )
}

// From the start until `total` cycles are spent; each instruction is told when it is done. An accepted routine has a
// mark at every instruction, and none of them is refused.
fn follow<F: FnMut(Traced)>(w: Walk<'_>, mut told: F)
    requires { F.IsAlwaysCallable told }
{
    let mut mem = *w.memory;
    let mut r = w.start;
    let mut spent = 0u32;
    for _ in 0..w.total {
        if w.total <= spent {
            return;
        }
        let address = r.pc;
        let used = measure(r, mem, w.limit);
        let listing = listing_at(&mem, address);
        let next = advance_copy(r, &mut mem);
        let Ok(cycles) = next.answer else {
            return;
        };
        r = next.registers;
        spent = spent.wrapping_add(cycles.0);
        told(Traced {
            address,
            listing,
            after: r,
            cycles: Cycles(spent),
            used,
            claim: claim_at(w.ticket, address).unwrap_or(blank().claim),
        });
    }
}

fn show(rt: &impl Print, t: Traced) {
    let mut line = [0u8; 256];
    let n = put_step(t, &mut line);
    text(rt, &line[..n]);
}

// With a line for each instruction.
pub fn steps(rt: &impl Print, w: Walk<'_>) {
    follow(w, |t| show(rt, t));
}

// What is seen at the mark of an instruction: the cycles to go from it and SP after it.
fn note(visits: &mut [Visits; 4096], mark: usize, t: Traced)
    requires { mark < 4096 }
{
    let v = visits[mark];
    if v.times < 4294967295 {
        visits[mark] = v.with(t.used.cost, t.after.sp);
    }
}

// With a line for each mark at the end. The memory is that of the start: no instruction of an accepted routine writes a
// code byte.
pub fn summary(rt: &impl Print, w: Walk<'_>) {
    let mut visits = [Visits::NONE; 4096];
    follow(w, |t| {
        if let Some(i) = index_of(w.ticket, t.address) {
            note(&mut visits, i, t);
        }
    });
    let count = w.ticket.count as usize;
    for (m, v) in w.ticket.marks.iter().zip(&visits).take(count) {
        let a = m.address;
        address(rt, a, listing_at(w.memory, a), *v, m.claim.cost);
    }
}

fn address(rt: &impl Print, a: u16, l: Listing, v: Visits, cost: Cycles) {
    let mut line = [0u8; 256];
    let n = put_summary(a, l, v, cost, &mut line);
    text(rt, &line[..n]);
}
