// A routine that is accepted: its instructions, and the line that ends the trace.
use crate::options::Options;
use crate::steps::{Walk, steps, summary};
use answers::Acceptance;
use explain::refused;
use memory::Memory;
use output::text;
use registers::{Cycles, Registers, StackBytes};
use stepper::answer::Ran;
use stepper::environment::Environment;
use stepper::run;
use text::last::{Totals, put_home, put_spent};
use ticket::fields::Ticket;
use ticket::read;
use verdict::{Start, start_routine};

// The stack bytes used: from the stack window's last address, two above the start's SP, down to the lowest SP that the
// run answered.
fn used(start: Registers, reached: Registers) -> StackBytes {
    StackBytes(start.sp.wrapping_add(2).wrapping_sub(reached.lowest))
}

// How far the budget goes is the run's own answer; the instructions up to there are then done one by one.
fn trace(rt: &impl Print, t: &Ticket, start: Start, mem: &Memory, o: Options, a: Acceptance) {
    let r = start.registers;
    let home = start.home;
    let mut copy = *mem;
    let budget = o.budget.unwrap_or(a.cost.0);
    let ran = run(r, &mut copy, Environment { home }, budget);
    let (Ran::Home(reached) | Ran::Spent(reached)) = ran else {
        return;
    };
    let w = Walk {
        ticket: t,
        start: r,
        memory: mem,
        total: reached.cycles.0,
        limit: a.cost.0,
    };
    if o.summary {
        summary(rt, w);
    } else {
        steps(rt, w);
    }
    let totals = Totals {
        cycles: reached.cycles,
        allowed: a.cost,
        stack: used(r, reached.registers),
        certified: a.stack,
        lowest: reached.registers.lowest,
        home,
    };
    let mut line = [0u8; 256];
    let n = match ran {
        Ran::Spent(_) => {
            let allowed = Cycles(budget);
            put_spent(Totals { allowed, ..totals }, &mut line)
        }
        Ran::Home(_) | Ran::Refused(_, _) => put_home(totals, &mut line),
    };
    text(rt, &line[..n]);
}

// Of a ticket and an image, in a memory that is loaded besides.
pub fn accepted(
    rt: &impl Print,
    o: Options,
    ticket: &[u8],
    image: &[u8],
    mem: &mut Memory,
    a: Acceptance,
) {
    let start = match start_routine(ticket, image, o.start, mem) {
        Ok(start) => start,
        Err(x) => return refused(rt, x, ticket, image),
    };
    if let Ok(t) = read(ticket) {
        trace(rt, &t, start, mem, o, a);
    }
}
