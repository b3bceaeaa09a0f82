// From an instruction to its routine's own return.
ghost use Rattle.std.specs.Prelude.{◌≡◌, ◌+◌, ◌≤◌, ◌<◌};
ghost use Rattle.measure.specs.Look.{begin_of, pending_after, own_return, look_after, look_step};
ghost use Rattle.measure.specs.Look.{look_step_of, look_of, measured_of};
ghost use Rattle.measure.specs.inner.Said.{flow_said};
ghost use Rattle.stepper.specs.Answer.{done};

use crate::flow::{Flow, flow_at};
use commands::command::Claim;
use memory::Memory;
use registers::word::wrapping_sub;
use registers::{Cycles, Registers, StackBytes};
use stepper::answer::Reached;
use stepper::step;

// The registers reached, how many calls have not returned, what is left of the budget, and whether the look has ended.
// An enum of a look that goes on and one that has ended is no plainer: the registers and what is left are read of both.
#[derive(Clone, Copy)]
pub struct Look {
    pub regs: Registers,
    pub pending: u32,
    pub left: u32,
    pub over: bool,
}

// The lowest SP begins with SP.
fn begin(r: Registers, budget: u32) -> Look
    ensures { result ≡ begin_of r budget }
{
    Look {
        regs: r.with_lowest(r.sp),
        pending: 0,
        left: budget,
        over: false,
    }
}

fn pending_after(d: Flow, n: u32) -> u32
    requires { n + 1 < 4294967296 }
    ensures { (result ≡ pending_after (flow_said d) n) × (result ≤ n + 1) }
{
    match d {
        Flow::Calls => n + 1,
        Flow::Returns => n.saturating_sub(1),
        Flow::Plain => n,
    }
}

// A return while no call is pending is the routine's own.
fn own_return(d: Flow, n: u32) -> bool
    ensures { result ≡ own_return (flow_said d) n }
{
    matches!(d, Flow::Returns) && n == 0
}

// An instruction of this flow led to the registers reached.
fn look_after(d: Flow, l: Look, q: Reached) -> Look
    requires { l.pending + 1 < 4294967296 }
    ensures { (result ≡ look_after (flow_said d) l (done q.registers q.cycles))
        × (result.pending ≤ l.pending + 1)
        × (result.left ≤ l.left) }
{
    if l.left < q.cycles.0 {
        return Look { over: true, ..l };
    }
    Look {
        regs: q.registers,
        pending: pending_after(d, l.pending),
        left: l.left - q.cycles.0,
        over: own_return(d, l.pending),
    }
}

// The next instruction.
fn look_step(l: Look, mem: &mut Memory) -> Look
    requires { l.pending + 1 < 4294967296 }
    ensures { (look_step result mem.new ≡ look_step_of l mem.old)
        × (result.pending ≤ l.pending + 1) × (result.left ≤ l.left) }
{
    let d = flow_at(mem, l.regs.pc);
    match step(l.regs, mem) {
        Ok(q) => look_after(d, l, q),
        Err(_) => Look { over: true, ..l },
    }
}

fn look_ahead(r: Registers, mut mem: Memory, budget: u32) -> Look
    ensures { (result ≡ look_of r mem budget) × (result.left ≤ budget) }
{
    let mut l = begin(r, budget);
    for _i in 0..budget {
        if l.over {
            return l;
        }
        l = look_step(l, &mut mem);
    }
    l
}

// What a mark at PC claims, as this run has it, within a budget of cycles: cost, depth and need.
pub fn measure(r: Registers, mem: Memory, budget: u32) -> Claim
    ensures { result ≡ measured_of r mem budget }
{
    let l = look_ahead(r, mem, budget);
    Claim {
        cost: Cycles(budget - l.left),
        depth: StackBytes(wrapping_sub(wrapping_sub(l.regs.sp, 2), r.sp)),
        need: StackBytes(wrapping_sub(r.sp, l.regs.lowest)),
    }
}
