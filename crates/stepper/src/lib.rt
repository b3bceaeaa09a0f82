// The stepper: one instruction, and a run of instructions within a cycle budget. `step`, `run` and, on a register
// record, `record::advance` and `advance_copy` are the interface, and take any registers and any memory.
#![tactic(auto)]

ghost use Rattle.std.specs.Prelude.{◌≡◌};
ghost use Rattle.stepper.specs.Answer.{answer_of, ran_of};
ghost use Rattle.stepper.specs.Step.{step_of};
ghost use Rattle.stepper.specs.Run.{run_of};
ghost use Rattle.stepper.specs.inner.Until.{ended_of, as_step};

use crate::answer::{Ran, Reached, Stepped};
use crate::environment::Environment;
use crate::until::{Ended, run_until};
use answers::{Cause, refuse};
use registers::{Cycles, Registers};

pub mod answer; // what a step and a run answer
pub mod environment; // what a run is given besides registers, memory and budget
pub mod record; // a step on a lent register record
mod until; // the loop over the instructions that both are

// What a step answers where its one instruction ends the loop. 255 cycles cover every instruction: none is `Spent`.
fn stepped(a: Ended) -> Stepped
    ensures { answer_of result ≡ as_step (ended_of a) }
{
    match a {
        Ended::Arrived(q) | Ended::Spent(q) => Ok(q),
        Ended::Refused(q, cause) => Err(refuse(cause, q.registers.pc as u32)),
    }
}

fn ran(a: Ended) -> Ran
    ensures { ran_of result ≡ ended_of a }
{
    match a {
        Ended::Arrived(q) => Ran::Home(q),
        Ended::Spent(q) => Ran::Spent(q),
        Ended::Refused(q, cause) => Ran::Refused(q, refuse(cause, q.registers.pc as u32)),
    }
}

// One instruction: without a home the loop ends wherever that leads.
#[tactic(auto, using(crate::proofs::ByFound::unfit, crate::proofs::OneTurn::one_turn))]
pub fn step(r: Registers, mem: &mut [u8]) -> Stepped
    ensures { (answer_of result ≡ (step_of r mem.old).answer)
        × (mem.new ≡ (step_of r mem.old).memory) }
{
    let Some(memory) = mem.as_mut_array() else {
        return Err(refuse(Cause::BadLength, 0));
    };
    stepped(run_until(r, memory, 255, None))
}

// Instructions until the environment's home, a refusal, or one that would pass the budget.
#[tactic(auto, using(crate::proofs::UntilHome::unfit, crate::proofs::UntilHome::at_home, crate::proofs::UntilHome::begins))]
pub fn run(r: Registers, mem: &mut [u8], env: Environment, budget: u32) -> Ran
    ensures { (ran_of result ≡ (run_of env r mem.old budget).answer)
        × (mem.new ≡ (run_of env r mem.old budget).memory) }
{
    let start = Reached {
        registers: r,
        cycles: Cycles(0),
    };
    let Some(memory) = mem.as_mut_array() else {
        return Ran::Refused(start, refuse(Cause::BadLength, 0));
    };
    if r.pc == env.home {
        return Ran::Home(start);
    }
    ran(run_until(r, memory, budget, Some(env.home)))
}
