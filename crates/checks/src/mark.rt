// Document 01's causes 10 to 17 at a mark, by its claim, the shape of its instruction and all marks.
ghost use Rattle.std.specs.Prelude.{◌≡◌};
ghost use Rattle.ticket.specs.Rules.{Rising};
ghost use Rattle.rules.specs.Checks.{depth_agrees, cost_covers, need_covers};
ghost use Rattle.checks.specs.inner.Said.{ordinary_said};
ghost use Rattle.checks.specs.inner.MarkCause.{in_data, claims_in, follows_of, ordinary_of, called_of, call_of};
ghost use Rattle.checks.specs.inner.MarkCause.{return_of, mark_cause_of};

use crate::marks::claim_at;
use crate::shape::{Call, Ordinary, Shape, Successors, Writes};
use answers::Cause;
use commands::command::Claim;
use commands::header::{Window, holds};
use registers::Cycles;
use registers::word::wrapping_add;
use ticket::fields::Mark;

// Every byte that is written lies in the window.
fn in_data(w: Window, x: Writes) -> bool
    ensures { result ≡ in_data w x }
{
    match x {
        Writes::Nowhere => true,
        Writes::Byte(a) => holds(w, a),
        Writes::Word(a) => holds(w, a) & holds(w, wrapping_add(a, 1)),
    }
}

// The claims at both successors; where there is one, its claim stands twice.
fn claims_in(marks: &[Mark], n: Successors) -> Option<(Claim, Claim)>
    requires { Rising marks.now }
    ensures { result ≡ claims_in marks.now n }
{
    match n {
        Successors::One(a) => {
            let x = claim_at(marks, a)?;
            Some((x, x))
        }
        Successors::Two(a, b) => Some((claim_at(marks, a)?, claim_at(marks, b)?)),
    }
}

// The claim at a successor of an ordinary instruction, against the mark's own.
fn depth_agrees(k: Claim, o: Ordinary, x: Claim) -> bool
    ensures { result ≡ depth_agrees k (ordinary_said o) x }
{
    (x.depth.0 as u32) + (o.pulled.0 as u32) == (k.depth.0 as u32) + (o.pushed.0 as u32)
}

fn cost_covers(k: Claim, cycles: Cycles, x: Claim) -> bool
    ensures { result ≡ cost_covers k cycles.0 x }
{
    (cycles.0 as u64) + (x.cost.0 as u64) <= (k.cost.0 as u64)
}

fn need_covers(k: Claim, o: Ordinary, x: Claim) -> bool
    ensures { result ≡ need_covers k (ordinary_said o) x }
{
    (o.pushed.0 as u32) + (x.need.0 as u32) <= (k.need.0 as u32) + (o.pulled.0 as u32)
}

// With the claims at both successors.
fn follows(k: Claim, o: Ordinary, x: Claim, y: Claim) -> Result<(), Cause>
    ensures { result ≡ follows_of k o x y }
{
    if !(depth_agrees(k, o, x) & depth_agrees(k, o, y)) {
        return Err(Cause::DepthsDisagree);
    }
    if !(cost_covers(k, o.cycles, x) & cost_covers(k, o.cycles, y)) {
        return Err(Cause::CostTooLow);
    }
    if !(need_covers(k, o, x) & need_covers(k, o, y)) {
        return Err(Cause::NeedTooLow);
    }
    Ok(())
}

fn ordinary(w: Window, marks: &[Mark], k: Claim, o: Ordinary) -> Result<(), Cause>
    requires { Rising marks.now }
    ensures { result ≡ ordinary_of w marks.now k o }
{
    if !in_data(w, o.writes) {
        return Err(Cause::WritesOutside);
    }
    if k.depth.0 < o.pulled.0 {
        return Err(Cause::BadPull);
    }
    let Some((x, y)) = claims_in(marks, o.next) else {
        return Err(Cause::NotMarked);
    };
    follows(k, o, x, y)
}

// A call: x is the claim at its target and y the one at the following address.
fn called(k: Claim, cycles: Cycles, x: Claim, y: Claim) -> Result<(), Cause>
    ensures { result ≡ called_of k cycles.0 x y }
{
    if !((x.depth.0 == 0) & (y.depth.0 == k.depth.0)) {
        return Err(Cause::DepthsDisagree);
    }
    if (k.cost.0 as u64) < (cycles.0 as u64) + (x.cost.0 as u64) + (y.cost.0 as u64) {
        return Err(Cause::CostTooLow);
    }
    if !((2 + (x.need.0 as u32) <= (k.need.0 as u32)) & (y.need.0 <= k.need.0)) {
        return Err(Cause::NeedTooLow);
    }
    Ok(())
}

fn call(marks: &[Mark], k: Claim, c: Call) -> Result<(), Cause>
    requires { Rising marks.now }
    ensures { result ≡ call_of marks.now k c }
{
    let Some((x, y)) = claims_in(marks, Successors::Two(c.target, c.after)) else {
        return Err(Cause::NotMarked);
    };
    called(k, c.cycles, x, y)
}

// The return address does not count as pulled.
fn return_from(k: Claim, cycles: Cycles) -> Result<(), Cause>
    ensures { result ≡ return_of k cycles.0 }
{
    if k.depth.0 != 0 {
        return Err(Cause::BadPull);
    }
    if k.cost.0 < cycles.0 {
        return Err(Cause::CostTooLow);
    }
    Ok(())
}

// The first cause that applies. `inside` says that the instruction does not leave the code window.
#[tactic(auto, unfolding(crate::specs::inner::MarkCause::mark_cause_of))]
pub fn mark_cause(w: Window, marks: &[Mark], k: Claim, s: Shape, inside: bool) -> Result<(), Cause>
    requires { Rising marks.now }
    ensures { result ≡ mark_cause_of w marks.now k s inside }
{
    if !inside {
        return Err(Cause::BadMark);
    }
    match s {
        Shape::Ordinary(o) => ordinary(w, marks, k, o),
        Shape::Call(c) => call(marks, k, c),
        Shape::Return(cycles) => return_from(k, cycles),
        Shape::Forbidden => Err(Cause::KeptOut),
        Shape::Nothing => Err(Cause::BadMark),
    }
}
