// An inner crate: what a mark claims, measured along a run. It looks ahead on a memory of its own.
#![tactic(auto)]

pub mod flow; // whether an instruction calls or returns
pub mod look; // from an instruction to its routine's own return
