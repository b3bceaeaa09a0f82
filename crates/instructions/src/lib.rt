// An inner crate: what the instructions of each kind read, compute and write, and their form. Its functions are proved
// for every case of their kind.
#![tactic(auto)]

pub mod form; // what an instruction does to PC, SP and memory
pub mod operand; // where an operand stands
mod named; // the registers by name
pub mod inherent; // the instructions on the registers alone
pub mod values; // the instructions that leave memory alone
pub mod interrupt; // SWI and RTI
pub mod stack; // pushes, pulls and RTS
pub mod store; // stores and read-modify-writes
pub mod jump; // branches, jumps and calls
