// An inner crate: the decoded instruction, the opcode tables, the sixteen tests, the places of the tables and the
// decoder.
#![tactic(auto)]

pub mod instruction; // an action with an operand
pub mod table; // length, cycles, action and mode of each place
pub mod condition; // the sixteen tests
pub mod lookup; // from the first two bytes to a place
pub mod decoder; // the instruction at a place
mod numbered; // the actions and modes by their numbers
