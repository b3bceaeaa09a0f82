// An inner crate: numbers, instructions, verdicts and the desk stepper's lines as text.
#![tactic(auto)]

pub mod number; // in hexadecimal and in decimal
// an instruction
pub mod mnemonic; // its name
pub mod operand; // its operand
pub mod listing; // all of it
// the checking program
pub mod verdict; // its line
// the desk stepper
pub mod line; // a line that grows, and its way into a buffer
pub mod columns; // an instruction and the registers in fixed columns
pub mod step; // the line of an instruction that was executed
pub mod place; // the line of an instruction that is not executed
pub mod last; // the line that ends a trace
pub mod summary; // the line of an address
