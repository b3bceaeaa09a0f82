// An inner crate: the arguments of the desk stepper, one by one.
#![tactic(auto)]

pub mod number; // a number in hexadecimal or decimal
pub mod argument; // what an argument says
