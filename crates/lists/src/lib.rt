// An inner crate: what is said of lists, digits and Booleans before anything else: a list written into another, the
// value of a digit, and, in specs/, a Boolean as a number.
#![tactic(auto)]

pub mod digit; // a hexadecimal digit
