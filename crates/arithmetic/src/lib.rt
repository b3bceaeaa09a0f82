// An inner crate: 8- and 16-bit operations with their condition codes.
#![tactic(auto)]

pub mod codes; // what an operation answers; the condition codes with some of them changed; V of sums and differences
pub mod byte; // operations on bytes
pub mod word; // operations on words
pub mod decimal; // DAA
pub mod divide; // IDIV and FDIV
