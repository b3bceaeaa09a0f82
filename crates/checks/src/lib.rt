// An inner crate: document 01's causes 9 to 20, of a ticket that was read and of its image.
#![tactic(auto)]

pub mod shape; // what the rules ask of an instruction: successors, bytes pushed and pulled, writes, cycles
pub mod image; // the shape of the instruction at an address of an image
mod marks; // the claim of the mark at an address
mod mark; // causes 10 to 17, at a mark
mod whole; // causes 18 to 20, and acceptance
pub mod verdict; // cause 9, each mark in rising address, then the whole
