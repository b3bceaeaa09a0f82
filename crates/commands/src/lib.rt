// An inner crate: the commands of a ticket one by one, as values and as bytes, and the causes for which one is refused
// after those before it (document 01, "The ticket"). The ticket as a whole is read and written in `ticket`.
#![tactic(auto)]

pub mod header; // windows, and what $01 to $04 and $07 say
pub mod command; // the commands
pub mod row; // the table of commands
mod number; // numbers of no, two, four and eight bytes
pub mod parse; // a command of bytes
pub mod encode; // the bytes of a command
pub mod progress; // what the commands so far leave for the next
mod cause; // document 01's causes 3 to 7, and document 02's 29
pub mod admit; // a command after those before it
