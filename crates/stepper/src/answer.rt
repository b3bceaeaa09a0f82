// What a step and a run answer.
use answers::Refusal;
use registers::{Cycles, Registers};

// The registers that were reached, and the cycles that were spent.
#[derive(Clone, Copy)]
pub struct Reached {
    pub registers: Registers,
    pub cycles: Cycles,
}

pub type Stepped = Result<Reached, Refusal>;

// Document 01's home and spent, and a refusal on the way.
#[derive(Clone, Copy)]
pub enum Ran {
    Home(Reached),
    Spent(Reached),
    Refused(Reached, Refusal),
}
