// Where a routine starts.
use answers::Refusal;
use registers::Registers;

// The registers at the start and home, which a run is then given.
#[derive(Clone, Copy)]
pub struct Start {
    pub registers: Registers,
    pub home: u16,
}

// Refused: 21 for the memory's length, 9 for the image's, or the verdict's.
pub type Started = Result<Start, Refusal>;
