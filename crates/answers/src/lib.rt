// An inner crate: what everybody answers with, document 01's refusals and verdicts, once.
#![tactic(auto)]

ghost use Rattle.std.specs.Prelude.{◌≡◌};
ghost use Rattle.answers.specs.Cause.{number_of};

use registers::{Cycles, StackBytes};

// Why something is refused: document 01's causes ("Where a ticket stops") and document 02's (25 to 29), each with its
// number there and under its name in include/jugrond.h.
#[derive(Clone, Copy, PartialEq, Eq)]
pub enum Cause {
    // in the ticket's bytes; the place is an offset there
    UnknownCommand = 1, // no command has this byte
    TicketCut = 2, // the ticket ends before its end command
    OutOfOrder = 3, // a command out of order or repeated
    OutOfRange = 4, // an operand outside its range
    WindowEdge = 5, // a window past $FFFF, or code or stack from $0000
    WindowsShare = 6, // a window shares an address with an earlier one
    MarkOutside = 7, // a mark outside the code window
    AfterEnd = 8, // bytes after the end command
    // the image; place 0
    BadImage = 9, // its length is not the code window's
    // at a mark; the place is its address
    BadMark = 10, // no such instruction, or it leaves the code window
    KeptOut = 11, // an instruction that no routine may use
    WritesOutside = 12, // a write outside the data window
    BadPull = 13, // pulls more than was pushed, or returns with bytes still pushed
    NotMarked = 14, // an address that can come next has no mark
    DepthsDisagree = 15, // the depth at a mark that comes next
    CostTooLow = 16,
    NeedTooLow = 17,
    // of the whole routine; the place is its entry
    BadEntry = 18, // not marked, or its depth is not 0
    OverLimit = 19, // its cost is above the limit
    StackTooSmall = 20, // its need, and home's two bytes, are above the stack window's length
    // of a step, a run, a start: place 0 for 21, else PC
    BadLength = 21, // registers, memory or a slot of another length
    NoInstruction = 22, // no such instruction
    Waits = 23, // WAI, STOP or TEST
    // of the writer
    OutputTooSmall = 24, // the place is the bytes needed
    // of an S-record file; the place is the line, from 1
    BadRecord = 25, // a malformed line, one after S9, or no S9
    BadChecksum = 26, // a wrong checksum
    BadAddress = 27, // a byte outside the code window, given twice or never
    // in the ticket's bytes too
    BadHome = 29, // home inside the code window
}

impl Cause {
    pub fn number(self) -> u8
        ensures { result ≡ number_of self }
    {
        self as u8
    }
}

// A cause and its place.
#[derive(Clone, Copy)]
pub struct Refusal {
    pub cause: Cause,
    pub place: u32,
}

pub fn refuse(cause: Cause, place: u32) -> Refusal
    ensures { result ≡ record { cause = cause; place = place } }
{
    Refusal { cause, place }
}

// The entry, its cost (the certified cycles), and its need + 2 bytes of stack.
#[derive(Clone, Copy)]
pub struct Acceptance {
    pub entry: u16,
    pub cost: Cycles,
    pub stack: StackBytes,
}

pub type Verdict = Result<Acceptance, Refusal>;
