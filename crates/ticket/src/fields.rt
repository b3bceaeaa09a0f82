// The ticket and its marks.
ghost use Rattle.std.specs.Prelude.{◌≡◌};
ghost use Rattle.ticket.specs.Fields.{blank_mark};

use commands::command::Claim;
use commands::header::Header;
use registers::{Cycles, StackBytes};

#[derive(Clone, Copy)]
pub struct Mark {
    pub address: u16,
    pub claim: Claim,
}

// The first `count` marks are the ticket's, in rising address; `read` leaves the others blank.
#[derive(Clone, Copy)]
pub struct Ticket {
    pub header: Header,
    pub count: u16,
    pub marks: [Mark; 4096],
}

pub fn blank() -> Mark
    ensures { result ≡ blank_mark }
{
    Mark {
        address: 0,
        claim: Claim {
            cost: Cycles(0),
            depth: StackBytes(0),
            need: StackBytes(0),
        },
    }
}
