// What the commands so far leave for the next.
ghost use Rattle.std.specs.Prelude.{◌≡◌};
ghost use Rattle.commands.specs.Progress.{initial_progress, ended};

use crate::header::Header;
use crate::row::HEADER_COMMANDS;

#[derive(Clone, Copy)]
pub struct Progress {
    pub at: u32, // the offset of the next command
    pub stage: u8, // the next place in the sequence of the header's commands; past it after the end
    pub header: Header, // a window that is still to come has length 0
    pub count: u16, // how many marks there are
    pub last: u16, // the address of the latest mark
    pub nameable: bool, // whether the latest command is a mark
}

// Before the first command.
pub fn initial() -> Progress
    ensures { result ≡ initial_progress }
{
    Progress {
        at: 0,
        stage: 0,
        header: Header::BLANK,
        count: 0,
        last: 0,
        nameable: false,
    }
}

// Whether the latest command is the end.
pub fn ended(p: Progress) -> bool
    ensures { result ≡ ended p }
{
    p.stage == HEADER_COMMANDS + 1
}
