// The parts of reading: the next command, and what it says of the marks. An inner module of `read`, whose progress is
// always sound.
ghost use Rattle.std.specs.Prelude.{◌≡◌, ◌-◌, ◌≤◌, length, drop};
ghost use Rattle.commands.specs.inner.Sound.{Sound};
ghost use Rattle.ticket.specs.Read.{next_command_of};

use answers::{Cause, Refusal, refuse};
use commands::admit::admit;
use commands::command::Command;
use commands::parse::{ParseError, parse};
use commands::progress::Progress;

// The next command of a ticket, with what it leaves for the one after it.
pub fn next_command(bytes: &[u8], p: Progress) -> Result<(Progress, Command), Refusal>
    requires { Sound p × (p.at ≤ length bytes.now) }
    ensures { result ≡ next_command_of (drop p.at bytes.now) p }
{
    let at = p.at as usize;
    match parse(&bytes[at..]) {
        Err(ParseError::Unknown) => Err(refuse(Cause::UnknownCommand, p.at)),
        Err(ParseError::Cut) => Err(refuse(Cause::TicketCut, p.at)),
        Ok(c) => Ok((admit(p, c)?, c)),
    }
}
