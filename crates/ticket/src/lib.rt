// The ticket: read from bytes and written to bytes (document 01, "The ticket"). `read` and `write` are the interface:
// they take any bytes, any ticket and any room.
#![tactic(auto)]

ghost use Rattle.std.specs.Prelude.{◌≡◌, length};
ghost use Rattle.ticket.specs.Read.{read_of};
ghost use Rattle.ticket.specs.Write.{bytes_of, check_of, write_of, output_of};
ghost use Rattle.ticket.specs.Rules.{ReadByTheRules};
ghost use Rattle.ticket.specs.Fields.{fields_of, reading_of};
ghost use Rattle.ticket.specs.RoundTrip.{answered, SameBytes};
ghost use Rattle.ticket.specs.Names.{NamesIgnored};

use crate::fields::{Mark, Ticket, blank};
use crate::reader::next_command;
use crate::writer::{check, put};
use answers::{Cause, Refusal, refuse};
use commands::command::Command;
use commands::progress::{ended, initial};

pub mod fields; // the ticket and its marks
mod reader; // a command at a time
mod writer; // checks first, then the bytes

// The ticket that some bytes are, or the first failure in file order. Names are checked and dropped: taken out of the
// bytes, they change nothing of what is read. Written again, a ticket that carries home and no name has the same bytes;
// one without home gains home $0000, and one with names loses them.
pub fn read(bytes: &[u8]) -> Result<Ticket, Refusal>
    ensures { (result ≡ reading_of (read_of bytes.now))
        × ReadByTheRules bytes.now
        × SameBytes bytes.now result
        × NamesIgnored bytes.now }
{
    let mut marks = [blank(); 4096];
    let mut p = initial();
    while !ended(p) {
        // A match, not `?`: by `?` each mark costs more here, since the answer holds a ticket (docs/DECISIONS.md).
        let (q, c) = match next_command(bytes, p) {
            Ok(next) => next,
            Err(x) => return Err(x),
        };
        if let Command::Mark(address, claim) = c {
            marks[p.count as usize] = Mark { address, claim };
        }
        p = q;
    }
    if (p.at as usize) < bytes.len() {
        return Err(refuse(Cause::AfterEnd, p.at));
    }
    Ok(Ticket {
        header: p.header,
        count: p.count,
        marks,
    })
}

// The bytes of a ticket, at the beginning of the output. Nothing is written unless all is: the fields are checked
// first, then the room. The checks refuse exactly where reading the ticket's bytes would, with the same number and
// place; else reading them gives the same fields.
pub fn write(t: &Ticket, out: &mut [u8]) -> Result<u32, Refusal>
    ensures { (result ≡ write_of (fields_of t.now) (length out.old))
        × (out.new ≡ output_of (fields_of t.now) out.old)
        × (read_of (bytes_of (fields_of t.now)) ≡ answered (check_of (fields_of t.now)) (fields_of t.now)) }
{
    let n = check(t)?.at;
    if out.len() < (n as usize) {
        return Err(refuse(Cause::OutputTooSmall, n));
    }
    put(t, out);
    Ok(n)
}
