// The two passes of writing: the checks, then the bytes. Both go through the ticket's commands in file order. An inner
// module of `write`, which tests between the two that there is room for the bytes.
ghost use Rattle.std.specs.Prelude.{◌≡◌, ◌+◌, ◌≤◌, length, Ok, IfOk};
ghost use Rattle.commands.specs.Fits.{Fits};
ghost use Rattle.commands.specs.Progress.{initial_progress};
ghost use Rattle.commands.specs.inner.Sound.{Sound};
ghost use Rattle.ticket.specs.Fields.{fields_of, mark_index};
ghost use Rattle.ticket.specs.Write.{mark_command, all_then, commands_of, encode_all, bytes_of, check_of};
ghost use Rattle.ticket.specs.inner.FitSoFar.{FitSoFar};
ghost use Rattle.lists.specs.Splice.{spliced};

use crate::fields::{Mark, Ticket};
use answers::Refusal;
use commands::admit::admit;
use commands::command::Command;
use commands::encode::put_command;
use commands::header::header_commands;
use commands::progress::{Progress, initial};

// Where entry i of a list of marks stands. Past the array's end its last entry stands again, which is refused as a mark
// that does not rise.
fn mark_index(i: u16) -> usize
    ensures { result ≡ mark_index i }
{
    i.min(4095) as usize
}

// The command of a mark. That every number fits its command's bytes is what the types say.
fn mark_command(m: Mark) -> Command
    ensures { (result ≡ mark_command m) × Fits result }
{
    Command::Mark(m.address, m.claim)
}

// What some commands leave, one after another, or why the first that is refused is.
fn all_admitted(start: Progress, cs: &[Command]) -> Result<Progress, Refusal>
    requires { Sound start }
    ensures admitted { result ≡ all_then (Ok start) cs.now }
    ensures sound { IfOk result Sound }
{
    let mut p = start;
    for c in cs {
        p = admit(p, *c)?;
    }
    Ok(p)
}

// Document 01's 3 to 7 and document 02's 29 on the fields, with the offset that the command would have.
pub fn check(t: &Ticket) -> Result<Progress, Refusal>
    ensures { (result ≡ check_of (fields_of t.now))
        × FitSoFar (Ok initial_progress) (commands_of (fields_of t.now)) }
{
    let mut p = all_admitted(initial(), &header_commands(t.header))?;
    // By index: past the array's end entries repeat (`mark_index`).
    for i in 0..t.count {
        p = admit(p, mark_command(t.marks[mark_index(i)]))?;
    }
    admit(p, Command::End)
}

// Some commands at an offset of the output; the offset after them.
fn put_all(cs: &[Command], out: &mut [u8], at: usize) -> usize
    requires { at + length (encode_all cs.now) ≤ length out.old }
    ensures { (out.new ≡ spliced out.old at (encode_all cs.now)) × (result ≡ at + length (encode_all cs.now)) }
{
    let mut next = at;
    for c in cs {
        next = put_command(*c, out, next);
    }
    next
}

pub fn put(t: &Ticket, out: &mut [u8])
    requires { length (bytes_of (fields_of t.now)) ≤ length out.old }
    ensures { out.new ≡ spliced out.old 0 (bytes_of (fields_of t.now)) }
{
    let mut at = put_all(&header_commands(t.header), out, 0);
    // By index, as in `check`.
    for i in 0..t.count {
        at = put_command(mark_command(t.marks[mark_index(i)]), out, at);
    }
    put_command(Command::End, out, at);
}
