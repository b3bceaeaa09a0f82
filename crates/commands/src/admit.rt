// A command after those before it: refused, or read, with what it leaves for the next.
ghost use Rattle.std.specs.Prelude.{◌≡◌, ◌+◌, ◌<◌, Ok};
ghost use Rattle.commands.specs.Progress.{staged_of, marked_of, named_of, after_of};
ghost use Rattle.commands.specs.inner.Sound.{Sound};
ghost use Rattle.commands.specs.Cause.{command_cause_of};
ghost use Rattle.commands.specs.Admit.{admit_of};

use crate::cause::cause;
use crate::command::{Command, byte_of};
use crate::encode::width_of;
use crate::header::{Header, header_with};
use crate::progress::Progress;
use crate::row::row_of;
use answers::{Refusal, refuse};

// A command that says something of the header, or the end, leads past its stage.
fn staged(p: Progress, width: u32, stage: u8, header: Header) -> Progress
    requires { (p.at + width < 4294967296) × (stage < 255) }
    ensures { result ≡ staged_of p width stage header }
{
    Progress {
        at: p.at + width,
        stage: stage + 1,
        header,
        nameable: false,
        ..p
    }
}

fn marked(p: Progress, width: u32, stage: u8, a: u16) -> Progress
    requires { (p.at + width < 4294967296) × (p.count < 65535) }
    ensures { result ≡ marked_of p width stage a }
{
    Progress {
        at: p.at + width,
        stage,
        count: p.count + 1,
        last: a,
        nameable: true,
        ..p
    }
}

fn named(p: Progress, width: u32, stage: u8) -> Progress
    requires { p.at + width < 4294967296 }
    ensures { result ≡ named_of p width stage }
{
    Progress {
        at: p.at + width,
        stage,
        nameable: false,
        ..p
    }
}

fn after(p: Progress, c: Command) -> Progress
    requires { Sound p × (command_cause_of p c ≡ Ok tt) }
    ensures { result ≡ after_of p c }
{
    let width = width_of(c);
    let stage = row_of(byte_of(c)).stage;
    match c {
        Command::Header(part) => staged(p, width, stage, header_with(p.header, part)),
        Command::Mark(a, _) => marked(p, width, stage, a),
        Command::Name(_, _) => named(p, width, stage),
        Command::End => staged(p, width, stage, p.header),
    }
}

#[tactic(auto, unfolding(crate::specs::Admit::admit_of))]
pub fn admit(p: Progress, c: Command) -> Result<Progress, Refusal>
    requires { Sound p }
    ensures { result ≡ admit_of p c }
{
    match cause(p, c) {
        Ok(()) => Ok(after(p, c)),
        Err(cause) => Err(refuse(cause, p.at)),
    }
}
