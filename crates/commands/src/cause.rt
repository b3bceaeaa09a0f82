// Document 01's causes 3 to 7 and document 02's 29, each as what must hold, and the first that does not.
ghost use Rattle.std.specs.Prelude.{◌≡◌, ◌≤◌};
ghost use Rattle.commands.specs.Rows.{between, printable};
ghost use Rattle.commands.specs.Number.{digits};
ghost use Rattle.commands.specs.Cause.{may_come, follows, in_order, ranges_hold, edges_within, apart, apart_from};
ghost use Rattle.commands.specs.Cause.{header_home_outside, home_outside, inside, command_cause_of};
ghost use Rattle.commands.specs.inner.Table.{in_range_code};
ghost use Rattle.commands.specs.inner.WindowCause.{window_cause_of};

use crate::command::{Command, HeaderCommand, byte_of, operands_of, window};
use crate::header::{Header, Window, holds, past};
use crate::progress::Progress;
use crate::row::{REQUIRED_COMMANDS, TableOperand, row_of};
use answers::Cause;

// Marks rise; a name stands at once after its mark.
fn follows(p: Progress, c: Command) -> bool
    ensures { result ≡ follows p c }
{
    match c {
        Command::Mark(a, _) => (p.count == 0) | (p.last < a),
        Command::Name(a, _) => p.nameable & (a == p.last),
        Command::Header(_) | Command::End => true,
    }
}

// The stage's own command, or a later one where every header's commands are there.
fn may_come(stage: u8, n: u8) -> bool
    ensures { result ≡ may_come stage n }
{
    (stage == n) | ((REQUIRED_COMMANDS <= stage) & (stage < n))
}

// The header's commands in their order, before all others.
fn in_order(p: Progress, c: Command) -> bool
    ensures { result ≡ in_order p c }
{
    may_come(p.stage, row_of(byte_of(c)).stage) & follows(p, c)
}

fn between(least: u64, most: u64, v: u64) -> bool
    ensures { result ≡ between least most v }
{
    (least <= v) & (v <= most)
}

// Each byte of a text is $20 to $7E.
fn all_printable(s: &[u8]) -> bool
    ensures { result ≡ printable s.now }
{
    s.iter().all(|b| between(0x20, 0x7e, u64::from(*b)))
}

// The last bytes of a number.
#[tactic(auto, using(crate::proofs::Digits::last_digits))]
fn printable(text: u64, width: usize) -> bool
    requires { width ≤ 8 }
    ensures { result ≡ printable (digits width text) }
{
    all_printable(&text.to_be_bytes()[8 - width..])
}

fn in_range(o: TableOperand, v: u64) -> bool
    requires { o.width ≤ 8 }
    ensures { result ≡ in_range_code o v }
{
    if o.text {
        printable(v, o.width)
    } else {
        between(o.least, o.most, v)
    }
}

fn ranges_hold(c: Command) -> bool
    ensures { result ≡ ranges_hold c }
{
    let row = row_of(byte_of(c));
    let values = operands_of(c);
    for (o, v) in row.operands.iter().zip(&values) {
        if !in_range(*o, *v) {
            return false;
        }
    }
    true
}

fn edges_within(w: Window, least: u16) -> bool
    ensures { result ≡ edges_within least w }
{
    (past(w) <= 65536) & (least <= w.start)
}

// No address is in both windows.
fn apart(v: Window, w: Window) -> bool
    ensures { result ≡ apart v w }
{
    ((v.length == 0) | (w.length == 0))
        | ((past(v) <= (w.start as u32)) | (past(w) <= (v.start as u32)))
}

fn apart_from(h: Header, w: Window) -> bool
    ensures { result ≡ apart_from h w }
{
    apart(h.code, w) & (apart(h.data, w) & apart(h.stack, w))
}

// 5 or 6 of a window.
#[tactic(auto, unfolding(crate::specs::inner::WindowCause::window_cause_of))]
fn window_cause(h: Header, c: Command) -> Result<(), Cause>
    ensures { result ≡ window_cause_of h c }
{
    let Some(least) = row_of(byte_of(c)).window else {
        return Ok(());
    };
    let w = window(operands_of(c));
    if !edges_within(w, least) {
        return Err(Cause::WindowEdge);
    }
    if !apart_from(h, w) {
        return Err(Cause::WindowsShare);
    }
    Ok(())
}

fn header_home_outside(code: Window, c: HeaderCommand) -> bool
    ensures { result ≡ header_home_outside code c }
{
    match c {
        HeaderCommand::Home(a) => !holds(code, a),
        HeaderCommand::Code(_)
        | HeaderCommand::Data(_)
        | HeaderCommand::Stack(_)
        | HeaderCommand::Entry(_, _) => true,
    }
}

fn home_outside(h: Header, c: Command) -> bool
    ensures { result ≡ home_outside h c }
{
    match c {
        Command::Header(part) => header_home_outside(h.code, part),
        Command::Mark(_, _) | Command::Name(_, _) | Command::End => true,
    }
}

fn inside(h: Header, c: Command) -> bool
    ensures { result ≡ inside h c }
{
    match c {
        Command::Mark(a, _) => holds(h.code, a),
        Command::Header(_) | Command::Name(_, _) | Command::End => true,
    }
}

// The first cause that applies.
#[tactic(auto, unfolding(crate::specs::Cause::command_cause_of, crate::specs::inner::WindowCause::window_cause_of))]
pub fn cause(p: Progress, c: Command) -> Result<(), Cause>
    ensures { result ≡ command_cause_of p c }
{
    if !in_order(p, c) {
        return Err(Cause::OutOfOrder);
    }
    if !ranges_hold(c) {
        return Err(Cause::OutOfRange);
    }
    window_cause(p.header, c)?;
    if !home_outside(p.header, c) {
        return Err(Cause::BadHome);
    }
    if !inside(p.header, c) {
        return Err(Cause::MarkOutside);
    }
    Ok(())
}
