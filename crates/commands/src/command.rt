// The commands of a ticket, and the operands of each (document 01, "The ticket"; document 02, e, of $07).
ghost use Rattle.std.specs.Prelude.{◌≡◌, ◌<◌, length, get_or};
ghost use Rattle.commands.specs.Rows.{command_rows, row_of};
ghost use Rattle.commands.specs.Command.{header_byte_of, command_byte_of, window_operands_of, header_operands_of};
ghost use Rattle.commands.specs.Command.{operands_of, command_with, window_of};
ghost use Rattle.commands.specs.inner.Table.{code_row, code_values, FitsCode};

use crate::header::Window;
use registers::{Cycles, StackBytes};

// What a mark says of its address: document 01's cost, depth and need.
#[derive(Clone, Copy)]
pub struct Claim {
    pub cost: Cycles,
    pub depth: StackBytes,
    pub need: StackBytes,
}

// A command of the header. An entry has its address and the cycle limit, home its address.
#[derive(Clone, Copy)]
pub enum HeaderCommand {
    Code(Window),
    Data(Window),
    Stack(Window),
    Entry(u16, Cycles),
    Home(u16),
}

// A name has its address and its text, eight bytes as one number.
#[derive(Clone, Copy)]
pub enum Command {
    Header(HeaderCommand),
    Mark(u16, Claim),
    Name(u16, u64),
    End,
}

// The operands of a command, in the order of its row; those that it lacks are 0.
pub type Operands = [u64; 4];

fn header_byte(c: HeaderCommand) -> u8
    ensures { result ≡ header_byte_of c }
{
    match c {
        HeaderCommand::Code(_) => 0x01,
        HeaderCommand::Data(_) => 0x02,
        HeaderCommand::Stack(_) => 0x03,
        HeaderCommand::Entry(_, _) => 0x04,
        HeaderCommand::Home(_) => 0x07,
    }
}

pub fn byte_of(c: Command) -> u8
    ensures { result ≡ command_byte_of c }
{
    match c {
        Command::End => 0x00,
        Command::Header(part) => header_byte(part),
        Command::Mark(_, _) => 0x05,
        Command::Name(_, _) => 0x06,
    }
}

fn window_operands(w: Window) -> Operands
    ensures { result ≡ code_values (window_operands_of w) }
{
    [w.start as u64, w.length as u64, 0, 0]
}

fn header_operands(c: HeaderCommand) -> Operands
    ensures { (result ≡ code_values (header_operands_of c)) × FitsCode (code_row (row_of (header_byte_of c))) result }
{
    match c {
        HeaderCommand::Code(w) | HeaderCommand::Data(w) | HeaderCommand::Stack(w) =>
            window_operands(w),
        HeaderCommand::Entry(a, l) => [a as u64, l.0 as u64, 0, 0],
        HeaderCommand::Home(a) => [a as u64, 0, 0, 0],
    }
}

// The operands of a command.
pub fn operands_of(c: Command) -> Operands
    ensures { (result ≡ code_values (operands_of c)) × FitsCode (code_row (row_of (command_byte_of c))) result }
{
    match c {
        Command::End => [0; 4],
        Command::Header(part) => header_operands(part),
        Command::Mark(a, k) => [a as u64, k.cost.0 as u64, k.depth.0 as u64, k.need.0 as u64],
        Command::Name(a, t) => [a as u64, t, 0, 0],
    }
}

// The window that two operands are.
pub fn window(v: Operands) -> Window
    requires { (get_or v 0 0 < 65536) × (get_or v 1 0 < 65536) }
    ensures { result ≡ window_of v }
{
    Window {
        start: v[0] as u16,
        length: v[1] as u16,
    }
}

// The command of a byte and its operands.
pub fn command_with(b: u8, v: Operands) -> Command
    requires { (b < length command_rows) × FitsCode (code_row (row_of b)) v }
    ensures { result ≡ command_with b v }
{
    match b {
        0x00 => Command::End,
        0x01 => Command::Header(HeaderCommand::Code(window(v))),
        0x02 => Command::Header(HeaderCommand::Data(window(v))),
        0x03 => Command::Header(HeaderCommand::Stack(window(v))),
        0x04 => Command::Header(HeaderCommand::Entry(v[0] as u16, Cycles(v[1] as u32))),
        0x05 => Command::Mark(
            v[0] as u16,
            Claim {
                cost: Cycles(v[1] as u32),
                depth: StackBytes(v[2] as u16),
                need: StackBytes(v[3] as u16),
            },
        ),
        0x06 => Command::Name(v[0] as u16, v[1]),
        _ => Command::Header(HeaderCommand::Home(v[0] as u16)), // 0x07
    }
}
