// The command that bytes begin with: its byte, then its operands by the widths of its row.
ghost use Rattle.std.specs.Prelude.{◌≡◌, ◌≤◌, length};
ghost use Rattle.commands.specs.Bytes.{parse_of};
ghost use Rattle.commands.specs.inner.Table.{Narrow, FitsCode, code_size, values_in};

use crate::command::{Command, Operands, command_with};
use crate::number::number;
use crate::row::{COMMANDS, TableRow, row_of, size};

// Why bytes begin with no command.
#[derive(Clone, Copy)]
pub enum ParseError {
    Unknown, // no command has this byte
    Cut, // no byte is left, or the operands are cut short
}

// The operands of a row that bytes begin with.
fn operands_in(row: TableRow, s: &[u8]) -> Operands
    requires { Narrow row.operands × (code_size row.operands ≤ length s.now) }
    ensures { (result ≡ values_in row.operands s.now) × FitsCode row result }
{
    let mut values = [0; 4];
    let mut left = s;
    for (i, o) in row.operands.iter().enumerate() {
        let (head, tail) = left.split_at(o.width);
        values[i] = number(head);
        left = tail;
    }
    values
}

pub fn parse(s: &[u8]) -> Result<Command, ParseError>
    ensures { result ≡ parse_of s.now }
{
    let [b, left @ ..] = s else {
        return Err(ParseError::Cut);
    };
    if COMMANDS <= *b {
        return Err(ParseError::Unknown);
    }
    let row = row_of(*b);
    if left.len() < size(row) {
        return Err(ParseError::Cut);
    }
    Ok(command_with(*b, operands_in(row, left)))
}
