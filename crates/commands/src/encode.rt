// The bytes of a command: its byte, then its operands by the widths of its row.
ghost use Rattle.std.specs.Prelude.{◌≡◌, ◌+◌, ◌≤◌, length};
ghost use Rattle.lists.specs.Splice.{spliced};
ghost use Rattle.commands.specs.Bytes.{encode_of, width_of};

use crate::command::{Command, byte_of, operands_of};
use crate::number::put_number;
use crate::row::{row_of, size};

// How many bytes a command has.
#[tactic(auto, unfolding(crate::specs::Bytes::width_of), using(crate::proofs::Table::row_sizes))]
pub fn width_of(c: Command) -> u32
    ensures { result ≡ width_of c }
{
    (1 + size(row_of(byte_of(c)))) as u32
}

// A command at an offset of the output; the offset after it.
pub fn put_command(c: Command, out: &mut [u8], at: usize) -> usize
    requires { at + width_of c ≤ length out.old }
    ensures { (out.new ≡ spliced out.old at (encode_of c)) × (result ≡ at + width_of c) }
{
    let b = byte_of(c);
    let row = row_of(b);
    let values = operands_of(c);
    out[at] = b;
    let mut next = at + 1;
    for (v, o) in values.iter().zip(&row.operands) {
        let from = next;
        next += o.width;
        put_number(*v, &mut out[from..next]);
    }
    next
}
