// Each instruction as a row of a table in Markdown: mnemonic, mode, operand, bytes, length and cycles, and what the
// verdict's own checks make of it. tools/cycles_page.py sorts the rows for docs/CYCLES.md.
#![tactic(auto)]

ghost use Rattle.std.specs.Prelude.{◌<◌};

use mode::{columns, operand_bytes};
use opcodes::decoder::{action_at, mode_at};
use opcodes::lookup::{Found, found_of, page_of};
use output::{decimal, text};
use rule::{OPERAND, rule};
use text::mnemonic::mnemonic;
use text::number::hex2;

mod mode; // what a row says of a mode
mod rule; // what it says of the rules

fn opcode(rt: &impl Print, size: u16, first: u8, second: u8) {
    text(rt, &hex2(first));
    if size == 2 {
        text(rt, b" ");
        text(rt, &hex2(second));
    }
}

fn row(rt: &impl Print, f: Found, first: u8, second: u8)
    requires { f.place < 1024 }
{
    let mode = mode_at(f.place);
    text(rt, b"| ");
    text(rt, &mnemonic(action_at(f.place), mode));
    text(rt, b" | ");
    text(rt, columns(mode));
    text(rt, b" | ");
    opcode(rt, f.size, first, second);
    text(rt, operand_bytes(mode));
    text(rt, b" | ");
    decimal(rt, (f.cost / 256) as u64);
    text(rt, b" | ");
    decimal(rt, (f.cost % 256) as u64);
    text(rt, b" | ");
    rule(rt, first, second);
    text(rt, b" |\n");
}

// The instruction that begins with these bytes, where there is one.
fn show(rt: &impl Print, first: u8, second: u8) {
    if let Some(f) = found_of(first, second) {
        row(rt, f, first, second);
    }
}

// Every instruction of a map that a first byte leads to.
fn map(rt: &impl Print, first: u8) {
    for second in 0..=255 {
        show(rt, first, second);
    }
}

fn main(rt: HostRuntime) {
    for first in 0..=255 {
        if page_of(first) == 0 {
            show(&rt, first, OPERAND);
        } else {
            map(&rt, first);
        }
    }
}
