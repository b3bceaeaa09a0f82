// The tickets that files are judged with, by their letters.
ghost use Rattle.std.specs.Prelude.{◌≤◌};

use std::io;
use std::io::Write;

// The length of the code window.
pub fn room(letter: u8) -> usize
    ensures { (1 ≤ result) × (result ≤ 4096) }
{
    if letter == b'L' { 4096 } else { 4 }
}

fn put_mark(out: &mut impl Write, address: u16, cost: u8) -> io::Result<()> {
    out.write_all(b"\x05")?;
    out.write_all(&address.to_be_bytes())?;
    out.write_all(&[0, 0, 0, cost, 0, 0, 0, 0])
}

// A header with four bytes of code, where the routine begins with the first.
fn put_header(out: &mut impl Write, start: u16, limit: u8) -> io::Result<()> {
    out.write_all(b"\x01")?;
    out.write_all(&start.to_be_bytes())?;
    out.write_all(b"\x00\x04\x02\x00\x40\x00\x01\x03\x01\xf0\x00\x05\x04")?;
    out.write_all(&start.to_be_bytes())?;
    out.write_all(&[0, 0, 0, limit])
}

// For NOP, NOP, NOP and RTS, which take 11 cycles from the first and 9 from the second: the limit, and the cost that
// the second's mark says.
fn put_ticket(out: &mut impl Write, start: u16, limit: u8, second: u8) -> io::Result<()> {
    put_header(out, start, limit)?;
    put_mark(out, start, 11)?;
    put_mark(out, start.wrapping_add(1), second)?;
    put_mark(out, start.wrapping_add(2), 7)?;
    put_mark(out, start.wrapping_add(3), 5)?;
    out.write_all(b"\x00")
}

fn put(out: &mut impl Write, letter: u8) -> io::Result<()> {
    match letter {
        b'P' => put_ticket(out, 0x8000, 11, 9),
        b'F' => put_ticket(out, 0xfffc, 11, 9), // the code window ends at $FFFF
        b'C' => put_ticket(out, 0x8000, 11, 8), // 16: the second's cost is too low
        b'T' => put_ticket(out, 0x8000, 10, 9), // 19: the entry's cost is above the limit
        // 18: the entry is not marked; 4,096 bytes at $1000
        b'L' => out.write_all(
            b"\x01\x10\x00\x10\x00\x02\x00\x40\x00\x01\x03\x01\xf0\x00\x05\x04\x10\x00\x00\x00\x00\x0b\x00",
        ),
        b'U' => out.write_all(b"\x01\x80\x00\x00\x04\x02\x00\x40\x00\x01\x0b"), // 1: unknown command
        // 8: a byte after the end
        b'A' => {
            put_ticket(out, 0x8000, 11, 9)?;
            out.write_all(b"\x00")
        }
        _ => Ok(()), // 2: an empty ticket
    }
}

// The ticket of a letter, put at the beginning of a space.
pub fn ticket(letter: u8, space: &mut [u8]) -> &[u8] {
    let room = space.len();
    let mut rest = &mut *space;
    let _ = put(&mut rest, letter);
    let left = rest.len();
    &space[..room.saturating_sub(left)]
}
