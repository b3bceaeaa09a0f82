// A ticket's bytes from a short text. Two hexadecimal digits are a byte, in lower case, and spaces are left out. H is a
// header with a code window of 16 bytes at $8000, L one with 4,096 at $1000. M and an address is a mark, N and an
// address a name; R, an address and a count are marks from that address on, and Q the same, each with its name.
ghost use Rattle.std.specs.Prelude.{◌<◌, ◌≤◌};

use std::io;
use std::io::Write;

// A digit's value. The cases have digits alone where one is wanted. Kept apart from that of images: the two programs
// share no library of tests, and `lists` has no value for what is no digit.
fn digit(b: u8) -> u8
    ensures { result < 16 }
{
    if b < b'a' {
        b % 16
    } else {
        (b - b'a') % 6 + 10
    }
}

// After the end of a text stand zeros.
fn digit_at(s: &[u8], i: usize) -> u8
    ensures { result < 16 }
{
    match s.get(i) {
        Some(b) => digit(*b),
        None => 0,
    }
}

fn pair(s: &[u8], i: usize) -> u8 {
    digit_at(s, i) * 16 + digit_at(s, i.wrapping_add(1))
}

pub fn word(s: &[u8], i: usize) -> u16 {
    u16::from_be_bytes([pair(s, i), pair(s, i.wrapping_add(2))])
}

fn put_mark(out: &mut impl Write, address: u16) -> io::Result<()> {
    out.write_all(b"\x05")?;
    out.write_all(&address.to_be_bytes())?;
    out.write_all(b"\x00\x00\x00\x05\x00\x00\x00\x00")
}

fn put_name(out: &mut impl Write, address: u16) -> io::Result<()> {
    out.write_all(b"\x06")?;
    out.write_all(&address.to_be_bytes())?;
    out.write_all(b"A name ~")
}

fn put_marks(out: &mut impl Write, first: u16, count: u16, named: bool) -> io::Result<()> {
    for i in 0..count {
        let address = first.wrapping_add(i);
        put_mark(out, address)?;
        if named {
            put_name(out, address)?;
        }
    }
    Ok(())
}

// What a text begins with goes to the output.
fn put_piece(out: &mut impl Write, s: &[u8]) -> io::Result<()> {
    let address = word(s, 1);
    let count = word(s, 6);
    match s.first() {
        None | Some(b' ') => Ok(()),
        Some(b'H') => out.write_all(
            b"\x01\x80\x00\x00\x10\x02\x00\x40\x00\x01\x03\x01\xf0\x00\x05\x04\x80\x00\x00\x00\x00\x1a",
        ),
        Some(b'L') => out.write_all(
            b"\x01\x10\x00\x10\x00\x02\x00\x40\x00\x01\x03\x01\xf0\x00\x05\x04\x10\x00\x00\x00\x00\x1a",
        ),
        Some(b'M') => put_mark(out, address),
        Some(b'N') => put_name(out, address),
        Some(b'R') => put_marks(out, address, count, false),
        Some(b'Q') => put_marks(out, address, count, true),
        Some(_) => out.write_all(&[pair(s, 0)]),
    }
}

// How much of a text what begins with this byte takes.
fn length(first: u8) -> usize
    ensures { 1 ≤ result }
{
    match first {
        b' ' | b'H' | b'L' => 1,
        b'M' | b'N' => 5,
        b'R' | b'Q' => 10,
        _ => 2,
    }
}

// What was written to a space of which so much is left.
pub fn written(space: &[u8], left: usize) -> &[u8] {
    let n = space.len().saturating_sub(left);
    &space[..n]
}

// The ticket of a text, put at the beginning of a space.
pub fn build<'a>(s: &[u8], space: &'a mut [u8]) -> &'a [u8] {
    let mut out = &mut *space;
    let mut text = s;
    while let Some(first) = text.first() {
        let _ = put_piece(&mut out, text);
        text = text.get(length(*first)..).unwrap_or(b"");
    }
    let left = out.len();
    written(space, left)
}
