// The instruction at an address of the image, with its mark's claims.
ghost use Rattle.std.specs.Prelude.{◌<◌};

use crate::figures::window_line;
use commands::command::Claim;
use commands::header::holds;
use marks::claim_at;
use opcodes::lookup::found_of;
use output::text;
use registers::word::wrapping_sub;
use text::listing::{Listing, list};
use text::place::put_place;
use ticket::fields::Ticket;

// The byte at an index of the image; past its end there are zeros, as the checks have it.
fn byte(image: &[u8], i: usize) -> u8 {
    image.get(i).copied().unwrap_or(0)
}

// How many of the image's bytes stand from an index on.
fn left_from(image: &[u8], i: usize) -> usize {
    image.len().saturating_sub(i)
}

// How many bytes the tables give to the instruction at an index; 0 where there is none.
fn size_at(image: &[u8], i: usize) -> usize
    requires { i < 65536 }
{
    match found_of(byte(image, i), byte(image, i + 1)) {
        Some(found) => (found.cost / 256) as usize,
        None => 0,
    }
}

// The image ends where the code window does: otherwise the cause is 9.
fn leaves(image: &[u8], i: usize) -> bool
    requires { i < 65536 }
{
    left_from(image, i) < size_at(image, i)
}

// The first bytes' digits, a space after each, and spaces for the others. Of an operand that is not all there nothing
// is shown.
fn cut(l: Listing, left: usize) -> Listing
    requires { left < 5 }
{
    let mut bytes = l.bytes;
    bytes[3 * left..].fill(b' ');
    Listing {
        bytes,
        operand: [b' '; 17],
        ..l
    }
}

// No zeros that stand for bytes past the image's end; the longest instruction has five bytes.
fn listing_at(image: &[u8], i: usize, a: u16) -> Listing
    requires { i < 65536 }
{
    let l = list(
        a,
        byte(image, i),
        byte(image, i + 1),
        byte(image, i + 2),
        byte(image, i + 3),
        byte(image, i + 4),
    );
    let left = left_from(image, i);
    if left < 5 && leaves(image, i) {
        cut(l, left)
    } else {
        l
    }
}

fn instruction(rt: &impl Print, image: &[u8], i: usize, a: u16, claim: Option<Claim>)
    requires { i < 65536 }
{
    let mut line = [0u8; 256];
    let n = put_place(a, listing_at(image, i, a), claim, &mut line);
    text(rt, &line[..n]);
}

// An entry may lie outside the code window; a mark does not.
pub fn place_line(rt: &impl Print, t: &Ticket, a: u16, image: &[u8]) {
    let code = t.header.code;
    if holds(code, a) {
        let i = wrapping_sub(a, code.start) as usize;
        instruction(rt, image, i, a, claim_at(t, a));
        if leaves(image, i) {
            window_line(rt, b"leaves the code window", code);
        }
    } else {
        window_line(rt, b"outside the code window", code);
    }
}
