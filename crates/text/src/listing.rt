// An instruction as text.
ghost use Rattle.std.specs.Prelude.{◌≡◌, ◌<◌};
ghost use Rattle.opcodes.specs.Tables.{action_at, mode_at};
ghost use Rattle.text.specs.Mnemonic.{mnemonic_of};
ghost use Rattle.text.specs.Operand.{operand_text};
ghost use Rattle.text.specs.Listing.{bytes_text, five, listing_of, column_of};

use crate::mnemonic::mnemonic;
use crate::number::hex2;
use crate::operand::operand;
use opcodes::decoder::{action_at, mode_at};
use opcodes::lookup::found_of;
use registers::word::wrapping_add;

// Its bytes in hexadecimal, its mnemonic and its operand, each padded with spaces.
#[derive(Clone, Copy)]
pub struct Listing {
    pub bytes: [u8; 14],
    pub mnemonic: [u8; 5],
    pub operand: [u8; 17],
}

// A byte's digits, or spaces where the instruction has ended.
fn column(shown: bool, b: u8) -> [u8; 2]
    ensures { result ≡ column_of shown b }
{
    if shown { hex2(b) } else { *b"  " }
}

// The first n of five bytes.
#[tactic(auto, using(crate::proofs::ListingColumns::shown))]
fn bytes(n: u16, a: u8, b: u8, c: u8, d: u8, e: u8) -> [u8; 14]
    ensures { result ≡ bytes_text n (five a b c d e) }
{
    let p = column(0 < n, a);
    let q = column(1 < n, b);
    let r = column(2 < n, c);
    let s = column(3 < n, d);
    let t = column(4 < n, e);
    [
        p[0], p[1], b' ', q[0], q[1], b' ', r[0], r[1], b' ', s[0], s[1], b' ', t[0], t[1],
    ]
}

// The instruction of a place, whose operand's bytes are u, v and w; `next` is the address after it.
fn listed(place: usize, bytes: [u8; 14], u: u8, v: u8, w: u8, next: u16) -> Listing
    requires { place < 1024 }
    ensures { result ≡ record {
      bytes = bytes;
      mnemonic = mnemonic_of (action_at place) (mode_at place);
      operand = operand_text (mode_at place) u v w next;
    } }
{
    let mode = mode_at(place);
    Listing {
        bytes,
        mnemonic: mnemonic(action_at(place), mode),
        operand: operand(mode, u, v, w, next),
    }
}

// The instruction at an address, from the five bytes there on, one by one as `five` has them. Where there is none: the
// first byte alone, "-" for a mnemonic and no operand.
pub fn list(pc: u16, a: u8, b: u8, c: u8, d: u8, e: u8) -> Listing
    ensures { result ≡ listing_of pc (five a b c d e) }
{
    let Some(found) = found_of(a, b) else {
        return Listing {
            bytes: bytes(1, a, b, c, d, e),
            mnemonic: *b"-    ",
            operand: [b' '; 17],
        };
    };
    let length = (found.cost / 256) as u16;
    let text = bytes(length, a, b, c, d, e);
    let next = wrapping_add(pc, length);
    if found.size == 1 {
        listed(found.place, text, b, c, d, next)
    } else {
        listed(found.place, text, c, d, e, next)
    }
}
