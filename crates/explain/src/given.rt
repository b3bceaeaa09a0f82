// Which byte of the code window an S-record file never gives, where each of its lines is good.
ghost use Rattle.std.specs.Prelude.{◌+◌, ◌<◌, IfSome};

use crate::hex::word;
use commands::header::Window;
use lists::digit::digit;
use output::text;
use registers::word::wrapping_add;
use std::ops::Range;

// The number that two digits say.
fn pair(high: u8, low: u8) -> Option<u32>
    ensures { IfSome result (λ n. n < 256) }
{
    Some((digit(high)? as u32) * 16 + (digit(low)? as u32))
}

// The addresses that a line gives: three of the bytes that its count says are its address and its checksum.
fn addresses(line: &[u8]) -> Option<Range<u32>> {
    let [_, b'1', c, d, h, i, l, m, ..] = line else {
        return None;
    };
    let count = pair(*c, *d)?;
    let first = pair(*h, *i)? * 256 + pair(*l, *m)?;
    Some(first..first + count.saturating_sub(3))
}

// Whether any line gives it.
fn given(file: &[u8], a: u16) -> bool {
    file.split(|b| *b == b'\n')
        .filter_map(|line| addresses(line))
        .any(|r| r.contains(&(a as u32)))
}

// The first address that is not given; where all are, the one after the window.
fn first_missing(file: &[u8], code: Window) -> u16 {
    (0..code.length)
        .map(|i| wrapping_add(code.start, i))
        .find(|a| !given(file, *a))
        .unwrap_or(wrapping_add(code.start, code.length))
}

pub fn missing_line(rt: &impl Print, file: &[u8], code: Window) {
    word(rt, b"in no line: the byte at $", first_missing(file, code));
    text(rt, b"\n");
}
