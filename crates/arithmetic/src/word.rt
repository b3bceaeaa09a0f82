// The operations on words, with their condition codes. `logic16` and `shifted` are byte.rt's at another width: one
// function for both needs a trait of sign and zero, with a ghost view for each width, and is no plainer.
ghost use Rattle.std.specs.Prelude.{◌≡◌};
ghost use Rattle.registers.specs.Flags.{flags_of, byte_of};
ghost use Rattle.arithmetic.specs.inner.Packed.{packed};
ghost use Rattle.arithmetic.specs.Word.{add16_of, sub16_of, logic16_of, shifted16, asld_of, lsrd_of, mul_of};

use crate::codes::{Coded, overflow, with_c, with_low_bits, with_nzv, with_nzvc};
use registers::word::wrapping_sub;

// ADDD. C is read off the sum.
pub fn add16(x: u16, m: u16, f: u8) -> Coded<u16>
    ensures { result ≡ packed (add16_of x m (flags_of f)) }
{
    let sum = (x as u32) + (m as u32);
    let r = (sum % 65536) as u16;
    let o = overflow(x, m, r);
    Coded {
        value: r,
        flags: with_low_bits(f, r / 32768, r == 0, o / 32768, 65535 < sum),
    }
}

// SUBD, CPD, CPX, CPY. C says that m is more than x.
pub fn sub16(x: u16, m: u16, f: u8) -> Coded<u16>
    ensures { result ≡ packed (sub16_of x m (flags_of f)) }
{
    let r = wrapping_sub(x, m);
    let o = overflow(m, r, x);
    Coded {
        value: r,
        flags: with_low_bits(f, r / 32768, r == 0, o / 32768, x < m),
    }
}

// Loads and stores.
pub fn logic16(r: u16, f: u8) -> u8
    ensures { result ≡ byte_of (logic16_of r (flags_of f)) }
{
    with_nzv(f, r / 32768 % 2 == 1, r == 0, false)
}

// The word r, out of which the bit c was shifted.
fn shifted(r: u16, c: bool, f: u8) -> Coded<u16>
    ensures { result ≡ packed (shifted16 r c (flags_of f)) }
{
    let n = r / 32768 % 2 == 1;
    Coded {
        value: r,
        flags: with_nzvc(f, n, r == 0, n ^ c, c),
    }
}

pub fn asld(d: u16, f: u8) -> Coded<u16>
    ensures { result ≡ packed (asld_of d (flags_of f)) }
{
    shifted((2 * (d as u32) % 65536) as u16, d / 32768 % 2 == 1, f)
}

pub fn lsrd(d: u16, f: u8) -> Coded<u16>
    ensures { result ≡ packed (lsrd_of d (flags_of f)) }
{
    shifted(d / 2, d % 2 == 1, f)
}

// C is bit 7 of the product.
#[tactic(auto, unfolding(crate::specs::Word::mul_of))]
pub fn mul(a: u8, b: u8, f: u8) -> Coded<u16>
    ensures { result ≡ packed (mul_of a b (flags_of f)) }
{
    let p = (a as u16) * (b as u16);
    Coded {
        value: p,
        flags: with_c(f, p / 128 % 2 == 1),
    }
}
