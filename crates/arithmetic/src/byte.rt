// The operations on bytes, with their condition codes.
ghost use Rattle.std.specs.Prelude.{◌≡◌, eqb};
ghost use Rattle.registers.specs.Flags.{bit, flags_of, byte_of};
ghost use Rattle.arithmetic.specs.Codes.{with_nzvc};
ghost use Rattle.arithmetic.specs.Result.{result_of};
ghost use Rattle.arithmetic.specs.inner.Packed.{packed};
ghost use Rattle.arithmetic.specs.Byte.{add8_of, sub8_of, logic8_of, tst_of, shifted8, unary_of, logical, binary_of};
ghost use Rattle.arithmetic.specs.Byte.{bset_of, bclr_of};

use crate::codes::{Coded, overflow, with_h, with_low_bits, with_nzv, with_nzvc};
use opcodes::instruction::{Binary, Unary};

// The byte r with N and Z of it, V as bit 7 of what `overflow` answered, and C as given.
fn coded_by_overflow(r: u8, o: u16, c: bool, f: u8) -> Coded<u8>
    ensures { result ≡ packed (result_of r (with_nzvc (flags_of f) (bit 7 r) (eqb r 0) (bit 7 o) c)) }
{
    Coded {
        value: r,
        flags: with_low_bits(f, (r as u16) / 128, r == 0, o / 128, c),
    }
}

// ADD, ADC, ABA. H and C are read off the sums of the low half-bytes and of the bytes.
pub fn add8(x: u8, m: u8, carry: bool, f: u8) -> Coded<u8>
    ensures { result ≡ packed (add8_of x m carry (flags_of f)) }
{
    let k = u8::from(carry);
    let half = x % 16 + m % 16 + k;
    let sum = (x as u16) + (m as u16) + (k as u16);
    let r = (sum % 256) as u8;
    let g = with_h(f, 15 < half);
    coded_by_overflow(r, overflow(x as u16, m as u16, r as u16), 255 < sum, g)
}

// The byte r with N and Z of it, and V and C as given.
pub fn coded(r: u8, v: bool, c: bool, f: u8) -> Coded<u8>
    ensures { result ≡ packed (result_of r (with_nzvc (flags_of f) (bit 7 r) (eqb r 0) v c)) }
{
    Coded {
        value: r,
        flags: with_nzvc(f, r / 128 % 2 == 1, r == 0, v, c),
    }
}

// SUB, SBC, CMP, SBA, CBA, and NEG, where x is 0. C says that what is taken away is more than x.
pub fn sub8(x: u8, m: u8, borrow: bool, f: u8) -> Coded<u8>
    ensures { result ≡ packed (sub8_of x m borrow (flags_of f)) }
{
    let from = x as u16;
    let less = (m as u16) + u16::from(borrow);
    let r = ((from + 256 - less) % 256) as u8;
    coded_by_overflow(r, overflow(m as u16, r as u16, from), from < less, f)
}

// Loads, stores, transfers and the logical operations.
pub fn logic8(r: u8, f: u8) -> u8
    ensures { result ≡ byte_of (logic8_of r (flags_of f)) }
{
    with_nzv(f, r / 128 % 2 == 1, r == 0, false)
}

// TST clears C as well.
pub fn tst(m: u8, f: u8) -> u8
    ensures { result ≡ byte_of (tst_of m (flags_of f)) }
{
    with_nzvc(f, m / 128 % 2 == 1, m == 0, false, false)
}

// The byte r, out of which the bit c was shifted.
fn shifted(r: u8, c: bool, f: u8) -> Coded<u8>
    ensures { result ≡ packed (shifted8 r c (flags_of f)) }
{
    coded(r, (r / 128 % 2 == 1) ^ c, c, f)
}

// The ten that make a byte of a byte.
#[tactic(auto, using(crate::proofs::Negation::neg_difference))]
pub fn unary(u: Unary, m: u8, f: u8) -> Coded<u8>
    ensures { result ≡ packed (unary_of u m (flags_of f)) }
{
    let w = m as u16;
    let low = m % 2 == 1;
    let high = m / 128 % 2 == 1;
    let c = f % 2 == 1;
    match u {
        Unary::Neg => sub8(0, m, false, f),
        Unary::Com => coded(255 - m, false, true, f),
        Unary::Lsr => shifted(m / 2, low, f),
        Unary::Ror => shifted(m / 2 + 128 * u8::from(c), low, f),
        Unary::Asr => shifted(m / 2 + 128 * u8::from(high), low, f),
        Unary::Asl => shifted((2 * w % 256) as u8, high, f),
        Unary::Rol => shifted(((2 * w + u16::from(c)) % 256) as u8, high, f),
        Unary::Dec => coded(((w + 255) % 256) as u8, m == 0x80, c, f),
        Unary::Inc => coded(((w + 1) % 256) as u8, m == 0x7f, c, f),
        Unary::Clr => coded(0, false, false, f),
    }
}

// The byte r with the condition codes of the logical operations.
fn logical8(r: u8, f: u8) -> Coded<u8>
    ensures { result ≡ packed (logical r (flags_of f)) }
{
    coded(r, false, f % 2 == 1, f)
}

// The ten of an accumulator x and an operand byte m: what the accumulator becomes.
pub fn binary(b: Binary, x: u8, m: u8, f: u8) -> Coded<u8>
    ensures { result ≡ packed (binary_of b x m (flags_of f)) }
{
    match b {
        Binary::Sub => sub8(x, m, false, f),
        Binary::Cmp => Coded {
            value: x,
            flags: sub8(x, m, false, f).flags,
        },
        Binary::Sbc => sub8(x, m, f % 2 == 1, f),
        Binary::And => logical8(x & m, f),
        Binary::Bit => Coded {
            value: x,
            flags: logic8(x & m, f),
        },
        Binary::Lda => logical8(m, f),
        Binary::Eor => logical8(x ^ m, f),
        Binary::Adc => add8(x, m, f % 2 == 1, f),
        Binary::Ora => logical8(x | m, f),
        Binary::Add => add8(x, m, false, f),
    }
}

// The bits of the mask are set in m.
pub fn bset(m: u8, mask: u8, f: u8) -> Coded<u8>
    ensures { result ≡ packed (bset_of m mask (flags_of f)) }
{
    logical8(m | mask, f)
}

// The bits of the mask are cleared in m.
pub fn bclr(m: u8, mask: u8, f: u8) -> Coded<u8>
    ensures { result ≡ packed (bclr_of m mask (flags_of f)) }
{
    logical8(m & (255 - mask), f)
}
