// What an operation answers; the byte of the condition codes with some of them changed; and V of a sum or a difference.
ghost use Rattle.std.specs.Prelude.{◌≡◌, ℕ};
ghost use Rattle.registers.specs.Flags.{bit, low, flags_of, byte_of};
ghost use Rattle.arithmetic.specs.Codes.{with_nzvc, with_nzv, with_hnzvc, with_z, with_v, with_c, with_zvc};
ghost use Rattle.arithmetic.specs.Codes.{overflow_sum};

// A byte or a word that an operation made, with the condition codes.
#[derive(Clone, Copy)]
pub struct Coded<T> {
    pub value: T,
    pub flags: u8,
}

// N and V are the lowest bits of n and v, with no test of them, for speed. S, X, H and I stay: they are the upper half
// of the byte.
pub fn with_low_bits(f: u8, n: u16, z: bool, v: u16, c: bool) -> u8
    ensures { result ≡ byte_of (with_nzvc (flags_of f) (low n) z (low v) c) }
{
    f / 16 * 16 + 8 * ((n % 2) as u8) + 4 * u8::from(z) + 2 * ((v % 2) as u8) + u8::from(c)
}

pub fn with_nzvc(f: u8, n: bool, z: bool, v: bool, c: bool) -> u8
    ensures { result ≡ byte_of (with_nzvc (flags_of f) n z v c) }
{
    with_low_bits(f, u16::from(n), z, u16::from(v), c)
}

pub fn with_nzv(f: u8, n: bool, z: bool, v: bool) -> u8
    ensures { result ≡ byte_of (with_nzv (flags_of f) n z v) }
{
    with_nzvc(f, n, z, v, f % 2 == 1)
}

// Only H changes: S and X lie above it, the others below.
pub fn with_h(f: u8, h: bool) -> u8
    ensures { result ≡ (let g = flags_of f in byte_of (with_hnzvc g h g.n g.z g.v g.c)) }
{
    f / 64 * 64 + 32 * u8::from(h) + f % 32
}

pub fn with_z(f: u8, z: bool) -> u8
    ensures { result ≡ byte_of (with_z (flags_of f) z) }
{
    with_nzvc(f, f / 8 % 2 == 1, z, f / 2 % 2 == 1, f % 2 == 1)
}

pub fn with_v(f: u8, v: bool) -> u8
    ensures { result ≡ byte_of (with_v (flags_of f) v) }
{
    with_nzvc(f, f / 8 % 2 == 1, f / 4 % 2 == 1, v, f % 2 == 1)
}

pub fn with_c(f: u8, c: bool) -> u8
    ensures { result ≡ byte_of (with_c (flags_of f) c) }
{
    with_nzvc(f, f / 8 % 2 == 1, f / 4 % 2 == 1, f / 2 % 2 == 1, c)
}

pub fn with_zvc(f: u8, z: bool, v: bool, c: bool) -> u8
    ensures { result ≡ byte_of (with_zvc (flags_of f) z v c) }
{
    with_nzvc(f, f / 8 % 2 == 1, z, v, c)
}

// V of the sum r of x and m, at every bit: a byte's is bit 7 and a word's bit 15. It is set where r differs from both.
// V of the difference r of x and m is `overflow(m, r, x)`: x is the sum of m and r.
#[tactic(auto, using(crate::proofs::Overflow::overflow_bit))]
pub fn overflow(x: u16, m: u16, r: u16) -> u16
    ensures { (k : ℕ) → bit k result ≡ overflow_sum k x m r }
{
    (x ^ r) & (m ^ r)
}
