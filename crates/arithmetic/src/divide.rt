// IDIV and FDIV of D by X.
ghost use Rattle.std.specs.Prelude.{◌≡◌, false, eqb};
ghost use Rattle.registers.specs.Flags.{flags_of};
ghost use Rattle.arithmetic.specs.Codes.{with_zvc};
ghost use Rattle.arithmetic.specs.inner.Packed.{packed_divided};
ghost use Rattle.arithmetic.specs.Divide.{divided, idiv_of, fdiv_of};

use crate::codes::with_zvc;

// The quotient goes to X, the remainder to D.
#[derive(Clone, Copy)]
pub struct Divided {
    pub quotient: u16,
    pub remainder: u16,
    pub flags: u8,
}

// A quotient and its remainder that are words.
fn with_quotient(q: u16, r: u16, f: u8) -> Divided
    ensures { result ≡ packed_divided (divided q r (with_zvc (flags_of f) (eqb q 0) false false)) }
{
    Divided {
        quotient: q,
        remainder: r,
        flags: with_zvc(f, q == 0, false, false),
    }
}

// No quotient: $FFFF, and D stays.
fn no_quotient(d: u16, v: bool, c: bool, f: u8) -> Divided
    ensures { result ≡ packed_divided (divided 0xffff d (with_zvc (flags_of f) false v c)) }
{
    Divided {
        quotient: 0xffff,
        remainder: d,
        flags: with_zvc(f, false, v, c),
    }
}

// By zero there is no quotient, and C is set.
#[tactic(auto, unfolding(crate::specs::Divide::idiv_of))]
pub fn idiv(d: u16, x: u16, f: u8) -> Divided
    ensures { result ≡ packed_divided (idiv_of d x (flags_of f)) }
{
    if x == 0 {
        return no_quotient(d, false, true, f);
    }
    with_quotient(d / x, d % x, f)
}

// With X at or below D there is no quotient, and V is set; C says whether X was zero.
#[tactic(auto, unfolding(crate::specs::Divide::fdiv_of))]
pub fn fdiv(d: u16, x: u16, f: u8) -> Divided
    ensures { result ≡ packed_divided (fdiv_of d x (flags_of f)) }
{
    if x <= d {
        return no_quotient(d, true, x == 0, f);
    }
    let n = (d as u32) * 65536;
    let by = x as u32;
    with_quotient((n / by) as u16, (n % by) as u16, f)
}
