// DAA: the sum of two bytes of decimal digits, made decimal again.
ghost use Rattle.std.specs.Prelude.{◌≡◌};
ghost use Rattle.registers.specs.Flags.{flags_of};
ghost use Rattle.arithmetic.specs.inner.Packed.{packed};
ghost use Rattle.arithmetic.specs.Decimal.{daa_of};

use crate::byte::coded;
use crate::codes::Coded;

#[tactic(auto, unfolding(crate::specs::Decimal::daa_of), using(crate::proofs::Bits::when_one))]
pub fn daa(a: u8, f: u8) -> Coded<u8>
    ensures { result ≡ packed (daa_of a (flags_of f)) }
{
    let low = (f / 32 % 2 == 1) | (9 < a % 16);
    let high = (f % 2 == 1) | (0x99 < a);
    let sum = (a as u16) + 0x06 * u16::from(low) + 0x60 * u16::from(high);
    let r = (sum % 256) as u8;
    coded(r, false, high, f)
}
