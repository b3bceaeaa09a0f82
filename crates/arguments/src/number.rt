// A number that a text spells.
ghost use Rattle.std.specs.Prelude.{◌≡◌, ◌≤◌};
ghost use Rattle.arguments.specs.Number.{number_of};

use lists::digit::digit;

// In a base up to 16, at most `most`. A text without digits spells none.
#[tactic(auto, using(crate::proofs::Spelled::no_digits, crate::proofs::Spelled::some_digits, crate::proofs::Spelled::next_digit, crate::proofs::Spelled::last_digit))]
pub fn number(s: &[u8], base: u32, most: u32) -> Option<u32>
    requires { base ≤ 16 }
    ensures { result ≡ number_of base most s.now }
{
    if s.is_empty() {
        return None;
    }
    let mut v: u32 = 0;
    for c in s {
        let d = u32::from(digit(*c)?);
        let w = u64::from(v) * u64::from(base) + u64::from(d);
        if base <= d || u64::from(most) < w {
            return None;
        }
        v = w as u32;
    }
    Some(v)
}
