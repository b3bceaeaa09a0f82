// The register arithmetic of the manual: PC, SP and the address of an indexed operand wrap at 65,536. A comparison does
// not. Beside std's methods these stay for their promises, which speak the definitions' words.
ghost use Rattle.std.specs.Prelude.{◌≡◌};
ghost use Rattle.registers.specs.Word.{wrapping_add, wrapping_sub, target_of, smaller_of};

// n past a.
#[tactic(auto, unfolding(crate::specs::Word::wrapping_add))]
pub fn wrapping_add(a: u16, n: u16) -> u16
    ensures { result ≡ wrapping_add a n }
{
    a.wrapping_add(n)
}

// n before a.
#[tactic(auto, unfolding(crate::specs::Word::wrapping_sub))]
pub fn wrapping_sub(a: u16, n: u16) -> u16
    ensures { result ≡ wrapping_sub a n }
{
    a.wrapping_sub(n)
}

// Where a branch by a signed offset goes.
#[tactic(auto, unfolding(crate::specs::Word::target_of))]
pub fn target(next: u16, d: u8) -> u16
    ensures { result ≡ target_of next d }
{
    if d < 128 {
        wrapping_add(next, d as u16)
    } else {
        wrapping_add(next, (d as u16) + 0xff00)
    }
}

pub fn smaller(a: u16, b: u16) -> u16
    ensures { result ≡ smaller_of a b }
{
    a.min(b)
}
