// A hexadecimal digit.
ghost use Rattle.std.specs.Prelude.{◌≡◌, ◌<◌, IfSome};
ghost use Rattle.lists.specs.Digit.{digit_of};

// Its value, in upper or lower case.
#[tactic(auto, unfolding(crate::specs::Digit::digit_of))]
pub fn digit(c: u8) -> Option<u8>
    ensures value { result ≡ digit_of c }
    ensures small { IfSome result (λ d. d < 16) }
{
    Some(char::from(c).to_digit(16)? as u8)
}
