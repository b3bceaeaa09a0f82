// Upper-case hexadecimal digits in a line, and the bytes, words and registers that they spell. An inner module of those
// that read a line: its functions require that the digits are there.
ghost use Rattle.std.specs.Prelude.{◌≡◌, ◌+◌, ◌<◌, ◌≤◌, length, IfSome};
ghost use Rattle.vectors.specs.Hex.{digit_of, value_in, hex_byte_in, hex_word_in, registers_in};

use registers::Registers;

// The value of a digit: of upper case alone, where that of `lists` is of either.
#[tactic(auto, unfolding(crate::specs::Hex::digit_of))]
pub fn digit(c: u8) -> Option<u8>
    ensures value { result ≡ digit_of c }
    ensures small { IfSome result (λ d. d ≤ 15) }
{
    match c {
        b'0'..=b'9' => Some(c - b'0'),
        b'A'..=b'F' => Some(c - b'A' + 10),
        _ => None,
    }
}

fn value_in(s: &[u8], i: usize) -> u8
    requires { i < length s.now }
    ensures { (result ≡ value_in s.now i) × (result ≤ 15) }
{
    digit(s[i]).unwrap_or(0)
}

#[tactic(auto, unfolding(crate::specs::Hex::hex_byte_in))]
pub fn hex_byte_in(s: &[u8], i: usize) -> u8
    requires { i + 1 < length s.now }
    ensures { result ≡ hex_byte_in s.now i }
{
    value_in(s, i) * 16 + value_in(s, i + 1)
}

#[tactic(auto, unfolding(crate::specs::Hex::hex_word_in))]
pub fn hex_word_in(s: &[u8], i: usize) -> u16
    requires { i + 3 < length s.now }
    ensures { result ≡ hex_word_in s.now i }
{
    (hex_byte_in(s, i) as u16) * 256 + (hex_byte_in(s, i + 2) as u16)
}

#[tactic(auto, unfolding(crate::specs::Hex::registers_in))]
pub fn registers_in(s: &[u8], i: usize) -> Registers
    requires { i + 25 < length s.now }
    ensures { result ≡ registers_in s.now i }
{
    Registers {
        x: hex_word_in(s, i + 4),
        y: hex_word_in(s, i + 8),
        sp: hex_word_in(s, i + 12),
        pc: hex_word_in(s, i + 16),
        lowest: hex_word_in(s, i + 22),
        a: hex_byte_in(s, i),
        b: hex_byte_in(s, i + 2),
        flags: hex_byte_in(s, i + 20),
    }
}
