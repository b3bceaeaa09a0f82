// The shape of a line: a space or a digit at each place, and the length that its counts ask for.
ghost use Rattle.std.specs.Prelude.{◌≡◌, ◌≤◌, true, ◌↔◌, MatchOption};
ghost use Rattle.vectors.specs.Line.{space_due, is_due, AllDue, Shaped};

use crate::hex::{digit, hex_byte_in};

// A line of the format.
#[derive(Clone, Copy)]
pub struct Line<'a> {
    pub text: &'a [u8],
    ghost shaped: { Shaped text.now },
}

#[tactic(auto, unfolding(crate::specs::Line::space_due))]
fn space_due(n: usize, i: usize) -> bool
    requires { n ≤ 16 }
    ensures { result ≡ space_due n i }
{
    if i < 63 {
        return matches!(i, 2 | 5 | 32 | 59 | 62);
    }
    if i < 63 + 7 * n {
        return (i - 63) % 7 == 6;
    }
    (i - (63 + 7 * n)) % 7 == 2
}

#[tactic(auto, unfolding(crate::specs::Line::is_due))]
fn is_due(n: usize, i: usize, c: u8) -> bool
    requires { n ≤ 16 }
    ensures { result ≡ is_due n i c }
{
    if space_due(n, i) {
        c == b' '
    } else {
        digit(c).is_some()
    }
}

// Whether every byte of a line that lists n bytes is the one that is due.
fn all_due(s: &[u8], n: usize) -> bool
    requires { n ≤ 16 }
    ensures { (result ≡ true) ↔ (AllDue n s.now) }
{
    for (i, c) in s.iter().enumerate() {
        if !is_due(n, i, *c) {
            return false;
        }
    }
    true
}

// Whether a line is of the format.
fn shaped(s: &[u8]) -> bool
    ensures { (result ≡ true) ↔ (Shaped s.now) }
{
    if s.len() < 72 {
        return false;
    }
    if 3 < hex_byte_in(s, 0) {
        return false;
    }
    let n = hex_byte_in(s, 60) as usize;
    if n < 1 {
        return false;
    }
    if 16 < n {
        return false;
    }
    if s.len() < 65 + 7 * n {
        return false;
    }
    let w = hex_byte_in(s, 63 + 7 * n) as usize;
    if 9 < w {
        return false;
    }
    if s.len() != 65 + 7 * n + 7 * w {
        return false;
    }
    all_due(s, n)
}

// The same as a line.
pub fn line_in(s: &[u8]) -> Option<Line<'_>>
    ensures { MatchOption result (Shaped s.now → ⊥) (λ l. l.text.now ≡ s.now) }
{
    if shaped(s) {
        Some(Line { text: s })
    } else {
        None
    }
}
