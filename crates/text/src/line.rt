// A line that grows: texts and numbers, one after another.
ghost use Rattle.std.specs.Prelude.{◌≡◌, [], ◌∷◌, ◌++◌, ◌+◌, ◌≤◌, length};
ghost use Rattle.lists.specs.Splice.{spliced};
ghost use Rattle.text.specs.Line.{field_text, pair_text};
ghost use Rattle.text.specs.Number.{decimal_of};

use crate::number::put_text;
use std::marker::Model;

// A contract sees the bytes so far. The others of the buffer are room, and zero: so the bytes so far say all of a line,
// which is what lets it be copied (`inverse`).
#[derive(Clone, Copy)]
pub struct Line {
    bytes: [u8; 256],
    len: usize,
}

impl Model for Line {
    ghost use Rattle.std.specs.Prelude.{◌≡◌, ℕ, List, ◌++◌, ◌-◌, ◌≤◌, length, take, replicate};
    ghost use Rattle.std.proofs.Common.{ap, ◌∙◌, arith, length-take-le};

    ghost Value = { List ℕ };

    ghost view = { λ l. take l.len l.bytes };

    ghost invariant = { λ l. (l.len ≤ 256) × (length l.bytes ≡ 256)
        × (take l.len l.bytes ++ replicate (256 - l.len) 0 ≡ l.bytes) };

    ghost inverse = { λ s. record { bytes = s ++ replicate (256 - length s) 0; len = length s } };

    ghost inverse_ok = { λ l h.
        let size : length (take l.len l.bytes) ≡ l.len = length-take-le l.len l.bytes (omega (arith, h.0, h.1)) in
        λ i. record {
          bytes = (ap (λ n. take l.len l.bytes ++ replicate (256 - n) 0) size ∙ h.2) i;
          len = size i;
        } };
}

impl Line {
    pub fn empty() -> Line
        ensures { result ≡ [] }
    {
        Line {
            bytes: [0; 256],
            len: 0,
        }
    }

    #[tactic(auto, using(crate::proofs::Written::grown))]
    pub fn with_text(mut self, s: &[u8]) -> Line
        requires { length self + length s.now ≤ 256 }
        ensures { result ≡ self ++ s.now }
    {
        let at = self.len;
        self.len = put_text(&mut self.bytes, at, s);
        self
    }

    // Its decimal digits, without leading zeros: ten at most.
    #[tactic(auto, using(crate::proofs::Digits::one_digit, crate::proofs::Digits::decimal_next, crate::proofs::Digits::one_more))]
    pub fn with_number(self, n: u32) -> Line
        requires { length self + length (decimal_of n) ≤ 256 }
        ensures { result ≡ self ++ decimal_of n }
    {
        if n < 10 {
            return self.with_text(&[b'0' + n as u8]);
        }
        self.with_number(n / 10).with_text(&[b'0' + (n % 10) as u8])
    }

    pub fn with_named(self, name: &[u8], text: &[u8]) -> Line
        requires { length self + length name.now + length text.now ≤ 256 }
        ensures { result ≡ self ++ (name.now ++ text.now) }
    {
        self.with_text(name).with_text(text)
    }

    #[tactic(auto, using(crate::proofs::Digits::decimal_most), unfolding(crate::specs::Line::field_text))]
    pub fn with_field(self, label: &[u8], n: u32) -> Line
        requires { length self + length label.now + 10 ≤ 256 }
        ensures { (result ≡ self ++ field_text label.now n)
            × (length result ≤ length self + length label.now + 10) }
    {
        self.with_text(label).with_number(n)
    }

    // What was used of what is allowed.
    #[tactic(auto, unfolding(crate::specs::Line::pair_text))]
    pub fn with_pair(self, label: &[u8], used: u32, allowed: u32) -> Line
        requires { length self + length label.now + 21 ≤ 256 }
        ensures { (result ≡ self ++ pair_text label.now used allowed)
            × (length result ≤ length self + length label.now + 21) }
    {
        self.with_field(label, used).with_field(b"/", allowed)
    }

    pub fn as_bytes(&self) -> &[u8]
        ensures { (result.now ≡ self.now) × (length result.now ≤ 256) }
    {
        &self.bytes[..self.len]
    }

    // How many bytes the line has; it stands at the beginning of the output.
    pub fn put(&self, out: &mut [u8; 256]) -> usize
        ensures { (out.new ≡ spliced out.old 0 self.now) × (result ≡ length self.now) × (result ≤ 256) }
    {
        put_text(out, 0, self.as_bytes())
    }
}
