// The digits of a line as bytes.
ghost use Rattle.std.specs.Prelude.{◌≡◌, ◌≤◌, IfSome};
ghost use Rattle.records.specs.Read.{ends_of, bytes_of};
ghost use Rattle.records.specs.inner.Decoded.{decoded, countable};

use lists::digit::digit;

// A line's end: LF, or CR and LF.
fn ends(s: &[u8]) -> bool
    ensures { result ≡ ends_of s.now }
{
    matches!(s, [b'\n'] | [b'\r', b'\n'])
}

// Up to the line's end, into a buffer: how many bytes. More than 256 bytes are more than a count says. The number and
// not a part of the buffer, which would be lent out of the loop that writes it.
#[tactic(auto, using(crate::proofs::DecodeSoFar::so_far_none, crate::proofs::DecodeSoFar::ended_full, crate::proofs::DecodeSoFar::too_many, crate::proofs::DecodeSoFar::cut_short, crate::proofs::DecodeSoFar::no_high, crate::proofs::DecodeSoFar::no_low))]
pub fn decode(s: &[u8], buffer: &mut [u8; 256]) -> Option<usize>
    ensures { (decoded result buffer.new ≡ countable (bytes_of s.now)) × IfSome result (λ n. n ≤ 256) }
{
    let mut rest = s;
    for (n, byte) in buffer.iter_mut().enumerate() {
        if ends(rest) {
            return Some(n);
        }
        let [high, low, after @ ..] = rest else {
            return None;
        };
        *byte = digit(*high)? * 16 + digit(*low)?;
        rest = after;
    }
    if ends(rest) { Some(256) } else { None }
}
