// Hexadecimal numbers as text, and text into a buffer. No `write!`: it answers a Result that no caller could need.
ghost use Rattle.std.specs.Prelude.{◌≡◌, ◌+◌, ◌≤◌, ◌<◌, length};
ghost use Rattle.lists.specs.Splice.{spliced};
ghost use Rattle.text.specs.Number.{glyph_of, byte_hex, hex_of};

// Bytes at an offset of the output; the offset after them.
#[tactic(auto, using(lists::proofs::Splice::put_spliced))]
pub fn put_text(out: &mut [u8], at: usize, s: &[u8]) -> usize
    requires { at + length s.now ≤ length out.old }
    ensures { (out.new ≡ spliced out.old at s.now)
        × (result ≡ at + length s.now) }
{
    let end = at + s.len();
    out[at..end].copy_from_slice(s);
    end
}

// A digit, in upper case.
fn glyph(d: u8) -> u8
    requires { d < 16 }
    ensures { result ≡ glyph_of d }
{
    if d < 10 { 48 + d } else { 55 + d }
}

// A byte in two hexadecimal digits.
pub fn hex2(n: u8) -> [u8; 2]
    ensures { result ≡ byte_hex n }
{
    [glyph(n / 16), glyph(n % 16)]
}

// A word in four.
#[tactic(auto, unfolding(crate::specs::Number::hex_of))]
pub fn hex4(n: u16) -> [u8; 4]
    ensures { result ≡ hex_of n }
{
    let [high, low] = n.to_be_bytes();
    let [a, b] = hex2(high);
    let [c, d] = hex2(low);
    [a, b, c, d]
}
