// Numbers of at most eight bytes, high byte first (document 01, its second line): read from bytes, and put.
ghost use Rattle.std.specs.Prelude.{◌≡◌, ◌≤◌, ◌^◌, ◌<◌, length};
ghost use Rattle.commands.specs.Number.{number, digits};

// The number that some bytes stand for.
pub fn number(s: &[u8]) -> u64
    requires { length s.now ≤ 8 }
    ensures { (result ≡ number s.now) × (result < 256 ^ length s.now) }
{
    // None, two and four bytes, as marks have them, at once: docs/DECISIONS.md.
    match s {
        [] => 0,
        [a, b] => u64::from(u16::from_be_bytes([*a, *b])),
        [a, b, c, d] => u64::from(u32::from_be_bytes([*a, *b, *c, *d])),
        _ => number_by_bytes(s),
    }
}

#[tactic(auto, using(crate::proofs::Digits::read_next))]
fn number_by_bytes(s: &[u8]) -> u64
    requires { length s.now ≤ 8 }
    ensures { (result ≡ number s.now) × (result < 256 ^ length s.now) }
{
    let mut v: u64 = 0;
    for b in s {
        v = v * 256 + u64::from(*b);
    }
    v
}

// As many of a number's last bytes as there is room for.
#[tactic(auto, using(crate::proofs::Digits::last_digits))]
pub fn put_number(v: u64, out: &mut [u8])
    requires { length out.old ≤ 8 }
    ensures { out.new ≡ digits (length out.old) v }
{
    out.copy_from_slice(&v.to_be_bytes()[8 - out.len()..]);
}
