// A record's bytes: count, address, data, checksum. An inner module of `line`.
ghost use Rattle.std.specs.Prelude.{◌≡◌, ◌≤◌, ◌<◌, ◌%◌, length};
ghost use Rattle.records.specs.Record.{sum};
ghost use Rattle.records.specs.Read.{address_of, formed};

pub fn address_of(bytes: &[u8]) -> usize
    requires { 4 ≤ length bytes.now }
    ensures { (result ≡ address_of bytes.now) × (result < 65536) }
{
    usize::from(u16::from_be_bytes([bytes[1], bytes[2]]))
}

// As many bytes as the count says, and as its type wants them, where s1 S1 lines come before it.
#[tactic(auto, unfolding(crate::specs::Read::formed))]
pub fn formed(t: u8, s1: usize, bytes: &[u8]) -> bool
    ensures { result ≡ formed t s1 bytes.now }
{
    let n = bytes.len();
    if n < 4 || usize::from(bytes[0]) + 1 != n {
        return false;
    }
    match t {
        b'0' | b'1' => true,
        b'5' => (n == 4) & (address_of(bytes) == s1),
        b'9' => n == 4,
        _ => false,
    }
}

// The last eight bits of the bytes' sum.
#[tactic(auto, using(crate::proofs::RecordBytes::sum_next, crate::proofs::RecordBytes::sum_all))]
pub fn sum(bytes: &[u8]) -> u8
    ensures { result ≡ sum bytes.now % 256 }
{
    let mut s: u8 = 0;
    for b in bytes {
        s = s.wrapping_add(*b);
    }
    s
}
