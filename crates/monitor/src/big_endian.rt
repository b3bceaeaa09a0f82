// Numbers in lent bytes, high byte first. An inner module of the C calls: its functions require that there are bytes
// enough.
ghost use Rattle.std.specs.Prelude.{◌≡◌, ◌+◌, ◌<◌, length};
ghost use Rattle.monitor.specs.BigEndian.{word_in, long_in};
ghost use Rattle.monitor.specs.inner.Put.{put_word, put_long};

pub fn word_in(bytes: &[u8], at: usize) -> u16
    requires { at + 1 < length bytes.now }
    ensures { result ≡ word_in bytes.now at }
{
    u16::from_be_bytes([bytes[at], bytes[at + 1]])
}

pub fn long_in(bytes: &[u8], at: usize) -> u32
    requires { at + 3 < length bytes.now }
    ensures { result ≡ long_in bytes.now at }
{
    let high = word_in(bytes, at) as u32;
    let low = word_in(bytes, at + 2) as u32;
    high * 65536 + low
}

pub fn put_word(bytes: &mut [u8], at: usize, v: u16)
    requires { at + 1 < length bytes.old }
    ensures { (bytes.new ≡ put_word bytes.old at v)
        × (length bytes.new ≡ length bytes.old) }
{
    let [high, low] = v.to_be_bytes();
    bytes[at] = high;
    bytes[at + 1] = low;
}

pub fn put_long(bytes: &mut [u8], at: usize, v: u32)
    requires { at + 3 < length bytes.old }
    ensures { (bytes.new ≡ put_long bytes.old at v)
        × (length bytes.new ≡ length bytes.old) }
{
    put_word(bytes, at, (v / 65536) as u16);
    put_word(bytes, at + 2, (v % 65536) as u16);
}
