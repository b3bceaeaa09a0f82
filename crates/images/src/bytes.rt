// A file's and an image's bytes from a text.
ghost use Rattle.std.specs.Prelude.{◌<◌};

// What a character of a file stands for: a sign for each byte that a line of the text cannot hold or does not show.
fn meant(b: u8) -> u8 {
    match b {
        b'|' => b'\n',
        b'^' => b'\r',
        b'_' => b' ',
        b'~' => b'\t',
        b'!' => 0,
        b'%' => 0xb1, // a 1 with the highest bit
        _ => b,
    }
}

// A file, put at the beginning of a space.
pub fn file_in<'a>(s: &[u8], space: &'a mut [u8]) -> &'a [u8] {
    for (to, from) in space.iter_mut().zip(s) {
        *to = meant(*from);
    }
    let n = s.len().min(space.len());
    &space[..n]
}

// A digit's value. Images have digits in lower case alone. Kept apart from that of tickets, as it says there.
fn digit(b: u8) -> u8
    ensures { result < 16 }
{
    if b < b'a' {
        b % 16
    } else {
        (b - b'a') % 6 + 10
    }
}

// A digit that has no other after it is a byte's high one.
fn byte(digits: &[u8]) -> u8 {
    match digits {
        [high, low] => digit(*high) * 16 + digit(*low),
        [high] => digit(*high) * 16,
        _ => 0,
    }
}

// Puts an image at the beginning of the output: two hexadecimal digits are a byte, and N is 4,095 NOPs and an RTS.
pub fn put_image(s: &[u8], out: &mut [u8; 4200]) {
    if s.starts_with(b"N") {
        out[..4095].fill(1);
        out[4095] = 0x39;
        return;
    }
    for (to, digits) in out.iter_mut().zip(s.chunks(2)) {
        *to = byte(digits);
    }
}
