// A label and a number in hexadecimal, in upper case as in the listings.
use output::text;

// The two differ in a type and a width; one function of both is no plainer, since each call would name its width.
pub fn byte(rt: &impl Print, label: &[u8], v: u8) {
    text(rt, label);
    let _ = print!(rt; "{v:02X}");
}

pub fn word(rt: &impl Print, label: &[u8], v: u16) {
    text(rt, label);
    let _ = print!(rt; "{v:04X}");
}
