// An inner crate of the programs: text, numbers and registers on standard output. A write that fails is let go.
#![tactic(auto)]

use registers::Registers;

pub fn text(rt: &impl Print, s: &[u8]) {
    let _ = rt.write_all(s);
}

pub fn decimal(rt: &impl Print, n: u64) {
    let _ = print!(rt; "{n}");
}

// The two differ in a type and a width; one function of both is no plainer, since each call would name its width.
pub fn byte(rt: &impl Print, name: &[u8], v: u8) {
    text(rt, name);
    let _ = print!(rt; "{v:02x}");
}

pub fn word(rt: &impl Print, name: &[u8], v: u16) {
    text(rt, name);
    let _ = print!(rt; "{v:04x}");
}

pub fn registers(rt: &impl Print, r: Registers) {
    let _ = print!(rt;
        "A {:02x} B {:02x} X {:04x} Y {:04x} SP {:04x} PC {:04x} flags {:02x} lowest {:04x}",
        r.a, r.b, r.x, r.y, r.sp, r.pc, r.flags, r.lowest
    );
}

// A name, a number and the end of a line.
pub fn counted(rt: &impl Print, name: &[u8], n: u64) {
    text(rt, name);
    decimal(rt, n);
    text(rt, b"\n");
}
