// Document 01's cases 8 to 12, of which 8 and 10 begin with the flags set that they clear, and the two of routine P
// that a run answers; its lines under "Further, run" are all the verdict's. Then document 02's lowest SP and its home.
use crate::print::{ran, stepped};
use output::text;
use registers::{Data, Registers};
use stepper::environment::Environment;
use stepper::{run, step};

// Zeros, with some bytes from an address on.
pub fn memory_with(from: u16, bytes: &[u8]) -> [u8; 65536] {
    let mut mem = [0u8; 65536];
    let mut at = from;
    for b in bytes {
        mem[at as usize] = *b;
        at = at.wrapping_add(1);
    }
    mem
}

// PC is $8000, and SP $01F2 below the home bytes at $01F3 and $01F4.
fn start(flags: u8, a: u8, b: u8, x: u16) -> Registers {
    let d = Data {
        x,
        y: 0,
        a,
        b,
        flags,
    };
    Registers::start(d, 0x8000, 0x01f4)
}

// One instruction.
fn one(rt: &impl Print, name: &[u8], code: &[u8], r: Registers) {
    let mut mem = memory_with(0x8000, code);
    text(rt, name);
    stepped(rt, step(r, &mut mem));
}

// With X $0080, and with this lowest SP handed in.
fn handed(sp: u16, lowest: u16) -> Registers {
    Registers {
        sp,
        lowest,
        ..start(0xd0, 0, 0, 0x80)
    }
}

// Routine P from its start: the address that its last return takes from $01F3 and $01F4, home, and a budget.
fn routine_p(rt: &impl Print, name: &[u8], last: u16, home: u16, budget: u32) {
    let mut mem = memory_with(0x8000, b"\x36\xbd\x80\x08\x32\x39\x01\x01\x97\x40\x39");
    let [high, low] = last.to_be_bytes();
    mem[0x01f3] = high;
    mem[0x01f4] = low;
    text(rt, name);
    ran(
        rt,
        run(start(0xd0, 7, 0, 0), &mut mem, Environment { home }, budget),
    );
}

pub fn cases(rt: &impl Print) {
    routine_p(rt, b"2  P, budget 26: ", 0, 0, 26);
    routine_p(rt, b"3  P, budget 25: ", 0, 0, 25);
    one(rt, b"8  ABA: ", b"\x1b", start(0xd5, 0x7f, 0x01, 0));
    one(rt, b"9  ABX: ", b"\x3a", start(0xd0, 0, 2, 0xffff));
    one(rt, b"10 ASLA: ", b"\x48", start(0xd8, 0x80, 0, 0));
    one(rt, b"11 IDIV: ", b"\x02", start(0xd0, 0, 7, 2));
    one(rt, b"12 BSR: ", b"\x8d\xfe", start(0xd0, 0, 0, 0));
}

// A refused step is shown by a run, whose answer holds the registers.
pub fn lowest(rt: &impl Print) {
    one(
        rt,
        b"INS, handed in above SP: ",
        b"\x31",
        handed(0x01f0, 0xffff),
    );
    one(rt, b"DES from SP 0: ", b"\x34", handed(0, 5));
    one(rt, b"DES, 0 handed in: ", b"\x34", handed(0x01f2, 0));
    one(rt, b"TXS: ", b"\x35", handed(0x01f2, 0x01f2));
    one(
        rt,
        b"LDS #$0100 from $01F2: ",
        b"\x8e\x01",
        handed(0x01f2, 0x01f2),
    );
    one(
        rt,
        b"LDS #$0100 from $007F: ",
        b"\x8e\x01",
        handed(0x7f, 0x7f),
    );
    let mut mem = memory_with(0x8000, b"\x41");
    text(rt, b"$41, handed in above SP: ");
    ran(
        rt,
        run(
            handed(0x01f0, 0xffff),
            &mut mem,
            Environment { home: 0 },
            100,
        ),
    );
}

// Two bytes at $0000, and a run from there.
fn from_zero(rt: &impl Print, name: &[u8], code: &[u8; 2], home: u16) {
    let mut mem = memory_with(0, code);
    text(rt, name);
    ran(
        rt,
        run(Registers::reset(), &mut mem, Environment { home }, 100),
    );
}

// PC $0000 ends a run only where it is home. Home may lie in P's data and in its stack. Where P's last return leads
// elsewhere, the run goes on.
pub fn homes(rt: &impl Print) {
    routine_p(rt, b"P, home $E012: ", 0xe012, 0xe012, 26);
    routine_p(rt, b"P, home $E012, budget 25: ", 0xe012, 0xe012, 25);
    routine_p(rt, b"P, home $FFFF: ", 0xffff, 0xffff, 26);
    routine_p(rt, b"P, home $0040: ", 0x0040, 0x0040, 26);
    routine_p(rt, b"P, home $01F4: ", 0x01f4, 0x01f4, 26);
    routine_p(rt, b"P, home $E012, to $0000: ", 0, 0xe012, 100);
    routine_p(rt, b"P, home $0000, to $E012: ", 0xe012, 0, 100);
    from_zero(rt, b"NOPs at $0000, home $0000: ", b"\x01\x01", 0);
    from_zero(rt, b"NOPs at $0000, home $0001: ", b"\x01\x01", 1);
    from_zero(rt, b"NOPs at $0000, home $0002: ", b"\x01\x01", 2);
    from_zero(rt, b"NOPs at $0000, home $FFFF: ", b"\x01\x01", 0xffff);
    from_zero(rt, b"BRA $FFFF at $0000, home $FFFF: ", b"\x20\xfd", 0xffff);
    from_zero(rt, b"BRA $0000 at $0000, home $0002: ", b"\x20\xfe", 2);
}
