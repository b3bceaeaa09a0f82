// Each of the 1,024 places of the opcode maps as text: an address, the bytes, the mnemonic and the operand.
// tests/listings assembles them again.
#![tactic(auto)]

use output::text;
use text::listing::{Listing, list};
use text::number::hex4;

// The byte that leads to a map; as in vectors, with which this program shares no library that lists the maps.
fn prefix(page: u16) -> u8 {
    match page {
        1 => 0x18,
        2 => 0x1a,
        _ => 0xcd,
    }
}

// The instruction of a place, with operand bytes that branch on and, after a mask, back.
fn at(place: u16, pc: u16) -> Listing {
    let op = (place % 256) as u8;
    if place < 256 {
        list(pc, op, 0x12, 0x34, 0xf6, 0)
    } else {
        list(pc, prefix(place / 256), op, 0x12, 0x34, 0xf6)
    }
}

fn show(rt: &impl Print, pc: u16, l: Listing) {
    text(rt, &hex4(pc));
    text(rt, b"  ");
    text(rt, &l.bytes);
    text(rt, b"  ");
    text(rt, &l.mnemonic);
    text(rt, b" ");
    text(rt, &l.operand);
    text(rt, b"\n");
}

fn main(rt: HostRuntime) {
    for place in 0..1024 {
        let pc = 0x8000 + place * 8;
        show(&rt, pc, at(place, pc));
    }
}
