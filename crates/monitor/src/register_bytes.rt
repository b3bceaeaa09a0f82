// The register record as the 13 bytes that the monitor lends: A, B, X, Y, SP, PC, flags, the lowest SP. An inner module
// of the C calls, which have tested the length.
ghost use Rattle.std.specs.Prelude.{◌≡◌};
ghost use Rattle.monitor.specs.RegisterBytes.{packed, unpacked};

use crate::big_endian::word_in;
use registers::Registers;

pub type RegisterBytes = [u8; 13];

// No From: neither type is this crate's.
#[tactic(auto, unfolding(crate::specs::RegisterBytes::unpacked))]
pub fn unpack(regs: &RegisterBytes) -> Registers
    ensures { result ≡ unpacked regs.now }
{
    Registers {
        x: word_in(regs, 2),
        y: word_in(regs, 4),
        sp: word_in(regs, 6),
        pc: word_in(regs, 8),
        lowest: word_in(regs, 11),
        a: regs[0],
        b: regs[1],
        flags: regs[10],
    }
}

#[tactic(auto, unfolding(crate::specs::RegisterBytes::packed))]
pub fn pack(r: Registers, regs: &mut RegisterBytes)
    ensures { regs.new ≡ packed r }
{
    let [x_high, x_low] = r.x.to_be_bytes();
    let [y_high, y_low] = r.y.to_be_bytes();
    let [sp_high, sp_low] = r.sp.to_be_bytes();
    let [pc_high, pc_low] = r.pc.to_be_bytes();
    let [lowest_high, lowest_low] = r.lowest.to_be_bytes();
    *regs = [
        r.a,
        r.b,
        x_high,
        x_low,
        y_high,
        y_low,
        sp_high,
        sp_low,
        pc_high,
        pc_low,
        r.flags,
        lowest_high,
        lowest_low,
    ];
}
