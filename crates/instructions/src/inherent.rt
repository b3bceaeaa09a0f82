// The instructions on the registers alone.
ghost use Rattle.std.specs.Prelude.{◌≡◌};
ghost use Rattle.registers.specs.Registers.{data_of, with_data, with_a, with_d, with_x};
ghost use Rattle.instructions.specs.Inherent.{with_i, replaced, inherent_of};

use arithmetic::byte::{add8, logic8, sub8};
use arithmetic::codes::{Coded, with_c, with_v, with_z};
use arithmetic::decimal::daa;
use arithmetic::divide::{Divided, fdiv, idiv};
use arithmetic::word::{asld, lsrd, mul};
use opcodes::instruction::Inherent;
use registers::Registers;
use registers::flags::Flags;
use registers::word::{wrapping_add, wrapping_sub};

fn to_a(r: Registers, w: Coded<u8>) -> Registers
    ensures { result ≡ with_data r (with_a (data_of r) w.value w.flags) }
{
    r.with_a(w.value, w.flags)
}

fn to_d(r: Registers, w: Coded<u16>) -> Registers
    ensures { result ≡ with_data r (with_d (data_of r) w.value w.flags) }
{
    r.with_d(w.value, w.flags)
}

// The quotient goes to X, the remainder to D.
fn to_xd(r: Registers, w: Divided) -> Registers
    ensures { result ≡ with_data r (with_x (with_d (data_of r) w.remainder w.flags) w.quotient w.flags) }
{
    r.with_d(w.remainder, w.flags).with_x(w.quotient, w.flags)
}

// CLI, SEI, SWI: the flags f with I set or not.
pub fn with_i(f: u8, set: bool) -> u8
    ensures { result ≡ with_i f set }
{
    u8::from(Flags {
        i: set,
        ..Flags::from(f)
    })
}

// TAP, RTI: new flags where the old ones are f. X is never raised.
#[tactic(auto, unfolding(crate::specs::Inherent::replaced))]
pub fn replaced(new: u8, f: u8) -> u8
    ensures { result ≡ replaced new f }
{
    let g = Flags::from(new);
    u8::from(Flags {
        x: g.x & Flags::from(f).x,
        ..g
    })
}

#[tactic(auto, unfolding(crate::specs::Inherent::inherent_of))]
fn compared(r: Registers) -> Registers
    ensures { result ≡ with_data r (inherent_of Inherent.Cba r.sp (data_of r)) }
{
    r.with_flags(sub8(r.a, r.b, false, r.flags).flags)
}

#[tactic(auto, unfolding(crate::specs::Inherent::inherent_of))]
pub fn inherent(i: Inherent, r: Registers) -> Registers
    ensures { result ≡ with_data r (inherent_of i r.sp (data_of r)) }
{
    let f = r.flags;
    match i {
        Inherent::Nop => r,
        Inherent::Idiv => to_xd(r, idiv(r.d(), r.x, f)),
        Inherent::Fdiv => to_xd(r, fdiv(r.d(), r.x, f)),
        Inherent::Lsrd => to_d(r, lsrd(r.d(), f)),
        Inherent::Asld => to_d(r, asld(r.d(), f)),
        Inherent::Tap => r.with_flags(replaced(r.a, f)),
        Inherent::Tpa => r.with_a(f, f),
        Inherent::Inx => r.with_x(wrapping_add(r.x, 1), with_z(f, wrapping_add(r.x, 1) == 0)),
        Inherent::Dex => r.with_x(wrapping_sub(r.x, 1), with_z(f, wrapping_sub(r.x, 1) == 0)),
        Inherent::Iny => r.with_y(wrapping_add(r.y, 1), with_z(f, wrapping_add(r.y, 1) == 0)),
        Inherent::Dey => r.with_y(wrapping_sub(r.y, 1), with_z(f, wrapping_sub(r.y, 1) == 0)),
        Inherent::Clv => r.with_flags(with_v(f, false)),
        Inherent::Sev => r.with_flags(with_v(f, true)),
        Inherent::Clc => r.with_flags(with_c(f, false)),
        Inherent::Sec => r.with_flags(with_c(f, true)),
        Inherent::Cli => r.with_flags(with_i(f, false)),
        Inherent::Sei => r.with_flags(with_i(f, true)),
        Inherent::Sba => to_a(r, sub8(r.a, r.b, false, f)),
        Inherent::Cba => compared(r),
        Inherent::Tab => r.with_b(r.a, logic8(r.a, f)),
        Inherent::Tba => r.with_a(r.b, logic8(r.b, f)),
        Inherent::Daa => to_a(r, daa(r.a, f)),
        Inherent::Aba => to_a(r, add8(r.a, r.b, false, f)),
        Inherent::Tsx => r.with_x(wrapping_add(r.sp, 1), f),
        Inherent::Tsy => r.with_y(wrapping_add(r.sp, 1), f),
        Inherent::Abx => r.with_x(wrapping_add(r.x, r.b as u16), f),
        Inherent::Aby => r.with_y(wrapping_add(r.y, r.b as u16), f),
        Inherent::Mul => to_d(r, mul(r.a, r.b, f)),
        Inherent::Xgdx => r.with_d(r.x, f).with_x(r.d(), f),
        Inherent::Xgdy => r.with_d(r.y, f).with_y(r.d(), f),
    }
}
