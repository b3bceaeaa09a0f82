// An instruction and the registers in fixed columns.
ghost use Rattle.std.specs.Prelude.{◌≡◌, ◌++◌, ◌+◌, ◌≤◌, length};
ghost use Rattle.text.specs.Columns.{listing_text, flag_of, flags_text, registers_text};

use crate::line::Line;
use crate::listing::Listing;
use crate::number::{hex2, hex4};
use registers::Registers;

// A flag's letter where its bit is set, else a dash.
fn flag(on: bool, letter: u8) -> u8
    ensures { result ≡ flag_of on letter }
{
    if on { letter } else { b'-' }
}

// S X H I N Z V C.
#[tactic(auto, unfolding(crate::specs::Columns::flags_text))]
fn flags(n: u8) -> [u8; 8]
    ensures { result ≡ flags_text n }
{
    [
        flag(n / 128 % 2 == 1, b'S'),
        flag(n / 64 % 2 == 1, b'X'),
        flag(n / 32 % 2 == 1, b'H'),
        flag(n / 16 % 2 == 1, b'I'),
        flag(n / 8 % 2 == 1, b'N'),
        flag(n / 4 % 2 == 1, b'Z'),
        flag(n / 2 % 2 == 1, b'V'),
        flag(n % 2 == 1, b'C'),
    ]
}

impl Line {
    // The address, the bytes, the mnemonic and the operand.
    #[tactic(auto, unfolding(crate::specs::Columns::listing_text))]
    pub fn with_listing(self, pc: u16, t: Listing) -> Line
        requires { length self + 43 ≤ 256 }
        ensures { (result ≡ self ++ listing_text pc t) × (length result ≡ length self + 43) }
    {
        self.with_text(&hex4(pc))
            .with_text(b" ")
            .with_text(&t.bytes)
            .with_text(b" ")
            .with_text(&t.mnemonic)
            .with_text(b" ")
            .with_text(&t.operand)
    }

    // A, B, X, Y, SP and the flags, as an instruction leaves them.
    #[tactic(auto, unfolding(crate::specs::Columns::registers_text))]
    pub fn with_registers(self, r: Registers) -> Line
        requires { length self + 41 ≤ 256 }
        ensures { (result ≡ self ++ registers_text r) × (length result ≡ length self + 41) }
    {
        self.with_named(b" A=", &hex2(r.a))
            .with_named(b" B=", &hex2(r.b))
            .with_named(b" X=", &hex4(r.x))
            .with_named(b" Y=", &hex4(r.y))
            .with_named(b" SP=", &hex4(r.sp))
            .with_text(b" ")
            .with_text(&flags(r.flags))
    }
}
