// The condition codes as eight bools, and as the byte that the registers hold.
ghost use Rattle.std.specs.Prelude.{◌≡◌};
ghost use Rattle.registers.specs.Flags.{flags_of, byte_of};

// Document 01's flags S X H I N Z V C, from bit 7 to bit 0 of their byte.
#[derive(Clone, Copy)]
pub struct Flags {
    pub s: bool,
    pub x: bool,
    pub h: bool,
    pub i: bool,
    pub n: bool,
    pub z: bool,
    pub v: bool,
    pub c: bool,
}

impl From<u8> for Flags {
    ghost from_gives = { λ v f. f ≡ flags_of v };

    fn from(v: u8) -> Flags {
        Flags {
            s: v / 128 % 2 == 1,
            x: v / 64 % 2 == 1,
            h: v / 32 % 2 == 1,
            i: v / 16 % 2 == 1,
            n: v / 8 % 2 == 1,
            z: v / 4 % 2 == 1,
            v: v / 2 % 2 == 1,
            c: v % 2 == 1,
        }
    }
}

impl From<Flags> for u8 {
    ghost from_gives = { λ f v. v ≡ byte_of f };

    fn from(f: Flags) -> u8 {
        128 * u8::from(f.s)
            + 64 * u8::from(f.x)
            + 32 * u8::from(f.h)
            + 16 * u8::from(f.i)
            + 8 * u8::from(f.n)
            + 4 * u8::from(f.z)
            + 2 * u8::from(f.v)
            + u8::from(f.c)
    }
}
