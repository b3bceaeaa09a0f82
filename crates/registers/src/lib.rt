// An inner crate: the register record, the condition codes, 16-bit register arithmetic, and the two kinds of count.
#![tactic(auto)]

ghost use Rattle.std.specs.Prelude.{◌≡◌};
ghost use Rattle.registers.specs.Registers.{reset_of, start_of, data_of, accumulator_d, with_a, with_b, with_d, with_x};
ghost use Rattle.registers.specs.Registers.{with_y, with_flags, with_data, with_pc, with_sp, with_pc_sp};
ghost use Rattle.registers.specs.Registers.{with_lowest};

pub mod flags; // the condition codes and their byte
pub mod word; // sums and differences that wrap at 65,536; the smaller of two words

// The words stand first, so that an answer that holds registers keeps each at one place; among them the order was
// chosen by measurement. The lowest SP before all others: with eight bytes past it, as after Y, LLVM packs these into
// one number at every turn of a run, which then takes half more host instructions.
#[derive(Clone, Copy, PartialEq, Eq)]
pub struct Registers {
    pub lowest: u16, // the smallest value that SP has had after any instruction
    pub x: u16,
    pub y: u16,
    pub sp: u16,
    pub pc: u16,
    pub a: u8,
    pub b: u8,
    pub flags: u8,
}

// The registers but for PC, SP and the lowest SP: all that an instruction computes on.
#[derive(Clone, Copy)]
pub struct Data {
    pub x: u16,
    pub y: u16,
    pub a: u8,
    pub b: u8,
    pub flags: u8,
}

// Cycles and stack bytes are counted apart: no sum or comparison crosses them.
#[derive(Clone, Copy, PartialEq, Eq)]
pub struct Cycles(pub u32);

#[derive(Clone, Copy)]
pub struct StackBytes(pub u16);

impl Registers {
    // Document 01's reset value.
    pub const RESET: Registers = Registers {
        x: 0,
        y: 0,
        sp: 0,
        pc: 0,
        lowest: 0,
        a: 0,
        b: 0,
        flags: 0xd0,
    };

    // A call beside the constant, since a contract can name what a call answers.
    pub fn reset() -> Registers
        ensures { result ≡ reset_of }
    {
        Registers::RESET
    }

    // Document 01's named start: the data as given, PC at the entry, and SP below the two bytes of home, the last of
    // which stands at the stack window's last address.
    pub fn start(d: Data, entry: u16, last: u16) -> Registers
        ensures { result ≡ start_of d entry last }
    {
        let sp = word::wrapping_sub(last, 2);
        Registers {
            x: d.x,
            y: d.y,
            sp,
            pc: entry,
            lowest: sp,
            a: d.a,
            b: d.b,
            flags: d.flags,
        }
    }

    // D is A:B.
    pub fn d(self) -> u16
        ensures { result ≡ accumulator_d (data_of self) }
    {
        // by from_be_bytes a run takes a tenth more host instructions
        (self.a as u16) * 256 + (self.b as u16)
    }

    pub fn with_a(self, a: u8, flags: u8) -> Registers
        ensures { result ≡ with_data self (with_a (data_of self) a flags) }
    {
        Registers { a, flags, ..self }
    }

    pub fn with_b(self, b: u8, flags: u8) -> Registers
        ensures { result ≡ with_data self (with_b (data_of self) b flags) }
    {
        Registers { b, flags, ..self }
    }

    pub fn with_d(self, d: u16, flags: u8) -> Registers
        ensures { result ≡ with_data self (with_d (data_of self) d flags) }
    {
        let [a, b] = d.to_be_bytes();
        Registers {
            a,
            b,
            flags,
            ..self
        }
    }

    pub fn with_x(self, x: u16, flags: u8) -> Registers
        ensures { result ≡ with_data self (with_x (data_of self) x flags) }
    {
        Registers { x, flags, ..self }
    }

    pub fn with_y(self, y: u16, flags: u8) -> Registers
        ensures { result ≡ with_data self (with_y (data_of self) y flags) }
    {
        Registers { y, flags, ..self }
    }

    pub fn with_flags(self, flags: u8) -> Registers
        ensures { result ≡ with_data self (with_flags (data_of self) flags) }
    {
        Registers { flags, ..self }
    }

    pub fn with_pc(self, pc: u16) -> Registers
        ensures { result ≡ with_pc self pc }
    {
        Registers { pc, ..self }
    }

    pub fn with_sp(self, sp: u16) -> Registers
        ensures { result ≡ with_sp self sp }
    {
        Registers { sp, ..self }
    }

    pub fn with_pc_sp(self, pc: u16, sp: u16) -> Registers
        ensures { result ≡ with_pc_sp self pc sp }
    {
        Registers { pc, sp, ..self }
    }

    pub fn with_lowest(self, lowest: u16) -> Registers
        ensures { result ≡ with_lowest self lowest }
    {
        Registers { lowest, ..self }
    }
}
