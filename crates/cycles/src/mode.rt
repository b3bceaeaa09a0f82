// What a row says of a mode, in columns that are padded with spaces.
use opcodes::instruction::Mode;

// Its name, and an operand as it is written for GNU's assembler.
pub fn columns(m: Mode) -> &'static [u8; 43] {
    match m {
        Mode::Inherent => b"inherent                |                  ",
        Mode::Immediate8 => b"immediate               | `#ii`            ",
        Mode::Immediate16 => b"immediate               | `#jjkk`          ",
        Mode::Direct => b"direct                  | `*dd`            ",
        Mode::Extended => b"extended                | `hhll`           ",
        Mode::IndexedX => b"indexed X               | `ff,X`           ",
        Mode::IndexedY => b"indexed Y               | `ff,Y`           ",
        Mode::Relative => b"relative                | `target`         ",
        Mode::MaskDirect => b"direct, mask            | `*dd #mm`        ",
        Mode::MaskX => b"indexed X, mask         | `ff,X #mm`       ",
        Mode::MaskY => b"indexed Y, mask         | `ff,Y #mm`       ",
        Mode::MaskBranchDirect => b"direct, mask, branch    | `*dd #mm target` ",
        Mode::MaskBranchX => b"indexed X, mask, branch | `ff,X #mm target`",
        Mode::MaskBranchY => b"indexed Y, mask, branch | `ff,Y #mm target`",
    }
}

// The bytes after the opcode.
pub fn operand_bytes(m: Mode) -> &'static [u8; 9] {
    match m {
        Mode::Inherent => b"         ",
        Mode::Immediate8 => b" ii      ",
        Mode::Immediate16 => b" jj kk   ",
        Mode::Direct => b" dd      ",
        Mode::Extended => b" hh ll   ",
        Mode::IndexedX | Mode::IndexedY => b" ff      ",
        Mode::Relative => b" rr      ",
        Mode::MaskDirect => b" dd mm   ",
        Mode::MaskX | Mode::MaskY => b" ff mm   ",
        Mode::MaskBranchDirect => b" dd mm rr",
        Mode::MaskBranchX | Mode::MaskBranchY => b" ff mm rr",
    }
}
