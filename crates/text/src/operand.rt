// An operand, padded with spaces to 17 bytes: a pattern for each mode, with digits in it.
ghost use Rattle.std.specs.Prelude.{◌≡◌, ◌+◌, ◌≤◌, length};
ghost use Rattle.lists.specs.Splice.{spliced};
ghost use Rattle.text.specs.Operand.{operand_text};

use crate::number::{hex2, hex4, put_text};
use opcodes::instruction::Mode;
use registers::word::target;

// A 0 wherever a digit goes. Extended and relative operands are addresses.
const INHERENT: [u8; 17] = *b"                 ";

const IMMEDIATE8: [u8; 17] = *b"#$00             ";

const IMMEDIATE16: [u8; 17] = *b"#$0000           ";

const DIRECT: [u8; 17] = *b"*$00             ";

const ADDRESS: [u8; 17] = *b"$0000            ";

const INDEXED_X: [u8; 17] = *b"$00,X            ";

const INDEXED_Y: [u8; 17] = *b"$00,Y            ";

const MASK_DIRECT: [u8; 17] = *b"*$00 #$00        ";

const MASK_X: [u8; 17] = *b"$00,X #$00       ";

const MASK_Y: [u8; 17] = *b"$00,Y #$00       ";

const MASK_BRANCH_DIRECT: [u8; 17] = *b"*$00 #$00 $0000  ";

const MASK_BRANCH_X: [u8; 17] = *b"$00,X #$00 $0000 ";

const MASK_BRANCH_Y: [u8; 17] = *b"$00,Y #$00 $0000 ";

// Digits at an offset of a pattern.
fn with(mut pattern: [u8; 17], at: usize, digits: &[u8]) -> [u8; 17]
    requires { at + length digits.now ≤ 17 }
    ensures { result ≡ spliced pattern at digits.now }
{
    put_text(&mut pattern, at, digits);
    pattern
}

// Of the three bytes after the opcode, u, v and w, a mode takes as many as it has; `next` is the address after the
// instruction.
#[tactic(auto, unfolding(crate::specs::Operand::operand_text, lists::specs::Splice::spliced, crate::specs::Number::hex_of))]
pub fn operand(m: Mode, u: u8, v: u8, w: u8, next: u16) -> [u8; 17]
    ensures { result ≡ operand_text m u v w next }
{
    match m {
        Mode::Inherent => INHERENT,
        Mode::Immediate8 => with(IMMEDIATE8, 2, &hex2(u)),
        Mode::Immediate16 => with(with(IMMEDIATE16, 2, &hex2(u)), 4, &hex2(v)),
        Mode::Direct => with(DIRECT, 2, &hex2(u)),
        Mode::Extended => with(with(ADDRESS, 1, &hex2(u)), 3, &hex2(v)),
        Mode::IndexedX => with(INDEXED_X, 1, &hex2(u)),
        Mode::IndexedY => with(INDEXED_Y, 1, &hex2(u)),
        Mode::Relative => with(ADDRESS, 1, &hex4(target(next, u))),
        Mode::MaskDirect => with(with(MASK_DIRECT, 2, &hex2(u)), 7, &hex2(v)),
        Mode::MaskX => with(with(MASK_X, 1, &hex2(u)), 8, &hex2(v)),
        Mode::MaskY => with(with(MASK_Y, 1, &hex2(u)), 8, &hex2(v)),
        Mode::MaskBranchDirect => {
            let t = with(with(MASK_BRANCH_DIRECT, 2, &hex2(u)), 7, &hex2(v));
            with(t, 11, &hex4(target(next, w)))
        }
        Mode::MaskBranchX => {
            let t = with(with(MASK_BRANCH_X, 1, &hex2(u)), 8, &hex2(v));
            with(t, 12, &hex4(target(next, w)))
        }
        Mode::MaskBranchY => {
            let t = with(with(MASK_BRANCH_Y, 1, &hex2(u)), 8, &hex2(v));
            with(t, 12, &hex4(target(next, w)))
        }
    }
}
