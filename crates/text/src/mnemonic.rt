// The name of an instruction, padded with spaces to five bytes.
ghost use Rattle.std.specs.Prelude.{◌≡◌, [], ◌∷◌, ◌++◌};
ghost use Rattle.text.specs.Text.{padded};
ghost use Rattle.text.specs.Mnemonic.{accumulator_name, index_name, word_name, unary_name, binary_name, inherent_name};
ghost use Rattle.text.specs.Mnemonic.{branch_name, call_name, mnemonic_of};

use opcodes::instruction::{Accumulator, Action, Binary, Index, Inherent, Mode, Unary, Word};

fn accumulator(c: Accumulator) -> u8
    ensures { result ∷ [] ≡ accumulator_name c }
{
    match c {
        Accumulator::A => b'A',
        Accumulator::B => b'B',
    }
}

fn index(i: Index) -> u8
    ensures { result ∷ [] ≡ index_name i }
{
    match i {
        Index::X => b'X',
        Index::Y => b'Y',
    }
}

fn word(w: Word) -> u8
    ensures { result ∷ [] ≡ word_name w }
{
    match w {
        Word::D => b'D',
        Word::X => b'X',
        Word::Y => b'Y',
        Word::S => b'S',
    }
}

fn unary(u: Unary) -> [u8; 3]
    ensures { result ≡ unary_name u }
{
    match u {
        Unary::Neg => *b"NEG",
        Unary::Com => *b"COM",
        Unary::Lsr => *b"LSR",
        Unary::Ror => *b"ROR",
        Unary::Asr => *b"ASR",
        Unary::Asl => *b"ASL",
        Unary::Rol => *b"ROL",
        Unary::Dec => *b"DEC",
        Unary::Inc => *b"INC",
        Unary::Clr => *b"CLR",
    }
}

fn binary(b: Binary) -> [u8; 3]
    ensures { result ≡ binary_name b }
{
    match b {
        Binary::Sub => *b"SUB",
        Binary::Cmp => *b"CMP",
        Binary::Sbc => *b"SBC",
        Binary::And => *b"AND",
        Binary::Bit => *b"BIT",
        Binary::Lda => *b"LDA",
        Binary::Eor => *b"EOR",
        Binary::Adc => *b"ADC",
        Binary::Ora => *b"ORA",
        Binary::Add => *b"ADD",
    }
}

fn inherent(i: Inherent) -> [u8; 5]
    ensures { result ≡ inherent_name i }
{
    match i {
        Inherent::Nop => *b"NOP  ",
        Inherent::Idiv => *b"IDIV ",
        Inherent::Fdiv => *b"FDIV ",
        Inherent::Lsrd => *b"LSRD ",
        Inherent::Asld => *b"ASLD ",
        Inherent::Tap => *b"TAP  ",
        Inherent::Tpa => *b"TPA  ",
        Inherent::Inx => *b"INX  ",
        Inherent::Dex => *b"DEX  ",
        Inherent::Iny => *b"INY  ",
        Inherent::Dey => *b"DEY  ",
        Inherent::Clv => *b"CLV  ",
        Inherent::Sev => *b"SEV  ",
        Inherent::Clc => *b"CLC  ",
        Inherent::Sec => *b"SEC  ",
        Inherent::Cli => *b"CLI  ",
        Inherent::Sei => *b"SEI  ",
        Inherent::Sba => *b"SBA  ",
        Inherent::Cba => *b"CBA  ",
        Inherent::Tab => *b"TAB  ",
        Inherent::Tba => *b"TBA  ",
        Inherent::Daa => *b"DAA  ",
        Inherent::Aba => *b"ABA  ",
        Inherent::Tsx => *b"TSX  ",
        Inherent::Tsy => *b"TSY  ",
        Inherent::Abx => *b"ABX  ",
        Inherent::Aby => *b"ABY  ",
        Inherent::Mul => *b"MUL  ",
        Inherent::Xgdx => *b"XGDX ",
        Inherent::Xgdy => *b"XGDY ",
    }
}

// Test k of the sixteen.
fn branch(k: u8) -> [u8; 5]
    ensures { result ≡ branch_name k }
{
    match k % 16 {
        0 => *b"BRA  ",
        1 => *b"BRN  ",
        2 => *b"BHI  ",
        3 => *b"BLS  ",
        4 => *b"BCC  ",
        5 => *b"BCS  ",
        6 => *b"BNE  ",
        7 => *b"BEQ  ",
        8 => *b"BVC  ",
        9 => *b"BVS  ",
        10 => *b"BPL  ",
        11 => *b"BMI  ",
        12 => *b"BGE  ",
        13 => *b"BLT  ",
        14 => *b"BGT  ",
        _ => *b"BLE  ",
    }
}

// A relative call is BSR.
fn call(m: Mode) -> [u8; 5]
    ensures { result ≡ call_name m }
{
    match m {
        Mode::Relative => *b"BSR  ",
        _ => *b"JSR  ",
    }
}

// A name of three letters; then with a register's letter after it.
fn three(name: [u8; 3]) -> [u8; 5]
    ensures { result ≡ padded 5 name }
{
    [name[0], name[1], name[2], b' ', b' ']
}

fn four(name: [u8; 3], letter: u8) -> [u8; 5]
    ensures { result ≡ padded 5 (name ++ (letter ∷ [])) }
{
    [name[0], name[1], name[2], letter, b' ']
}

#[tactic(auto, unfolding(crate::specs::Mnemonic::mnemonic_of))]
pub fn mnemonic(a: Action, m: Mode) -> [u8; 5]
    ensures { result ≡ mnemonic_of a m }
{
    match a {
        Action::Inherent(i) => inherent(i),
        Action::Unary(u, c) => four(unary(u), accumulator(c)),
        Action::TstAccumulator(c) => four(*b"TST", accumulator(c)),
        Action::Binary(b, c) => four(binary(b), accumulator(c)),
        Action::TstMemory => *b"TST  ",
        Action::LoadWord(w) => [b'L', b'D', word(w), b' ', b' '],
        Action::Addd => *b"ADDD ",
        Action::Subd => *b"SUBD ",
        Action::CompareWord(w) => [b'C', b'P', word(w), b' ', b' '],
        Action::StoreByte(c) => four(*b"STA", accumulator(c)),
        Action::StoreWord(w) => [b'S', b'T', word(w), b' ', b' '],
        Action::Modify(u) => three(unary(u)),
        Action::Bset => *b"BSET ",
        Action::Bclr => *b"BCLR ",
        Action::Brset => *b"BRSET",
        Action::Brclr => *b"BRCLR",
        Action::Branch(k) => branch(k),
        Action::Jmp => *b"JMP  ",
        Action::Call => call(m),
        Action::Rts => *b"RTS  ",
        Action::PushByte(c) => four(*b"PSH", accumulator(c)),
        Action::PushWord(i) => four(*b"PSH", index(i)),
        Action::PullByte(c) => four(*b"PUL", accumulator(c)),
        Action::PullWord(i) => four(*b"PUL", index(i)),
        Action::Des => *b"DES  ",
        Action::Ins => *b"INS  ",
        Action::SetStack(i) => [b'T', index(i), b'S', b' ', b' '],
        Action::Swi => *b"SWI  ",
        Action::Rti => *b"RTI  ",
        Action::Wai => *b"WAI  ",
        Action::Stop => *b"STOP ",
        Action::Test => *b"TEST ",
    }
}
