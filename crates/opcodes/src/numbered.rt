// The action and the mode that a number of the tables stands for: each stands at its number in a list that
// tools/opcode_tables.py writes from that of specs/. The tables hold numbers since the step goes by them, for speed.
ghost use Rattle.std.specs.Prelude.{◌≡◌, get_or};
ghost use Rattle.opcodes.specs.inner.Numbers.{action_of, mode_of};

use crate::instruction::{Accumulator, Action, Binary, Index, Inherent, Mode, Unary, Word};

#[rattlefmt::skip]
static ALL_ACTIONS: [Action; 137] = [
    Action::Inherent(Inherent::Nop), // 0: NOP
    Action::Inherent(Inherent::Idiv), // 1: IDIV
    Action::Inherent(Inherent::Fdiv), // 2: FDIV
    Action::Inherent(Inherent::Lsrd), // 3: LSRD
    Action::Inherent(Inherent::Asld), // 4: ASLD, LSLD
    Action::Inherent(Inherent::Tap), // 5: TAP
    Action::Inherent(Inherent::Tpa), // 6: TPA
    Action::Inherent(Inherent::Inx), // 7: INX
    Action::Inherent(Inherent::Dex), // 8: DEX
    Action::Inherent(Inherent::Iny), // 9: INY
    Action::Inherent(Inherent::Dey), // 10: DEY
    Action::Inherent(Inherent::Clv), // 11: CLV
    Action::Inherent(Inherent::Sev), // 12: SEV
    Action::Inherent(Inherent::Clc), // 13: CLC
    Action::Inherent(Inherent::Sec), // 14: SEC
    Action::Inherent(Inherent::Cli), // 15: CLI
    Action::Inherent(Inherent::Sei), // 16: SEI
    Action::Inherent(Inherent::Sba), // 17: SBA
    Action::Inherent(Inherent::Cba), // 18: CBA
    Action::Inherent(Inherent::Tab), // 19: TAB
    Action::Inherent(Inherent::Tba), // 20: TBA
    Action::Inherent(Inherent::Daa), // 21: DAA
    Action::Inherent(Inherent::Aba), // 22: ABA
    Action::Inherent(Inherent::Tsx), // 23: TSX
    Action::Inherent(Inherent::Tsy), // 24: TSY
    Action::Inherent(Inherent::Abx), // 25: ABX
    Action::Inherent(Inherent::Aby), // 26: ABY
    Action::Inherent(Inherent::Mul), // 27: MUL
    Action::Inherent(Inherent::Xgdx), // 28: XGDX
    Action::Inherent(Inherent::Xgdy), // 29: XGDY
    Action::Unary(Unary::Neg, Accumulator::A), // 30: NEGA
    Action::Unary(Unary::Com, Accumulator::A), // 31: COMA
    Action::Unary(Unary::Lsr, Accumulator::A), // 32: LSRA
    Action::Unary(Unary::Ror, Accumulator::A), // 33: RORA
    Action::Unary(Unary::Asr, Accumulator::A), // 34: ASRA
    Action::Unary(Unary::Asl, Accumulator::A), // 35: ASLA, LSLA
    Action::Unary(Unary::Rol, Accumulator::A), // 36: ROLA
    Action::Unary(Unary::Dec, Accumulator::A), // 37: DECA
    Action::Unary(Unary::Inc, Accumulator::A), // 38: INCA
    Action::Unary(Unary::Clr, Accumulator::A), // 39: CLRA
    Action::Unary(Unary::Neg, Accumulator::B), // 40: NEGB
    Action::Unary(Unary::Com, Accumulator::B), // 41: COMB
    Action::Unary(Unary::Lsr, Accumulator::B), // 42: LSRB
    Action::Unary(Unary::Ror, Accumulator::B), // 43: RORB
    Action::Unary(Unary::Asr, Accumulator::B), // 44: ASRB
    Action::Unary(Unary::Asl, Accumulator::B), // 45: ASLB, LSLB
    Action::Unary(Unary::Rol, Accumulator::B), // 46: ROLB
    Action::Unary(Unary::Dec, Accumulator::B), // 47: DECB
    Action::Unary(Unary::Inc, Accumulator::B), // 48: INCB
    Action::Unary(Unary::Clr, Accumulator::B), // 49: CLRB
    Action::TstAccumulator(Accumulator::A), // 50: TSTA
    Action::TstAccumulator(Accumulator::B), // 51: TSTB
    Action::Rts, // 52: RTS
    Action::PushByte(Accumulator::A), // 53: PSHA
    Action::PushByte(Accumulator::B), // 54: PSHB
    Action::PushWord(Index::X), // 55: PSHX
    Action::PushWord(Index::Y), // 56: PSHY
    Action::PullByte(Accumulator::A), // 57: PULA
    Action::PullByte(Accumulator::B), // 58: PULB
    Action::PullWord(Index::X), // 59: PULX
    Action::PullWord(Index::Y), // 60: PULY
    Action::Des, // 61: DES
    Action::Ins, // 62: INS
    Action::SetStack(Index::X), // 63: TXS
    Action::SetStack(Index::Y), // 64: TYS
    Action::Swi, // 65: SWI
    Action::Rti, // 66: RTI
    Action::Binary(Binary::Sub, Accumulator::A), // 67: SUBA
    Action::Binary(Binary::Cmp, Accumulator::A), // 68: CMPA
    Action::Binary(Binary::Sbc, Accumulator::A), // 69: SBCA
    Action::Binary(Binary::And, Accumulator::A), // 70: ANDA
    Action::Binary(Binary::Bit, Accumulator::A), // 71: BITA
    Action::Binary(Binary::Lda, Accumulator::A), // 72: LDAA
    Action::Binary(Binary::Eor, Accumulator::A), // 73: EORA
    Action::Binary(Binary::Adc, Accumulator::A), // 74: ADCA
    Action::Binary(Binary::Ora, Accumulator::A), // 75: ORAA
    Action::Binary(Binary::Add, Accumulator::A), // 76: ADDA
    Action::Binary(Binary::Sub, Accumulator::B), // 77: SUBB
    Action::Binary(Binary::Cmp, Accumulator::B), // 78: CMPB
    Action::Binary(Binary::Sbc, Accumulator::B), // 79: SBCB
    Action::Binary(Binary::And, Accumulator::B), // 80: ANDB
    Action::Binary(Binary::Bit, Accumulator::B), // 81: BITB
    Action::Binary(Binary::Lda, Accumulator::B), // 82: LDAB
    Action::Binary(Binary::Eor, Accumulator::B), // 83: EORB
    Action::Binary(Binary::Adc, Accumulator::B), // 84: ADCB
    Action::Binary(Binary::Ora, Accumulator::B), // 85: ORAB
    Action::Binary(Binary::Add, Accumulator::B), // 86: ADDB
    Action::TstMemory, // 87: TST
    Action::LoadWord(Word::D), // 88: LDD
    Action::LoadWord(Word::X), // 89: LDX
    Action::LoadWord(Word::Y), // 90: LDY
    Action::LoadWord(Word::S), // 91: LDS
    Action::Addd, // 92: ADDD
    Action::Subd, // 93: SUBD
    Action::CompareWord(Word::D), // 94: CPD
    Action::CompareWord(Word::X), // 95: CPX
    Action::CompareWord(Word::Y), // 96: CPY
    Action::StoreByte(Accumulator::A), // 97: STAA
    Action::StoreByte(Accumulator::B), // 98: STAB
    Action::StoreWord(Word::D), // 99: STD
    Action::StoreWord(Word::X), // 100: STX
    Action::StoreWord(Word::Y), // 101: STY
    Action::StoreWord(Word::S), // 102: STS
    Action::Modify(Unary::Neg), // 103: NEG
    Action::Modify(Unary::Com), // 104: COM
    Action::Modify(Unary::Lsr), // 105: LSR
    Action::Modify(Unary::Ror), // 106: ROR
    Action::Modify(Unary::Asr), // 107: ASR
    Action::Modify(Unary::Asl), // 108: ASL, LSL
    Action::Modify(Unary::Rol), // 109: ROL
    Action::Modify(Unary::Dec), // 110: DEC
    Action::Modify(Unary::Inc), // 111: INC
    Action::Modify(Unary::Clr), // 112: CLR
    Action::Bset, // 113: BSET
    Action::Bclr, // 114: BCLR
    Action::Brset, // 115: BRSET
    Action::Brclr, // 116: BRCLR
    Action::Branch(0), // 117: BRA
    Action::Branch(1), // 118: BRN
    Action::Branch(2), // 119: BHI
    Action::Branch(3), // 120: BLS
    Action::Branch(4), // 121: BCC, BHS
    Action::Branch(5), // 122: BCS, BLO
    Action::Branch(6), // 123: BNE
    Action::Branch(7), // 124: BEQ
    Action::Branch(8), // 125: BVC
    Action::Branch(9), // 126: BVS
    Action::Branch(10), // 127: BPL
    Action::Branch(11), // 128: BMI
    Action::Branch(12), // 129: BGE
    Action::Branch(13), // 130: BLT
    Action::Branch(14), // 131: BGT
    Action::Branch(15), // 132: BLE
    Action::Jmp, // 133: JMP
    Action::Call, // 134: JSR, BSR
    Action::Wai, // 135: WAI
    Action::Stop, // 136: STOP
];

#[rattlefmt::skip]
static ALL_MODES: [Mode; 14] = [
    Mode::Inherent,
    Mode::Immediate8,
    Mode::Immediate16,
    Mode::Direct,
    Mode::Extended,
    Mode::IndexedX,
    Mode::IndexedY,
    Mode::Relative,
    Mode::MaskDirect,
    Mode::MaskX,
    Mode::MaskY,
    Mode::MaskBranchDirect,
    Mode::MaskBranchX,
    Mode::MaskBranchY,
];

// What a list has at a number, and d past its end.
fn entry_or<T: Copy + Drop>(list: &[T], n: u8, d: T) -> T
    ensures { result ≡ get_or list.now n d }
{
    list.get(n as usize).copied().unwrap_or(d)
}

// A number past the list is refused as TEST is.
pub fn action_of(n: u8) -> Action
    ensures { result ≡ action_of n }
{
    entry_or(&ALL_ACTIONS, n, Action::Test)
}

// A number past the list has no operand.
pub fn mode_of(n: u8) -> Mode
    ensures { result ≡ mode_of n }
{
    entry_or(&ALL_MODES, n, Mode::Inherent)
}
