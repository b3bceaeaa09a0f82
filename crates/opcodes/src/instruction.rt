// The decoded instruction: document 01's action with an operand. Actions are grouped by what they read and write, so
// that a rule over all of them is short; a mnemonic of the manual is one case with its data.

#[derive(Clone, Copy)]
pub enum Accumulator {
    A,
    B,
}

#[derive(Clone, Copy)]
pub enum Index {
    X,
    Y,
}

// A 16-bit register; S is the stack pointer.
#[derive(Clone, Copy)]
pub enum Word {
    D,
    X,
    Y,
    S,
}

// What makes a byte of a byte, in an accumulator or in memory. LSL is ASL.
#[derive(Clone, Copy)]
pub enum Unary {
    Neg,
    Com,
    Lsr,
    Ror,
    Asr,
    Asl,
    Rol,
    Dec,
    Inc,
    Clr,
}

// What an accumulator and an operand byte give. CMP and BIT leave the accumulator as it was.
#[derive(Clone, Copy)]
pub enum Binary {
    Sub,
    Cmp,
    Sbc,
    And,
    Bit,
    Lda,
    Eor,
    Adc,
    Ora,
    Add,
}

// What works on the registers alone, and neither on PC nor on SP. LSLD is ASLD.
#[derive(Clone, Copy)]
pub enum Inherent {
    Nop,
    Idiv,
    Fdiv,
    Lsrd,
    Asld,
    Tap,
    Tpa,
    Inx,
    Dex,
    Iny,
    Dey,
    Clv,
    Sev,
    Clc,
    Sec,
    Cli,
    Sei,
    Sba,
    Cba,
    Tab,
    Tba,
    Daa,
    Aba,
    Tsx,
    Tsy,
    Abx,
    Aby,
    Mul,
    Xgdx,
    Xgdy,
}

#[derive(Clone, Copy)]
pub enum Action {
    Inherent(Inherent),
    // NEGA, NEGB ..; TSTA and TSTB
    Unary(Unary, Accumulator),
    TstAccumulator(Accumulator),
    // read an operand byte: SUBA, SUBB ..; TST
    Binary(Binary, Accumulator),
    TstMemory,
    // read an operand word: LDD LDX LDY LDS; ADDD; SUBD; CPD CPX CPY
    LoadWord(Word),
    Addd,
    Subd,
    CompareWord(Word),
    // store: STAA STAB; STD STX STY STS
    StoreByte(Accumulator),
    StoreWord(Word),
    // read a byte and store one there: NEG ..; BSET; BCLR
    Modify(Unary),
    Bset,
    Bclr,
    // read a byte and branch on it
    Brset,
    Brclr,
    // BRA .. BLE: the number of the test, 0 to 15, is the opcode less $20
    Branch(u8),
    Jmp,
    // JSR and BSR
    Call,
    Rts,
    // PSHA PSHB; PSHX PSHY; PULA PULB; PULX PULY
    PushByte(Accumulator),
    PushWord(Index),
    PullByte(Accumulator),
    PullWord(Index),
    Des,
    Ins,
    // TXS TYS
    SetStack(Index),
    Swi,
    Rti,
    Wai,
    Stop,
    Test,
}

// Where an operand stands in memory: at an address that the code names, or past X or Y by an unsigned offset.
#[derive(Clone, Copy)]
pub enum Address {
    Fixed(u16),
    IndexedX(u8),
    IndexedY(u8),
}

#[derive(Clone, Copy)]
pub enum Operand {
    Inherent,
    Immediate(u16),
    Direct(u8),
    Extended(u16),
    IndexedX(u8),
    IndexedY(u8),
    Relative(u8),
    // an address and a mask; then a relative offset too
    Mask(Address, u8),
    MaskBranch(Address, u8, u8),
}

#[derive(Clone, Copy)]
pub struct Decoded {
    pub action: Action,
    pub operand: Operand,
}

// How an operand is written in the bytes after the opcode.
#[derive(Clone, Copy)]
pub enum Mode {
    Inherent,
    Immediate8,
    Immediate16,
    Direct,
    Extended,
    IndexedX,
    IndexedY,
    Relative,
    MaskDirect,
    MaskX,
    MaskY,
    MaskBranchDirect,
    MaskBranchX,
    MaskBranchY,
}
