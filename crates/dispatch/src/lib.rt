// An inner crate: one instruction, by the number of its action (opcodes/specs/inner/Numbers.antt). An arm calls the
// instruction with its case as a constant, and a match has fewer than fifty arms, so that the compiler takes each arm
// into the loop that runs the instructions. `_` stands for no number of a group. tools/opcode_tables.py writes an arm's
// number, by the name behind it.
#![tactic(auto)]

ghost use Rattle.std.specs.Prelude.{◌≡◌, true, ◌<◌, ◌≤◌};
ghost use Rattle.opcodes.specs.inner.Numbers.{action_of, mode_of};
ghost use Rattle.opcodes.specs.inner.Fits.{fits};
ghost use Rattle.instructions.specs.Effect.{effect_of};
ghost use Rattle.instructions.specs.inner.Sited.{operand_from, Does, Leaves, ReadsAt, DoesAt, Executed, Waiting};

use instructions::inherent::inherent;
use instructions::interrupt::{interrupt, resume};
use instructions::jump::{branch, branch_clear, branch_set, call, jump};
use instructions::operand::{address, bit_target, mask};
use instructions::stack::{
    pull_byte, pull_word, push_byte, push_word, release, reserve, return_from, set_stack,
};
use instructions::store::{clear_bits, modify, set_bits, store_byte, store_word};
use instructions::values::{
    add_word, binary_on, compare_word, load_word, subtract_word, test_accumulator, test_byte,
    unary_on,
};
use memory::{Memory, byte_at, word_at};
use opcodes::instruction::{Accumulator, Binary, Index, Inherent, Unary, Word};
use registers::Registers;

// 0 to 29: the registers alone.
#[tactic(auto, unfolding(instructions::proofs::Effects::opened))]
fn on_registers(n: u8, r: Registers) -> Registers
    requires { n < 30 }
    ensures { Leaves (action_of n) r result }
{
    match n {
        0 => inherent(Inherent::Nop, r), // NOP
        1 => inherent(Inherent::Idiv, r), // IDIV
        2 => inherent(Inherent::Fdiv, r), // FDIV
        3 => inherent(Inherent::Lsrd, r), // LSRD
        4 => inherent(Inherent::Asld, r), // ASLD, LSLD
        5 => inherent(Inherent::Tap, r), // TAP
        6 => inherent(Inherent::Tpa, r), // TPA
        7 => inherent(Inherent::Inx, r), // INX
        8 => inherent(Inherent::Dex, r), // DEX
        9 => inherent(Inherent::Iny, r), // INY
        10 => inherent(Inherent::Dey, r), // DEY
        11 => inherent(Inherent::Clv, r), // CLV
        12 => inherent(Inherent::Sev, r), // SEV
        13 => inherent(Inherent::Clc, r), // CLC
        14 => inherent(Inherent::Sec, r), // SEC
        15 => inherent(Inherent::Cli, r), // CLI
        16 => inherent(Inherent::Sei, r), // SEI
        17 => inherent(Inherent::Sba, r), // SBA
        18 => inherent(Inherent::Cba, r), // CBA
        19 => inherent(Inherent::Tab, r), // TAB
        20 => inherent(Inherent::Tba, r), // TBA
        21 => inherent(Inherent::Daa, r), // DAA
        22 => inherent(Inherent::Aba, r), // ABA
        23 => inherent(Inherent::Tsx, r), // TSX
        24 => inherent(Inherent::Tsy, r), // TSY
        25 => inherent(Inherent::Abx, r), // ABX
        26 => inherent(Inherent::Aby, r), // ABY
        27 => inherent(Inherent::Mul, r), // MUL
        28 => inherent(Inherent::Xgdx, r), // XGDX
        29 => inherent(Inherent::Xgdy, r), // XGDY
        _ => r,
    }
}

// 30 to 66: an accumulator, or the stack.
fn on_stack(n: u8, r: Registers, mem: &mut Memory) -> Registers
    requires le_n { 30 ≤ n }
    requires n_bound { n < 67 }
    ensures { Does (action_of n) r mem.old result mem.new }
{
    match n {
        30 => unary_on(Unary::Neg, Accumulator::A, r), // NEGA
        31 => unary_on(Unary::Com, Accumulator::A, r), // COMA
        32 => unary_on(Unary::Lsr, Accumulator::A, r), // LSRA
        33 => unary_on(Unary::Ror, Accumulator::A, r), // RORA
        34 => unary_on(Unary::Asr, Accumulator::A, r), // ASRA
        35 => unary_on(Unary::Asl, Accumulator::A, r), // ASLA, LSLA
        36 => unary_on(Unary::Rol, Accumulator::A, r), // ROLA
        37 => unary_on(Unary::Dec, Accumulator::A, r), // DECA
        38 => unary_on(Unary::Inc, Accumulator::A, r), // INCA
        39 => unary_on(Unary::Clr, Accumulator::A, r), // CLRA
        40 => unary_on(Unary::Neg, Accumulator::B, r), // NEGB
        41 => unary_on(Unary::Com, Accumulator::B, r), // COMB
        42 => unary_on(Unary::Lsr, Accumulator::B, r), // LSRB
        43 => unary_on(Unary::Ror, Accumulator::B, r), // RORB
        44 => unary_on(Unary::Asr, Accumulator::B, r), // ASRB
        45 => unary_on(Unary::Asl, Accumulator::B, r), // ASLB, LSLB
        46 => unary_on(Unary::Rol, Accumulator::B, r), // ROLB
        47 => unary_on(Unary::Dec, Accumulator::B, r), // DECB
        48 => unary_on(Unary::Inc, Accumulator::B, r), // INCB
        49 => unary_on(Unary::Clr, Accumulator::B, r), // CLRB
        50 => test_accumulator(Accumulator::A, r), // TSTA
        51 => test_accumulator(Accumulator::B, r), // TSTB
        52 => return_from(r, mem), // RTS
        53 => push_byte(Accumulator::A, r, mem), // PSHA
        54 => push_byte(Accumulator::B, r, mem), // PSHB
        55 => push_word(Index::X, r, mem), // PSHX
        56 => push_word(Index::Y, r, mem), // PSHY
        57 => pull_byte(Accumulator::A, r, mem), // PULA
        58 => pull_byte(Accumulator::B, r, mem), // PULB
        59 => pull_word(Index::X, r, mem), // PULX
        60 => pull_word(Index::Y, r, mem), // PULY
        61 => reserve(r), // DES
        62 => release(r), // INS
        63 => set_stack(Index::X, r), // TXS
        64 => set_stack(Index::Y, r), // TYS
        65 => interrupt(r, mem), // SWI
        66 => resume(r, mem), // RTI
        _ => r,
    }
}

// 67 to 96: an operand is read at its address.
#[tactic(auto, unfolding(instructions::specs::inner::Sited::Sited))]
fn on_operand(n: u8, at: u16, r: Registers, mem: &Memory) -> Registers
    requires le_n { 67 ≤ n }
    requires n_bound { n < 97 }
    ensures { ReadsAt (action_of n) at r mem.now result }
{
    match n {
        67 => binary_on(Binary::Sub, Accumulator::A, byte_at(mem, at), r), // SUBA
        68 => binary_on(Binary::Cmp, Accumulator::A, byte_at(mem, at), r), // CMPA
        69 => binary_on(Binary::Sbc, Accumulator::A, byte_at(mem, at), r), // SBCA
        70 => binary_on(Binary::And, Accumulator::A, byte_at(mem, at), r), // ANDA
        71 => binary_on(Binary::Bit, Accumulator::A, byte_at(mem, at), r), // BITA
        72 => binary_on(Binary::Lda, Accumulator::A, byte_at(mem, at), r), // LDAA
        73 => binary_on(Binary::Eor, Accumulator::A, byte_at(mem, at), r), // EORA
        74 => binary_on(Binary::Adc, Accumulator::A, byte_at(mem, at), r), // ADCA
        75 => binary_on(Binary::Ora, Accumulator::A, byte_at(mem, at), r), // ORAA
        76 => binary_on(Binary::Add, Accumulator::A, byte_at(mem, at), r), // ADDA
        77 => binary_on(Binary::Sub, Accumulator::B, byte_at(mem, at), r), // SUBB
        78 => binary_on(Binary::Cmp, Accumulator::B, byte_at(mem, at), r), // CMPB
        79 => binary_on(Binary::Sbc, Accumulator::B, byte_at(mem, at), r), // SBCB
        80 => binary_on(Binary::And, Accumulator::B, byte_at(mem, at), r), // ANDB
        81 => binary_on(Binary::Bit, Accumulator::B, byte_at(mem, at), r), // BITB
        82 => binary_on(Binary::Lda, Accumulator::B, byte_at(mem, at), r), // LDAB
        83 => binary_on(Binary::Eor, Accumulator::B, byte_at(mem, at), r), // EORB
        84 => binary_on(Binary::Adc, Accumulator::B, byte_at(mem, at), r), // ADCB
        85 => binary_on(Binary::Ora, Accumulator::B, byte_at(mem, at), r), // ORAB
        86 => binary_on(Binary::Add, Accumulator::B, byte_at(mem, at), r), // ADDB
        87 => test_byte(byte_at(mem, at), r), // TST
        88 => load_word(Word::D, word_at(mem, at), r), // LDD
        89 => load_word(Word::X, word_at(mem, at), r), // LDX
        90 => load_word(Word::Y, word_at(mem, at), r), // LDY
        91 => load_word(Word::S, word_at(mem, at), r), // LDS
        92 => add_word(word_at(mem, at), r), // ADDD
        93 => subtract_word(word_at(mem, at), r), // SUBD
        94 => compare_word(Word::D, word_at(mem, at), r), // CPD
        95 => compare_word(Word::X, word_at(mem, at), r), // CPX
        96 => compare_word(Word::Y, word_at(mem, at), r), // CPY
        _ => r,
    }
}

// 97 to 134: an operand's address is written to or gone to, or its bits are tested.
#[tactic(auto, unfolding(instructions::specs::inner::Sited::Sited))]
fn on_address(n: u8, at: u16, from: u16, r: Registers, mem: &mut Memory) -> Registers
    requires le_n { 97 ≤ n }
    requires n_bound { n < 135 }
    ensures { DoesAt (action_of n) at from r mem.old result mem.new }
{
    match n {
        97 => store_byte(Accumulator::A, at, r, mem), // STAA
        98 => store_byte(Accumulator::B, at, r, mem), // STAB
        99 => store_word(Word::D, at, r, mem), // STD
        100 => store_word(Word::X, at, r, mem), // STX
        101 => store_word(Word::Y, at, r, mem), // STY
        102 => store_word(Word::S, at, r, mem), // STS
        103 => modify(Unary::Neg, at, r, mem), // NEG
        104 => modify(Unary::Com, at, r, mem), // COM
        105 => modify(Unary::Lsr, at, r, mem), // LSR
        106 => modify(Unary::Ror, at, r, mem), // ROR
        107 => modify(Unary::Asr, at, r, mem), // ASR
        108 => modify(Unary::Asl, at, r, mem), // ASL, LSL
        109 => modify(Unary::Rol, at, r, mem), // ROL
        110 => modify(Unary::Dec, at, r, mem), // DEC
        111 => modify(Unary::Inc, at, r, mem), // INC
        112 => modify(Unary::Clr, at, r, mem), // CLR
        113 => set_bits(mask(from, mem), at, r, mem), // BSET
        114 => clear_bits(mask(from, mem), at, r, mem), // BCLR
        115 => branch_set(
            byte_at(mem, at),
            mask(from, mem),
            bit_target(from, r.pc, mem),
            r,
        ), // BRSET
        116 => branch_clear(
            byte_at(mem, at),
            mask(from, mem),
            bit_target(from, r.pc, mem),
            r,
        ), // BRCLR
        117 => branch(0, at, r), // BRA
        118 => branch(1, at, r), // BRN
        119 => branch(2, at, r), // BHI
        120 => branch(3, at, r), // BLS
        121 => branch(4, at, r), // BCC, BHS
        122 => branch(5, at, r), // BCS, BLO
        123 => branch(6, at, r), // BNE
        124 => branch(7, at, r), // BEQ
        125 => branch(8, at, r), // BVC
        126 => branch(9, at, r), // BVS
        127 => branch(10, at, r), // BPL
        128 => branch(11, at, r), // BMI
        129 => branch(12, at, r), // BGE
        130 => branch(13, at, r), // BLT
        131 => branch(14, at, r), // BGT
        132 => branch(15, at, r), // BLE
        133 => jump(at, r), // JMP
        134 => call(at, r, mem), // JSR, BSR
        _ => r,
    }
}

// Whether a number stands for WAI, STOP or TEST, which `execute` does not take: these have the last numbers.
pub fn waits(n: u8) -> bool
    ensures { Waiting (action_of n) result }
{
    134 < n
}

// Action n with an operand of mode k, whose bytes start at `from`; PC stands past the instruction.
pub fn execute(n: u8, k: u8, from: u16, r: Registers, mem: &mut Memory) -> Registers
    requires n_bound { n < 135 }
    requires k_value { fits (action_of n) (mode_of k) ≡ true }
    ensures { Executed (effect_of (action_of n) (operand_from (mode_of k) from mem.old) r
        mem.old) result mem.old mem.new }
{
    if n < 67 {
        if n < 30 {
            on_registers(n, r)
        } else {
            on_stack(n, r, mem)
        }
    } else {
        let at = address(k, from, r, mem);
        if n < 97 {
            on_operand(n, at, r, mem)
        } else {
            on_address(n, at, from, r, mem)
        }
    }
}
