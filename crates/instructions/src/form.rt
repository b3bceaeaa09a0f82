// The form of an instruction: all that it does to PC, SP and memory, apart from the values; and the form of a decoded
// one.
ghost use Rattle.std.specs.Prelude.{◌≡◌};
ghost use Rattle.instructions.specs.Form.{address_in, target_in, branch_form, load_form};
ghost use Rattle.instructions.specs.Entry.{form_of};

use opcodes::instruction::{Action, Address, Operand, Word};
use registers::word::target;

#[derive(Clone, Copy)]
pub enum Form {
    // on to the next instruction, with SP and memory as they were
    Computes,
    // a byte or a word goes to memory, the word's high byte first
    StoresByte(Address),
    StoresWord(Address),
    // PSH and PUL; DES and INS move SP alone
    PushesByte,
    PushesWord,
    PullsByte,
    PullsWord,
    Reserves,
    Releases,
    // to the target or on to the next instruction
    Branches(u16),
    // JMP and BRA
    Jumps(Address),
    // JSR and BSR
    Calls(Address),
    // RTS
    Returns,
    // LDS, TXS, TYS
    MovesSp,
    // SWI; RTI
    Interrupts,
    Resumes,
    // WAI, STOP, TEST
    Waits,
}

// Where the operand stands, or where a jump goes. An inherent or immediate operand names no address.
#[tactic(auto, unfolding(crate::specs::Form::address_in))]
fn address_in(o: Operand, next: u16) -> Address
    ensures { result ≡ address_in o next }
{
    match o {
        Operand::Inherent | Operand::Immediate(_) => Address::Fixed(0),
        Operand::Direct(d) => Address::Fixed(d as u16),
        Operand::Extended(a) => Address::Fixed(a),
        Operand::IndexedX(d) => Address::IndexedX(d),
        Operand::IndexedY(d) => Address::IndexedY(d),
        Operand::Relative(d) => Address::Fixed(target(next, d)),
        Operand::Mask(a, _) | Operand::MaskBranch(a, _, _) => a,
    }
}

// Where a branch goes. An operand without an offset branches nowhere.
#[tactic(auto, unfolding(crate::specs::Form::target_in))]
fn target_in(o: Operand, next: u16) -> u16
    ensures { result ≡ target_in o next }
{
    match o {
        Operand::Relative(d) | Operand::MaskBranch(_, _, d) => target(next, d),
        Operand::Inherent
        | Operand::Immediate(_)
        | Operand::Direct(_)
        | Operand::Extended(_)
        | Operand::IndexedX(_)
        | Operand::IndexedY(_)
        | Operand::Mask(_, _) => next,
    }
}

// BRA always branches and BRN never; the others go both ways.
fn branch_form(k: u8, t: u16) -> Form
    ensures { result ≡ branch_form k t }
{
    match k {
        0 => Form::Jumps(Address::Fixed(t)),
        1 => Form::Computes,
        _ => Form::Branches(t),
    }
}

fn load_form(w: Word) -> Form
    ensures { result ≡ load_form w }
{
    match w {
        Word::D | Word::X | Word::Y => Form::Computes,
        Word::S => Form::MovesSp,
    }
}

// Of an action with an operand; `next` is the address after the instruction.
#[tactic(auto, unfolding(crate::specs::Entry::form_of))]
pub fn form_of(a: Action, o: Operand, next: u16) -> Form
    ensures { result ≡ form_of a o next }
{
    match a {
        Action::Inherent(_)
        | Action::Unary(_, _)
        | Action::TstAccumulator(_)
        | Action::Binary(_, _)
        | Action::TstMemory
        | Action::Addd
        | Action::Subd
        | Action::CompareWord(_) => Form::Computes,
        Action::LoadWord(w) => load_form(w),
        Action::StoreByte(_) | Action::Modify(_) | Action::Bset | Action::Bclr => {
            Form::StoresByte(address_in(o, next))
        }
        Action::StoreWord(_) => Form::StoresWord(address_in(o, next)),
        Action::Brset | Action::Brclr => Form::Branches(target_in(o, next)),
        Action::Branch(k) => branch_form(k % 16, target_in(o, next)),
        Action::Jmp => Form::Jumps(address_in(o, next)),
        Action::Call => Form::Calls(address_in(o, next)),
        Action::Rts => Form::Returns,
        Action::PushByte(_) => Form::PushesByte,
        Action::PushWord(_) => Form::PushesWord,
        Action::PullByte(_) => Form::PullsByte,
        Action::PullWord(_) => Form::PullsWord,
        Action::Des => Form::Reserves,
        Action::Ins => Form::Releases,
        Action::SetStack(_) => Form::MovesSp,
        Action::Swi => Form::Interrupts,
        Action::Rti => Form::Resumes,
        Action::Wai | Action::Stop | Action::Test => Form::Waits,
    }
}
