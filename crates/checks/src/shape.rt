// The shape of an instruction: what the ticket rules ask about it.
ghost use Rattle.std.specs.Prelude.{◌≡◌};
ghost use Rattle.rules.specs.Shape.{leads, pushes, pulls, stores, shape_by};
ghost use Rattle.checks.specs.inner.Said.{onward_of, successors_said, writes_said, shape_said};

use instructions::form::Form;
use opcodes::instruction::Address;
use registers::{Cycles, StackBytes};

// The addresses that may come next.
#[derive(Clone, Copy)]
pub enum Successors {
    One(u16),
    Two(u16, u16),
}

// What is stored to at a fixed address: nothing, a byte, or a byte and the one after it.
#[derive(Clone, Copy)]
pub enum Writes {
    Nowhere,
    Byte(u16),
    Word(u16),
}

// An instruction that goes on inside its routine.
#[derive(Clone, Copy)]
pub struct Ordinary {
    pub next: Successors,
    pub pushed: StackBytes,
    pub pulled: StackBytes,
    pub writes: Writes,
    pub cycles: Cycles,
}

// JSR and BSR.
#[derive(Clone, Copy)]
pub struct Call {
    pub target: u16,
    pub after: u16, // the following address
    pub cycles: Cycles,
}

#[derive(Clone, Copy)]
pub enum Shape {
    Ordinary(Ordinary),
    Call(Call),
    // RTS
    Return(Cycles),
    // document 01's "kept out"
    Forbidden,
    Nothing,
}

// Only goes on.
fn onward(next: Successors, cycles: Cycles) -> Ordinary
    ensures { result ≡ onward_of next cycles }
{
    Ordinary {
        next,
        pushed: StackBytes(0),
        pulled: StackBytes(0),
        writes: Writes::Nowhere,
        cycles,
    }
}

fn leads(next: Successors, k: Cycles) -> Shape
    ensures { shape_said result ≡ leads (successors_said next) k.0 }
{
    Shape::Ordinary(onward(next, k))
}

fn pushes(n: u16, after: u16, k: Cycles) -> Shape
    ensures { shape_said result ≡ pushes n after k.0 }
{
    Shape::Ordinary(Ordinary {
        pushed: StackBytes(n),
        ..onward(Successors::One(after), k)
    })
}

fn pulls(n: u16, after: u16, k: Cycles) -> Shape
    ensures { shape_said result ≡ pulls n after k.0 }
{
    Shape::Ordinary(Ordinary {
        pulled: StackBytes(n),
        ..onward(Successors::One(after), k)
    })
}

fn stores(writes: Writes, after: u16, k: Cycles) -> Shape
    ensures { shape_said result ≡ stores (writes_said writes) after k.0 }
{
    Shape::Ordinary(Ordinary {
        writes,
        ..onward(Successors::One(after), k)
    })
}

// By the form, the address after the instruction and its cycles. Indexed writes, jumps and calls are kept out: where
// they lead is not known.
pub fn shape_by(f: Form, after: u16, k: Cycles) -> Shape
    ensures { shape_said result ≡ shape_by f after k.0 }
{
    match f {
        Form::Computes => leads(Successors::One(after), k),
        Form::StoresByte(Address::Fixed(a)) => stores(Writes::Byte(a), after, k),
        Form::StoresWord(Address::Fixed(a)) => stores(Writes::Word(a), after, k),
        Form::PushesByte => pushes(1, after, k),
        Form::PushesWord => pushes(2, after, k),
        Form::PullsByte => pulls(1, after, k),
        Form::PullsWord => pulls(2, after, k),
        Form::Reserves => pushes(1, after, k),
        Form::Releases => pulls(1, after, k),
        Form::Branches(t) => leads(Successors::Two(t, after), k),
        Form::Jumps(Address::Fixed(a)) => leads(Successors::One(a), k),
        Form::Calls(Address::Fixed(target)) => Shape::Call(Call {
            target,
            after,
            cycles: k,
        }),
        Form::Returns => Shape::Return(k),
        Form::StoresByte(Address::IndexedX(_) | Address::IndexedY(_))
        | Form::StoresWord(Address::IndexedX(_) | Address::IndexedY(_))
        | Form::Jumps(Address::IndexedX(_) | Address::IndexedY(_))
        | Form::Calls(Address::IndexedX(_) | Address::IndexedY(_)) => Shape::Forbidden,
        Form::MovesSp | Form::Interrupts | Form::Resumes | Form::Waits => Shape::Forbidden,
    }
}
