// What the rules make of an instruction: where it goes on, and how many bytes it pushes, pulls and writes.
use checks::image::shape_at;
use checks::shape::{Ordinary, Shape, Successors, Writes};
use commands::header::Window;
use output::{decimal, text};

// Any operand's byte, but that no jump by it goes to the next instruction.
pub const OPERAND: u8 = 0x12;

// A number of bytes, where it is not 0.
fn bytes(rt: &impl Print, what: &[u8], n: u16) {
    if n != 0 {
        text(rt, what);
        decimal(rt, n as u64);
    }
}

fn written(w: Writes) -> u16 {
    match w {
        Writes::Nowhere => 0,
        Writes::Byte(_) => 1,
        Writes::Word(_) => 2,
    }
}

// `after` is the address after the instruction.
fn way(rt: &impl Print, next: Successors, after: u16) {
    match next {
        Successors::Two(_, _) => text(rt, b"branches"),
        Successors::One(a) if a == after => text(rt, b"goes on"),
        Successors::One(_) => text(rt, b"jumps"),
    }
}

fn ordinary(rt: &impl Print, o: Ordinary, after: u16) {
    way(rt, o.next, after);
    bytes(rt, b", pushes ", o.pushed.0);
    bytes(rt, b", pulls ", o.pulled.0);
    bytes(rt, b", writes ", written(o.writes));
}

fn wording(rt: &impl Print, s: Shape, after: u16) {
    match s {
        Shape::Ordinary(o) => ordinary(rt, o, after),
        Shape::Call(_) => text(rt, b"calls"),
        Shape::Return(_) => text(rt, b"returns"),
        Shape::Forbidden => text(rt, b"kept out"),
        Shape::Nothing => text(rt, b"no instruction"),
    }
}

// Of the instruction that begins with these bytes.
pub fn rule(rt: &impl Print, first: u8, second: u8) {
    let image = [first, second, OPERAND, OPERAND, OPERAND];
    let code = Window {
        start: 0x8000,
        length: 5,
    };
    let shaped = shape_at(code, &image, 0x8000);
    wording(rt, shaped.shape, 0x8000u16.wrapping_add(shaped.size));
}
