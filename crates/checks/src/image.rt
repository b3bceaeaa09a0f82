// The instruction at an address of an image that fills the code window.
ghost use Rattle.std.specs.Prelude.{◌≡◌, ◌≤◌, ◌<◌, get_or, Some};
ghost use Rattle.opcodes.specs.Tables.{cost_at, length_at};
ghost use Rattle.opcodes.specs.Decode.{instruction_of};
ghost use Rattle.rules.specs.Marks.{image_from};
ghost use Rattle.rules.specs.Shape.{shape_in, shape_of, instruction_size};
ghost use Rattle.checks.specs.inner.Said.{shape_said};

use crate::shape::{Shape, shape_by};
use commands::header::Window;
use instructions::form::form_of;
use opcodes::decoder::decode;
use opcodes::lookup::{Found, found_of};
use registers::Cycles;
use registers::word::wrapping_add;

// A shape, with the size of its instruction in bytes; 0 where there is no instruction.
#[derive(Clone, Copy)]
pub struct SizedShape {
    pub shape: Shape,
    pub size: u16,
}

// The byte at an index; past the end there are zeros.
fn byte_in(image: &[u8], i: usize) -> u8
    ensures { result ≡ get_or image.now i 0 }
{
    image.get(i).copied().unwrap_or(0)
}

// The instruction at address a that was found, whose operand's bytes are u, v and w.
fn shape_found(found: Found, u: u8, v: u8, w: u8, a: u16) -> SizedShape
    requires { (found.place < 1024) × (found.cost < 65536) × (found.cost ≡ cost_at found.place) }
    ensures { (shape_said result.shape ≡ shape_in found.place (Some (instruction_of found.place u v w)) a)
        × (result.size ≡ length_at found.place) }
{
    let size = (found.cost / 256) as u16;
    let after = wrapping_add(a, size);
    let d = decode(found.place, u, v, w);
    SizedShape {
        shape: shape_by(
            form_of(d.action, d.operand, after),
            after,
            Cycles(found.cost % 256),
        ),
        size,
    }
}

// The instruction at an address of the code window. It is decoded as the step decodes a memory.
pub fn shape_at(code: Window, image: &[u8], a: u16) -> SizedShape
    requires { code.start ≤ a }
    ensures { (shape_said result.shape ≡ shape_of (image_from code image.now a) a)
        × (result.size ≡ instruction_size (image_from code image.now a)) }
{
    let at = (a - code.start) as usize;
    let Some(found) = found_of(byte_in(image, at), byte_in(image, at + 1)) else {
        return SizedShape {
            shape: Shape::Nothing,
            size: 0,
        };
    };
    let i = at + found.size as usize;
    let u = byte_in(image, i);
    let v = byte_in(image, i + 1);
    let w = byte_in(image, i + 2);
    shape_found(found, u, v, w, a)
}
