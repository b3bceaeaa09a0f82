// Whether the instruction at an address calls or returns, by its form.
ghost use Rattle.std.specs.Prelude.{◌≡◌, ◌<◌, Some};
ghost use Rattle.opcodes.specs.Tables.{cost_at};
ghost use Rattle.opcodes.specs.Decode.{instruction_of};
ghost use Rattle.stepper.specs.Flow.{flow_by, flow_in, flow_of};
ghost use Rattle.measure.specs.inner.Said.{flow_said};

use instructions::form::{Form, form_of};
use memory::{Memory, byte_at};
use opcodes::decoder::decode;
use opcodes::lookup::{Found, found_of};
use registers::word::wrapping_add;

#[derive(Clone, Copy)]
pub enum Flow {
    // JSR and BSR
    Calls,
    // RTS
    Returns,
    Plain,
}

fn flow_by(f: Form) -> Flow
    ensures { flow_said result ≡ flow_by f }
{
    match f {
        Form::Calls(_) => Flow::Calls,
        Form::Returns => Flow::Returns,
        Form::Computes
        | Form::StoresByte(_)
        | Form::StoresWord(_)
        | Form::PushesByte
        | Form::PushesWord
        | Form::PullsByte
        | Form::PullsWord
        | Form::Reserves
        | Form::Releases
        | Form::Branches(_)
        | Form::Jumps(_)
        | Form::MovesSp
        | Form::Interrupts
        | Form::Resumes
        | Form::Waits => Flow::Plain,
    }
}

// Of what is found at PC, with an operand of the bytes u, v and w.
fn flow_found(f: Found, u: u8, v: u8, w: u8, pc: u16) -> Flow
    requires place_bound { f.place < 1024 }
    requires cost_bound { f.cost < 65536 }
    requires cost_value { f.cost ≡ cost_at f.place }
    ensures { flow_said result ≡ flow_in f.place (Some (instruction_of f.place u v w)) pc }
{
    let d = decode(f.place, u, v, w);
    let after = wrapping_add(pc, (f.cost / 256) as u16);
    flow_by(form_of(d.action, d.operand, after))
}

// It is decoded as the step decodes it.
pub fn flow_at(mem: &Memory, pc: u16) -> Flow
    ensures { flow_said result ≡ flow_of mem.now pc }
{
    let Some(f) = found_of(byte_at(mem, pc), byte_at(mem, wrapping_add(pc, 1))) else {
        return Flow::Plain;
    };
    let u = byte_at(mem, wrapping_add(pc, f.size));
    let v = byte_at(mem, wrapping_add(pc, f.size + 1));
    let w = byte_at(mem, wrapping_add(pc, f.size + 2));
    flow_found(f, u, v, w, pc)
}
