// The checking program's line (document 01, "One routine, read aloud").
ghost use Rattle.std.specs.Prelude.{◌≡◌, ◌≤◌, length};
ghost use Rattle.lists.specs.Splice.{spliced};
ghost use Rattle.text.specs.Verdict.{accept_line, refuse_line, line_of};
ghost use Rattle.answers.specs.Cause.{number_of};

use crate::line::Line;
use crate::number::{hex4, put_text};
use answers::{Acceptance, Refusal, Verdict};

#[tactic(auto, unfolding(crate::specs::Verdict::accept_line, crate::specs::Line::field_text))]
fn accepted(a: Acceptance) -> Line
    ensures { result ≡ accept_line a.entry a.cost.0 a.stack.0 }
{
    Line::empty()
        .with_text(b"ACCEPT ")
        .with_text(&hex4(a.entry))
        .with_field(b" ", a.cost.0)
        .with_field(b" ", u32::from(a.stack.0))
        .with_text(b"\n")
}

#[tactic(auto, unfolding(crate::specs::Verdict::refuse_line, crate::specs::Line::field_text))]
fn refused(x: Refusal) -> Line
    ensures { result ≡ refuse_line (number_of x.cause) x.place }
{
    Line::empty()
        .with_field(b"REFUSE ", u32::from(x.cause.number()))
        .with_field(b" ", x.place)
        .with_text(b"\n")
}

#[tactic(auto, using(crate::proofs::VerdictParts::accept_most, crate::proofs::VerdictParts::refuse_most))]
fn line(v: Verdict) -> Line
    ensures { (result ≡ line_of v) × (length result ≤ 64) }
{
    match v {
        Ok(a) => accepted(a),
        Err(x) => refused(x),
    }
}

// How many bytes the line has; it stands at the beginning of the output.
pub fn put_verdict(v: Verdict, out: &mut [u8; 64]) -> usize
    ensures { (out.new ≡ spliced out.old 0 (line_of v)) × (result ≡ length (line_of v)) × (result ≤ 64) }
{
    put_text(out, 0, line(v).as_bytes())
}
