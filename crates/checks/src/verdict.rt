// The checks of a ticket that was read: of the image, of each mark in rising address, of the whole.
ghost use Rattle.std.specs.Prelude.{◌≡◌, ◌≤◌};
ghost use Rattle.ticket.specs.Fields.{listed, fields_of};
ghost use Rattle.ticket.specs.Rules.{Readable, Rising};
ghost use Rattle.rules.specs.Checks.{verdict_on};
ghost use Rattle.checks.specs.inner.MarkCause.{CauseIs};

use crate::image::shape_at;
use crate::mark::mark_cause;
use crate::marks::claim_at;
use crate::whole::whole;
use answers::{Cause, Verdict, refuse};
use commands::header::{Header, past};
use ticket::fields::{Mark, Ticket};

// The first cause that applies at a mark.
fn cause_at(h: Header, marks: &[Mark], image: &[u8], m: Mark) -> Result<(), Cause>
    requires rising { Rising marks.now }
    requires start_le_address { h.code.start ≤ m.address }
    ensures { CauseIs (record { header = h; marks = marks.now }) image.now m result }
{
    let s = shape_at(h.code, image, m.address);
    let inside = (m.address as u32) + (s.size as u32) <= past(h.code);
    mark_cause(h.data, marks, m.claim, s.shape, inside)
}

// The first cause in document 01's order: 9, then 10 to 17 at each mark, then 18 to 20.
fn verdict_by(h: Header, marks: &[Mark], image: &[u8]) -> Verdict
    requires { Readable (record { header = h; marks = marks.now }) }
    ensures { result ≡ verdict_on (record { header = h; marks = marks.now }) image.now }
{
    if image.len() != (h.code.length as usize) {
        return Err(refuse(Cause::BadImage, 0));
    }
    for m in marks {
        if let Err(cause) = cause_at(h, marks, image, *m) {
            return Err(refuse(cause, m.address as u32));
        }
    }
    whole(h, claim_at(marks, h.entry))
}

// The marks that an array begins with. A function of its own, whose contract is over the array: behind the ticket's
// reference a proof isn't told that the array has 4,096 elements.
#[tactic(auto, using(ticket::proofs::Listed::listed_take))]
fn listed(marks: &[Mark; 4096], count: u16) -> &[Mark]
    requires { count ≤ 4096 }
    ensures { result.now ≡ listed marks.now count }
{
    &marks[..count as usize]
}

#[tactic(auto, unfolding(ticket::specs::Fields::fields_of))]
pub fn verdict_on(t: &Ticket, image: &[u8]) -> Verdict
    requires { Readable (fields_of t.now) × (t.now.count ≤ 4096) }
    ensures { result ≡ verdict_on (fields_of t.now) image.now }
{
    verdict_by(t.header, listed(&t.marks, t.count), image)
}
