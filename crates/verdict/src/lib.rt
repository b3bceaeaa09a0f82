// The verdict on a routine, and its start. `verdict`, `verdict_of_records`, `certify`, `start` and `start_routine` are
// the interface: they take any bytes, any header, any buffer and any memory.
#![tactic(auto)]

ghost use Rattle.std.specs.Prelude.{◌≡◌};
ghost use Rattle.rules.specs.Checks.{verdict_of};
ghost use Rattle.verdict.specs.Promise.{Promised};
ghost use Rattle.verdict.specs.Records.{after_verdict, records_verdict_of, FilePromised};
ghost use Rattle.verdict.specs.Start.{started_of, loaded_of, StartsAsClaimed};
ghost use Rattle.verdict.specs.Certification.{certification_of};
ghost use Rattle.verdict.specs.Routine.{after_start, start_routine_of, StartedComesHome, CertificateComesHome};

use crate::load::{fill, last_of, store_home};
pub use crate::started::{Start, Started};
use answers::{Cause, Refusal, Verdict, refuse};
use checks::verdict::verdict_on;
use commands::header::Header;
use records::load_image;
use registers::{Cycles, Data, Registers, StackBytes};
use ticket::read;

pub mod started; // the registers and home, or a refusal
mod load; // the image and home's bytes into memory

// Of an accepted routine: its ticket's header, which a start goes by, and the certified figures.
#[derive(Clone, Copy)]
pub struct Certificate {
    pub header: Header,
    pub cost: Cycles,
    pub stack: StackBytes,
}

// A routine judged.
pub type Certification = Result<Certificate, Refusal>;

// Reads the ticket and judges the routine. What is certified comes home from every start by its header, without being
// judged again.
pub fn certify(ticket: &[u8], image: &[u8]) -> Certification
    ensures { (result ≡ certification_of ticket.now image.now)
        × CertificateComesHome ticket.now image.now }
{
    let t = read(ticket)?;
    let a = verdict_on(&t, image)?;
    Ok(Certificate {
        header: t.header,
        cost: a.cost,
        stack: a.stack,
    })
}

// Accepts if and only if every ticket rule holds; else the first cause in document 01's order, 29 among those at
// reading, with its place. An accepted routine comes home.
pub fn verdict(ticket: &[u8], image: &[u8]) -> Verdict
    ensures { (result ≡ verdict_of ticket.now image.now)
        × Promised ticket.now image.now }
{
    verdict_on(&read(ticket)?, image)
}

// The verdict on a routine whose image is an S-record file: the first cause of the ticket (1 to 8, 29), of the file (25
// to 27), of the buffer's length (9), of the marks and of the whole (10 to 20). The buffer is written only where all up
// to 9 is good, and then it is the image that the file names. An accepted routine comes home.
pub fn verdict_of_records(ticket: &[u8], file: &[u8], image: &mut [u8]) -> Verdict
    ensures { (after_verdict result image.new ≡ records_verdict_of ticket.now file.now
        image.old) × FilePromised ticket.now file.now image.old }
{
    let ticket = read(ticket)?;
    load_image(ticket.header.code, file, image)?;
    verdict_on(&ticket, image)
}

// The start, from the header of an accepted ticket: the image fills the code window and home's two bytes go to the end
// of the stack window. Of a header that no ticket can have, addresses wrap.
pub fn start(h: Header, image: &[u8], d: Data, memory: &mut [u8]) -> Started
    ensures { (result ≡ started_of h d image.now memory.old)
        × (memory.new ≡ loaded_of h image.now memory.old)
        × StartsAsClaimed h d image.now memory.old }
{
    let Some(whole) = memory.as_mut_array() else {
        return Err(refuse(Cause::BadLength, 0));
    };
    if image.len() != (h.code.length as usize) {
        return Err(refuse(Cause::BadImage, 0));
    }
    let top = last_of(h.stack);
    fill(h.code.start, image, whole);
    store_home(top, h.home, whole);
    Ok(Start {
        registers: Registers::start(d, h.entry, top),
        home: h.home,
    })
}

// Judges a routine and, where it is accepted, starts it: what is started comes home. Else the number and place of the
// verdict's refusal.
pub fn start_routine(ticket: &[u8], image: &[u8], d: Data, memory: &mut [u8]) -> Started
    ensures { (after_start result memory.new ≡ start_routine_of ticket.now image.now d
        memory.old) × StartedComesHome ticket.now image.now d memory.old }
{
    if memory.len() != 65536 {
        return Err(refuse(Cause::BadLength, 0));
    }
    let c = certify(ticket, image)?;
    start(c.header, image, d, memory)
}
