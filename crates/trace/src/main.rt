// The desk stepper: reads press.bin, or press.s19 where there is none, and press.tkt from the folder it is run in and,
// where the routine is accepted, runs it from its start and prints one line for each instruction; where it is refused,
// the refusal, what it means, what stands at the place and what to do. docs/WORKSHOPS.md explains the lines and the
// arguments.
#![tactic(auto)]

use accepted::accepted;
use bad_argument::say_why;
use explain::{of_file, refused, refused_file};
use files::routine::{load_routine, room};
use files::{load, unfit};
use memory::Memory;
use options::Options;
use output::text;
use std::env::Env;
use std::rt::Files;
use verdict::{verdict, verdict_of_records};

// the arguments
mod options; // what they ask for
mod bad_argument; // one that says nothing
// a routine that is accepted
mod accepted; // its trace
mod steps; // the instructions of a run

fn usage(err: &impl Print) {
    text(
        err,
        b"usage: trace [a=HH] [b=HH] [x=HHHH] [y=HHHH] [flags=HH] [budget=N] [memory=FILE] [summary]\n",
    );
}

// The file that argument number i names, from address $0000 on. None where it cannot be read.
fn load_memory(rt: &(impl Env + Files + Print), i: usize, mem: &mut Memory) -> Option<()> {
    let mut buf = [0u8; 4096];
    let n = rt.arg(i, &mut buf).ok()?;
    let name = buf[..n].strip_prefix(b"memory=")?;
    if load(rt, name, mem).is_err() {
        unfit(rt, name);
        return None;
    }
    Some(())
}

fn judge(rt: &impl Print, o: Options, ticket: &[u8], image: &[u8], mem: &mut Memory) {
    match verdict(ticket, image) {
        Ok(a) => accepted(rt, o, ticket, image, mem, a),
        Err(x) => refused(rt, x, ticket, image),
    }
}

// The same for an S-record file, with a buffer for the image that it names. Where the file itself is refused there is
// no image.
fn judge_records(rt: &impl Print, o: Options, ticket: &[u8], file: &[u8], mem: &mut Memory) {
    let mut space = [0u8; 65536];
    let n = room(ticket, &space);
    let image = &mut space[..n];
    match verdict_of_records(ticket, file, image) {
        Ok(a) => accepted(rt, o, ticket, image, mem, a),
        Err(x) if of_file(x.cause) => refused_file(rt, x, ticket, file),
        Err(x) => refused(rt, x, ticket, image),
    }
}

fn trace(rt: &(impl Env + Files + Print), o: Options) {
    let mut first = [0u8; 65536];
    let mut ticket = [0u8; 65536];
    let mut mem = [0u8; 65536];
    let Some(r) = load_routine(rt, &mut first, &mut ticket) else {
        return;
    };
    if let Some(i) = o.memory {
        if load_memory(rt, i, &mut mem).is_none() {
            return;
        }
    }
    let first = &first[..r.first];
    let ticket = &ticket[..r.ticket];
    if r.records {
        judge_records(rt, o, ticket, first, &mut mem);
    } else {
        judge(rt, o, ticket, first, &mut mem);
    }
}

fn main(rt: HostRuntime) {
    match options::read(&rt) {
        Ok(o) => trace(&rt, o),
        Err(i) => {
            say_why(&rt, &rt.stderr(), i);
            usage(&rt.stderr());
        }
    }
}
