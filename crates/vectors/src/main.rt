// Stored vectors of other simulators, each run through `step`: reads vectors.txt from its folder and prints what
// agrees.
#![tactic(auto)]

use output::{counted, text};
use reader::Reader;
use std::fs;

mod hex; // digits, bytes, words and registers in a line
mod line; // the shape of a line
mod loaded; // the memory and the place that a line says
mod compare; // whether a step comes to what a line says
mod comparison; // what comes of a line
mod count; // what is counted
mod reader; // the lines of a file
mod report; // a difference
mod places; // the opcode maps

fn summary(rt: &impl Print, r: &Reader) {
    let c = r.counts;
    counted(rt, b"vectors: ", c.vectors as u64);
    counted(rt, b"confirmed by GNU's simulator only: ", c.gnu as u64);
    counted(rt, b"confirmed by MAME's only: ", c.mame as u64);
    counted(rt, b"confirmed by both: ", c.both as u64);
    counted(rt, b"confirmed by neither alone: ", c.neither as u64);
    places::report(rt, &r.places);
    counted(rt, b"malformed lines: ", c.malformed as u64);
    counted(rt, b"differences: ", c.differences as u64);
}

fn main(rt: HostRuntime) {
    let Ok(mut file) = fs::open(&rt, "vectors.txt") else {
        text(&rt, b"vectors.txt: CANNOT BE OPENED\n");
        return;
    };
    let r = reader::read_all(&rt, &mut file);
    if (r.counts.vectors == 0) & (r.counts.malformed == 0) {
        text(&rt, b"vectors.txt: EMPTY\n");
    }
    summary(&rt, &r);
}
