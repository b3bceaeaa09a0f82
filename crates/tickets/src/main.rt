// Tickets read and written: each as a short text, and what is answered. The file stdout has the answers of document 01,
// and document 02's of home and of names, worked out by hand.
#![tactic(auto)]

use output::text;
use std::fs;

mod build; // a ticket's bytes from a short text
mod fields; // tickets given to the writer as fields
mod lines; // the lines of a file
mod plain; // what the writer makes of a ticket, without it
mod print; // a refusal as text
mod show; // what is answered

fn main(rt: HostRuntime) {
    let Ok(mut opened) = fs::open(&rt, "tickets.txt") else {
        text(&rt, b"tickets.txt: CANNOT BE OPENED\n");
        return;
    };
    let mut file = [0u8; 65536];
    let n = files::fill(&mut opened, &mut file);
    lines::lines(&rt, &file[0..n]);
}
