// S-record files judged with a ticket: each as a line of images.txt, with its answer and its image worked out by hand
// from document 02, a.
#![tactic(auto)]

use output::{decimal, text};
use std::fs;

mod bytes; // a file's and an image's bytes from a text
mod tickets; // the tickets that files are judged with
mod judge; // a file judged with three buffers
mod lines; // the lines of a text

fn main(rt: HostRuntime) {
    let Ok(mut opened) = fs::open(&rt, "images.txt") else {
        text(&rt, b"images.txt: CANNOT BE OPENED\n");
        return;
    };
    let mut file = [0u8; 65536];
    let n = files::fill(&mut opened, &mut file);
    let end = lines::lines(&rt, &file[0..n]);
    decimal(&rt, end.cases as u64);
    text(&rt, b" files, each judged with three buffers: ");
    decimal(&rt, end.wrong as u64);
    text(&rt, b" wrong\n");
}
