// What stands at the place in an S-record file: a line, the file's end, or no line at all.
use crate::figures::window_line;
use crate::given::missing_line;
use answers::{Cause, Refusal};
use commands::header::Window;
use output::{decimal, text};

// A printable character as it is, any other byte as a dot.
fn shown(b: u8) -> u8 {
    match b {
        0x20..=0x7e => b,
        _ => b'.',
    }
}

// A line without its end: a line feed, with the carriage return where one stands before it.
fn without_end(line: &[u8]) -> &[u8] {
    match line {
        [rest @ .., b'\r', b'\n'] => rest,
        [rest @ .., b'\n'] => rest,
        _ => line,
    }
}

// Up to 80 characters: a record of 32 bytes has 74.
fn whole_line(rt: &impl Print, line: &[u8]) {
    let characters = without_end(line);
    let mut printed = [0u8; 80];
    for (to, from) in printed.iter_mut().zip(characters) {
        *to = shown(*from);
    }
    text(rt, b"line \"");
    text(rt, &printed[..characters.len().min(80)]);
    text(rt, b"\"");
    if 80 < characters.len() {
        text(rt, b"..");
    }
    if !line.ends_with(b"\n") {
        text(rt, b", without a line feed");
    }
    text(rt, b"\n");
}

// S9 is absent.
fn end_line(rt: &impl Print, lines: u32) {
    text(rt, b"end of the file, ");
    if lines == 0 {
        text(rt, b"before the first line\n");
    } else {
        text(rt, b"after line ");
        decimal(rt, lines as u64);
        text(rt, b"\n");
    }
}

fn line_at(rt: &impl Print, file: &[u8], before: u32) {
    let line = file.split_inclusive(|b| *b == b'\n').nth(before as usize);
    match line {
        Some(line) => whole_line(rt, line),
        None => end_line(rt, before),
    }
}

pub fn file_lines(rt: &impl Print, x: Refusal, file: &[u8], code: Window) {
    match x.place.checked_sub(1) {
        Some(before) => line_at(rt, file, before),
        None => missing_line(rt, file, code),
    }
    if x.cause == Cause::BadAddress {
        window_line(rt, b"code window", code);
    }
}
