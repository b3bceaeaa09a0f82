// Figures of the ticket that a refusal is about.
use crate::hex::word;
use answers::Cause;
use commands::header::{Header, Window};
use output::text;
use registers::word::{wrapping_add, wrapping_sub};

// A window's first and last address.
pub fn window_line(rt: &impl Print, name: &[u8], w: Window) {
    text(rt, name);
    if w.length == 0 {
        text(rt, b" empty\n");
        return;
    }
    word(rt, b" $", w.start);
    let last = wrapping_sub(wrapping_add(w.start, w.length), 1);
    word(rt, b" to $", last);
    text(rt, b"\n");
}

// What is added to a thing's name where it is said of so many.
fn plural(n: u64) -> &'static str {
    if n == 1 { "" } else { "s" }
}

pub fn lengths_line(rt: &impl Print, code: Window, image: &[u8]) {
    let given = image.len() as u64;
    let asked = code.length as u64;
    let _ = print!(rt;
        "image {given} byte{}, code window {asked} byte{}\n",
        plural(given),
        plural(asked)
    );
}

fn limit_line(rt: &impl Print, cycles: u32) {
    let _ = print!(rt; "limit {cycles} cycle{}\n", plural(cycles as u64));
}

// What a mark's claims are held against: of 12 it is the data window, of 19 the limit, of 20 the stack window.
pub fn figures_line(rt: &impl Print, cause: Cause, h: Header) {
    match cause {
        Cause::WritesOutside => window_line(rt, b"data window", h.data),
        Cause::OverLimit => limit_line(rt, h.limit.0),
        Cause::StackTooSmall => window_line(rt, b"stack window", h.stack),
        _ => {}
    }
}
