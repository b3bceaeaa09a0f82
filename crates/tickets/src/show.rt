// A ticket as a text, and what reading it answers; where it is read it is written again: the same where it has $07 and
// no name; else with home $0000 added, which it means, without its names, which are dropped, or both.
use crate::build::build;
use crate::plain::{has_home, with_home, without_names};
use crate::print::refusal;
use check::same;
use output::{decimal, text};
use ticket::fields::Ticket;
use ticket::{read, write};

// Whether writing gives the bytes, and leaves those after them.
fn again(t: &Ticket, bytes: &[u8]) -> bool {
    let mut out = [0xaau8; 90200];
    let Ok(n) = write(t, &mut out) else {
        return false;
    };
    let Some((written, rest)) = out.split_at_checked(n as usize) else {
        return false;
    };
    same(written, bytes) && rest.iter().all(|b| *b == 0xaa)
}

// The same of bytes that have home, and of bytes that do not, which gain it.
fn again_with_home(t: &Ticket, bytes: &[u8]) -> bool {
    if has_home(bytes) {
        return again(t, bytes);
    }
    let mut space = [0u8; 90200];
    again(t, with_home(bytes, &mut space))
}

// What was written again gained and lost.
fn changes(gained_home: bool, lost_names: bool) -> &'static [u8] {
    match (gained_home, lost_names) {
        (true, true) => b" with 07 0000 added, without its names",
        (true, false) => b" with 07 0000 added",
        (false, true) => b" without its names",
        (false, false) => b" the same",
    }
}

fn rewritten(rt: &impl Print, t: &Ticket, bytes: &[u8]) {
    let mut space = [0u8; 90200];
    let unnamed = without_names(bytes, &mut space);
    if again_with_home(t, unnamed) {
        text(rt, b"written again");
        text(rt, changes(!has_home(bytes), unnamed.len() < bytes.len()));
    } else {
        text(rt, b"WRITTEN AGAIN OTHERWISE");
    }
}

fn answered(rt: &impl Print, bytes: &[u8]) {
    match read(bytes) {
        Err(x) => refusal(rt, x),
        Ok(t) => {
            text(rt, b"read, ");
            decimal(rt, t.count as u64);
            text(rt, b" marks, ");
            rewritten(rt, &t, bytes);
        }
    }
}

pub fn show(rt: &impl Print, s: &[u8]) {
    let mut space = [0u8; 90200];
    text(rt, s);
    text(rt, b" -> ");
    answered(rt, build(s, &mut space));
    text(rt, b"\n");
}
