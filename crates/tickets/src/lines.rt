// The lines of a text: one that begins with # is a heading, one that begins with = a ticket for the writer, every other
// a ticket to read.
use crate::fields::wrote;
use crate::show::show;
use output::text;

fn line(rt: &impl Print, s: &[u8]) {
    match s.first() {
        Some(b'#') => {
            text(rt, s);
            text(rt, b"\n");
        }
        Some(b'=') => wrote(rt, s),
        _ => show(rt, s),
    }
}

// A line feed ends a line, the last too.
pub fn lines(rt: &impl Print, s: &[u8]) {
    for ended in s.split_inclusive(|b| *b == b'\n') {
        if let Some(s) = ended.strip_suffix(b"\n") {
            line(rt, s);
        }
    }
}
