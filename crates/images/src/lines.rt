// The lines of a text: one that begins with # is a heading, every other a file to be judged.
use crate::judge::judge;
use output::text;

// How many files were judged, and how many of them wrong.
#[derive(Clone, Copy)]
pub struct Judged {
    pub cases: usize,
    pub wrong: usize,
}

fn line(rt: &impl Print, s: &[u8], before: Judged) -> Judged {
    if s.starts_with(b"#") {
        text(rt, s);
        text(rt, b"\n");
        return before;
    }
    let wrong = if judge(rt, s) { 0 } else { 1 };
    Judged {
        cases: before.cases.wrapping_add(1),
        wrong: before.wrong.wrapping_add(wrong),
    }
}

// A line feed ends a line, the last too.
pub fn lines(rt: &impl Print, s: &[u8]) -> Judged {
    let mut judged = Judged { cases: 0, wrong: 0 };
    for ended in s.split_inclusive(|b| *b == b'\n') {
        if let Some(s) = ended.strip_suffix(b"\n") {
            judged = line(rt, s, judged);
        }
    }
    judged
}
