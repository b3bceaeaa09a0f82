// A file judged with three buffers: of the code window's length, of one byte less and of one byte more.
ghost use Rattle.std.specs.Prelude.{◌≤◌};

use crate::bytes::{file_in, put_image};
use crate::tickets::{room, ticket};
use answers::Verdict;
use check::same;
use output::{decimal, text};
use text::verdict::put_verdict;
use verdict::verdict_of_records;

// A line of the text: the answer; the ticket's letter; the image in the buffer afterwards, empty where it is not
// written; the file; why.
#[derive(Clone, Copy)]
struct Case<'a> {
    answer: &'a [u8],
    ticket: u8,
    image: &'a [u8],
    file: &'a [u8],
    why: &'a [u8],
}

// Semicolons part the fields; the last takes the rest of the line. The file is put into a space.
fn case_in<'a>(s: &'a [u8], space: &'a mut [u8]) -> Case<'a> {
    let mut fields = s.splitn(5, |b| *b == b';');
    let answer = fields.next().unwrap_or(b"");
    let letter = fields.next().unwrap_or(b"");
    let image = fields.next().unwrap_or(b"");
    let file = fields.next().unwrap_or(b"");
    let why = fields.next().unwrap_or(b"");
    Case {
        answer,
        ticket: letter.first().copied().unwrap_or(b'0'),
        image,
        file: file_in(file, space),
        why,
    }
}

// The verdict, with the first bytes lent as the buffer.
fn verdict_in(c: Case<'_>, bytes: &mut [u8; 4200], length: usize) -> Verdict
    requires { length ≤ 4200 }
{
    let mut space = [0u8; 128];
    verdict_of_records(ticket(c.ticket, &mut space), c.file, &mut bytes[..length])
}

// Whether the answer is the expected one; another is printed.
fn answered(rt: &impl Print, v: Verdict, expected: &[u8]) -> bool {
    let mut line = [0u8; 64];
    let n = put_verdict(v, &mut line);
    let Some(found) = line[..n].strip_suffix(b"\n") else {
        return false;
    };
    if same(found, expected) {
        return true;
    }
    text(rt, b", BUT FOUND ");
    text(rt, found);
    false
}

// Whether a buffer of a length is answered as expected and all its bytes come to those expected. What differs is
// printed.
fn judged(rt: &impl Print, c: Case<'_>, length: usize, expected: &[u8], after: &[u8; 4200]) -> bool
    requires { length ≤ 4200 }
{
    let mut bytes = [0xaau8; 4200];
    let right = answered(rt, verdict_in(c, &mut bytes, length), expected);
    if same(&bytes, after) {
        return right;
    }
    text(rt, b", WITH OTHER BYTES IN A BUFFER OF ");
    decimal(rt, length as u64);
    false
}

// A file that is refused up to 9 leaves each buffer; a good one fills that of the right length, and with the others is
// refused for it.
fn judged_three(rt: &impl Print, c: Case<'_>) -> bool {
    let kept = [0xaau8; 4200];
    let mut filled = kept;
    put_image(c.image, &mut filled);
    let misfit = if c.image.is_empty() {
        c.answer
    } else {
        b"REFUSE 9 0"
    };
    let room = room(c.ticket);
    let right = judged(rt, c, room, c.answer, &filled);
    let less = judged(rt, c, room - 1, misfit, &kept);
    let more = judged(rt, c, room + 1, misfit, &kept);
    right & less & more
}

// A line of the text. Whether all is as expected.
pub fn judge(rt: &impl Print, s: &[u8]) -> bool {
    let mut space = [0u8; 65536];
    let c = case_in(s, &mut space);
    text(rt, c.why);
    text(rt, b" -> ");
    text(rt, c.answer);
    let right = judged_three(rt, c);
    text(rt, b"\n");
    right
}
