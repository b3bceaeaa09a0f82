// One line: a record, or its cause. An inner module of the file's reading.
ghost use Rattle.std.specs.Prelude.{◌≡◌, ◌≤◌, ◌<◌, length, Some};
ghost use Rattle.records.specs.Read.{line_by, line_of};
ghost use Rattle.records.specs.inner.Decoded.{after_line, Counted};

use crate::cells::{Cells, enter};
use crate::decode::decode;
use crate::progress::FileProgress;
use crate::record::{address_of, formed, sum};
use answers::Cause;
use commands::header::Window;

// A line's first two characters and its bytes: what the line leaves for the next; or 25, 26 or 27.
#[tactic(auto, using(crate::proofs::LineBy::formed_long, crate::proofs::LineBy::wrong_sum, crate::proofs::LineBy::gives_none, crate::proofs::LineBy::not_entered, crate::proofs::LineBy::entered_as_given))]
fn judged(
    code: Window,
    p: FileProgress,
    s: u8,
    t: u8,
    bytes: &[u8],
    cells: &mut Cells,
) -> Result<FileProgress, Cause>
    requires { Counted p × (code.length ≤ 4096) × (length bytes.now ≤ 256) }
    ensures { after_line result cells.new ≡ line_by code p cells.old s t (Some bytes.now) }
{
    if p.ended || s != b'S' || !formed(t, p.s1, bytes) {
        return Err(Cause::BadRecord);
    }
    if sum(bytes) != 255 {
        return Err(Cause::BadChecksum);
    }
    if t != b'1' {
        return Ok(FileProgress {
            lines: p.lines + 1,
            ended: t == b'9',
            ..p
        });
    }
    let checksum = bytes.len() - 1;
    if !enter(code, address_of(bytes), &bytes[3..checksum], cells) {
        return Err(Cause::BadAddress);
    }
    Ok(FileProgress {
        lines: p.lines + 1,
        s1: p.s1 + 1,
        ended: false,
    })
}

#[tactic(auto, using(crate::proofs::CountableBytes::short_line, crate::proofs::CountableBytes::malformed_line))]
pub fn judge(
    code: Window,
    p: FileProgress,
    line: &[u8],
    cells: &mut Cells,
) -> Result<FileProgress, Cause>
    requires { Counted p × (code.length ≤ 4096) }
    ensures { after_line result cells.new ≡ line_of code p cells.old line.now }
{
    let [s, t, digits @ ..] = line else {
        return Err(Cause::BadRecord);
    };
    let mut buffer = [0; 256];
    let Some(n) = decode(digits, &mut buffer) else {
        return Err(Cause::BadRecord);
    };
    judged(code, p, *s, *t, &buffer[..n], cells)
}
