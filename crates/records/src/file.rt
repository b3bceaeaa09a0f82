// The lines of a file, one by one. An inner module of `load_image`.
ghost use Rattle.std.specs.Prelude.{◌≡◌, ◌≤◌, ◌<◌, length};
ghost use Rattle.ticket.specs.Read.{refusal};
ghost use Rattle.records.specs.Read.{blank_cells, line_number, file_of};
ghost use Rattle.records.specs.inner.Decoded.{line_length, after_lines};

use crate::cells::{Cells, all_given};
use crate::line::judge;
use crate::progress::FileProgress;
use answers::{Cause, Refusal, refuse};
use commands::header::Window;

// How many bytes the first line has, its LF included; the last may have none.
fn line_length(s: &[u8]) -> usize
    ensures { (result ≡ line_length s.now) × (result ≤ length s.now) }
{
    match s.iter().position(|b| *b == b'\n') {
        Some(i) => i + 1,
        None => s.len(),
    }
}

// A cause at the line after those so far, counted from 1.
fn refused_at(cause: Cause, p: FileProgress) -> Refusal
    requires { p.lines < 18446744073709551615 }
    ensures { result ≡ refusal cause (line_number p) }
{
    refuse(cause, ((p.lines + 1) % 4294967296) as u32)
}

#[tactic(auto, using(crate::proofs::Course::begins, crate::proofs::Course::stops, crate::proofs::Course::unended, crate::proofs::Course::ungiven, crate::proofs::Course::given))]
pub fn read_lines(code: Window, file: &[u8], cells: &mut Cells) -> Result<(), Refusal>
    requires { (code.length ≤ 4096) × (cells.old ≡ blank_cells) }
    ensures { after_lines code result cells.new ≡ file_of code file.now }
{
    // no Default: the must-fail edit s5_off_by_one counts from another number here
    let mut p = FileProgress {
        lines: 0,
        s1: 0,
        ended: false,
    };
    let mut rest = file;
    while !rest.is_empty() {
        let (line, others) = rest.split_at(line_length(rest));
        p = judge(code, p, line, cells).map_err(|cause| refused_at(cause, p))?;
        rest = others;
    }
    if !p.ended {
        return Err(refused_at(Cause::BadRecord, p));
    }
    if !all_given(&cells[..code.length as usize]) {
        return Err(refuse(Cause::BadAddress, 0));
    }
    Ok(())
}
