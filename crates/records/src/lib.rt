// An inner crate: an image from an S-record file (document 02, a). `load_image` is what the verdict calls, with the
// code window of a ticket that was read.
#![tactic(auto)]

ghost use Rattle.std.specs.Prelude.{◌≡◌, ◌≤◌};
ghost use Rattle.records.specs.Load.{after_load, load_of};

use crate::cells::{blank, copy};
use crate::file::read_lines;
use answers::{Cause, Refusal, refuse};
use commands::header::Window;

pub mod progress; // how far a file is read
pub mod decode; // a line's digits as bytes
mod record; // a record's count, type and checksum
pub mod cells; // the image so far
pub mod line; // one line
mod file; // the lines, one by one

// Fills the buffer with the image that the file names. Until the whole file is good and the buffer's length is the code
// window's, the image is kept apart.
#[tactic(auto, using(crate::proofs::GoodNames::good_given), unfolding(crate::specs::Load::load_of))]
pub fn load_image(code: Window, file: &[u8], image: &mut [u8]) -> Result<(), Refusal>
    requires { code.length ≤ 4096 }
    ensures { after_load result image.new ≡ load_of code file.now image.old }
{
    let mut cells = blank();
    read_lines(code, file, &mut cells)?;
    let window = &cells[..code.length as usize];
    if image.len() != window.len() {
        return Err(refuse(Cause::BadImage, 0));
    }
    copy(window, image);
    Ok(())
}
