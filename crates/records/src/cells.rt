// The image so far: a number for each byte of the code window, 256 where none is given. An inner module of the file's
// reading.
ghost use Rattle.std.specs.Prelude.{◌≡◌, true, ◌≤◌, ◌<◌, length};
ghost use Rattle.records.specs.Record.{given_from};
ghost use Rattle.records.specs.Read.{blank_cells, enter, all_given};
ghost use Rattle.records.specs.inner.Decoded.{entered};

use commands::header::Window;

// As many as a code window has bytes at most. Numbers and not options of bytes, as the definitions `blank_cells` and
// `all_given` are over numbers.
pub type Cells = [u16; 4096];

// None is given yet.
pub fn blank() -> Cells
    ensures { result ≡ blank_cells }
{
    [256; 4096]
}

// The bytes of an S1 line. Whether each lies in the code window and was not given before.
#[tactic(auto, using(crate::proofs::Enter::below, crate::proofs::Enter::above, crate::proofs::Enter::twice, crate::proofs::Enter::entered_byte), unfolding(crate::specs::Read::enter))]
pub fn enter(code: Window, address: usize, data: &[u8], cells: &mut Cells) -> bool
    requires { (code.length ≤ 4096) × (address < 65536) × (length «data».now ≤ 256) }
    ensures { entered result cells.new ≡ enter code cells.old (given_from address «data».now) }
{
    let start = code.start as usize;
    let past = start + (code.length as usize);
    for (i, byte) in data.iter().enumerate() {
        let a = address + i;
        if a < start || past <= a {
            return false;
        }
        let j = a - start;
        if cells[j] < 256 {
            return false;
        }
        cells[j] = u16::from(*byte);
    }
    true
}

pub fn all_given(cells: &[u16]) -> bool
    ensures { result ≡ all_given cells.now }
{
    cells.iter().all(|c| *c < 256)
}

// The image, when each of its bytes is given.
#[tactic(auto, using(crate::proofs::AllGiven::given_byte))]
pub fn copy(cells: &[u16], image: &mut [u8])
    requires { (length cells.now ≡ length image.old) × (all_given cells.now ≡ true) }
    ensures { image.new ≡ cells.now }
{
    // no `zip`: a loop's invariant names nothing behind its `iter_mut`
    for (i, byte) in image.iter_mut().enumerate() {
        *byte = cells[i] as u8;
    }
}
