// The lines of a file, read in pieces.
ghost use Rattle.std.specs.Prelude.{◌≡◌, ◌≤◌, ◌≢◌};

use crate::compare::step_agrees;
use crate::comparison::Comparison;
use crate::count::{Counts, counted, none, note};
use crate::hex::hex_byte_in;
use crate::line::line_in;
use crate::loaded::opcode_place_in;
use crate::report::difference;
use output::text;
use std::io::Read;

// What is read of the last line, which at most 256 bytes are kept of, what is counted of the lines before it, and how
// many vectors each place has.
#[derive(Clone, Copy)]
pub struct Reader {
    buffer: [u8; 256],
    filled: usize,
    pub counts: Counts,
    pub places: [u32; 1024],
    ghost fits: { filled ≤ 256 },
}

impl Reader {
    ghost use Rattle.vectors.specs.Text.{Counted, held, Next, ReadsLines};

    fn new() -> Reader {
        Reader {
            buffer: [0; 256],
            filled: 0,
            counts: none(),
            places: [0; 1024],
        }
    }

    // A byte of a line goes to the buffer, where there is room.
    fn keep(&mut self, b: u8)
        requires { b ≢ 10 }
        ensures { Next b (held self.old) (held self.new) }
    {
        let n = self.filled;
        if n < 256 {
            self.buffer[n] = b;
            self.filled = n + 1;
        }
    }

    // A line is compared and counted; of the first ten that differ it is said how.
    fn line(&mut self, rt: &impl Print, s: &[u8])
        ensures { Counted s.now self.old.counts self.new.counts }
    {
        let c = self.counts;
        let Some(l) = line_in(s) else {
            self.counts = counted(c, 0, Comparison::Malformed);
            return;
        };
        note(&mut self.places, opcode_place_in(l));
        let kind = hex_byte_in(s, 0);
        if step_agrees(l) {
            self.counts = counted(c, kind, Comparison::Agrees);
            return;
        }
        if c.differences < 10 {
            difference(rt, c.vectors.wrapping_add(c.malformed).wrapping_add(1), l);
        }
        self.counts = counted(c, kind, Comparison::Differs);
    }

    fn byte(&mut self, rt: &impl Print, b: u8)
        ensures { Next b (held self.old) (held self.new) }
    {
        if b != b'\n' {
            self.keep(b);
            return;
        }
        let buffer = self.buffer;
        self.line(rt, &buffer[..self.filled]);
        self.filled = 0;
    }

    // A piece of the text.
    fn piece(&mut self, rt: &impl Print, s: &[u8])
        ensures { ReadsLines s.now (held self.old) (held self.new) }
    {
        for b in s {
            self.byte(rt, *b);
        }
    }

    // A last line that does not end in a line feed is malformed.
    fn end(&mut self) {
        if self.filled != 0 {
            self.counts = counted(self.counts, 0, Comparison::Malformed);
        }
    }
}

// Nothing says that a file ends, so the turns are counted, up to a number that no run uses up.
pub fn read_all(rt: &impl Print, file: &mut impl Read) -> Reader {
    let mut reader = Reader::new();
    let mut space = [0u8; 65536];
    for _ in 0..u64::MAX {
        match file.read(&mut space) {
            Ok(0) => break,
            Ok(n) => reader.piece(rt, &space[..n]),
            Err(_) => {
                text(rt, b"vectors.txt: CANNOT BE READ TO ITS END\n");
                break;
            }
        }
    }
    reader.end();
    reader
}
