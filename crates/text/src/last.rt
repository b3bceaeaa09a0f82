// The line that ends a trace: cycles and stack bytes, as used of what is certified, the lowest SP, and home. Where the
// budget did not cover the way, it stands in place of the certified cycles.
ghost use Rattle.std.specs.Prelude.{◌≡◌, ◌≤◌, length};
ghost use Rattle.lists.specs.Splice.{spliced};
ghost use Rattle.text.specs.Last.{totals_text, home_line, spent_line};

use crate::line::Line;
use crate::number::hex4;
use registers::{Cycles, StackBytes};

#[derive(Clone, Copy)]
pub struct Totals {
    pub cycles: Cycles,
    pub allowed: Cycles,
    pub stack: StackBytes,
    pub certified: StackBytes,
    pub lowest: u16,
    pub home: u16,
}

#[tactic(auto, unfolding(crate::specs::Last::totals_text))]
fn line(label: &[u8], t: Totals) -> Line
    requires { length label.now ≤ 32 }
    ensures { result ≡ totals_text label.now t }
{
    Line::empty()
        .with_pair(label, t.cycles.0, t.allowed.0)
        .with_pair(b" stack=", u32::from(t.stack.0), u32::from(t.certified.0))
        .with_named(b" lowest=", &hex4(t.lowest))
        .with_named(b" home=", &hex4(t.home))
        .with_text(b"\n")
}

// How many bytes the line has; it stands at the beginning of the output.
pub fn put_home(t: Totals, out: &mut [u8; 256]) -> usize
    ensures { (out.new ≡ spliced out.old 0 (home_line t)) × (result ≡ length (home_line t))
        × (result ≤ 256) }
{
    line(b"HOME cycles=", t).put(out)
}

pub fn put_spent(t: Totals, out: &mut [u8; 256]) -> usize
    ensures { (out.new ≡ spliced out.old 0 (spent_line t)) × (result ≡ length (spent_line t))
        × (result ≤ 256) }
{
    line(b"SPENT cycles=", t).put(out)
}
