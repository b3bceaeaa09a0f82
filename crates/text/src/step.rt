// The line of an instruction: what it is, the registers after it, the cycles so far, and what its mark claims beside
// what was used.
ghost use Rattle.std.specs.Prelude.{◌≡◌, ◌++◌, ◌+◌, ◌≤◌, length};
ghost use Rattle.lists.specs.Splice.{spliced};
ghost use Rattle.text.specs.Step.{claims_text, step_line};

use crate::line::Line;
use crate::listing::Listing;
use commands::command::Claim;
use registers::{Cycles, Registers};

// `after` are the registers afterwards, `cycles` those spent so far, this instruction's included.
#[derive(Clone, Copy)]
pub struct Traced {
    pub address: u16,
    pub listing: Listing,
    pub after: Registers,
    pub cycles: Cycles,
    pub used: Claim,
    pub claim: Claim,
}

impl Line {
    // Cost, depth and need, each as used of what is claimed.
    #[tactic(auto, unfolding(crate::specs::Step::claims_text))]
    fn with_claims(self, used: Claim, claim: Claim) -> Line
        requires { length self + 82 ≤ 256 }
        ensures { (result ≡ self ++ claims_text used claim) × (length result ≤ length self + 82) }
    {
        self.with_pair(b" cost=", used.cost.0, claim.cost.0)
            .with_pair(
                b" depth=",
                u32::from(used.depth.0),
                u32::from(claim.depth.0),
            )
            .with_pair(b" need=", u32::from(used.need.0), u32::from(claim.need.0))
    }
}

#[tactic(auto, unfolding(crate::specs::Step::step_line))]
fn line(t: Traced) -> Line
    ensures { result ≡ step_line t }
{
    Line::empty()
        .with_listing(t.address, t.listing)
        .with_registers(t.after)
        .with_field(b" cycles=", t.cycles.0)
        .with_claims(t.used, t.claim)
        .with_text(b"\n")
}

// How many bytes the line has; it stands at the beginning of the output.
pub fn put_step(t: Traced, out: &mut [u8; 256]) -> usize
    ensures { (out.new ≡ spliced out.old 0 (step_line t)) × (result ≡ length (step_line t))
        × (result ≤ 256) }
{
    line(t).put(out)
}
