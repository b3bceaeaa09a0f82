// The line of an instruction that is not executed: what it is, and what its mark claims of it.
ghost use Rattle.std.specs.Prelude.{◌≡◌, ◌++◌, ◌+◌, ◌≤◌, length};
ghost use Rattle.lists.specs.Splice.{spliced};
ghost use Rattle.text.specs.Place.{marking_text, place_line};

use crate::line::Line;
use crate::listing::Listing;
use commands::command::Claim;

impl Line {
    // Cost, depth and need, as claimed; none where an address has no mark.
    #[tactic(auto, unfolding(crate::specs::Place::marking_text))]
    fn with_marking(self, claim: Option<Claim>) -> Line
        requires { length self + 49 ≤ 256 }
        ensures { (result ≡ self ++ marking_text claim) × (length result ≤ length self + 49) }
    {
        match claim {
            Some(c) => self
                .with_field(b" cost=", c.cost.0)
                .with_field(b" depth=", u32::from(c.depth.0))
                .with_field(b" need=", u32::from(c.need.0)),
            None => self.with_text(b" not marked"),
        }
    }
}

#[tactic(auto, unfolding(crate::specs::Place::place_line))]
fn line(address: u16, t: Listing, claim: Option<Claim>) -> Line
    ensures { result ≡ place_line address t claim }
{
    Line::empty()
        .with_listing(address, t)
        .with_marking(claim)
        .with_text(b"\n")
}

// How many bytes the line has; it stands at the beginning of the output.
pub fn put_place(address: u16, t: Listing, claim: Option<Claim>, out: &mut [u8; 256]) -> usize
    ensures { (out.new ≡ spliced out.old 0 (place_line address t claim))
        × (result ≡ length (place_line address t claim)) × (result ≤ 256) }
{
    line(address, t, claim).put(out)
}
