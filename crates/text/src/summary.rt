// A line for each address: how often it was executed, the least and the most cycles to go that were seen there, and the
// lowest SP after it, beside the cost that its mark claims.
ghost use Rattle.std.specs.Prelude.{◌≡◌, ◌++◌, ◌+◌, ◌≤◌, ◌<◌, length};
ghost use Rattle.lists.specs.Splice.{spliced};
ghost use Rattle.text.specs.Summary.{visited_of, visits_text, summary_line};

use crate::line::Line;
use crate::listing::Listing;
use crate::number::hex4;
use registers::Cycles;

// How often, the least and the most cycles until the routine's own return, and the lowest SP after it.
#[derive(Clone, Copy)]
pub struct Visits {
    pub times: u32,
    pub least: u32,
    pub most: u32,
    pub lowest: u16,
}

impl Visits {
    // None yet. No Option: how often is printed of every address.
    pub const NONE: Visits = Visits {
        times: 0,
        least: 0,
        most: 0,
        lowest: 0,
    };

    // One more.
    pub fn with(self, go: Cycles, sp: u16) -> Visits
        requires { self.times < 4294967295 }
        ensures { result ≡ visited_of self go.0 sp }
    {
        if self.times == 0 {
            return Visits {
                times: 1,
                least: go.0,
                most: go.0,
                lowest: sp,
            };
        }
        Visits {
            times: self.times + 1,
            least: self.least.min(go.0),
            most: self.most.max(go.0),
            lowest: self.lowest.min(sp),
        }
    }
}

impl Line {
    // Where it was never executed there is nothing more to say.
    #[tactic(auto, unfolding(crate::specs::Summary::visits_text))]
    fn with_visits(self, v: Visits) -> Line
        requires { length self + 62 ≤ 256 }
        ensures { (result ≡ self ++ visits_text v) × (length result ≤ length self + 62) }
    {
        let line = self.with_field(b" times=", v.times);
        if v.times == 0 {
            return line;
        }
        line.with_field(b" least=", v.least)
            .with_field(b" most=", v.most)
            .with_named(b" lowest=", &hex4(v.lowest))
    }
}

#[tactic(auto, unfolding(crate::specs::Summary::summary_line))]
fn line(address: u16, t: Listing, v: Visits, cost: Cycles) -> Line
    ensures { result ≡ summary_line address t v cost.0 }
{
    Line::empty()
        .with_listing(address, t)
        .with_visits(v)
        .with_field(b" cost=", cost.0)
        .with_text(b"\n")
}

// How many bytes the line has; it stands at the beginning of the output.
pub fn put_summary(address: u16, t: Listing, v: Visits, cost: Cycles, out: &mut [u8; 256]) -> usize
    ensures { (out.new ≡ spliced out.old 0 (summary_line address t v cost.0))
        × (result ≡ length (summary_line address t v cost.0)) × (result ≤ 256) }
{
    line(address, t, v, cost).put(out)
}
