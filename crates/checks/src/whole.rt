// Document 01's causes 18 to 20, and acceptance.
ghost use Rattle.std.specs.Prelude.{◌≡◌};
ghost use Rattle.checks.specs.inner.Whole.{whole_of};

use answers::{Acceptance, Cause, Verdict, refuse};
use commands::command::Claim;
use commands::header::Header;
use registers::StackBytes;

// By the claim at the entry.
pub fn whole(h: Header, a: Option<Claim>) -> Verdict
    ensures { result ≡ whole_of h a }
{
    let entry = h.entry as u32;
    let Some(c) = a else {
        return Err(refuse(Cause::BadEntry, entry));
    };
    if c.depth.0 != 0 {
        return Err(refuse(Cause::BadEntry, entry));
    }
    if h.limit.0 < c.cost.0 {
        return Err(refuse(Cause::OverLimit, entry));
    }
    if (h.stack.length as u32) < (c.need.0 as u32) + 2 {
        return Err(refuse(Cause::StackTooSmall, entry));
    }
    Ok(Acceptance {
        entry: h.entry,
        cost: c.cost,
        stack: StackBytes(c.need.0 + 2),
    })
}
