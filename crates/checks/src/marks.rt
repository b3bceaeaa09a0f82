// The claim of the mark at an address.
ghost use Rattle.std.specs.Prelude.{◌≡◌};
ghost use Rattle.ticket.specs.Rules.{Rising};
ghost use Rattle.rules.specs.Marks.{claim_at};

use commands::command::Claim;
use ticket::fields::Mark;

pub fn claim_at(marks: &[Mark], a: u16) -> Option<Claim>
    requires { Rising marks.now }
    ensures { result ≡ claim_at marks.now a }
{
    match marks.binary_search_by_key(&a, |m| m.address) {
        Ok(i) => Some(marks[i].claim),
        Err(_) => None,
    }
}
