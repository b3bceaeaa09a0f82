// An inner crate: the marks of a ticket by address, for the desk stepper.
#![tactic(auto)]

ghost use Rattle.std.specs.Prelude.{◌≡◌, ◌<◌, ◌==◌, IfSome, get_or, position, take};
ghost use Rattle.std.specs.Option.{option_map};
ghost use Rattle.ticket.specs.Fields.{blank_mark};

use commands::command::Claim;
use ticket::fields::Ticket;

// Where the mark of an address stands. It is searched from the first on, as nothing says of any ticket that its marks
// rise.
pub fn index_of(t: &Ticket, a: u16) -> Option<usize>
    ensures first { result ≡ position (λ m. m.address == a) (take t.now.count t.now.marks) }
    ensures found { IfSome result (λ i. (i < 4096)
        × ((get_or t.now.marks i blank_mark).address ≡ a)) }
{
    t.marks
        .iter()
        .take(t.count as usize)
        .position(|m| m.address == a)
}

// What it claims: at every instruction of an accepted routine there is a mark.
pub fn claim_at(t: &Ticket, a: u16) -> Option<Claim>
    ensures { result ≡ option_map (λ i. (get_or t.now.marks i blank_mark).claim)
        (position (λ m. m.address == a) (take t.now.count t.now.marks)) }
{
    let i = index_of(t, a)?;
    Some(t.marks[i].claim)
}
