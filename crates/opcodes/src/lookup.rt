// The place of an instruction in the opcode maps, by its first two bytes; and what the tables have at a place.
ghost use Rattle.std.specs.Prelude.{◌≡◌, ◌<◌, ◌≤◌, IfSome};
ghost use Rattle.opcodes.specs.Tables.{cost_at, action_at, mode_at};
ghost use Rattle.opcodes.specs.inner.Numbers.{action_of, mode_of};
ghost use Rattle.opcodes.specs.Decode.{page_of};
ghost use Rattle.opcodes.specs.inner.Lookup.{entry_of, found_of};

use crate::table::{actions, costs, modes};

// An instruction's place in the maps, how many bytes its opcode has, and its entry in the table of costs. Each has the
// width that the loop of the stepper takes it in: an index, a part of an address, a count of cycles.
#[derive(Clone, Copy)]
pub struct Found {
    pub place: usize,
    pub size: u16,
    pub cost: u32,
}

// 256 times the map that a first byte leads to: 0 for the first, so no Option.
#[tactic(auto, unfolding(crate::specs::Decode::page_of))]
pub fn page_of(op: u8) -> u16
    ensures { (result ≡ page_of op) × (result ≤ 768) }
{
    match op {
        0x18 => 256,
        0x1a => 512,
        0xcd => 768,
        _ => 0,
    }
}

// What the table has at a place, after an opcode of so many bytes.
#[tactic(auto, unfolding(crate::specs::inner::Lookup::entry_of, crate::specs::Tables::cost_at))]
fn entry_at(place: usize, size: u16) -> Option<Found>
    requires { place < 1024 }
    ensures { result ≡ entry_of place size }
{
    match costs()[place] as u32 {
        0 => None,
        cost => Some(Found { place, size, cost }),
    }
}

// Only where the first map has nothing is the first byte looked at again: it may lead to another map.
pub fn found_of(first: u8, second: u8) -> Option<Found>
    ensures found { result ≡ found_of first second }
    ensures in_tables { IfSome result (λ f. (f.place < 1024) × (f.size ≤ 2) × (f.cost < 65536)
        × (f.cost ≡ cost_at f.place)) }
{
    if let Some(found) = entry_at(first as usize, 1) {
        return Some(found);
    }
    match page_of(first) {
        0 => None,
        page => entry_at((page + (second as u16)) as usize, 2),
    }
}

// The number of the action of a place.
#[tactic(auto, unfolding(crate::specs::Tables::action_at), using(crate::proofs::Lent::lent))]
pub fn number_at(place: usize) -> u8
    requires { place < 1024 }
    ensures { action_of result ≡ action_at place }
{
    actions()[place]
}

#[tactic(auto, unfolding(crate::specs::Tables::mode_at), using(crate::proofs::Lent::lent))]
pub fn mode_number_at(place: usize) -> u8
    requires { place < 1024 }
    ensures { mode_of result ≡ mode_at place }
{
    modes()[place]
}
