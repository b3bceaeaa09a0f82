// What is counted: lines by what comes of them, vectors by who confirmed them and by their place. An inner module of
// the reader of lines.
ghost use Rattle.std.specs.Prelude.{◌≡◌, ◌<◌, slice_index, slice_set};
ghost use Rattle.vectors.specs.Count.{next, none, confirmed_of, counted_of};

use crate::comparison::Comparison;

#[derive(Clone, Copy)]
pub struct Counts {
    pub vectors: u32,
    pub neither: u32,
    pub gnu: u32,
    pub mame: u32,
    pub both: u32,
    pub malformed: u32,
    pub differences: u32,
}

pub fn none() -> Counts
    ensures { result ≡ none }
{
    Counts {
        vectors: 0,
        neither: 0,
        gnu: 0,
        mame: 0,
        both: 0,
        malformed: 0,
        differences: 0,
    }
}

// A vector that GNU's simulator, MAME's or both confirmed in every field, or neither alone.
fn confirmed(c: Counts, kind: u8) -> Counts
    ensures { result ≡ confirmed_of c kind }
{
    let n = Counts {
        vectors: c.vectors.wrapping_add(1),
        ..c
    };
    match kind {
        0 => Counts {
            neither: n.neither.wrapping_add(1),
            ..n
        },
        1 => Counts {
            gnu: n.gnu.wrapping_add(1),
            ..n
        },
        2 => Counts {
            mame: n.mame.wrapping_add(1),
            ..n
        },
        _ => Counts {
            both: n.both.wrapping_add(1),
            ..n
        },
    }
}

// A line of a kind, with what comes of it.
pub fn counted(c: Counts, kind: u8, v: Comparison) -> Counts
    ensures { result ≡ counted_of c kind v }
{
    match v {
        Comparison::Malformed => Counts {
            malformed: c.malformed.wrapping_add(1),
            ..c
        },
        Comparison::Differs => {
            let n = confirmed(c, kind);
            Counts {
                differences: n.differences.wrapping_add(1),
                ..n
            }
        }
        Comparison::Agrees => confirmed(c, kind),
    }
}

// One vector more at a place.
pub fn note(places: &mut [u32; 1024], place: u16)
    requires { place < 1024 }
    ensures { places.new
        ≡ slice_set places.old place (next (slice_index places.old place)) }
{
    let i = place as usize;
    places[i] = places[i].wrapping_add(1);
}
