// The memory of the start.
ghost use Rattle.std.specs.Prelude.{◌≡◌};
ghost use Rattle.memory.specs.Memory.{applied};
ghost use Rattle.verdict.specs.Start.{last_of, image_stores, home_stores};

use commands::header::Window;
use memory::{Memory, put_byte};
use registers::word::{wrapping_add, wrapping_sub};

// A window's last address.
pub fn last_of(w: Window) -> u16
    ensures { result ≡ last_of w }
{
    wrapping_sub(wrapping_add(w.start, w.length), 1)
}

// The image's bytes, from an address on.
pub fn fill(from: u16, image: &[u8], memory: &mut Memory)
    ensures { memory.new ≡ applied (image_stores from image.now) memory.old }
{
    let mut at = from;
    for b in image {
        put_byte(memory, at, *b);
        at = wrapping_add(at, 1);
    }
}

// Home's two bytes: the high one below the low one, where RTS finds them.
pub fn store_home(top: u16, home: u16, memory: &mut Memory)
    ensures { memory.new ≡ applied (home_stores top home) memory.old }
{
    put_byte(memory, top, (home % 256) as u8);
    put_byte(memory, wrapping_sub(top, 1), (home / 256) as u8);
}
