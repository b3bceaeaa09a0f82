// What the writer makes of a ticket that was read, without it: no names, and home always.
use crate::build::written;
use std::io;
use std::io::Write;

// Whether $07 follows the 22 bytes of the commands up to the entry.
pub fn has_home(bytes: &[u8]) -> bool {
    matches!(bytes.get(22), Some(7))
}

// After the commands up to home, marks and names have 11 bytes each, and the end has one.
fn put_unnamed(out: &mut impl Write, bytes: &[u8]) -> io::Result<()> {
    let marks = if has_home(bytes) { 25 } else { 22 };
    let Some((header, commands)) = bytes.split_at_checked(marks) else {
        return Ok(());
    };
    out.write_all(header)?;
    for command in commands.chunks(11) {
        if !command.starts_with(b"\x06") {
            out.write_all(command)?;
        }
    }
    Ok(())
}

// A ticket without its names, put at the beginning of a space.
pub fn without_names<'a>(bytes: &[u8], space: &'a mut [u8]) -> &'a [u8] {
    let mut out = &mut *space;
    let _ = put_unnamed(&mut out, bytes);
    let left = out.len();
    written(space, left)
}

fn put_with_home(out: &mut impl Write, bytes: &[u8]) -> io::Result<()> {
    let Some((header, commands)) = bytes.split_at_checked(22) else {
        return Ok(());
    };
    out.write_all(header)?;
    out.write_all(b"\x07\x00\x00")?;
    out.write_all(commands)
}

// A ticket without $07, and $07 with $0000 put where it belongs, at the beginning of a space.
pub fn with_home<'a>(bytes: &[u8], space: &'a mut [u8]) -> &'a [u8] {
    let mut out = &mut *space;
    let _ = put_with_home(&mut out, bytes);
    let left = out.len();
    written(space, left)
}
