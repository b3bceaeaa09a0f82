// An argument that says nothing: which one and why, on standard error.
use arguments::argument::{Argument, Setting, argument_in};
use output::text;
use std::env::{Env, FillError};

fn needed(n: Setting) -> &'static [u8] {
    match n {
        Setting::A => b"a must be a hexadecimal number from 0 to FF",
        Setting::B => b"b must be a hexadecimal number from 0 to FF",
        Setting::X => b"x must be a hexadecimal number from 0 to FFFF",
        Setting::Y => b"y must be a hexadecimal number from 0 to FFFF",
        Setting::Flags => b"flags must be a hexadecimal number from 0 to FF",
        Setting::Budget => b"budget must be a decimal number from 0 to 4294967295",
    }
}

fn why(a: Argument) -> &'static [u8] {
    match a {
        Argument::Empty => b"empty",
        Argument::BadValue(n) => needed(n),
        Argument::NoFile => b"memory must name a file",
        Argument::Unknown => b"not known",
        Argument::Set(_, _) | Argument::Memory | Argument::Summary => b"",
    }
}

// Of an argument that is longer than the buffer, which holds its first bytes.
fn too_long(err: &impl Print, buf: &[u8; 4096]) {
    text(err, b"trace: argument '");
    text(err, &buf[..32]);
    text(err, b"..': longer than 4,096 bytes\n");
}

fn one(err: &impl Print, s: &[u8]) {
    text(err, b"trace: argument '");
    text(err, s);
    text(err, b"': ");
    text(err, why(argument_in(s)));
    text(err, b"\n");
}

// Argument number i.
pub fn say_why(rt: &impl Env, err: &impl Print, i: usize) {
    let mut buf = [0u8; 4096];
    match rt.arg(i, &mut buf) {
        Ok(n) => one(err, &buf[..n]),
        Err(FillError::TooLong) => too_long(err, &buf),
        Err(FillError::NotPresent) => one(err, b""),
    }
}
