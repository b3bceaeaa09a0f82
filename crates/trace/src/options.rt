// What the arguments ask for.
use arguments::argument::{Argument, Setting, argument_in};
use registers::Data;
use std::env::{Env, FillError};

// `memory` is the number of the argument that names a file.
#[derive(Clone, Copy)]
pub struct Options {
    pub start: Data,
    pub budget: Option<u32>,
    pub memory: Option<usize>,
    pub summary: bool,
}

// All registers zero and the flags as after a reset; no budget but the certified cycles; a memory of zeros.
const NONE: Options = Options {
    start: Data {
        x: 0,
        y: 0,
        a: 0,
        b: 0,
        flags: 0xd0,
    },
    budget: None,
    memory: None,
    summary: false,
};

fn with_setting(o: Options, n: Setting, v: u32) -> Options {
    let byte = (v % 256) as u8;
    let word = (v % 65536) as u16;
    let start = match n {
        Setting::A => Data { a: byte, ..o.start },
        Setting::B => Data { b: byte, ..o.start },
        Setting::X => Data { x: word, ..o.start },
        Setting::Y => Data { y: word, ..o.start },
        Setting::Flags => Data {
            flags: byte,
            ..o.start
        },
        Setting::Budget => {
            return Options {
                budget: Some(v),
                ..o
            };
        }
    };
    Options { start, ..o }
}

// Argument number i. A later one of the same name counts. None where it says nothing.
fn with(o: Options, a: Argument, i: usize) -> Option<Options> {
    match a {
        Argument::Set(n, v) => Some(with_setting(o, n, v)),
        Argument::Memory => Some(Options {
            memory: Some(i),
            ..o
        }),
        Argument::Summary => Some(Options { summary: true, ..o }),
        Argument::Empty | Argument::BadValue(_) | Argument::NoFile | Argument::Unknown => None,
    }
}

// One that is longer than a path can be is read as an empty one. None where there is no argument of that number.
fn argument(rt: &impl Env, i: usize) -> Option<Argument> {
    let mut buf = [0u8; 4096];
    match rt.arg(i, &mut buf) {
        Ok(n) => Some(argument_in(&buf[..n])),
        Err(FillError::TooLong) => Some(Argument::Empty),
        Err(FillError::NotPresent) => None,
    }
}

// Or the number of the first argument that says nothing.
pub fn read(rt: &impl Env) -> Result<Options, usize> {
    let mut o = NONE;
    for i in 1..usize::MAX {
        let Some(a) = argument(rt, i) else {
            break;
        };
        o = with(o, a, i).ok_or(i)?;
    }
    Ok(o)
}
