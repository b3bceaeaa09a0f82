// What an argument says: NAME=VALUE, registers in hexadecimal and the budget in decimal; or a word alone.
ghost use Rattle.std.specs.Prelude.{◌≡◌, ◌≤◌};
ghost use Rattle.arguments.specs.Argument.{setting_of, setting_in, other_of, argument_of};

use crate::number::number;

#[derive(Clone, Copy)]
pub enum Setting {
    A,
    B,
    X,
    Y,
    Flags,
    Budget,
}

#[derive(Clone, Copy)]
pub enum Argument {
    Set(Setting, u32),
    // the name of a file, after `memory=`
    Memory,
    Summary,
    // those that say nothing, and why
    Empty,
    BadValue(Setting),
    NoFile,
    Unknown,
}

fn set_to(n: Setting, value: Option<u32>) -> Argument
    ensures { result ≡ setting_of n value }
{
    match value {
        Some(v) => Argument::Set(n, v),
        None => Argument::BadValue(n),
    }
}

// The setting of a name, where a text begins with it.
#[tactic(auto, using(crate::proofs::Begins::begins), unfolding(crate::specs::Argument::setting_in))]
fn read_setting(s: &[u8], name: &[u8], n: Setting, base: u32, most: u32) -> Option<Argument>
    requires { base ≤ 16 }
    ensures { result ≡ setting_in name.now n base most s.now }
{
    let value = s.strip_prefix(name)?;
    Some(set_to(n, number(value, base, most)))
}

// A file's name is not empty.
#[tactic(auto, using(crate::proofs::Begins::begins, crate::proofs::Begins::equals), unfolding(crate::specs::Argument::other_of))]
fn other(s: &[u8]) -> Argument
    ensures { result ≡ other_of s.now }
{
    if s.is_empty() {
        return Argument::Empty;
    }
    if let Some(name) = s.strip_prefix(b"memory=") {
        return if name.is_empty() {
            Argument::NoFile
        } else {
            Argument::Memory
        };
    }
    if s == b"summary".as_slice() {
        return Argument::Summary;
    }
    Argument::Unknown
}

#[tactic(auto, unfolding(crate::specs::Argument::argument_of, crate::specs::Argument::setting_in))]
pub fn argument_in(s: &[u8]) -> Argument
    ensures { result ≡ argument_of s.now }
{
    read_setting(s, b"a=", Setting::A, 16, 255)
        .or_else(|| read_setting(s, b"b=", Setting::B, 16, 255))
        .or_else(|| read_setting(s, b"x=", Setting::X, 16, 65535))
        .or_else(|| read_setting(s, b"y=", Setting::Y, 16, 65535))
        .or_else(|| read_setting(s, b"flags=", Setting::Flags, 16, 255))
        .or_else(|| read_setting(s, b"budget=", Setting::Budget, 10, 4294967295))
        .unwrap_or_else(|| other(s))
}
