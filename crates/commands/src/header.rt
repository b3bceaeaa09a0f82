// The header of a ticket: its three windows, its entry and its cycle limit (document 01, "The ticket", $01 to $04), and
// home (document 02, e, $07); what a command states of it, and the commands that state all of it.
ghost use Rattle.std.specs.Prelude.{◌≡◌};
ghost use Rattle.commands.specs.Header.{past_of, holds, header_with, header_commands};
ghost use Rattle.commands.specs.Every.{Every};
ghost use Rattle.commands.specs.Fits.{Fits};

use crate::command::{Command, HeaderCommand};
use registers::Cycles;

// The addresses from start on; one of length 0 holds none.
#[derive(Clone, Copy)]
pub struct Window {
    pub start: u16,
    pub length: u16,
}

// What $01 to $04 say, and $07: home is the address at which the routine ends, $0000 where a ticket does not say it.
#[derive(Clone, Copy)]
pub struct Header {
    pub code: Window,
    pub data: Window,
    pub stack: Window,
    pub entry: u16,
    pub limit: Cycles,
    pub home: u16,
}

impl Window {
    pub const EMPTY: Window = Window {
        start: 0,
        length: 0,
    };
}

impl Header {
    pub const BLANK: Header = Header {
        code: Window::EMPTY,
        data: Window::EMPTY,
        stack: Window::EMPTY,
        entry: 0,
        limit: Cycles(0),
        home: 0,
    };
}

// The first address past a window. It is more than 65,536 where the window runs past $FFFF.
// This and `holds` are no methods: what other crates promise speaks of the two words.
pub fn past(w: Window) -> u32
    ensures { result ≡ past_of w }
{
    (w.start as u32) + (w.length as u32)
}

// An address lies in a window.
pub fn holds(w: Window, a: u16) -> bool
    ensures { result ≡ holds w a }
{
    (w.start <= a) & ((a as u32) < past(w))
}

// With one command more.
pub fn header_with(h: Header, c: HeaderCommand) -> Header
    ensures { result ≡ header_with h c }
{
    match c {
        HeaderCommand::Code(code) => Header { code, ..h },
        HeaderCommand::Data(data) => Header { data, ..h },
        HeaderCommand::Stack(stack) => Header { stack, ..h },
        HeaderCommand::Entry(entry, limit) => Header { entry, limit, ..h },
        HeaderCommand::Home(home) => Header { home, ..h },
    }
}

// The commands that state a header, in their order.
pub fn header_commands(h: Header) -> [Command; 5]
    ensures { (result ≡ header_commands h) × Every Fits result }
{
    [
        Command::Header(HeaderCommand::Code(h.code)),
        Command::Header(HeaderCommand::Data(h.data)),
        Command::Header(HeaderCommand::Stack(h.stack)),
        Command::Header(HeaderCommand::Entry(h.entry, h.limit)),
        Command::Header(HeaderCommand::Home(h.home)),
    ]
}
