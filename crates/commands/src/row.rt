// The table of commands (document 01, "The ticket"): the stage of each, whether it is a window, and its operands with
// their widths and ranges, by its byte.
ghost use Rattle.std.specs.Prelude.{◌≡◌, ◌≤◌, ◌<◌, length};
ghost use Rattle.commands.specs.Rows.{command_rows, row_of};
ghost use Rattle.commands.specs.inner.Table.{code_row, code_size};

// A number of `width` bytes from `least` to `most`, or a text, each byte of which is $20 to $7E.
#[derive(Clone, Copy)]
pub struct TableOperand {
    pub width: usize,
    pub least: u64,
    pub most: u64,
    pub text: bool,
}

// A command has at most four operands; those that it lacks have no bytes.
#[derive(Clone, Copy)]
pub struct TableRow {
    pub stage: u8, // its place in the sequence of the header's commands
    pub window: Option<u16>, // of a window, whose start and length are its first two operands: its least start
    pub operands: [TableOperand; 4],
}

// The command bytes are those below it.
pub const COMMANDS: u8 = 8;

// How many commands a header has in full, and how many of them every header has.
pub const HEADER_COMMANDS: u8 = 5;

pub const REQUIRED_COMMANDS: u8 = 4;

const ABSENT: TableOperand = TableOperand {
    width: 0,
    least: 0,
    most: 0,
    text: false,
};

const ADDRESS: TableOperand = TableOperand {
    width: 2,
    most: u64::MAX,
    ..ABSENT
};

const CODE_LENGTH: TableOperand = TableOperand {
    least: 1,
    most: 4096,
    ..ADDRESS
};

const DATA_LENGTH: TableOperand = TableOperand {
    most: 8192,
    ..ADDRESS
};

const STACK_LENGTH: TableOperand = TableOperand {
    least: 2,
    most: 1024,
    ..ADDRESS
};

const LIMIT: TableOperand = TableOperand { least: 1, ..COST };

const COST: TableOperand = TableOperand {
    width: 4,
    most: 2000000,
    ..ABSENT
};

const STACK_BYTES: TableOperand = TableOperand {
    most: 1022,
    ..ADDRESS
};

const TEXT: TableOperand = TableOperand {
    width: 8,
    text: true,
    ..ADDRESS
};

#[rattlefmt::skip]
pub fn row_of(b: u8) -> TableRow
    requires { b < length command_rows }
    ensures { result ≡ code_row (row_of b) }
{
    match b {
        0x00 => TableRow { // end
            stage: HEADER_COMMANDS, window: None,
            operands: [ABSENT, ABSENT, ABSENT, ABSENT],
        },
        0x01 => TableRow { // code window
            stage: 0, window: Some(1),
            operands: [ADDRESS, CODE_LENGTH, ABSENT, ABSENT],
        },
        0x02 => TableRow { // data window
            stage: 1, window: Some(0),
            operands: [ADDRESS, DATA_LENGTH, ABSENT, ABSENT],
        },
        0x03 => TableRow { // stack window
            stage: 2, window: Some(1),
            operands: [ADDRESS, STACK_LENGTH, ABSENT, ABSENT],
        },
        0x04 => TableRow { // entry
            stage: 3, window: None,
            operands: [ADDRESS, LIMIT, ABSENT, ABSENT],
        },
        0x05 => TableRow { // mark
            stage: HEADER_COMMANDS, window: None,
            operands: [ADDRESS, COST, STACK_BYTES, STACK_BYTES],
        },
        0x06 => TableRow { // name
            stage: HEADER_COMMANDS, window: None,
            operands: [ADDRESS, TEXT, ABSENT, ABSENT],
        },
        _ => TableRow { // $07 home
            stage: REQUIRED_COMMANDS, window: None,
            operands: [ADDRESS, ABSENT, ABSENT, ABSENT],
        },
    }
}

// How many bytes the operands of a row have.
pub fn size(row: TableRow) -> usize
    requires { code_size row.operands ≤ 10 }
    ensures { result ≡ code_size row.operands }
{
    row.operands.iter().map(|o| o.width).sum()
}
