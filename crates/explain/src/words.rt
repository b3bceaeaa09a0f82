// The words of docs/REFUSALS.md, to the letter: tests/refusals compares them.
use answers::Cause;

// What a cause says.
pub fn words(cause: Cause) -> &'static [u8] {
    match cause {
        Cause::UnknownCommand => b"no command has this byte",
        Cause::TicketCut =>
            b"the ticket ends where a command should stand, or inside a command's operands",
        Cause::OutOfOrder => b"the command is out of order or repeated",
        Cause::OutOfRange => b"an operand is outside its range",
        Cause::WindowEdge => b"a window runs past $FFFF, or code or stack starts at $0000",
        Cause::WindowsShare => b"a window shares an address with an earlier one",
        Cause::MarkOutside => b"a mark lies outside the code window",
        Cause::AfterEnd => b"bytes stand after the end",
        Cause::BadImage => b"the image's length is not the code window's",
        Cause::BadMark => b"no instruction has these bytes, or it leaves the code window",
        Cause::KeptOut =>
            b"the instruction is kept out: an indexed store, read-modify-write, CLR, BSET, BCLR, JMP or JSR; LDS, TXS, TYS; RTI, SWI, WAI, STOP, TEST",
        Cause::WritesOutside => b"a write outside the data window",
        Cause::BadPull => b"it pulls more than the depth, or is RTS at a depth other than 0",
        Cause::NotMarked =>
            b"an address that can come next is not marked: the following one, or the target of a branch, a jump or a call",
        Cause::DepthsDisagree =>
            b"depths disagree: at a successor it is depth + pushed - pulled; 0 where a call leads; the same after a call",
        Cause::CostTooLow =>
            b"the cost is too low: cycles and the successor's cost; for a call both costs; 5 for RTS",
        Cause::NeedTooLow =>
            b"the need is too low: pushed - pulled + the successor's need; for a call 2 + the target's need, and the following one's",
        Cause::BadEntry => b"the entry is not marked, or its depth is not 0",
        Cause::OverLimit => b"the entry's cost is above the limit",
        Cause::StackTooSmall => b"the entry's need + 2 is above the stack window's length",
        Cause::BadRecord =>
            b"the line is malformed: no S0, S1, S5 or S9 with a count from 3 on, exactly the digits that it says and a line feed; an S5 or S9 with data; an S5 that does not count the S1 lines before it; a line after S9; or S9 is missing",
        Cause::BadChecksum => b"the line's checksum is wrong",
        Cause::BadAddress => b"a byte is outside the code window, given twice or never given",
        Cause::BadHome => b"home lies inside the code window",
        Cause::BadLength | Cause::NoInstruction | Cause::Waits | Cause::OutputTooSmall => b"",
    }
}

// What to do about it.
pub fn to_do(cause: Cause) -> &'static [u8] {
    match cause {
        Cause::UnknownCommand =>
            b"put a command's byte, $00 to $07, here; where it looks like an operand, count the bytes of the command before it",
        Cause::TicketCut =>
            b"add what is missing, the end ($00) or the command's last bytes; see whether the file was cut",
        Cause::OutOfOrder =>
            b"put $01 to $04 first, once each and in this order; home ($07), where the ticket says it, once and at once after the entry; then the marks in rising address, none twice; then the end; a name ($06), which only old tickets have, once and at once after its mark, with its address, or take it out",
        Cause::OutOfRange =>
            b"keep to the ranges: length of code 1 to 4,096, of data 0 to 8,192, of stack 2 to 1,024; limit 1 to 2,000,000; cost up to 2,000,000; depth and need up to 1,022; each byte of an old ticket's name ($06) $20 to $7E, or take the name out",
        Cause::WindowEdge =>
            b"keep start + length at or below 65,536, and start code and stack at $0001 or above",
        Cause::WindowsShare => b"move or shorten one of them; a data window of 0 bytes shares none",
        Cause::MarkOutside => b"correct the mark's address, or the code window's start or length",
        Cause::AfterEnd =>
            b"remove them; see whether two tickets were joined, or the file was padded",
        Cause::BadImage =>
            b"hand over the image that belongs to this ticket or slot; where the routine has changed, correct the code window's length and count again",
        Cause::BadMark =>
            b"mark an address only where an instruction begins, and have all its bytes in the code window",
        Cause::KeptOut =>
            b"write, jump and call with a direct or extended address; leave SP to pushes, pulls, DES and INS; return with RTS",
        Cause::WritesOutside =>
            b"store inside the data window, a 16-bit store with both its bytes; or make the window longer",
        Cause::BadPull =>
            b"let each path pull what it pushed, no more and no less, before RTS; where it does, correct the depth",
        Cause::NotMarked =>
            b"mark it; where it lies outside the code window, go elsewhere or return",
        Cause::DepthsDisagree =>
            b"correct the depth here or there; two paths that meet must have pushed as much",
        Cause::CostTooLow =>
            b"raise the cost to the dearest path's; a loop has no cost that is high enough",
        Cause::NeedTooLow => b"raise the need to the deepest path's",
        Cause::BadEntry => b"mark the entry with depth 0, or correct the entry's address",
        Cause::OverLimit =>
            b"lower the cost where it is more than the dearest path's; else shorten that path, or ask for a higher limit",
        Cause::StackTooSmall =>
            b"make the stack window longer, or push less; two of its bytes are home's",
        Cause::BadRecord =>
            b"have the file written with addresses of 16 bits and S9 last, and add nothing to it: no blank, no empty line; see whether it was cut",
        Cause::BadChecksum =>
            b"have the file written again; see whether a line was changed by hand",
        Cause::BadAddress =>
            b"give each byte of the code window once and no other: leave out what is not the routine's code, fill gaps, or correct the code window's start or length",
        Cause::BadHome =>
            b"give an address outside the code window, or leave home ($07) out of the ticket for $0000",
        Cause::BadLength | Cause::NoInstruction | Cause::Waits | Cause::OutputTooSmall => b"",
    }
}
