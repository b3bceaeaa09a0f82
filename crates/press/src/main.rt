// The checking program: reads press.bin, or press.s19 where there is none, and press.tkt from the folder it is run in
// and prints the verdict as one line (document 01, "One routine, read aloud"; document 02, a).
#![tactic(auto)]

use answers::Verdict;
use files::routine::{load_routine, room};
use output::text;
use text::verdict::put_verdict;
use verdict::{verdict, verdict_of_records};

fn judge_records(ticket: &[u8], file: &[u8]) -> Verdict {
    let mut image = [0u8; 65536];
    let n = room(ticket, &image);
    verdict_of_records(ticket, file, &mut image[..n])
}

fn print(rt: &impl Print, v: Verdict) {
    let mut line = [0u8; 64];
    let n = put_verdict(v, &mut line);
    text(rt, &line[..n]);
}

fn main(rt: HostRuntime) {
    let mut first = [0u8; 65536];
    let mut ticket = [0u8; 65536];
    let Some(r) = load_routine(&rt, &mut first, &mut ticket) else {
        return;
    };
    let first = &first[..r.first];
    let ticket = &ticket[..r.ticket];
    let v = if r.records {
        judge_records(ticket, first)
    } else {
        verdict(ticket, first)
    };
    print(&rt, v);
}
