// The stepper's demonstration: the documents' cases that a stepper answers, and bad input, each with what is answered.
#![tactic(auto)]

mod print; // answers as text
mod documented; // the documents' cases
mod bad; // memories of other lengths, empty places, and instructions that wrap

fn main(rt: HostRuntime) {
    documented::cases(&rt);
    documented::lowest(&rt);
    documented::homes(&rt);
    bad::lengths(&rt);
    bad::places(&rt);
    bad::wraps(&rt);
}
