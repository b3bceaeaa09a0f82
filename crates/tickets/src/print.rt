// Answers as text.
use answers::Refusal;
use output::{decimal, text};

// Document 01's number and place.
pub fn refusal(rt: &impl Print, r: Refusal) {
    decimal(rt, r.cause.number() as u64);
    text(rt, b" at ");
    decimal(rt, r.place as u64);
}
