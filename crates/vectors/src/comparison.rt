// What comes of a line: it is malformed, or a step differs from it, or agrees.
#[derive(Clone, Copy)]
pub enum Comparison {
    Malformed,
    Differs,
    Agrees,
}
