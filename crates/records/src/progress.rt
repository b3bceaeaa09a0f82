// How far a file is read.

// The lines so far, the S1 lines among them, and whether the last of them is S9.
#[derive(Clone, Copy)]
pub struct FileProgress {
    pub lines: usize,
    pub s1: usize,
    pub ended: bool,
}
