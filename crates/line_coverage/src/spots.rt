//! Source lines, and numbers of steps on them.

/// A line of a file of a line program. They are ordered by line program, by file and by line.
#[derive(Clone, Copy, PartialEq, Eq, PartialOrd, Ord)]
pub struct Spot {
    /// The number of the line program, from 0.
    pub table: usize,
    pub file: u32,
    pub line: u32,
}

/// How many steps fell on a line.
#[derive(Clone, Copy)]
pub struct LineCount {
    pub spot: Spot,
    pub steps: u64,
}
