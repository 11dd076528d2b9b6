//! Where the writing of a body stands.

/// A place of the code, by the index of an instruction.
#[derive(Clone, Copy)]
pub enum Point {
    /// In front of a live instruction.
    Live(usize),
    /// At the `else` or the `end` of a list of instructions that was written.
    Ended(usize),
}
