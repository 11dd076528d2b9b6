//! The levels of arrays of several subranges (DWARF 4 section 5.4).

use pm_text::Items;

/// A subrange of an array: rows, or the innermost elements.
#[derive(Clone, Copy, Drop)]
pub struct Level {
    pub count: u128,
    /// The size of one of them in bytes.
    pub step: u64,
}

/// A row of which some elements are written.
#[derive(Clone, Copy, Drop)]
pub struct OpenRow {
    pub level: Level,
    /// In bytes from the start of the array on.
    pub start: u64,
    /// The number of the element behind the one that was begun last.
    pub next: u64,
}

/// What is kept of a row of which more elements are to be begun.
#[derive(Clone, Copy, Drop)]
pub struct BegunRow {
    /// The number of its subrange.
    pub number: usize,
    /// In bytes from the start of the array on.
    pub start: u64,
    /// The number of the element behind the one that was begun last.
    pub next: u64,
}

/// What a step through the rows of an array came to.
#[derive(Clone, Copy, Drop)]
pub enum Step {
    /// There are more steps.
    On,
    /// An innermost element is to be written, which stands so many bytes from the start of the
    /// array on.
    Element(u64),
    /// All is written.
    End,
}

/// What is left to write of the rows of an array.
#[derive(Drop)]
pub struct Rows {
    /// The offset of what is to be written next. None behind an element.
    pub pending: Option<u64>,
    /// The rows of which more elements are to be begun, the innermost last. Of the others that are
    /// open nothing is kept: they end next.
    pub begun: Items<BegunRow>,
    /// How many subranges, the outermost first, are passed over.
    pub passed: usize,
    /// How many are passed over or have a row that is open.
    pub opened: usize,
}
