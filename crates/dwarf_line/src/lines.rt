//! What a line program says (DWARF 4 section 6.2).

use crate::rows::Rows;
use crate::sequences::Sequences;
use pm_text::Items;
use wasm_bytes::Run;

/// A row of the line table (DWARF 4 section 6.2.2), with the registers that are used.
#[derive(Clone, Copy, PartialEq, Eq)]
pub struct Row {
    /// The code address of the first instruction.
    pub address: u32,
    pub file: u32,
    pub line: u32,
    pub column: u32,
}

/// Rows of instructions that stand one behind the other.
#[derive(Drop)]
pub struct Sequence {
    pub rows: Rows,
    /// The address behind the last instruction.
    pub end: u32,
}

/// A source file.
#[derive(Drop)]
pub struct LineFile<'a> {
    pub name: Run<'a>,
    /// The number of its directory.
    pub directory: u64,
}

pub type LineFiles<'a> = Items<LineFile<'a>>;

pub type Directories<'a> = Items<Run<'a>>;

/// What a line program says. Names borrow the section that they stand in.
#[derive(Drop)]
pub struct Lines<'a> {
    /// The number of the first directory and of the first file.
    pub first: u32,
    pub directories: Directories<'a>,
    pub files: LineFiles<'a>,
    pub sequences: Sequences,
}
