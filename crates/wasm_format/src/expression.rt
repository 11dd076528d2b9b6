//! Expressions, as far as they are read.

use pm_text::Stack;
use wasm_syntax::{BlockKind, Labels, LocalGroups, Ops};

/// The instructions of an expression up to a place (Core 5.4.6).
#[derive(Drop)]
pub struct Expression {
    /// The offset from which code offsets count, in bytes from the first byte of the input.
    pub origin: u32,
    pub ops: Ops,
    pub targets: Labels,
    /// What opened the blocks that are open there, the innermost on top. None is open behind the
    /// last `end`.
    pub blocks: Stack<BlockKind>,
    /// The offset of the first float type or float opcode.
    pub float: Option<usize>,
}

/// The locals of a function up to a place (Core 5.5.13).
#[derive(Drop)]
pub struct Locals {
    pub groups: LocalGroups,
    /// How many there are in all.
    pub count: u32,
    /// The offset of the first float type.
    pub float: Option<usize>,
}
