//! The parts of modules (Core 2.5), over lists that contracts see as lists.

use crate::instruction::Op;
use crate::value::ValType;
use pm_text::{Bytes, Items, Text};

/// Types of values, in order.
pub type ValTypes = Items<ValType>;

/// Indices of functions or of types.
pub type Indices = Items<u32>;

/// The targets of all `br_table`s of a body, one after the other, without their defaults.
pub type Labels = Items<u32>;

/// The instructions of a body, with the last `end`.
pub type Ops = Items<Op>;

pub type LocalGroups = Items<LocalGroup>;

pub type FuncTypes = Items<FuncType>;

pub type Imports = Items<Import>;

pub type LimitsList = Items<Limits>;

pub type Globals = Items<Global>;

pub type Exports = Items<Export>;

pub type ElementSegs = Items<ElementSeg>;

pub type DataSegs = Items<DataSeg>;

pub type Bodies = Items<Body>;

pub type Customs = Items<Custom>;

/// The operand height before each instruction: one list per defined function with one number per
/// instruction, which is 0 in dead code.
pub type Heights = Items<Items<u32>>;

/// What a function takes and gives (Core 2.3.3).
#[derive(Drop)]
pub struct FuncType {
    pub params: ValTypes,
    pub results: ValTypes,
}

/// The least and the greatest size: pages of a memory, elements of a table (Core 2.3.4).
#[derive(Clone, Copy, PartialEq, Eq)]
pub struct Limits {
    pub min: u32,
    pub max: Option<u32>,
}

/// Locals of one type (Core 5.5.13).
#[derive(Clone, Copy, PartialEq, Eq)]
pub struct LocalGroup {
    pub count: u32,
    pub vtype: ValType,
}

/// The body of a function (Core 2.5.3), or an expression, which has no groups of locals.
#[derive(Drop)]
pub struct Body {
    pub groups: LocalGroups,
    pub ops: Ops,
    pub targets: Labels,
    /// The code address of the entry, in bytes from the first byte of the code section's contents.
    pub start: u32,
}

/// An imported function (Core 2.5.11).
#[derive(Drop)]
pub struct Import {
    pub module: Text,
    pub name: Text,
    /// The index of its type.
    pub ftype: u32,
}

/// A global (Core 2.5.6).
#[derive(Drop)]
pub struct Global {
    pub vtype: ValType,
    pub mutable: bool,
    pub init: Body,
}

/// What an export names (Core 2.5.10).
#[derive(Clone, Copy)]
pub enum ExportKind {
    Function,
    Table,
    Memory,
    Global,
}

/// An export (Core 2.5.10).
#[derive(Drop)]
pub struct Export {
    pub name: Text,
    pub kind: ExportKind,
    pub index: u32,
}

/// Functions that are put into a table (Core 2.5.7).
#[derive(Drop)]
pub struct ElementSeg {
    pub table: u32,
    pub offset: Body,
    pub functions: Indices,
}

/// Bytes that are put into a memory (Core 2.5.8).
#[derive(Drop)]
pub struct DataSeg {
    pub memory: u32,
    pub offset: Body,
    pub bytes: Bytes,
}

/// A custom section (Core 5.5.3): its name, the offset of its first content byte behind the name,
/// in bytes from the first byte of the module, and how many such bytes there are.
#[derive(Drop)]
pub struct Custom {
    pub name: Text,
    pub at: u32,
    pub len: u32,
}
