//! Modules, as far as they are read.

use pm_text::Items;
use wasm_syntax::{Import, ModuleParts};

/// An import (Core 5.5.5). Only a function is kept.
#[derive(Drop)]
pub enum Imported {
    Function(Import),
    Table,
    Memory,
    Global,
}

/// What the sections up to a place say (Core 5.5.15). It may import anything, and may hold floats.
#[derive(Drop)]
pub struct SpelledModule {
    /// The id of the last section that is no custom section, or 0.
    pub last: u8,
    /// The offset of the first float type or float opcode, in bytes from the first byte of the
    /// input.
    pub float: Option<usize>,
    pub imports: Items<Imported>,
    /// All but the imports. Floats stand as integers.
    pub parts: ModuleParts,
}
