//! Places of a module where it is judged.

/// A part of a module that validation judges by itself (Core 3.4). Functions are numbered with the
/// imported ones first.
#[derive(Clone, Copy)]
pub enum Place {
    TypeAt(u32),
    ImportAt(u32),
    /// The type index of a function that the module defines.
    Declaration(u32),
    TableAt(u32),
    MemoryAt(u32),
    GlobalAt(u32),
    ExportAt(u32),
    Start,
    ElementAt(u32),
    DataAt(u32),
    /// The instruction of a function's body at a code offset, in bytes.
    Function { index: u32, offset: u32 },
}
