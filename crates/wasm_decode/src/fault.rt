//! Why a module is not read.

use wasm_syntax::Quantity;

/// Why a module is not read.
#[derive(Clone, Copy, PartialEq, Eq)]
pub enum DecodeFault {
    NoMemory,
    /// The item at this offset, in bytes from the first one, has no reading.
    Malformed { at: usize },
    /// The first float type or float opcode is at this offset.
    Float { at: usize },
    /// The first import that is no function has this index.
    ImportKind { index: u32 },
    /// A quantity passes its limit; the count is the whole quantity.
    Limit { what: Quantity, count: u64 },
}
