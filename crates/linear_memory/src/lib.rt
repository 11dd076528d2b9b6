//! A linear memory of WebAssembly (Core 4.2.8) in pages of 65,536 bytes, each made at its first
//! write.
#![tactic(auto)]

mod calls;
mod changes;
mod page;
mod paged;
mod raw;
mod table;
mod words;

pub use calls::{Answer, Call, Width, run};
pub use paged::Memory;

/// Why a store, a write, a copy or a fill did not happen. Nothing was changed.
#[derive(Clone, Copy, PartialEq, Eq)]
pub enum StoreFault {
    /// A range passes the end of the memory.
    Out,
    /// Memory ran out for a page that was to be written and is not made.
    NoMemory,
}

/// What a growth did.
#[derive(Clone, Copy, PartialEq, Eq)]
pub enum GrowAnswer {
    /// The memory has the new pages. The number is its size in pages before.
    Grown(u32),
    /// The new size would pass the maximum. Nothing was changed.
    TooMany,
    /// Memory ran out. Nothing was changed.
    NoMemory,
}
