//! What frames show, and where values are.

use dwarf_expr::PiecePlace;
use linear_memory::Memory;
use std::alloc::Global;
use var_values::{Mark, Source};

/// A page with these bytes at these addresses.
pub fn memory_with(alloc: Global, contents: &[(u64, &[u8])]) -> Option<Memory> {
    let mut memory = Memory::new(alloc, 1, 1).ok()?;
    for (at, bytes) in contents {
        memory.write(*at, bytes).ok()?;
    }
    Some(memory)
}

/// Where a value comes from: it is this number, or stands at this address, or its expression is
/// bad.
pub enum Origin {
    Number(u64),
    Address(u32),
    BadExpression,
}

pub fn source_of(origin: &Origin) -> Source {
    match origin {
        Origin::Number(number) => Source::Single(PiecePlace::Value(*number)),
        Origin::Address(address) => Source::Single(PiecePlace::Address(*address)),
        Origin::BadExpression => Source::Lost(Mark::BadExpression),
    }
}
