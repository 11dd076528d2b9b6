//! Bit-fields.

/// Bits of what contains a value, counted from its low bit on (DWARF 4 section 5.5.6).
#[derive(Clone, Copy)]
pub struct Bits {
    /// The number of the lowest one.
    pub first: u64,
    pub count: u64,
}
