//! Where code goes on behind an instruction.

/// Where code goes on behind an instruction.
#[derive(Clone, Copy)]
pub enum Flow {
    /// With the next one.
    Next,
    /// Nowhere in its list: what is left of it is dead code.
    Ends,
}
