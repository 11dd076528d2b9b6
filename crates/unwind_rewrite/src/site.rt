//! Where a piece of code stands.

use rewrite_code::OperandPlaces;

/// How many labels are open around an instruction of a body, where the operands are before it, its
/// code offset, and whether what it leaves is taken before anything is handed over.
#[derive(Drop)]
pub struct Site<'p> {
    pub labels: u32,
    pub places: &'p OperandPlaces,
    pub offset: u32,
    pub passing: bool,
}

/// The code offset of an instruction, and whether what it leaves is taken before anything is handed
/// over.
#[derive(Clone, Copy)]
pub(crate) struct Spot {
    pub offset: u32,
    pub passing: bool,
}
