//! What a module is prepared to.

use crate::code::Code;
use pm_text::Items;

/// What the functions and types of a module are prepared to.
#[derive(Drop)]
pub struct Prepared<'a> {
    /// The functions that the module defines.
    pub codes: Vec<Code<'a>>,
    /// The number of its imports.
    pub imports: usize,
    /// For each type a number, the same one exactly for types that are the same by structure.
    pub type_numbers: Items<usize>,
    /// For each function, the imported ones first, the number of its type.
    pub function_numbers: Items<usize>,
}
