//! What the entries of a unit are read by.

use crate::form::Shape;
use crate::prepared::PreparedSections;
use dwarf_abbrev::SharedLists;

/// What the entries of a unit are read by.
#[derive(Drop)]
pub struct UnitContext<'c, 'a, I> {
    pub sections: &'c PreparedSections<'a>,
    /// The offset of the unit, from which its references count.
    pub origin: u32,
    pub tables: &'c SharedLists<Shape>,
    /// The number of the table of its abbreviations.
    pub table: u32,
    /// What indices are looked up by, or None while the root is looked at for that.
    pub index: Option<I>,
}
