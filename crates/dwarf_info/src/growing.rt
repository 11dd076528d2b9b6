//! The entries of a unit, as far as they are read.

use crate::entry::Entries;

/// The tree of a unit, written out up to a place.
#[derive(Drop)]
pub struct Growing<'a> {
    pub entries: Entries<'a>,
    /// How many lists of children are open there.
    pub depth: u32,
}
