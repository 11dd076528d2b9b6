//! What stands in a structure.

use crate::mark::Mark;
use dwarf_entries::Standing;

/// What stands in a structure, or in a variant of one.
#[derive(Drop)]
pub enum Item<'r, 'a> {
    Member(Standing<'r, 'a>),
    /// In the place of a variant part: its variant is not known, for this reason.
    Unknown(Mark),
}
