//! How many levels of entries stand in an entry.

use dwarf_info::Entry;

/// How many levels stand at most in an entry of which it is kept what it says. So an entry is
/// looked at for at most so many that it stands in.
const MOST_LEVELS: u32 = 16;

/// Whether not too many levels of entries stand in an entry, behind which these stand.
pub(crate) fn is_shallow(entry: &Entry<'_>, behind: &[Entry<'_>]) -> bool {
    let depth = entry.depth;
    for inner in behind {
        if inner.depth <= depth {
            return true;
        }
        if inner.depth - depth > MOST_LEVELS {
            return false;
        }
    }
    true
}
