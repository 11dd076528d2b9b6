//! How many entries stand in each of several.

ghost use Rattle.std.specs.Prelude.{◌≡◌, length, IfOk};
ghost use Rattle.dwarf_scopes.specs.inner.Insides.{deeper as deeper_than, insides};

use causes::NoMemory;
use dwarf_info::Entry;
use pm_text::Items;
use std::alloc::Global;

/// How many entries from the front on are deeper, where it is known of each how many stand in it:
/// those are passed over.
fn deeper(depth: u32, entries: &[Entry<'_>], counts: &[usize]) -> usize
    requires { counts.now ≡ insides entries.now }
    ensures { result ≡ deeper_than depth entries.now }
{
    let len = entries.len();
    let mut at = 0;
    'entries: while at < len && entries[at].depth > depth {
        at += counts[at] + 1;
    }
    at
}

fn zeros(alloc: Global, len: usize) -> Result<Vec<usize>, NoMemory>
    ensures { IfOk result (λ zeros. length zeros.items ≡ len) }
{
    Ok(vec![in alloc; 0usize; len]?)
}

/// How many entries stand in each of these, in linear time: from the last on, each is counted by
/// those in it.
pub fn insides_of(alloc: Global, entries: &[Entry<'_>]) -> Result<Items<usize>, NoMemory>
    ensures { IfOk result (λ counts. counts ≡ insides entries.now) }
{
    let mut counts = zeros(alloc, entries.len())?;
    let mut left = entries.len();
    'entries: while left > 0 {
        left -= 1;
        let inside = deeper(
            entries[left].depth,
            &entries[left + 1..],
            &counts[left + 1..],
        );
        counts[left] = inside;
    }
    Ok(Items::from_vec(counts))
}
