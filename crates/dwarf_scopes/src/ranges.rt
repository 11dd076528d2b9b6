//! Whether an entry holds an address (DWARF 4 section 2.17).

ghost use Rattle.std.specs.Prelude.{ℕ, ◌≡◌, IfOk};
ghost use Rattle.dwarf_scopes.specs.Ranges as ranges;
ghost use Rattle.dwarf_scopes.specs.calls.Knowing.{AreRight};

use crate::asked::{KnownRanges, in_list};
use causes::NoMemory;
use dwarf_entries::names::{HIGH_PC, LOW_PC, RANGES};
use dwarf_entries::{Standing, address, attribute, offset};
use dwarf_info::{AttrValue, Entry, Sections5};

/// Where the addresses end of an entry that begins there. A constant counts from the begin.
fn high_from(low: u32, high: &AttrValue<'_>) -> Option<i128>
    ensures { result ≡ ranges.high_from low high.now }
{
    match high {
        AttrValue::Address(end) => Some(i128::from(*end)),
        AttrValue::Constant(count) => Some(i128::from(low) + i128::from(*count)),
        AttrValue::Signed(count) => Some(i128::from(low) + i128::from(*count)),
        _ => None,
    }
}

fn bounds_from(entry: &Entry<'_>, low: u32) -> Option<(u32, i128)>
    ensures { result ≡ ranges.bounds_from entry.now low }
{
    let value = attribute(&entry.attributes, HIGH_PC)?;
    let high = high_from(low, &value)?;
    Some((low, high))
}

/// Where the addresses of an entry begin and end, where it says both.
pub fn bounds(entry: &Entry<'_>) -> Option<(u32, i128)>
    ensures { result ≡ ranges.bounds_of entry.now }
{
    let low = address(&entry.attributes, LOW_PC)?;
    bounds_from(entry, low)
}

/// Whether an entry holds an address: from its low_pc up to but not including its high_pc, where it
/// has both, else by its list, where lists of the unit were asked before.
pub fn holds_by_known(
    sections: &Sections5<'_>,
    address: u32,
    standing: &Standing<'_, '_>,
    lists: &mut KnownRanges,
) -> Result<bool, NoMemory>
    requires right { AreRight sections.now address lists.old }
    ensures is { IfOk result (λ held. held ≡ ranges.holds sections.now address standing.now) }
    ensures right { AreRight sections.now address lists.new }
{
    let entry = standing.entry();
    if let Some((low, high)) = bounds(entry) {
        return Ok(low <= address && i128::from(address) < high);
    }
    let Some(at) = offset(&entry.attributes, RANGES) else {
        return Ok(false);
    };
    in_list(sections, standing.unit(), address, at, lists)
}
