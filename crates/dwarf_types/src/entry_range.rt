//! The entries that stand in an entry, by their numbers among those of its unit.

ghost use Rattle.std.specs.Prelude.{◌≡◌, ◌<◌, ◌+◌, ◌^◌, length, drop, slice_get, Some, IfSome, option_copied};
ghost use Rattle.dwarf_entries.specs.Standing.{entries_inside, standing_at, standing_in};
ghost use Rattle.dwarf_types.specs.calls.Inside.{in_range, AreInside};

use dwarf_entries::Standing;
use dwarf_info::{Entry, Unit, Units};

/// The greatest number that is kept.
const GREATEST: usize = 0xFFFF_FFFF;

/// So many entries of a unit, from the one of a number on.
#[derive(Clone, Copy)]
pub struct EntryRange {
    pub first: u32,
    pub count: u32,
}

/// The entries of a range, as far as they are there.
#[tactic(auto, using(crate::proofs::InsideLaws::range_past, crate::proofs::InsideLaws::range_long))]
pub(crate) fn in_range<'r, 'a>(entries: &'r [Entry<'a>], range: EntryRange) -> &'r [Entry<'a>]
    ensures { result.now ≡ in_range range entries.now }
{
    let first = range.first as usize;
    if first > entries.len() {
        return &entries[..0];
    }
    let from = &entries[first..];
    let count = range.count as usize;
    if count > from.len() {
        return from;
    }
    &from[..count]
}

/// Which entries of its unit stand in the entry at an offset, where their numbers can be kept.
pub(crate) fn range_inside<'r, 'a>(
    units: &'r Units<'a>,
    at: u32,
    standing: &Standing<'r, 'a>,
) -> Option<EntryRange>
    requires { Some standing.now ≡ standing_at units.now at }
    ensures range { IfSome result (AreInside standing.now) }
    ensures few { IfSome result (λ r. length (entries_inside standing.now) < 2 ^ 32) }
{
    let place = units.place_of(at)?;
    let count = standing.inside().len();
    if place.entry >= GREATEST || count > GREATEST {
        return None;
    }
    Some(EntryRange {
        first: place.entry as u32 + 1,
        count: count as u32,
    })
}

/// The entry at a position among others.
pub(crate) fn entry_at<'r, 'a>(entries: &'r [Entry<'a>], position: u32) -> Option<&'r Entry<'a>>
    ensures { option_copied result ≡ slice_get entries.now position }
{
    entries.get(position as usize)
}

/// What stands behind an entry of that number.
fn rest_behind<'r, 'a>(entries: &'r [Entry<'a>], number: usize) -> &'r [Entry<'a>]
    requires { number < length entries.now }
    ensures { result.now ≡ drop (number + 1) entries.now }
{
    &entries[number + 1..]
}

/// The entry at a position among entries of a unit, with those of them behind it.
#[tactic(auto, using(crate::proofs::InsideLaws::among_past, crate::proofs::InsideLaws::among_there))]
pub fn standing_among<'r, 'a>(
    unit: &'r Unit<'a>,
    entries: &'r [Entry<'a>],
    position: u32,
) -> Option<Standing<'r, 'a>>
    ensures { result ≡ slice_get (standing_in unit.now entries.now) position }
{
    let number = position as usize;
    if number >= entries.len() {
        return None;
    }
    let rest = rest_behind(entries, number);
    Some(Standing::new(unit, &entries[number], rest))
}
