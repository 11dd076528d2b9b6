//! Entries that have a list of the addresses they hold: of those with one list the first.

ghost use Rattle.std.specs.Prelude.{ℕ, ◌≡◌, ◌<◌, ◌+◌, List, length, true, IfOk, OnOk};
ghost use Rattle.dwarf_entries.specs.Standing.{Standing as Stands};
ghost use Rattle.dwarf_scopes.specs.inner.Listing.{list_of, AreListed, AreSeen, IsAsked, SoFar};

use crate::known::{ListPlace, is_same, number_of, place_of};
use crate::ranges::bounds;
use causes::NoMemory;
use dwarf_entries::names::RANGES;
use dwarf_entries::{Standing, offset};
use pm_text::Items;
use std::alloc::Global;
use std::collections::BTreeMap;

/// The list that says what an entry holds, where it does not say where it begins and ends.
fn list_of(standing: &Standing<'_, '_>) -> Option<ListPlace>
    ensures { result ≡ list_of standing.now }
{
    let entry = standing.entry();
    match bounds(entry) {
        Some(_) => None,
        None => {
            let at = offset(&entry.attributes, RANGES)?;
            Some(place_of(standing.unit(), at as usize))
        }
    }
}

/// Whether a list is among these, where each stands at its number.
fn is_seen(seen: &BTreeMap<u128, ListPlace>, place: ListPlace) -> bool
    ensures { (entries : List Stands) (numbers : List ℕ) → AreSeen entries numbers seen.now
        → result ≡ true → IsAsked entries numbers place }
{
    let number = number_of(place);
    let found = seen.get(&number).copied();
    match found {
        Some(other) => is_same(other, place),
        None => false,
    }
}

/// Appends the number of an entry that has a list, unless an earlier one has the same list.
fn push_listed(
    entries: &[Standing<'_, '_>],
    index: usize,
    seen: &mut BTreeMap<u128, ListPlace>,
    numbers: &mut Items<usize>,
) -> Result<(), NoMemory>
    requires there { index < length entries.now }
    requires seen { AreSeen entries.now numbers.old seen.old }
    requires so_far { SoFar entries.now index numbers.old }
    ensures seen { OnOk result (AreSeen entries.now numbers.new seen.new) }
    ensures so_far { OnOk result (SoFar entries.now (index + 1) numbers.new) }
{
    let standing = &entries[index];
    let Some(place) = list_of(standing) else {
        return Ok(());
    };
    if is_seen(seen, place) {
        return Ok(());
    }
    let number = number_of(place);
    match seen.insert(number, place) {
        Ok(_) => numbers.push(index),
        Err(_) => Err(NoMemory),
    }
}

/// The numbers of those that have a list and no bounds. Of those with one list, which hold the same
/// addresses, it has the first alone.
pub fn listed_of(alloc: Global, entries: &[Standing<'_, '_>]) -> Result<Items<usize>, NoMemory>
    ensures { IfOk result (AreListed entries.now) }
{
    let mut numbers = Items::new(alloc);
    let mut seen = BTreeMap::new(alloc);
    let mut index = 0;
    'entries: while index < entries.len() {
        push_listed(entries, index, &mut seen, &mut numbers)?;
        index += 1;
    }
    Ok(numbers)
}
