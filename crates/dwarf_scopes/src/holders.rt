//! Which of many entries holds an address first.

ghost use Rattle.std.specs.Prelude.{◌≡◌, IfOk, find, slice_get, option_and_then};
ghost use Rattle.dwarf_scopes.specs.Ranges as ranges;
ghost use Rattle.dwarf_scopes.specs.calls.Knowing.{AreRight};
ghost use Rattle.dwarf_scopes.specs.inner.Holding.{bounds_in, AreHolders};
ghost use Rattle.dwarf_scopes.specs.calls.Numbered.{ranges_from, passes, is_before, first_or};

use crate::asked::{KnownRanges, no_ranges};
use crate::listed::listed_of;
use crate::ranges::{bounds, holds_by_known};
use crate::steps::{Range, Steps};
use crate::table::PlacedSubprograms;
use causes::NoMemory;
use dwarf_entries::Standing;
use dwarf_info::Sections5;
use pm_text::Items;
use std::alloc::Global;

/// What finds the first of many entries that holds an address: by halving among those that say
/// where they begin and end. Those that have a list instead are asked one after the other, but for
/// those with the list of an earlier one.
#[derive(Drop)]
pub struct Holders {
    bounded: Steps,
    // The numbers of those that have a list instead, of each list the first.
    listed: Items<usize>,
}

/// Those that say where they begin and end, as ranges with their numbers.
fn ranges_of(alloc: Global, entries: &[Standing<'_, '_>]) -> Result<Vec<Range>, NoMemory>
    ensures { IfOk result (λ ranges. ranges.items ≡ ranges_from bounds_in 0 entries.now) }
{
    let mut ranges = Vec::new(alloc);
    'entries: for (index, standing) in entries.iter().enumerate() {
        if let Some((first, end)) = bounds(standing.entry()) {
            ranges.push(Range { first, end, index })?;
        }
    }
    Ok(ranges)
}

/// Whether an entry is there, and holds an address.
fn holds_at(
    sections: &Sections5<'_>,
    entries: &PlacedSubprograms<'_, '_, '_>,
    index: usize,
    address: u32,
    lists: &mut KnownRanges,
) -> Result<bool, NoMemory>
    requires right { AreRight sections.now address lists.old }
    ensures is { IfOk result (λ held. held
        ≡ passes (ranges.holds sections.now address) (slice_get entries.now index)) }
    ensures right { AreRight sections.now address lists.new }
{
    match entries.get(index) {
        Some(standing) => holds_by_known(sections, address, &standing, lists),
        None => Ok(false),
    }
}

fn is_before(named: Option<usize>, index: usize) -> bool
    ensures { result ≡ is_before named index }
{
    match named {
        Some(named) => named < index,
        None => false,
    }
}

/// The first of the entries with these numbers that holds an address, or the one that is named, if
/// that stands before it.
fn first_or(
    sections: &Sections5<'_>,
    entries: &PlacedSubprograms<'_, '_, '_>,
    address: u32,
    named: Option<usize>,
    numbers: &[usize],
    lists: &mut KnownRanges,
) -> Result<Option<usize>, NoMemory>
    requires right { AreRight sections.now address lists.old }
    ensures is { IfOk result (λ number. number ≡ first_or
        (λ index. passes (ranges.holds sections.now address) (slice_get entries.now index))
        named numbers.now) }
{
    for index in numbers {
        if is_before(named, *index) {
            return Ok(named);
        }
        if holds_at(sections, entries, *index, address, lists)? {
            return Ok(Some(*index));
        }
    }
    Ok(named)
}

impl Holders {
    /// Those of these entries, in their order.
    pub fn of(alloc: Global, entries: &[Standing<'_, '_>]) -> Result<Self, NoMemory>
        ensures { IfOk result (λ holders. AreHolders entries.now holders) }
    {
        let ranges = ranges_of(alloc, entries)?;
        let made = Steps::of(alloc, ranges.as_slice());
        drop(ranges);
        let bounded = made?;
        match listed_of(alloc, entries) {
            Ok(listed) => Ok(Holders { bounded, listed }),
            Err(e) => {
                drop(bounded);
                Err(e)
            }
        }
    }

    /// The number of the first of the entries that holds an address.
    pub fn number(
        &self,
        alloc: Global,
        sections: &Sections5<'_>,
        entries: &PlacedSubprograms<'_, '_, '_>,
        address: u32,
    ) -> Result<Option<usize>, NoMemory>
        requires { AreHolders entries.now self.now }
        ensures { IfOk result (λ number. option_and_then (slice_get entries.now) number
            ≡ find (ranges.holds sections.now address) entries.now) }
    {
        let mut lists = no_ranges(alloc);
        let named = self.bounded.at(address);
        let listed = self.listed.as_slice();
        let first = first_or(sections, entries, address, named, listed, &mut lists);
        drop(lists);
        first
    }

    /// The first of the entries that holds an address.
    pub fn first<'r, 'a>(
        &self,
        alloc: Global,
        sections: &Sections5<'a>,
        entries: &PlacedSubprograms<'_, 'r, 'a>,
        address: u32,
    ) -> Result<Option<Standing<'r, 'a>>, NoMemory>
        requires { AreHolders entries.now self.now }
        ensures { IfOk result (λ x. x ≡ find (ranges.holds sections.now address) entries.now) }
    {
        match self.number(alloc, sections, entries, address) {
            Ok(Some(number)) => Ok(entries.get(number)),
            Ok(None) => Ok(None),
            Err(e) => Err(e),
        }
    }
}
