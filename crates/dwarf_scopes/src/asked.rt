//! What the lists of units say of one address, asked again and again.

ghost use Rattle.std.specs.Prelude.{ℕ, ◌≡◌, Some, IfOk};
ghost use Rattle.dwarf_info.specs.Sections.{SectionBytes5};
ghost use Rattle.dwarf_scopes.specs.Lists.{location_in as entry_in};
ghost use Rattle.dwarf_scopes.specs.Ranges as ranges;
ghost use Rattle.dwarf_scopes.specs.calls.Knowing.{AreRight, AreFound, held_in};

use crate::bases::{BaseTables, held_by_bases};
use crate::kinds::{LocationLists, RangeLists};
use crate::known::{KnownLists, chosen_in, place_of};
use causes::NoMemory;
use dwarf_info::{Sections5, Unit};
use dwarf_loc::Span;
use std::alloc::Global;

/// What range lists say.
#[derive(Drop)]
pub struct KnownRanges {
    pub lists: KnownLists<()>,
    /// Lists that were asked from several bases.
    pub bases: BaseTables,
}

/// What location lists say.
pub type KnownLocations = KnownLists<Span>;

/// No range list was asked yet.
pub fn no_ranges(alloc: Global) -> KnownRanges
    ensures { (s : SectionBytes5) (address : ℕ) → AreRight s address result }
{
    KnownRanges {
        lists: KnownLists::new(alloc),
        bases: BaseTables::new(alloc),
    }
}

/// No location list was asked yet.
pub fn no_locations(alloc: Global) -> KnownLocations
    ensures { (s : SectionBytes5) (address : ℕ) → AreFound s address result }
{
    KnownLists::new(alloc)
}

/// A list that can't be read holds no address.
fn held_in(chosen: Option<Option<()>>) -> bool
    ensures { result ≡ held_in chosen }
{
    match chosen {
        Some(chosen) => chosen.is_some(),
        None => false,
    }
}

/// Whether the list at an offset holds the address.
pub fn in_list(
    sections: &Sections5<'_>,
    unit: &Unit<'_>,
    address: u32,
    at: u32,
    lists: &mut KnownRanges,
) -> Result<bool, NoMemory>
    requires right { AreRight sections.now address lists.old }
    ensures is { IfOk result (λ held. held
        ≡ ranges.in_list sections.now unit.now address (Some at)) }
    ensures right { AreRight sections.now address lists.new }
{
    let place = place_of(unit, at as usize);
    match held_by_bases::<RangeLists>(sections, address, place, &mut lists.bases) {
        Ok(None) => {}
        Ok(Some(held)) => return Ok(held),
        Err(e) => return Err(e),
    }
    match chosen_in::<RangeLists>(sections, unit, address, at, &mut lists.lists) {
        Ok(chosen) => Ok(held_in(chosen)),
        Err(e) => Err(e),
    }
}

/// The expression of the entry of a location list that counts for an address, as `location_in` gives
/// it; none where no list stands there.
pub fn known_location_in(
    sections: &Sections5<'_>,
    unit: &Unit<'_>,
    at: u32,
    address: u32,
    lists: &mut KnownLocations,
) -> Result<Option<Option<Span>>, NoMemory>
    requires right { AreFound sections.now address lists.old }
    ensures is { IfOk result (λ found. found ≡ entry_in sections.now unit.now at address) }
    ensures right { AreFound sections.now address lists.new }
{
    chosen_in::<LocationLists>(sections, unit, address, at, lists)
}
