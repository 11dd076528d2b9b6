//! The subprograms of all units by the places where they stand: a table that is kept without a borrow
//! of the units.

ghost use Rattle.std.specs.Prelude.{◌≡◌, ◌++◌, ◌+◌, ◌<◌, [], None, IfOk, OnOk, drop, length, slice_get};
ghost use Rattle.std.specs.Prelude.{option_and_then};
ghost use Rattle.dwarf_scopes.specs.Scopes as scopes;
ghost use Rattle.dwarf_scopes.specs.calls.Tabled as tabled;
ghost use Rattle.dwarf_scopes.specs.calls.Levels.{AreLeveled};
ghost use Rattle.dwarf_scopes.specs.inner.Picks.{kept, inlined_from};
ghost use Rattle.dwarf_scopes.specs.inner.Holding.{AreHolders};

use crate::holders::Holders;
use crate::levels::{UnitLevels, all_levels};
use crate::subprograms::{Found, all_kept, found_in_unit, is_kept};
use causes::NoMemory;
use dwarf_entries::Standing;
use dwarf_info::{Sections5, Unit, UnitAnswer};
use pm_text::Items;
use std::alloc::Global;
use std::marker::Model;

/// Where an entry stands: the number of its unit, and its own in that unit.
#[derive(Clone, Copy)]
pub struct EntryPlace {
    pub unit: usize,
    pub entry: usize,
}

/// The entry of a number in a unit.
#[tactic(auto, using(crate::proofs::TableLaws::none_past))]
fn entry_of_number<'r, 'a>(unit: &'r Unit<'a>, number: usize) -> Option<Standing<'r, 'a>>
    ensures { result ≡ tabled.first_standing unit.now (drop number unit.now.entries) }
{
    let entries = unit.entries.as_slice();
    if number >= entries.len() {
        return None;
    }
    let left = &entries[number..];
    match left {
        [entry, behind @ ..] => Some(Standing::new(unit, entry, behind)),
        [] => None,
    }
}

/// The entry at a place.
fn placed<'r, 'a>(units: &'r [UnitAnswer<'a>], place: EntryPlace) -> Option<Standing<'r, 'a>>
    ensures { result ≡ tabled.placed units.now place }
{
    match units.get(place.unit) {
        Some(UnitAnswer::Tree(unit)) => entry_of_number(unit, place.entry),
        Some(UnitAnswer::Unreadable { section: _, at: _ }) | None => None,
    }
}

/// The entry at the place of a number.
fn placed_at<'r, 'a>(
    units: &'r [UnitAnswer<'a>],
    places: &[EntryPlace],
    number: usize,
) -> Option<Standing<'r, 'a>>
    ensures { result ≡ option_and_then (tabled.placed units.now) (slice_get places.now number) }
{
    placed(units, *places.get(number)?)
}

/// Subprograms by the places where they stand. Contracts see the subprograms.
#[derive(Drop)]
pub struct PlacedSubprograms<'p, 'r, 'a> {
    units: &'r [UnitAnswer<'a>],
    places: &'p [EntryPlace],
}

impl<'p, 'r, 'a> Model for PlacedSubprograms<'p, 'r, 'a> {
    ghost use Rattle.std.specs.Prelude.{◌≡◌, List};
    ghost use Rattle.dwarf_entries.specs.Standing.{Standing};
    ghost use Rattle.dwarf_scopes.specs.calls.Tabled.{places_from};
    ghost use Rattle.dwarf_scopes.specs.inner.Picks.{kept};

    ghost Value = { List Standing };

    ghost view = { λ s. kept s.units.now };

    ghost invariant = { λ s. s.places.now ≡ places_from 0 s.units.now };
}

impl<'p, 'r, 'a> PlacedSubprograms<'p, 'r, 'a> {
    /// The one of a number.
    #[tactic(auto, using(crate::proofs::TableLaws::got_kept))]
    pub fn get(&self, number: usize) -> Option<Standing<'r, 'a>>
        ensures { result ≡ slice_get self.now number }
    {
        placed_at(self.units, self.places, number)
    }
}

/// Appends the places of the subprograms of a unit of this number that are not removed.
fn push_places(
    number: usize,
    unit: &Unit<'_>,
    places: &mut Items<EntryPlace>,
) -> Result<(), NoMemory>
    ensures { OnOk result (places.new
        ≡ places.old ++ tabled.places_in unit.now number 0 unit.now.entries) }
{
    let entries = unit.entries.as_slice();
    'entries: for (index, entry) in entries.iter().enumerate() {
        let standing = Standing::new(unit, entry, &entries[index + 1..]);
        if is_kept(&standing) {
            places.push(EntryPlace {
                unit: number,
                entry: index,
            })?;
        }
    }
    Ok(())
}

fn push_places_of(
    number: usize,
    answer: &UnitAnswer<'_>,
    places: &mut Items<EntryPlace>,
) -> Result<(), NoMemory>
    ensures { OnOk result (places.new ≡ places.old ++ tabled.places_of number answer.now) }
{
    match answer {
        UnitAnswer::Tree(unit) => push_places(number, unit, places),
        UnitAnswer::Unreadable { section: _, at: _ } => Ok(()),
    }
}

fn all_places(alloc: Global, units: &[UnitAnswer<'_>]) -> Result<Items<EntryPlace>, NoMemory>
    ensures { IfOk result (λ places. places ≡ tabled.places_from 0 units.now) }
{
    let mut places = Items::new(alloc);
    'units: for (number, answer) in units.iter().enumerate() {
        push_places_of(number, answer, &mut places)?;
    }
    Ok(places)
}

/// What finds the first of the subprograms of all units that holds an address.
fn holders_of(alloc: Global, units: &[UnitAnswer<'_>]) -> Result<Holders, NoMemory>
    ensures { IfOk result (λ holders. AreHolders (kept units.now) holders) }
{
    let kept = all_kept(alloc, units)?;
    let holders = Holders::of(alloc, kept.as_slice());
    drop(kept);
    holders
}

fn place_of_number(places: &[EntryPlace], number: Option<usize>) -> Option<EntryPlace>
    ensures { result ≡ option_and_then (slice_get places.now) number }
{
    places.get(number?).copied()
}

fn nothing_found<'r, 'a>(alloc: Global) -> Found<'r, 'a>
    ensures subprogram { result.subprogram ≡ None }
    ensures inlined { result.inlined ≡ [] }
{
    Found {
        subprogram: None,
        inlined: Items::new(alloc),
    }
}

/// What stands at a place.
fn found_there<'r, 'a>(
    alloc: Global,
    sections: &Sections5<'a>,
    units: &'r [UnitAnswer<'a>],
    address: u32,
    levels: &[UnitLevels],
    place: EntryPlace,
) -> Result<Found<'r, 'a>, NoMemory>
    requires { AreLeveled levels.now units.now }
    ensures subprogram { IfOk result (λ x. x.subprogram ≡ tabled.placed units.now place) }
    ensures inlined { IfOk result (λ x. x.inlined ≡ inlined_from sections.now address
        (tabled.placed units.now place)) }
{
    let Some(answer) = units.get(place.unit) else {
        return Ok(nothing_found(alloc));
    };
    let Some(levels) = levels.get(place.unit) else {
        return Found::of(alloc, sections, address, placed(units, place));
    };
    found_in_unit(alloc, sections, address, answer, place.entry, levels)
}

/// What stands at a place, if there is one.
fn found_at_place<'r, 'a>(
    alloc: Global,
    sections: &Sections5<'a>,
    units: &'r [UnitAnswer<'a>],
    address: u32,
    levels: &[UnitLevels],
    place: Option<EntryPlace>,
) -> Result<Found<'r, 'a>, NoMemory>
    requires { AreLeveled levels.now units.now }
    ensures subprogram { IfOk result (λ x. x.subprogram
        ≡ option_and_then (tabled.placed units.now) place) }
    ensures inlined { IfOk result (λ x. x.inlined ≡ inlined_from sections.now address
        (option_and_then (tabled.placed units.now) place)) }
{
    let Some(place) = place else {
        return Ok(nothing_found(alloc));
    };
    found_there(alloc, sections, units, address, levels, place)
}

/// The subprograms of all units that are not removed, by the places where they stand. It is asked
/// with the units that it was made of.
#[derive(Drop)]
pub struct SubprogramTable {
    places: Items<EntryPlace>,
    holders: Holders,
    // Of each unit.
    levels: Items<UnitLevels>,
}

impl SubprogramTable {
    /// The subprograms of these units.
    pub fn of(alloc: Global, units: &[UnitAnswer<'_>]) -> Result<Self, NoMemory>
        ensures { IfOk result (λ table. tabled.IsTable units.now table) }
    {
        let places = all_places(alloc, units)?;
        let Ok(levels) = all_levels(alloc, units) else {
            drop(places);
            return Err(NoMemory);
        };
        match holders_of(alloc, units) {
            Ok(holders) => Ok(SubprogramTable {
                places,
                holders,
                levels,
            }),
            Err(e) => {
                drop(places);
                drop(levels);
                Err(e)
            }
        }
    }

    /// The first one that holds an address.
    #[tactic(auto, using(crate::proofs::Filters::found_kept))]
    pub fn at<'r, 'a>(
        &self,
        alloc: Global,
        sections: &Sections5<'a>,
        units: &'r [UnitAnswer<'a>],
        address: u32,
    ) -> Result<Option<Standing<'r, 'a>>, NoMemory>
        requires { tabled.IsTable units.now self.now }
        ensures { IfOk result (λ x. x ≡ scopes.subprogram_at sections.now units.now address) }
    {
        let subprograms = PlacedSubprograms {
            units,
            places: self.places.as_slice(),
        };
        self.holders.first(alloc, sections, &subprograms, address)
    }

    /// What stands at the place of a subprogram, if there is one.
    #[tactic(auto, using(crate::proofs::TableLaws::got_number))]
    fn found<'r, 'a>(
        &self,
        alloc: Global,
        sections: &Sections5<'a>,
        units: &'r [UnitAnswer<'a>],
        address: u32,
        number: Option<usize>,
    ) -> Result<Found<'r, 'a>, NoMemory>
        requires { tabled.IsTable units.now self.now }
        ensures subprogram { IfOk result (λ x. x.subprogram
            ≡ option_and_then (slice_get (kept units.now)) number) }
        ensures inlined { IfOk result (λ x. x.inlined ≡ inlined_from sections.now address
            (option_and_then (slice_get (kept units.now)) number)) }
    {
        let place = place_of_number(self.places.as_slice(), number);
        found_at_place(
            alloc,
            sections,
            units,
            address,
            self.levels.as_slice(),
            place,
        )
    }

    /// What stands at an address.
    pub fn find<'r, 'a>(
        &self,
        alloc: Global,
        sections: &Sections5<'a>,
        units: &'r [UnitAnswer<'a>],
        address: u32,
    ) -> Result<Found<'r, 'a>, NoMemory>
        requires { tabled.IsTable units.now self.now }
        ensures subprogram { IfOk result (λ x. x.subprogram
            ≡ scopes.subprogram_at sections.now units.now address) }
        ensures inlined { IfOk result (λ x. x.inlined
            ≡ scopes.inlined_at sections.now units.now address) }
    {
        let subprograms = PlacedSubprograms {
            units,
            places: self.places.as_slice(),
        };
        let number = self.holders.number(alloc, sections, &subprograms, address)?;
        self.found(alloc, sections, units, address, number)
    }
}
