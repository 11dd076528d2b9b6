//! Where the entries of units stand.

ghost use Rattle.std.specs.Prelude.{◌≡◌, ◌==◌, ℕ, true, slice_get, Some, None, IfOk, OnOk, if◌then◌else◌};
ghost use Rattle.std.specs.Option.{option_or};
ghost use Rattle.dwarf_info.specs.calls.EntryPlaces.{place_in, place_among};
ghost use Rattle.dwarf_info.specs.inner.Settling.{placed, placed_by, place_of};
ghost use Rattle.dwarf_info.specs.inner.Ascending.{ascends_from};

use crate::entry::{Entry, UnitAnswer};
use causes::NoMemory;
use pm_text::Items;
use std::alloc::Global;
use std::marker::Model;

/// Where an entry stands in a list of units.
#[derive(Clone, Copy, PartialEq, Eq)]
pub struct EntryPlace {
    /// The number of its unit, from 0.
    pub unit: usize,
    /// Its own number among the entries of the unit, from 0.
    pub entry: usize,
}

/// An offset of the section, and where the entry with that offset stands: the number of its unit, and
/// its own number there.
#[derive(Clone, Copy)]
pub struct PlacedEntry {
    pub at: u32,
    pub unit: u32,
    pub entry: u32,
}

/// Entries with their places, which contracts see as the list. Of several with one offset the first
/// counts.
#[derive(Drop)]
pub struct Places {
    entries: Items<PlacedEntry>,
    // Offsets ascend, as they do in units that are read one behind the other. Then an entry is
    // found by halving.
    ascend: bool,
}

impl Model for Places {
    ghost use Rattle.std.specs.Prelude.{◌≡◌, List};
    ghost use Rattle.dwarf_info.specs.declared.places.PlacedEntry.{PlacedEntry};
    ghost use Rattle.dwarf_info.specs.inner.Ascending.{ascends_from};

    ghost Value = { List PlacedEntry };

    ghost view = { λ p. p.entries };

    ghost invariant = { λ p. p.ascend ≡ ascends_from 0 p.entries };
}

/// No offset is less than the one in front of it.
fn are_ascending(entries: &[PlacedEntry]) -> bool
    ensures { result ≡ ascends_from 0 entries.now }
{
    let mut reached = 0;
    for entry in entries {
        if entry.at < reached {
            return false;
        }
        reached = entry.at;
    }
    true
}

fn place_of(entry: PlacedEntry) -> EntryPlace
    ensures { result ≡ place_of entry }
{
    EntryPlace {
        unit: entry.unit as usize,
        entry: entry.entry as usize,
    }
}

/// The place of an entry, if it has that offset.
fn place_if(entry: Option<PlacedEntry>, at: u32) -> Option<EntryPlace>
    ensures { result ≡ placed_by at entry }
{
    match entry {
        Some(entry) => if entry.at == at {
            Some(place_of(entry))
        } else {
            None
        },
        None => None,
    }
}

fn entry_at(entries: &[PlacedEntry], index: usize) -> Option<PlacedEntry>
    ensures { result ≡ slice_get entries.now index }
{
    entries.get(index).copied()
}

/// The place of the first entry with an offset, where offsets ascend.
fn halved(entries: &[PlacedEntry], at: u32) -> Option<EntryPlace>
    requires { ascends_from 0 entries.now ≡ true }
    ensures { result ≡ placed entries.now at }
{
    let count = entries.partition_point(|entry| entry.at < at);
    place_if(entry_at(entries, count), at)
}

/// The place of the first entry with an offset.
fn searched(entries: &[PlacedEntry], at: u32) -> Option<EntryPlace>
    ensures { result ≡ placed entries.now at }
{
    match entries.iter().find(|entry| entry.at == at) {
        Some(entry) => Some(place_of(*entry)),
        None => None,
    }
}

/// One more entry, behind the others.
#[tactic(auto, using(crate::proofs::PlaceLaws::placed_more))]
fn add_entry(rows: &mut Items<PlacedEntry>, at: u32, place: EntryPlace) -> Result<(), NoMemory>
    ensures { OnOk result ((q : ℕ) → placed rows.new q
        ≡ option_or (placed rows.old q) (if at == q then Some place else None)) }
{
    if place.unit > 0xFFFF_FFFF || place.entry > 0xFFFF_FFFF {
        return Err(NoMemory);
    }
    let unit = place.unit as u32;
    let entry = place.entry as u32;
    rows.push(PlacedEntry { at, unit, entry })
}

fn add_entries<'a>(
    rows: &mut Items<PlacedEntry>,
    unit: usize,
    entries: &[Entry<'a>],
) -> Result<(), NoMemory>
    ensures { OnOk result ((q : ℕ) → placed rows.new q
        ≡ option_or (placed rows.old q) (place_in unit 0 entries.now q)) }
{
    'entries: for (number, entry) in entries.iter().enumerate() {
        let place = EntryPlace {
            unit,
            entry: number,
        };
        add_entry(rows, entry.at, place)?;
    }
    Ok(())
}

/// The entries of all units.
fn all_entries<'a>(alloc: Global, units: &[UnitAnswer<'a>]) -> Result<Items<PlacedEntry>, NoMemory>
    ensures { IfOk result (λ rows. (q : ℕ) → placed rows q ≡ place_among 0 units.now q) }
{
    let mut rows = Items::new(alloc);
    'units: for (unit, answer) in units.iter().enumerate() {
        if let UnitAnswer::Tree(tree) = answer {
            add_entries(&mut rows, unit, tree.entries.as_slice())?;
        }
    }
    Ok(rows)
}

impl Places {
    fn new(entries: Items<PlacedEntry>) -> Self
        ensures { result ≡ entries }
    {
        let ascend = are_ascending(entries.as_slice());
        Places { entries, ascend }
    }

    /// The places of the entries of all units.
    pub fn of<'a>(alloc: Global, units: &[UnitAnswer<'a>]) -> Result<Self, NoMemory>
        ensures { IfOk result (λ places. (q : ℕ) → placed places q ≡ place_among 0 units.now q) }
    {
        let entries = all_entries(alloc, units)?;
        Ok(Places::new(entries))
    }

    /// The place of the entry at an offset.
    pub fn get(&self, at: u32) -> Option<EntryPlace>
        ensures { result ≡ placed self.now at }
    {
        if self.ascend {
            halved(self.entries.as_slice(), at)
        } else {
            searched(self.entries.as_slice(), at)
        }
    }
}
