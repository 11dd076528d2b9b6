//! From which bases a range list holds an address: each entry of a list that is asked from one base
//! after the other is read once.

ghost use Rattle.std.specs.Prelude.{◌≡◌, ◌≤◌, ℕ, true, None, Some, [], length, IfOk, IfSome, if◌then◌else◌};
ghost use Rattle.dwarf_info.specs.Sections.{SectionBytes5};
ghost use Rattle.dwarf_scopes.specs.calls.Kinds.{range_section, range_item};
ghost use Rattle.dwarf_scopes.specs.calls.Knowing.{Sectioned, Entered, place_at, held_from, AreBases};
ghost use Rattle.dwarf_scopes.specs.calls.Knowing.{AreTabled, is_held, said_in};
ghost use Rattle.dwarf_scopes.specs.inner.Bases as definitions;

use crate::kinds::{ListKind, ListWay};
use crate::known::{ListPlace, is_same_way, number_of};
use crate::steps::{Range, Steps};
use causes::NoMemory;
use dwarf_info::Sections5;
use dwarf_loc::{ListEntry, Said};
use pm_text::Items;
use std::alloc::Global;
use std::collections::BTreeMap;
use wasm_bytes::Reader;

/// From which bases a list says something of an address.
#[derive(Drop)]
pub struct BaseTable {
    pub way: ListWay,
    /// The offset in the section.
    pub at: usize,
    /// How many entries were read for it.
    pub entries: usize,
    /// The bases; none where the list can't be read up to its end mark.
    pub bases: Option<Steps>,
}

/// The tables of lists that were asked from several bases.
#[derive(Drop)]
pub struct BaseTables {
    /// By numbers of the places; each says what it is of.
    pub tables: BTreeMap<u128, BaseTable>,
    /// From which base a list was asked first.
    pub asked: BTreeMap<u128, u32>,
    /// How many entries were read for tables.
    pub read: usize,
    pub alloc: Global,
}

impl BaseTables {
    /// No list was asked yet.
    pub fn new(alloc: Global) -> Self
        ensures { (s : SectionBytes5) (address : ℕ)
            → AreTabled (range_section s) (range_item s) address result }
    {
        BaseTables {
            tables: BTreeMap::new(alloc),
            asked: BTreeMap::new(alloc),
            read: 0,
            alloc,
        }
    }
}

/// All bases, or none.
fn any_if(all: bool) -> Range
    ensures { result ≡ definitions.any_if all }
{
    if all {
        Range {
            first: 0,
            end: 0x1_0000_0000,
            index: 0,
        }
    } else {
        Range {
            first: 0,
            end: 0,
            index: 0,
        }
    }
}

/// The bases from one on up to but not including another one.
fn between(first: u64, end: u64) -> Range
    ensures { result ≡ definitions.between first end }
{
    match u32::try_from(first) {
        Ok(first) => Range {
            first,
            end: i128::from(end),
            index: 0,
        },
        Err(_) => any_if(false),
    }
}

/// The bases from which these offsets hold an address.
fn bases_of_offsets(address: u32, begin: u64, end: u64) -> Range
    ensures { result ≡ definitions.bases_of_offsets address begin end }
{
    let behind = u64::from(address) + 1;
    between(behind.saturating_sub(end), behind.saturating_sub(begin))
}

/// Whether a list of one entry says something of an address.
fn counts<T: Copy + Drop>(address: u32, base: u32, entry: ListEntry<T>) -> bool
    ensures { result ≡ definitions.counts address base entry }
{
    let said = Said::nothing().behind(address, base, entry);
    said.chosen().is_some()
}

/// The bases from which an entry says something of an address, in front of which none is selected.
fn bases_of_first<T: Copy + Drop>(address: u32, entry: ListEntry<T>) -> Range
    ensures { result ≡ definitions.bases_of_first address entry }
{
    match entry {
        ListEntry::Base(_) => any_if(false),
        ListEntry::FromBase {
            begin,
            end,
            what: _,
        } => bases_of_offsets(address, begin, end),
        ListEntry::Between { begin, end, what } => {
            any_if(counts(address, 0, ListEntry::Between { begin, end, what }))
        }
        ListEntry::Lasting {
            begin,
            length,
            what,
        } => any_if(counts(
            address,
            0,
            ListEntry::Lasting {
                begin,
                length,
                what,
            },
        )),
        ListEntry::Otherwise(_) => any_if(true),
    }
}

/// The bases of a list from which one of its entries says something of an address, in front of which
/// this one is selected, if any.
fn bases_of<T: Copy + Drop>(address: u32, selected: Option<u32>, entry: ListEntry<T>) -> Range
    ensures { result ≡ definitions.bases_of address selected entry }
{
    match selected {
        Some(base) => any_if(counts(address, base, entry)),
        None => bases_of_first(address, entry),
    }
}

/// The base that is selected behind an entry.
fn selected_behind<T>(selected: Option<u32>, entry: &ListEntry<T>) -> Option<u32>
    ensures { result ≡ definitions.selected_behind selected entry.now }
{
    match entry {
        ListEntry::Base(base) => Some(*base),
        ListEntry::FromBase { .. } => selected,
        ListEntry::Between { .. } => selected,
        ListEntry::Lasting { .. } => selected,
        ListEntry::Otherwise(_) => selected,
    }
}

/// Appends the bases of each entry of a list. It says whether the list can be read up to its end
/// mark, or nothing where it has more entries than so many.
fn read_bases<K: ListKind>(
    sections: &Sections5<'_>,
    address: u32,
    way: ListWay,
    start: usize,
    room: usize,
    ranges: &mut Items<Range>,
) -> Result<Option<bool>, NoMemory>
    requires inside { start ≤ length (K.section sections.now way) }
    requires none { ranges.old ≡ [] }
    ensures { IfOk result (λ read. IfSome read (λ whole. definitions.IsBases
        (K.section sections.now) (K.item sections.now) address way start None
        (if whole then Some ranges.new else None))) }
{
    let section = K::section(sections, way);
    let mut reader = Reader::starting_at(section, start);
    let mut selected = None;
    'entries: loop {
        // The place is inside its block, so that fewer bytes are left behind it.
        let _at = reader.at();
        if ranges.len() >= room {
            return Ok(None);
        }
        let read = K::entry(sections, way, &mut reader);
        match read {
            Ok(Some(entry)) => {
                let behind = selected_behind(selected, &entry);
                let range = bases_of(address, selected, entry);
                ranges.push(range)?;
                selected = behind;
            }
            Ok(None) => return Ok(Some(true)),
            Err(_) => return Ok(Some(false)),
        }
    }
}

/// The table of a list inside the section, unless it has more entries than so many. Their bases are
/// kept meanwhile.
fn table_within<K: ListKind>(
    alloc: Global,
    sections: &Sections5<'_>,
    address: u32,
    place: ListPlace,
    room: usize,
    ranges: &mut Items<Range>,
) -> Result<Option<BaseTable>, NoMemory>
    requires inside { place.at ≤ length (K.section sections.now place.way) }
    requires none { ranges.old ≡ [] }
    ensures { IfOk result (λ made. IfSome made
        (AreBases (K.section sections.now) (K.item sections.now) address)) }
{
    let way = place.way;
    let at = place.at;
    let read = read_bases::<K>(sections, address, way, at, room, ranges)?;
    let Some(whole) = read else {
        return Ok(None);
    };
    let entries = ranges.len();
    if !whole {
        return Ok(Some(BaseTable {
            way,
            at,
            entries,
            bases: None,
        }));
    }
    let steps = Steps::of(alloc, ranges.as_slice())?;
    Ok(Some(BaseTable {
        way,
        at,
        entries,
        bases: Some(steps),
    }))
}

/// The table of a list, unless it has more entries than so many.
fn table_of<K: ListKind>(
    alloc: Global,
    sections: &Sections5<'_>,
    address: u32,
    place: ListPlace,
    room: usize,
) -> Result<Option<BaseTable>, NoMemory>
    ensures { IfOk result (λ made. IfSome made
        (AreBases (K.section sections.now) (K.item sections.now) address)) }
{
    let section = K::section(sections, place.way);
    if place.at > section.len() {
        return Ok(Some(BaseTable {
            way: place.way,
            at: place.at,
            entries: 0,
            bases: None,
        }));
    }
    let mut ranges = Items::new(alloc);
    let table = table_within::<K>(alloc, sections, address, place, room, &mut ranges);
    drop(ranges);
    table
}

/// A number for each list.
fn list_number(place: ListPlace) -> u128 {
    number_of(ListPlace { base: 0, ..place })
}

/// Whether a list was asked from another base before.
fn is_asked_again(asked: &mut BTreeMap<u128, u32>, place: ListPlace) -> Result<bool, NoMemory> {
    let number = list_number(place);
    let first = asked.get(&number).copied();
    match first {
        Some(base) => Ok(base != place.base),
        None => {
            match asked.insert(number, place.base) {
                Ok(_) => Ok(false),
                Err(_) => Err(NoMemory),
            }
        }
    }
}

/// Keeps a table, if one was made. If none was, no further one is, so that all of them are made of
/// no more entries than there is room for.
fn keep_table<T: Copy + Drop>(
    bases: &mut BaseTables,
    number: u128,
    made: Option<BaseTable>,
) -> Result<(), NoMemory>
    ensures { (section : Sectioned) (item : Entered T) (address : ℕ)
        → AreTabled section item address bases.old
        → IfSome made (AreBases section item address)
        → AreTabled section item address bases.new }
{
    match made {
        Some(table) => {
            bases.read = bases.read.saturating_add(table.entries);
            match bases.tables.insert(number, table) {
                Ok(replaced) => {
                    drop(replaced);
                    Ok(())
                }
                Err(failed) => {
                    drop(failed);
                    Err(NoMemory)
                }
            }
        }
        None => {
            bases.read = usize::MAX;
            Ok(())
        }
    }
}

/// Makes the table of a list that has none yet, as long as there is room for it: of all lists as many
/// entries are read as a section of entries of two bytes holds.
fn make_table<K: ListKind>(
    sections: &Sections5<'_>,
    address: u32,
    place: ListPlace,
    bases: &mut BaseTables,
) -> Result<(), NoMemory>
    requires right { AreTabled (K.section sections.now) (K.item sections.now) address bases.old }
    ensures right { AreTabled (K.section sections.now) (K.item sections.now) address bases.new }
{
    let number = list_number(place);
    if bases.tables.get(&number).is_some() {
        return Ok(());
    }
    let most = K::section(sections, place.way).len() / 2;
    let room = most.saturating_sub(bases.read);
    match table_of::<K>(bases.alloc, sections, address, place, room) {
        Ok(made) => keep_table::<K::What>(bases, number, made),
        Err(e) => Err(e),
    }
}

/// Makes the table of a list where it was asked from another base before.
fn make_table_again<K: ListKind>(
    sections: &Sections5<'_>,
    address: u32,
    place: ListPlace,
    bases: &mut BaseTables,
) -> Result<(), NoMemory>
    requires right { AreTabled (K.section sections.now) (K.item sections.now) address bases.old }
    ensures right { AreTabled (K.section sections.now) (K.item sections.now) address bases.new }
{
    if is_asked_again(&mut bases.asked, place)? {
        return make_table::<K>(sections, address, place, bases);
    }
    Ok(())
}

/// Whether a table is of the list at a place.
fn is_of(table: &BaseTable, place: ListPlace) -> bool
    ensures { result ≡ true → place_at table.now place.base ≡ place }
{
    is_same_way(table.way, place.way) && table.at == place.at
}

fn held_from(bases: &Option<Steps>, base: u32) -> bool
    ensures { result ≡ held_from bases.now base }
{
    match bases {
        Some(steps) => steps.at(base).is_some(),
        None => false,
    }
}

/// Whether the list at a place says something of the address, where it has a table.
fn held_by_table<T: Copy + Drop>(bases: &BaseTables, place: ListPlace) -> Option<bool>
    ensures { (section : Sectioned) (item : Entered T) (address : ℕ)
        → AreTabled section item address bases.now
        → IfSome result (λ held. held ≡ is_held (said_in section item address place)) }
{
    if let Some(table) = bases.tables.get(&list_number(place)) {
        if is_of(table, place) {
            return Some(held_from(&table.bases, place.base));
        }
    }
    None
}

/// Whether the list at a place says something of the address, where it was asked from another base
/// before, as far as there is room for tables.
pub fn held_by_bases<K: ListKind>(
    sections: &Sections5<'_>,
    address: u32,
    place: ListPlace,
    bases: &mut BaseTables,
) -> Result<Option<bool>, NoMemory>
    requires right { AreTabled (K.section sections.now) (K.item sections.now) address bases.old }
    ensures right { AreTabled (K.section sections.now) (K.item sections.now) address bases.new }
    ensures is { IfOk result (λ o. IfSome o (λ held. held ≡ is_held
        (said_in (K.section sections.now) (K.item sections.now) address place))) }
{
    match make_table_again::<K>(sections, address, place, bases) {
        Ok(()) => Ok(held_by_table::<K::What>(bases, place)),
        Err(e) => Err(e),
    }
}
