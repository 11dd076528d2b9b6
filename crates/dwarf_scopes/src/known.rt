//! What lists say of one address. Each of their entries is read once for a base that is in force in
//! front of it, however many lists have it.

ghost use Rattle.std.specs.Prelude.{◌≡◌, ◌≤◌, ◌<◌, ◌^◌, ℕ, [], length, true, option_map, IfOk, IfSome};
ghost use Rattle.dwarf_loc.specs.calls.Said.{said_before, chosen_of};
ghost use Rattle.dwarf_scopes.specs.calls.Knowing.{Sectioned, Entered, AreSaid, IsSaid, way_of, place_of, said_in};
ghost use Rattle.dwarf_scopes.specs.inner.Passing.{Leads};

use crate::kinds::{ListKind, ListWay};
use causes::NoMemory;
use dwarf_info::{Sections5, Unit};
use dwarf_loc::{ListEntry, Said, base_behind};
use dwarf5_info::{address_base, list_base};
use pm_text::Items;
use std::alloc::{AllocError, Global};
use std::collections::BTreeMap;
use wasm_bytes::Reader;

/// Where an entry of a list stands, and what it is read by.
#[derive(Clone, Copy)]
pub struct ListPlace {
    pub way: ListWay,
    /// The base in force in front of the entry.
    pub base: u32,
    /// The offset in the section.
    pub at: usize,
}

/// What a list says from a place on; none where it can't be read from there up to its end mark.
#[derive(Copy)]
pub struct KnownList<T> {
    pub place: ListPlace,
    pub said: Option<Said<T>>,
}

impl<T: Copy> Clone for KnownList<T> {
    fn clone(&self) -> Result<Self, AllocError> {
        Ok(*self)
    }
}

/// What lists say from the places that were passed in them.
#[derive(Drop)]
pub struct KnownLists<T> {
    /// By numbers; each says what it is of.
    pub known: BTreeMap<u128, KnownList<T>>,
    pub alloc: Global,
}

impl<T: Copy + Drop> KnownLists<T> {
    /// None was asked yet.
    pub fn new(alloc: Global) -> Self
        ensures { (section : Sectioned) (item : Entered T) (address : ℕ)
            → AreSaid section item address result }
    {
        KnownLists {
            known: BTreeMap::new(alloc),
            alloc,
        }
    }
}

/// An entry that was read, with its place.
#[derive(Drop)]
pub struct PassedEntry<T> {
    pub place: ListPlace,
    pub entry: ListEntry<T>,
}

/// By what the lists of a unit are read.
pub fn way_of(unit: &Unit<'_>) -> ListWay
    ensures { result ≡ way_of unit.now }
{
    ListWay {
        version5: unit.version == 5,
        addresses: address_base(unit),
    }
}

/// The place of the list of a unit at an offset.
pub fn place_of(unit: &Unit<'_>, at: usize) -> ListPlace
    ensures { result ≡ place_of unit.now at }
{
    ListPlace {
        way: way_of(unit),
        base: list_base(unit),
        at,
    }
}

/// Whether lists are read by the same.
pub fn is_same_way(way: ListWay, other: ListWay) -> bool
    ensures { result ≡ true → way ≡ other }
{
    way.version5 == other.version5 && way.addresses == other.addresses
}

/// Whether places are one.
pub fn is_same(place: ListPlace, other: ListPlace) -> bool
    ensures { result ≡ true → place ≡ other }
{
    is_same_way(place.way, other.way) && place.base == other.base && place.at == other.at
}

/// A number for each way.
pub fn way_number(way: ListWay) -> u64
    ensures { result < 2 ^ 33 }
{
    if !way.version5 {
        return 0;
    }
    match way.addresses {
        Some(addresses) => u64::from(addresses) + 2,
        None => 1,
    }
}

/// A number for each place at an offset below 2^32.
pub fn number_of(place: ListPlace) -> u128 {
    let way = u128::from(way_number(place.way));
    let base = u128::from(place.base);
    (way * 0x1_0000_0000 + base) * 0x1_0000_0000 + place.at as u128 % 0x1_0000_0000
}

/// What is known to be said from a place on.
#[tactic(auto, using(crate::proofs::KnownLaws::known_said))]
fn known_at<T: Copy + Drop>(lists: &KnownLists<T>, place: ListPlace) -> Option<Option<Said<T>>>
    ensures { (section : Sectioned) (item : Entered T) (address : ℕ)
        → AreSaid section item address lists.now
        → IfSome result (IsSaid section item address place) }
{
    let known = lists.known.get(&number_of(place)).copied();
    if let Some(known) = known {
        if is_same(known.place, place) {
            return Some(known.said);
        }
    }
    None
}

/// Keeps what a list says.
fn keep<T: Copy + Drop>(lists: &mut KnownLists<T>, list: KnownList<T>) -> Result<(), NoMemory>
    ensures { (section : Sectioned) (item : Entered T) (address : ℕ)
        → AreSaid section item address lists.old
        → IsSaid section item address list.place list.said
        → AreSaid section item address lists.new }
{
    let number = number_of(list.place);
    match lists.known.insert(number, list) {
        Ok(_) => Ok(()),
        Err(_) => Err(NoMemory),
    }
}

/// Reads entries from a place on, up to the end of the list, to where it is known what is said, or
/// to where none has a reading. What was found is of an address.
fn read_entries<K: ListKind>(
    sections: &Sections5<'_>,
    address: u32,
    start: ListPlace,
    lists: &KnownLists<K::What>,
    passed: &mut Items<PassedEntry<K::What>>,
) -> Result<KnownList<K::What>, NoMemory>
    requires right { AreSaid (K.section sections.now) (K.item sections.now) address lists.now }
    requires inside { start.at ≤ length (K.section sections.now start.way) }
    requires none { passed.old ≡ [] }
    ensures led { IfOk result (λ stop. Leads (K.section sections.now) (K.item sections.now)
        passed.new start stop.place) }
    ensures said { IfOk result (λ stop. IsSaid (K.section sections.now) (K.item sections.now)
        address stop.place stop.said) }
{
    let section = K::section(sections, start.way);
    let mut reader = Reader::starting_at(section, start.at);
    let mut base = start.base;
    'entries: loop {
        let at = reader.at();
        let place = ListPlace {
            way: start.way,
            base,
            at,
        };
        if let Some(said) = known_at(lists, place) {
            return Ok(KnownList { place, said });
        }
        let read = K::entry(sections, start.way, &mut reader);
        match read {
            Ok(Some(entry)) => {
                base = base_behind(base, &entry);
                passed.push(PassedEntry { place, entry })?;
            }
            Ok(None) => {
                let said = Some(Said::nothing());
                return Ok(KnownList { place, said });
            }
            Err(_) => return Ok(KnownList { place, said: None }),
        }
    }
}

/// What is said from an entry on, behind which that is said.
fn said_from<T: Copy + Drop>(
    address: u32,
    base: u32,
    entry: ListEntry<T>,
    behind: Option<Said<T>>,
) -> Option<Said<T>>
    ensures { result ≡ option_map (said_before address base entry) behind }
{
    match behind {
        Some(behind) => Some(behind.behind(address, base, entry)),
        None => None,
    }
}

/// Keeps what is said from an entry on, behind which that is said, where less than that is kept.
fn keep_entry<T: Copy + Drop>(
    address: u32,
    room: usize,
    lists: &mut KnownLists<T>,
    passed: PassedEntry<T>,
    behind: Option<Said<T>>,
) -> Result<Option<Said<T>>, NoMemory>
    ensures right { (section : Sectioned) (item : Entered T)
        → AreSaid section item address lists.old
        → IsSaid section item address passed.place
        (option_map (said_before address passed.place.base passed.entry) behind)
        → AreSaid section item address lists.new }
    ensures said { IfOk result (λ said. said
        ≡ option_map (said_before address passed.place.base passed.entry) behind) }
{
    let place = passed.place;
    let said = said_from(address, place.base, passed.entry, behind);
    if lists.known.len() >= room {
        return Ok(said);
    }
    keep(lists, KnownList { place, said }).and(Ok(said))
}

/// Keeps what is said from each of these entries on, behind which a list says this, and hands out
/// what is said from the first one on. No more of them are kept than a section of entries of two
/// bytes holds, so that one that is read from many bases takes no more memory.
fn keep_entries<K: ListKind>(
    sections: &Sections5<'_>,
    address: u32,
    start: ListPlace,
    lists: &mut KnownLists<K::What>,
    passed: &mut Items<PassedEntry<K::What>>,
    stop: KnownList<K::What>,
) -> Result<Option<Said<K::What>>, NoMemory>
    requires right { AreSaid (K.section sections.now) (K.item sections.now) address lists.old }
    requires led { Leads (K.section sections.now) (K.item sections.now) passed.old start
        stop.place }
    requires said { IsSaid (K.section sections.now) (K.item sections.now) address stop.place
        stop.said }
    ensures right { AreSaid (K.section sections.now) (K.item sections.now) address lists.new }
    ensures said { IfOk result
        (IsSaid (K.section sections.now) (K.item sections.now) address start) }
{
    let room = K::section(sections, start.way).len() / 2;
    let mut said = stop.said;
    keep(lists, stop)?;
    'entries: while let Some(last) = passed.pop() {
        let from = keep_entry(address, room, lists, last, said)?;
        said = from;
    }
    Ok(said)
}

/// What a list says of the address from a place on. The entries that are passed up to where it is
/// known are kept meanwhile.
fn said_from_place<K: ListKind>(
    sections: &Sections5<'_>,
    address: u32,
    place: ListPlace,
    lists: &mut KnownLists<K::What>,
    passed: &mut Items<PassedEntry<K::What>>,
) -> Result<Option<Said<K::What>>, NoMemory>
    requires right { AreSaid (K.section sections.now) (K.item sections.now) address lists.old }
    requires inside { place.at ≤ length (K.section sections.now place.way) }
    requires none { passed.old ≡ [] }
    ensures right { AreSaid (K.section sections.now) (K.item sections.now) address lists.new }
    ensures said { IfOk result
        (IsSaid (K.section sections.now) (K.item sections.now) address place) }
{
    let Ok(stop) = read_entries::<K>(sections, address, place, lists, passed) else {
        return Err(NoMemory);
    };
    match keep_entries::<K>(sections, address, place, lists, passed, stop) {
        Ok(said) => keep(lists, KnownList { place, said }).and(Ok(said)),
        Err(e) => Err(e),
    }
}

/// What a list says of the address from a place on; none where it can't be read from there up to its
/// end mark.
fn said_at<K: ListKind>(
    sections: &Sections5<'_>,
    address: u32,
    place: ListPlace,
    lists: &mut KnownLists<K::What>,
) -> Result<Option<Said<K::What>>, NoMemory>
    requires right { AreSaid (K.section sections.now) (K.item sections.now) address lists.old }
    ensures right { AreSaid (K.section sections.now) (K.item sections.now) address lists.new }
    ensures said { IfOk result (λ said. said
        ≡ said_in (K.section sections.now) (K.item sections.now) address place) }
{
    let section = K::section(sections, place.way);
    if place.at > section.len() {
        return Ok(None);
    }
    let mut passed = Items::new(lists.alloc);
    let said = said_from_place::<K>(sections, address, place, lists, &mut passed);
    drop(passed);
    said
}

fn chosen_of<T: Copy + Drop>(said: Option<Said<T>>) -> Option<Option<T>>
    ensures { result ≡ option_map chosen_of said }
{
    match said {
        Some(said) => Some(said.chosen()),
        None => None,
    }
}

/// What the entry of the list of a unit at an offset holds that counts for the address; none where
/// no list stands there.
pub fn chosen_in<K: ListKind>(
    sections: &Sections5<'_>,
    unit: &Unit<'_>,
    address: u32,
    at: u32,
    lists: &mut KnownLists<K::What>,
) -> Result<Option<Option<K::What>>, NoMemory>
    requires right { AreSaid (K.section sections.now) (K.item sections.now) address lists.old }
    ensures right { AreSaid (K.section sections.now) (K.item sections.now) address lists.new }
    ensures chosen { IfOk result (λ chosen. chosen ≡ option_map chosen_of
        (said_in (K.section sections.now) (K.item sections.now) address
        (place_of unit.now at))) }
{
    match said_at::<K>(sections, address, place_of(unit, at as usize), lists) {
        Ok(said) => Ok(chosen_of(said)),
        Err(e) => Err(e),
    }
}
