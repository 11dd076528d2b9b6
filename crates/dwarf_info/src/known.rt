//! What the pairs of rows are, by where they begin. A pair is read once, however many rows have it.

ghost use Rattle.std.specs.Prelude.{◌≡◌, ◌≤◌, ◌+◌, ℕ, List, length, IfOk, OnOk};
ghost use Rattle.std.specs.Ordering.{nat_cmp};
ghost use Rattle.std.specs.BTreeMap.{get};
ghost use Rattle.dwarf_info.specs.Sections.{greatest_section};
ghost use Rattle.dwarf_info.specs.calls.Pairs.{Pair, IsRight, Knows, KnowsAll, IsInFront};

use crate::form::Slot;
use crate::marks::{Mark, marked_pairs, pairs_of};
use crate::sections::Sections5;
use crate::slots::{SlotLists, shared};
use crate::version::UnitVersion;
use causes::NoMemory;
use std::alloc::Global;
use std::collections::BTreeMap;
use std::rc::Rc;
use wasm_bytes::Reader;

/// What pairs are up to their end mark.
#[derive(Clone, Copy)]
pub enum PairsAt {
    /// The list of this number; the end mark ends at this offset.
    Listed { list: u32, end: u32 },
    /// Nothing that has a reading stands at this offset.
    Fault(usize),
}

/// Pairs that are read one in front of the other.
#[derive(Drop)]
pub struct GrowingPairs {
    pub lists: SlotLists,
    /// What the pairs from an offset on are, where it is known.
    pub known: BTreeMap<u64, PairsAt>,
}

/// Pairs that were read, whose lists rows and entries share.
#[derive(Drop)]
pub struct KnownPairs {
    pub lists: Rc<SlotLists>,
    /// What the pairs of a row that begin at an offset are, where it is known.
    pub known: BTreeMap<u64, PairsAt>,
}

impl GrowingPairs {
    /// What the pairs from an offset on are, where it is known.
    fn kept_at(&self, at: u64) -> Option<PairsAt>
        ensures { result ≡ get nat_cmp self.now.known at }
    {
        self.known.get(&at).copied()
    }

    /// Keeps what the pairs from an offset on are.
    fn keep(&mut self, at: u64, pairs: PairsAt) -> Result<(), NoMemory>
        ensures { OnOk result ((pair : Pair) (section : List ℕ)
            → Knows pair section self.old.lists (get nat_cmp self.old.known)
            → IsRight pair section self.old.lists at pairs
            → Knows pair section self.new.lists (get nat_cmp self.new.known)) }
    {
        match self.known.insert(at, pairs) {
            Ok(_) => Ok(()),
            Err(_) => Err(NoMemory),
        }
    }
}

/// Adds a pair in front of those from another offset on, where these are known.
fn add_pair<'a, V: UnitVersion<'a>>(
    section: &'a [u8],
    growing: &mut GrowingPairs,
    at: usize,
    slot: Slot,
    next: usize,
) -> Result<(), NoMemory>
    requires knows { Knows V.pair section.now growing.old.lists (get nat_cmp growing.old.known) }
    requires front { IsInFront V.pair section.now at slot next }
    ensures { OnOk result (Knows V.pair section.now growing.new.lists
        (get nat_cmp growing.new.known)) }
{
    match growing.kept_at(next as u64) {
        Some(PairsAt::Listed { list, end }) => {
            let longer = growing.lists.push(slot, list)?;
            let pairs = PairsAt::Listed { list: longer, end };
            growing.keep(at as u64, pairs)
        }
        Some(PairsAt::Fault(fault)) => growing.keep(at as u64, PairsAt::Fault(fault)),
        None => Ok(()),
    }
}

/// Reads the pair at an offset, and keeps what it and those behind it are, where these are known.
fn learn<'a, V: UnitVersion<'a>>(
    section: &'a [u8],
    growing: &mut GrowingPairs,
    at: usize,
) -> Result<(), NoMemory>
    requires short { length section.now ≤ greatest_section }
    requires inside { at ≤ length section.now }
    requires knows { Knows V.pair section.now growing.old.lists (get nat_cmp growing.old.known) }
    ensures { OnOk result (Knows V.pair section.now growing.new.lists
        (get nat_cmp growing.new.known)) }
{
    let mut reader = Reader::starting_at(section, at);
    let pair = V::read_pair(&mut reader);
    let next = reader.at();
    match pair {
        Ok(Some(slot)) => add_pair::<V>(section, growing, at, slot, next),
        Ok(None) => growing.keep(
            at as u64,
            PairsAt::Listed {
                list: 0,
                end: next as u32,
            },
        ),
        Err(fault) => growing.keep(at as u64, PairsAt::Fault(fault.at)),
    }
}

/// Reads the pairs at marked offsets, the last one first.
fn learn_all<'a, V: UnitVersion<'a>>(
    section: &'a [u8],
    marks: &[Mark],
    growing: &mut GrowingPairs,
) -> Result<(), NoMemory>
    requires short { length section.now ≤ greatest_section }
    requires marks { length marks.now ≤ length section.now + 1 }
    requires knows { Knows V.pair section.now growing.old.lists (get nat_cmp growing.old.known) }
    ensures { OnOk result (Knows V.pair section.now growing.new.lists
        (get nat_cmp growing.new.known)) }
{
    let mut left = marks.len();
    'marks: while left > 0 {
        left -= 1;
        if marks[left].pair {
            learn::<V>(section, growing, left)?;
        }
    }
    Ok(())
}

/// Keeps what the pairs of the row at an offset are, where they were learned.
fn keep_row(
    section: &[u8],
    growing: &GrowingPairs,
    at: usize,
    known: &mut BTreeMap<u64, PairsAt>,
) -> Result<(), NoMemory>
    requires { at ≤ length section.now }
    ensures { OnOk result ((pair : Pair) (section : List ℕ)
        → Knows pair section growing.now.lists (get nat_cmp growing.now.known)
        → Knows pair section growing.now.lists (get nat_cmp known.old)
        → Knows pair section growing.now.lists (get nat_cmp known.new)) }
{
    let Ok(Some(start)) = pairs_of(&mut Reader::starting_at(section, at)) else {
        return Ok(());
    };
    let Some(pairs) = growing.kept_at(start) else {
        return Ok(());
    };
    match known.insert(start, pairs) {
        Ok(_) => Ok(()),
        Err(_) => Err(NoMemory),
    }
}

/// What the pairs of rows at marked offsets are, where they were learned. What stands inside of them
/// is not looked up again.
fn known_of_rows(
    alloc: Global,
    section: &[u8],
    growing: &GrowingPairs,
    marks: &[Mark],
) -> Result<BTreeMap<u64, PairsAt>, NoMemory>
    requires marks { length marks.now ≤ length section.now + 1 }
    ensures { IfOk result (λ known. (pair : Pair) (section : List ℕ)
        → Knows pair section growing.now.lists (get nat_cmp growing.now.known)
        → Knows pair section growing.now.lists (get nat_cmp known)) }
{
    let mut known = BTreeMap::new(alloc);
    let mut left = marks.len();
    'marks: while left > 0 {
        left -= 1;
        if marks[left].row {
            keep_row(section, growing, left, &mut known)?;
        }
    }
    Ok(known)
}

/// The pairs that were read, with what is known of rows.
fn shared_pairs(
    alloc: Global,
    all: GrowingPairs,
    known: BTreeMap<u64, PairsAt>,
) -> Result<KnownPairs, NoMemory>
    ensures { IfOk result (λ pairs. (pair : Pair) (section : List ℕ)
        → Knows pair section all.lists (get nat_cmp known)
        → Knows pair section pairs.lists.value (get nat_cmp pairs.known)) }
{
    let GrowingPairs {
        lists,
        known: _learned,
    } = all;
    match shared(alloc, lists) {
        Ok(lists) => Ok(KnownPairs { lists, known }),
        Err(NoMemory) => Err(NoMemory),
    }
}

/// The pairs of rows at marked offsets.
fn pairs_at<'a, V: UnitVersion<'a>>(
    alloc: Global,
    section: &'a [u8],
    marks: &[Mark],
) -> Result<KnownPairs, NoMemory>
    requires short { length section.now ≤ greatest_section }
    requires marks { length marks.now ≤ length section.now + 1 }
    ensures { IfOk result (λ all. Knows V.pair section.now all.lists.value
        (get nat_cmp all.known)) }
{
    let mut growing = GrowingPairs {
        lists: SlotLists::new(alloc),
        known: BTreeMap::new(alloc),
    };
    match learn_all::<V>(section, marks, &mut growing) {
        Ok(()) => match known_of_rows(alloc, section, &growing, marks) {
            Ok(known) => shared_pairs(alloc, growing, known),
            Err(NoMemory) => Err(NoMemory),
        },
        Err(NoMemory) => Err(NoMemory),
    }
}

impl KnownPairs {
    /// The pairs of all rows that the units of these sections have, and maybe others.
    pub fn of<'a, V: UnitVersion<'a>>(
        alloc: Global,
        sections: &Sections5<'a>,
    ) -> Result<Self, NoMemory>
        requires { length sections.now.base.abbreviations ≤ greatest_section }
        ensures { IfOk result (λ all. KnowsAll V.pair sections.now all) }
    {
        let section = sections.abbreviations();
        match marked_pairs::<V>(alloc, sections) {
            Ok(marks) => pairs_at::<V>(alloc, section, marks.as_slice()),
            Err(NoMemory) => Err(NoMemory),
        }
    }

    /// What the pairs of a row that begin at an offset are, where it is known.
    pub fn found_at(&self, at: u64) -> Option<PairsAt>
        ensures { result ≡ get nat_cmp self.now.known at }
    {
        self.known.get(&at).copied()
    }
}
