//! The enumerators of an enumeration by their numbers (DWARF 4 section 5.7).

ghost use Rattle.std.specs.Prelude.{◌≡◌, ◌≤◌, ◌<◌, ◌*◌, ◌^◌, ℕ, pos, length, slice_get, IfOk, OnOk, filter};
ghost use Rattle.std.specs.Prelude.{find, option_and_then};
ghost use Rattle.std.specs.Option.{option_or};
ghost use Rattle.std.specs.Ordering.{nat_cmp};
ghost use Rattle.std.specs.BTreeMap.{get};
ghost use Rattle.dwarf_entries.specs.Standing.{is_child, entries_inside};
ghost use Rattle.dwarf_entries.specs.Tags.{tag_enumerator};
ghost use Rattle.dwarf_types.specs.calls.Inside.{AreInside};
ghost use Rattle.dwarf_types.specs.calls.Numbers.{AreFirstIn, has_key, number_key};
ghost use Rattle.dwarf_types.specs.inner.Firsts.{key_in, own_at};

use crate::entry_range::EntryRange;
use causes::NoMemory;
use dwarf_entries::names::CONST_VALUE;
use dwarf_entries::tags::ENUMERATOR;
use dwarf_entries::{Standing, is_child, number};
use dwarf_info::Entry;
use std::alloc::Global;
use std::collections::BTreeMap;

/// The first enumerator of each number, of an enumeration of this size in bytes: numbers that are
/// the same in so many bytes are one. Each is kept as its position among the entries that stand in
/// the enumeration.
#[derive(Drop)]
pub struct Enumerators {
    pub(crate) size: u64,
    pub(crate) range: EntryRange,
    pub(crate) first: BTreeMap<u64, u32>,
}

/// How many numbers types of this size have.
fn range(size: u64) -> i128
    requires { size ≤ 8 }
    ensures { result ≡ pos (2 ^ (8 * size)) }
{
    1 << (8 * size)
}

/// A number, as those of types of this size are told apart: the one from 0 on that is the same in
/// so many bytes.
#[tactic(auto, using(crate::proofs::FirstLaws::short_key))]
pub fn number_key(size: u64, number: i128) -> u64
    requires { size ≤ 8 }
    ensures { result ≡ number_key size number }
{
    number.rem_euclid(range(size)) as u64
}

/// The number of an enumerator, which is a child of an entry of this depth; None of other entries.
fn key_in(entry: &Entry<'_>, depth: u32, size: u64) -> Option<u64>
    requires { size ≤ 8 }
    ensures { result ≡ key_in depth size entry.now }
{
    if !is_child(entry, depth, ENUMERATOR) {
        return None;
    }
    match number(&entry.attributes, CONST_VALUE) {
        Some(number) => Some(number_key(size, number)),
        None => None,
    }
}

/// Adds the entry at a position behind all others, if it is the first enumerator of its number.
fn add_entry(
    first: &mut BTreeMap<u64, u32>,
    entry: &Entry<'_>,
    position: u32,
    depth: u32,
    size: u64,
) -> Result<(), NoMemory>
    requires { size ≤ 8 }
    ensures { OnOk result ((n : ℕ) → get nat_cmp first.new n
        ≡ option_or (get nat_cmp first.old n) (own_at position (key_in depth size entry.now) n)) }
{
    let Some(key) = key_in(entry, depth, size) else {
        return Ok(());
    };
    if first.contains_key(&key) {
        return Ok(());
    }
    match first.insert(key, position) {
        Ok(_) => Ok(()),
        Err(_) => Err(NoMemory),
    }
}

/// The position of the first enumerator of each number, of those among entries that are children of
/// one of this depth.
#[tactic(auto, using(crate::proofs::FirstLaws::all_first))]
fn first_among(
    alloc: Global,
    entries: &[Entry<'_>],
    depth: u32,
    size: u64,
) -> Result<BTreeMap<u64, u32>, NoMemory>
    requires size { size ≤ 8 }
    requires few { length entries.now < 2 ^ 32 }
    ensures { IfOk result (λ first. (n : ℕ)
        → option_and_then (slice_get entries.now) (get nat_cmp first n)
        ≡ find (has_key size n) (filter (is_child depth tag_enumerator) entries.now)) }
{
    let mut first = BTreeMap::new(alloc);
    'entries: for (number, entry) in entries.iter().enumerate() {
        add_entry(&mut first, entry, number as u32, depth, size)?;
    }
    Ok(first)
}

impl Enumerators {
    /// Those of an enumeration of this size, in which the entries of a range stand. It takes time and
    /// memory by these entries.
    pub(crate) fn of<'r, 'a>(
        alloc: Global,
        standing: &Standing<'r, 'a>,
        range: EntryRange,
        size: u64,
    ) -> Result<Self, NoMemory>
        requires size { size ≤ 8 }
        requires range { AreInside standing.now range }
        requires few { length (entries_inside standing.now) < 2 ^ 32 }
        ensures { IfOk result (AreFirstIn standing.now) }
    {
        match first_among(alloc, standing.inside(), standing.entry().depth, size) {
            Ok(first) => Ok(Enumerators { size, range, first }),
            Err(NoMemory) => Err(NoMemory),
        }
    }

    /// The size of the type in bytes.
    pub fn size(&self) -> u64
        ensures { result ≡ self.now.size }
    {
        self.size
    }

    /// Which entries of its unit stand in the enumeration.
    pub(crate) fn range(&self) -> EntryRange
        ensures { result ≡ self.now.range }
    {
        self.range
    }

    /// The position of the first one of a number.
    pub(crate) fn first(&self, number: i128) -> Option<u32>
        requires { self.now.size ≤ 8 }
        ensures { result ≡ get nat_cmp self.now.first (number_key self.now.size number) }
    {
        let position = self.first.get(&number_key(self.size, number))?;
        Some(*position)
    }
}
