//! What stands in the structures and enumerations of units, by the offsets of their entries (DWARF 4
//! sections 5.5.6, 5.5.9 and 5.7).

ghost use Rattle.std.specs.Prelude.{◌≡◌, ◌≤◌, ◌<◌, ◌^◌, ◌++◌, ◌∷◌, [], List, length, filter, Some, IfOk};
ghost use Rattle.std.specs.Prelude.{OnOk, IfSome, option_copied, if◌then◌else◌};
ghost use Rattle.dwarf_info.specs.declared.entry.Unit.{Unit as UnitTree};
ghost use Rattle.dwarf_info.specs.declared.entry.UnitAnswer.{UnitAnswer};
ghost use Rattle.dwarf_entries.specs.Standing.{standing_in, standing_at, entries_inside};
ghost use Rattle.dwarf_types.specs.calls.Inside.{AreInside, picked};
ghost use Rattle.dwarf_types.specs.calls.Contents.{AreContents, AreContentsIn, AreContentsOf, is_content, stands_in};
ghost use Rattle.dwarf_types.specs.calls.Numbers.{AreFirstOf};

use crate::class::{Class, class_of};
use crate::entry_range::{EntryRange, range_inside};
use crate::enumerators::Enumerators;
use crate::offsets::keep;
use crate::shallow::is_shallow;
use causes::NoMemory;
use dwarf_entries::names::BYTE_SIZE;
use dwarf_entries::tags::MEMBER;
use dwarf_entries::{LONGEST_CHAIN, Standing, is_child, natural, standing_at, type_entry};
use dwarf_info::{Entry, Unit, UnitAnswer, Units};
use pm_text::Items;
use std::alloc::Global;
use std::collections::BTreeMap;

/// The tag of a variant part.
pub const VARIANT_PART: u64 = 0x33;

/// So few entries are read again by each who asks for an enumerator.
const FEW_ENTRIES: u32 = 16;

/// The members and variant parts among the children of a structure: which entries of its unit stand
/// in it, and the positions of these among them.
#[derive(Drop)]
pub struct MemberPositions {
    pub(crate) range: EntryRange,
    pub(crate) positions: Items<u32>,
}

/// What stands in structures and enumerations and is told of them, by the offsets of their entries:
/// the members and variant parts among the children of a structure, and the first enumerator of each
/// number. It is asked with the units that it was made of, and borrows nothing of them. One that is
/// left out is no mistake: the entries in it are read again by each who asks.
#[derive(Drop)]
pub struct Structures {
    pub(crate) members: BTreeMap<u32, MemberPositions>,
    pub(crate) numbers: BTreeMap<u32, Enumerators>,
}

/// Whether an entry is a member or a variant part, and a child of one of this depth.
fn is_content(entry: &Entry<'_>, depth: u32) -> bool
    ensures { result ≡ is_content depth entry.now }
{
    is_child(entry, depth, MEMBER) || is_child(entry, depth, VARIANT_PART)
}

/// Adds the position of an entry behind all others, if it is a member or a variant part, and a child
/// of one of this depth.
fn push_content(
    positions: &mut Items<u32>,
    entry: &Entry<'_>,
    position: u32,
    depth: u32,
) -> Result<(), NoMemory>
    ensures { OnOk result (positions.new
        ≡ positions.old ++ (if is_content depth entry.now then position ∷ [] else [])) }
{
    if !is_content(entry, depth) {
        return Ok(());
    }
    positions.push(position)
}

/// The positions of the members and variant parts among entries that are children of one of this
/// depth.
#[tactic(auto, using(crate::proofs::ContentLaws::all_told))]
fn contents_among(alloc: Global, entries: &[Entry<'_>], depth: u32) -> Result<Items<u32>, NoMemory>
    requires { length entries.now < 2 ^ 32 }
    ensures { IfOk result (λ positions. (u : UnitTree)
        → picked positions (standing_in u entries.now)
        ≡ filter (stands_in depth) (standing_in u entries.now)) }
{
    let mut positions = Items::new(alloc);
    'entries: for (number, entry) in entries.iter().enumerate() {
        push_content(&mut positions, entry, number as u32, depth)?;
    }
    Ok(positions)
}

/// The members and variant parts among the children of an entry, in which the entries of a range
/// stand.
#[tactic(auto, using(crate::proofs::ContentLaws::contents_found))]
fn members_of<'r, 'a>(
    alloc: Global,
    standing: &Standing<'r, 'a>,
    range: EntryRange,
) -> Result<MemberPositions, NoMemory>
    requires range { AreInside standing.now range }
    requires few { length (entries_inside standing.now) < 2 ^ 32 }
    ensures { IfOk result (AreContentsIn standing.now) }
{
    match contents_among(alloc, standing.inside(), standing.entry().depth) {
        Ok(positions) => Ok(MemberPositions { range, positions }),
        Err(NoMemory) => Err(NoMemory),
    }
}

/// Adds what stands in the structure at an offset, where that is little of what stands there: all
/// that is kept takes less than the entries.
fn add_structure<'r, 'a>(
    alloc: Global,
    units: &'r Units<'a>,
    at: u32,
    structures: &mut Structures,
) -> Result<(), NoMemory>
    requires { AreContents units.now structures.old }
    ensures { OnOk result (AreContents units.now structures.new) }
{
    let Some(standing) = standing_at(units, at) else {
        return Ok(());
    };
    let Some(range) = range_inside(units, at, &standing) else {
        return Ok(());
    };
    match members_of(alloc, &standing, range) {
        Ok(members) => {
            if members.positions.len() >= (range.count / 8) as usize {
                return Ok(());
            }
            keep(&mut structures.members, at, members)
        }
        Err(NoMemory) => Err(NoMemory),
    }
}

/// The size that a type says, or else the first of the types that it stands on, of at most so many.
fn said_size<'r, 'a>(units: &'r Units<'a>, most: u32, entry: &'r Entry<'a>) -> Option<u64> {
    if most == 0 {
        return None;
    }
    let attributes = &entry.attributes;
    if let Some(size) = natural(attributes, BYTE_SIZE) {
        return Some(size);
    }
    let next = type_entry(units, attributes)?;
    said_size(units, most - 1, next.entry())
}

/// The size that an enumeration is most likely asked for with, in bytes, where it is at most 8.
fn short_size<'r, 'a>(units: &'r Units<'a>, entry: &'r Entry<'a>) -> Option<u64>
    ensures { IfSome result (λ size. size ≤ 8) }
{
    let size = said_size(units, LONGEST_CHAIN, entry)?;
    if size <= 8 { Some(size) } else { None }
}

/// Adds the enumerators of the enumeration at an offset, where these may be many.
fn add_enumeration<'r, 'a>(
    alloc: Global,
    units: &'r Units<'a>,
    at: u32,
    structures: &mut Structures,
) -> Result<(), NoMemory>
    requires { AreContents units.now structures.old }
    ensures { OnOk result (AreContents units.now structures.new) }
{
    let Some(standing) = standing_at(units, at) else {
        return Ok(());
    };
    let Some(size) = short_size(units, standing.entry()) else {
        return Ok(());
    };
    let Some(range) = range_inside(units, at, &standing) else {
        return Ok(());
    };
    if range.count <= FEW_ENTRIES {
        return Ok(());
    }
    match Enumerators::of(alloc, &standing, range, size) {
        Ok(enumerators) => keep(&mut structures.numbers, at, enumerators),
        Err(NoMemory) => Err(NoMemory),
    }
}

/// Adds what stands in an entry behind which these stand, if it is that of a structure or of an
/// enumeration, and not too many levels stand in it.
fn add_entry<'r, 'a>(
    alloc: Global,
    units: &'r Units<'a>,
    entry: &Entry<'_>,
    behind: &[Entry<'_>],
    structures: &mut Structures,
) -> Result<(), NoMemory>
    requires { AreContents units.now structures.old }
    ensures { OnOk result (AreContents units.now structures.new) }
{
    let class = class_of(entry.tag);
    if class != Class::Members && class != Class::Enumeration {
        return Ok(());
    }
    if !is_shallow(entry, behind) {
        return Ok(());
    }
    match class {
        Class::Members => add_structure(alloc, units, entry.at, structures),
        _ => add_enumeration(alloc, units, entry.at, structures),
    }
}

/// Adds what stands in the structures and enumerations among entries.
fn add_entries<'r, 'a>(
    alloc: Global,
    units: &'r Units<'a>,
    entries: &[Entry<'_>],
    structures: &mut Structures,
) -> Result<(), NoMemory>
    requires { AreContents units.now structures.old }
    ensures { OnOk result (AreContents units.now structures.new) }
{
    let mut left = entries;
    'entries: while let [entry, behind @ ..] = left {
        add_entry(alloc, units, entry, behind, structures)?;
        left = behind;
    }
    Ok(())
}

impl MemberPositions {
    /// Which entries of its unit stand in the structure.
    pub fn range(&self) -> EntryRange
        ensures { result ≡ self.now.range }
    {
        self.range
    }

    /// The positions among these of what is told of it, in the order of the section.
    pub fn positions(&self) -> &[u32]
        ensures { result.now ≡ self.now.positions }
    {
        self.positions.as_slice()
    }
}

impl Structures {
    /// Those of the units.
    pub fn of(alloc: Global, units: &Units<'_>) -> Result<Self, NoMemory>
        ensures { IfOk result (AreContents units.now) }
    {
        let mut structures = Structures {
            members: BTreeMap::new(alloc),
            numbers: BTreeMap::new(alloc),
        };
        for answer in units.as_slice() {
            if let UnitAnswer::Tree(unit) = answer {
                add_entries(alloc, units, unit.entries.as_slice(), &mut structures)?;
            }
        }
        Ok(structures)
    }

    /// What stands in the structure at an offset, where it is known.
    #[tactic(auto, using(crate::proofs::KeptLaws::contents_got))]
    pub(crate) fn contents(&self, at: u32) -> Option<&MemberPositions>
        ensures { (units : List UnitAnswer) → AreContents units self.now
            → IfSome (option_copied result) (AreContentsOf (standing_at units at)) }
    {
        self.members.get(&at)
    }

    /// The enumerators of the enumeration at an offset, where they are known.
    #[tactic(auto, using(crate::proofs::KeptLaws::numbers_got))]
    pub(crate) fn enumerators(&self, at: u32) -> Option<&Enumerators>
        ensures { (units : List UnitAnswer) → AreContents units self.now
            → IfSome (option_copied result) (AreFirstOf (standing_at units at)) }
    {
        self.numbers.get(&at)
    }
}
