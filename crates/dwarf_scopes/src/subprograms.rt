//! The subprograms of all units: gathered once where many addresses are looked up, and gone through
//! for a single one.

ghost use Rattle.std.specs.Prelude.{◌≡◌, ◌++◌, Some, OnOk, IfOk, find, flat_map, drop, slice_get, unwrap_or};
ghost use Rattle.dwarf_entries.specs.Standing.{Standing as Stands, standing, standing_in, of_unit};
ghost use Rattle.dwarf_scopes.specs.Scopes as scopes;
ghost use Rattle.dwarf_scopes.specs.calls.Knowing.{AreRight};
ghost use Rattle.dwarf_scopes.specs.calls.Levels.{AreLevels, IsLeveled};
ghost use Rattle.dwarf_scopes.specs.calls.Tabled.{first_standing, placed_in};
ghost use Rattle.dwarf_scopes.specs.inner.Picks.{is_kept, kept_of, kept, inlined_from};

use crate::asked::{KnownRanges, no_ranges};
use crate::levels::UnitLevels;
use crate::ranges::holds_by_known;
use crate::scopes::{inlined_by, inlined_in, is_removed};
use crate::variables::{entries_behind, first_entries};
use causes::NoMemory;
use dwarf_entries::tags::SUBPROGRAM;
use dwarf_entries::{Pick, Standing, push_picked};
use dwarf_info::{Entry, Sections5, Unit, UnitAnswer};
use pm_text::Items;
use std::alloc::Global;

/// Whether an entry is a subprogram that is not removed.
pub fn is_kept(standing: &Standing<'_, '_>) -> bool
    ensures { result ≡ is_kept standing.now }
{
    standing.entry().tag == SUBPROGRAM && !is_removed(standing)
}

/// The subprograms that are not removed.
#[derive(Drop)]
struct Kept {}

impl Pick for Kept {
    ghost picks = { λ p. is_kept };

    fn picks(&self, standing: &Standing<'_, '_>) -> bool {
        is_kept(standing)
    }
}

fn push_kept<'r, 'a>(
    answer: &'r UnitAnswer<'a>,
    found: &mut Items<Standing<'r, 'a>>,
) -> Result<(), NoMemory>
    ensures { OnOk result (found.new ≡ found.old ++ kept_of answer.now) }
{
    match answer {
        UnitAnswer::Tree(unit) => push_picked(&Kept {}, unit, unit.entries.as_slice(), found),
        UnitAnswer::Unreadable { section: _, at: _ } => Ok(()),
    }
}

pub fn all_kept<'r, 'a>(
    alloc: Global,
    units: &'r [UnitAnswer<'a>],
) -> Result<Items<Standing<'r, 'a>>, NoMemory>
    ensures { IfOk result (λ xs. xs ≡ kept units.now) }
{
    let mut found = Items::new(alloc);
    for answer in units {
        push_kept(answer, &mut found)?;
    }
    Ok(found)
}

/// What stands at an address.
#[derive(Drop)]
pub struct Found<'r, 'a> {
    pub subprogram: Option<Standing<'r, 'a>>,
    /// The inlined subroutines that hold the address, the innermost first.
    pub inlined: Items<Standing<'r, 'a>>,
}

impl<'r, 'a> Found<'r, 'a> {
    /// By the subprogram there.
    pub(crate) fn of(
        alloc: Global,
        sections: &Sections5<'a>,
        address: u32,
        subprogram: Option<Standing<'r, 'a>>,
    ) -> Result<Self, NoMemory>
        ensures subprogram { IfOk result (λ x. x.subprogram ≡ subprogram.entry) }
        ensures inlined { IfOk result (λ x. x.inlined
            ≡ inlined_from sections.now address subprogram.entry) }
    {
        let Some(subprogram) = subprogram else {
            return Ok(Found {
                subprogram: None,
                inlined: Items::new(alloc),
            });
        };
        match inlined_in(alloc, sections, address, subprogram.copied()) {
            Ok(inlined) => Ok(Found {
                subprogram: Some(subprogram),
                inlined,
            }),
            Err(e) => Err(e),
        }
    }
}

/// How many entries stand in the entry of a number.
fn count_of(levels: &UnitLevels, number: usize) -> usize
    ensures { result ≡ unwrap_or (slice_get levels.now.counts number) 0 }
{
    match levels.counts.get(number) {
        Some(count) => *count as usize,
        None => 0,
    }
}

/// What stands at an address, by the subprogram there, which has this number in its unit.
fn found_by_levels<'r, 'a>(
    alloc: Global,
    sections: &Sections5<'a>,
    address: u32,
    unit: &'r Unit<'a>,
    number: usize,
    levels: &UnitLevels,
) -> Result<Found<'r, 'a>, NoMemory>
    requires { AreLevels unit.now.entries levels.now }
    ensures subprogram { IfOk result (λ x. x.subprogram
        ≡ first_standing unit.now (drop number unit.now.entries)) }
    ensures inlined { IfOk result (λ x. x.inlined ≡ inlined_from sections.now address
        (first_standing unit.now (drop number unit.now.entries))) }
{
    let entries = unit.entries.as_slice();
    if number >= entries.len() {
        return Ok(Found {
            subprogram: None,
            inlined: Items::new(alloc),
        });
    }
    let entry = &entries[number];
    let behind = entries_behind(entries, number);
    let count = count_of(levels, number);
    let inside = first_entries(behind, count);
    let subprogram = Standing::new(unit, entry, behind);
    match inlined_by(
        alloc,
        sections,
        address,
        subprogram.copied(),
        levels,
        number + 1,
        inside,
    ) {
        Ok(inlined) => Ok(Found {
            subprogram: Some(subprogram),
            inlined,
        }),
        Err(e) => Err(e),
    }
}

/// The same in any unit, of which the levels may be known.
pub fn found_in_unit<'r, 'a>(
    alloc: Global,
    sections: &Sections5<'a>,
    address: u32,
    answer: &'r UnitAnswer<'a>,
    number: usize,
    levels: &UnitLevels,
) -> Result<Found<'r, 'a>, NoMemory>
    requires { IsLeveled answer.now levels.now }
    ensures subprogram { IfOk result (λ x. x.subprogram
        ≡ placed_in (Some answer.now) number) }
    ensures inlined { IfOk result (λ x. x.inlined ≡ inlined_from sections.now address
        (placed_in (Some answer.now) number)) }
{
    let UnitAnswer::Tree(unit) = answer else {
        return Ok(Found {
            subprogram: None,
            inlined: Items::new(alloc),
        });
    };
    found_by_levels(alloc, sections, address, unit, number, levels)
}

/// Whether an entry is a subprogram that holds an address and is not removed, where lists were
/// asked before.
#[tactic(auto, using(crate::proofs::Filters::kept_held, crate::proofs::Filters::left_out))]
fn is_subprogram_at(
    sections: &Sections5<'_>,
    address: u32,
    standing: &Standing<'_, '_>,
    lists: &mut KnownRanges,
) -> Result<bool, NoMemory>
    requires right { AreRight sections.now address lists.old }
    ensures is { IfOk result (λ held. held
        ≡ scopes.is_subprogram_at sections.now address standing.now) }
    ensures right { AreRight sections.now address lists.new }
{
    if is_kept(standing) {
        holds_by_known(sections, address, standing, lists)
    } else {
        Ok(false)
    }
}

/// The first one among the entries of a unit.
fn first_of<'r, 'a>(
    sections: &Sections5<'a>,
    address: u32,
    unit: &'r Unit<'a>,
    entries: &'r [Entry<'a>],
    lists: &mut KnownRanges,
) -> Result<Option<Standing<'r, 'a>>, NoMemory>
    requires right { AreRight sections.now address lists.old }
    ensures is { IfOk result (λ x. x ≡ find (scopes.is_subprogram_at sections.now address)
        (standing_in unit.now entries.now)) }
    ensures right { AreRight sections.now address lists.new }
{
    let mut left = entries;
    'entries: while let [entry, behind @ ..] = left {
        let standing = Standing::new(unit, entry, behind);
        match is_subprogram_at(sections, address, &standing, lists) {
            Ok(false) => left = behind,
            Ok(true) => return Ok(Some(standing)),
            Err(e) => return Err(e),
        }
    }
    Ok(None)
}

fn first_in<'r, 'a>(
    sections: &Sections5<'a>,
    address: u32,
    answer: &'r UnitAnswer<'a>,
    lists: &mut KnownRanges,
) -> Result<Option<Standing<'r, 'a>>, NoMemory>
    requires right { AreRight sections.now address lists.old }
    ensures is { IfOk result (λ x. x ≡ find (scopes.is_subprogram_at sections.now address)
        (of_unit answer.now)) }
    ensures right { AreRight sections.now address lists.new }
{
    let UnitAnswer::Tree(unit) = answer else {
        return Ok(None);
    };
    first_of(sections, address, unit, unit.entries.as_slice(), lists)
}

/// The first one among the entries of all units.
fn first_among<'r, 'a>(
    sections: &Sections5<'a>,
    address: u32,
    units: &'r [UnitAnswer<'a>],
    lists: &mut KnownRanges,
) -> Result<Option<Standing<'r, 'a>>, NoMemory>
    requires { AreRight sections.now address lists.old }
    ensures { IfOk result (λ x. x ≡ find (scopes.is_subprogram_at sections.now address)
        (standing units.now)) }
{
    for answer in units {
        match first_in(sections, address, answer, lists) {
            Ok(None) => {}
            Ok(Some(subprogram)) => return Ok(Some(subprogram)),
            Err(e) => return Err(e),
        }
    }
    Ok(None)
}

/// The first subprogram of the section that holds an address and is not removed. It goes through
/// the entries up to this one, and gathers none.
#[tactic(auto, unfolding(crate::specs::Scopes::subprogram_at))]
pub fn subprogram_at<'r, 'a>(
    alloc: Global,
    sections: &Sections5<'a>,
    units: &'r [UnitAnswer<'a>],
    address: u32,
) -> Result<Option<Standing<'r, 'a>>, NoMemory>
    ensures { IfOk result (λ x. x ≡ scopes.subprogram_at sections.now units.now address) }
{
    let mut lists = no_ranges(alloc);
    let first = first_among(sections, address, units, &mut lists);
    drop(lists);
    first
}

/// What stands at an address. Where many are looked up, `SubprogramTable` finds it faster.
pub fn found_at<'r, 'a>(
    alloc: Global,
    sections: &Sections5<'a>,
    units: &'r [UnitAnswer<'a>],
    address: u32,
) -> Result<Found<'r, 'a>, NoMemory>
    ensures subprogram { IfOk result (λ x. x.subprogram
        ≡ scopes.subprogram_at sections.now units.now address) }
    ensures inlined { IfOk result (λ x. x.inlined
        ≡ scopes.inlined_at sections.now units.now address) }
{
    let subprogram = subprogram_at(alloc, sections, units, address)?;
    Found::of(alloc, sections, address, subprogram)
}
