//! The subprogram at an address, and the scopes and variables that are visible there (DWARF 4
//! sections 3.3, 3.4 and 4.1).

ghost use Rattle.std.specs.Prelude.{ℕ, ◌≡◌, ◌≤◌, ◌∷◌, [], ◌++◌, OnOk, IfOk, false, filter, reverse, length, drop};
ghost use Rattle.dwarf_entries.specs.Standing.{Standing as Stands, stands, standing_in, entries_inside, inside};
ghost use Rattle.dwarf_scopes.specs.Scopes as scopes;
ghost use Rattle.dwarf_scopes.specs.calls.Knowing.{AreRight};
ghost use Rattle.dwarf_scopes.specs.calls.Levels.{AreLevels};
ghost use Rattle.dwarf_scopes.specs.inner.Fronts.{StandFrom};
ghost use Rattle.dwarf_scopes.specs.inner.Picks.{is_scope, is_inlined, is_wanted};

use crate::asked::{KnownRanges, no_ranges};
use crate::levels::{UnitLevels, entries_from, passed};
use crate::ranges::holds_by_known;
use crate::subprograms::subprogram_at;
use causes::NoMemory;
use dwarf_entries::names::LOW_PC;
use dwarf_entries::tags::{INLINED_SUBROUTINE, LEXICAL_BLOCK};
use dwarf_entries::{Standing, address as address_of};
use dwarf_info::{Entry, Sections5, Unit, UnitAnswer};
use pm_text::Items;
use std::alloc::Global;

/// Linkers mark removed code by a low_pc of 0.
pub fn is_removed(standing: &Standing<'_, '_>) -> bool
    ensures { result ≡ scopes.is_removed standing.now }
{
    address_of(&standing.entry().attributes, LOW_PC) == Some(0)
}

/// The lexical blocks and inlined subroutines that hold an address.
#[derive(Drop)]
pub struct ScopeAt<'s, 'a> {
    pub sections: &'s Sections5<'a>,
    pub address: u32,
}

fn is_scope(standing: &Standing<'_, '_>) -> bool
    ensures { result ≡ is_scope standing.now }
{
    let tag = standing.entry().tag;
    tag == LEXICAL_BLOCK || tag == INLINED_SUBROUTINE
}

impl<'s, 'a> ScopeAt<'s, 'a> {
    /// Whether an entry is one of them, where lists of its unit were asked before.
    pub fn picks(
        &self,
        standing: &Standing<'_, '_>,
        lists: &mut KnownRanges,
    ) -> Result<bool, NoMemory>
        requires right { AreRight self.now.sections.now self.now.address
            lists.old }
        ensures is { IfOk result (λ picked. picked
            ≡ scopes.is_scope_at self.now.sections.now self.now.address standing.now) }
        ensures right { AreRight self.now.sections.now self.now.address
            lists.new }
    {
        if is_scope(standing) {
            holds_by_known(self.sections, self.address, standing, lists)
        } else {
            Ok(false)
        }
    }
}

fn is_inlined(standing: &Standing<'_, '_>) -> bool
    ensures { result ≡ is_inlined standing.now }
{
    standing.entry().tag == INLINED_SUBROUTINE
}

/// Whether an entry is a scope that is wanted: lexical blocks are, or they are not asked for what
/// they hold.
fn is_wanted(
    pick: &ScopeAt<'_, '_>,
    blocks: bool,
    standing: &Standing<'_, '_>,
    lists: &mut KnownRanges,
) -> Result<bool, NoMemory>
    requires right { AreRight pick.now.sections.now pick.now.address lists.old }
    ensures is { IfOk result (λ wanted. wanted
        ≡ is_wanted blocks pick.now.sections.now pick.now.address standing.now) }
    ensures right { AreRight pick.now.sections.now pick.now.address lists.new }
{
    if blocks || is_inlined(standing) {
        pick.picks(standing, lists)
    } else {
        Ok(false)
    }
}

/// Appends an entry, behind which these stand, where it is a scope that holds the address, with or
/// without lexical blocks.
fn push_if_wanted<'r, 'a>(
    pick: &ScopeAt<'_, 'a>,
    blocks: bool,
    unit: &'r Unit<'a>,
    entry: &'r Entry<'a>,
    behind: &'r [Entry<'a>],
    lists: &mut KnownRanges,
    found: &mut Items<Standing<'r, 'a>>,
) -> Result<(), NoMemory>
    requires right { AreRight pick.now.sections.now pick.now.address lists.old }
    ensures right { AreRight pick.now.sections.now pick.now.address lists.new }
    ensures found { OnOk result (found.new ≡ found.old
        ++ filter (is_wanted blocks pick.now.sections.now pick.now.address)
        (stands unit.now entry.now behind.now ∷ [])) }
{
    let standing = Standing::new(unit, entry, behind);
    match is_wanted(pick, blocks, &standing, lists) {
        Ok(true) => found.push(standing),
        Ok(false) => Ok(()),
        Err(e) => Err(e),
    }
}

/// Appends the scopes among these entries, with or without lexical blocks.
fn push_scopes<'r, 'a>(
    pick: &ScopeAt<'_, 'a>,
    blocks: bool,
    unit: &'r Unit<'a>,
    entries: &'r [Entry<'a>],
    lists: &mut KnownRanges,
    found: &mut Items<Standing<'r, 'a>>,
) -> Result<(), NoMemory>
    requires { AreRight pick.now.sections.now pick.now.address lists.old }
    ensures { OnOk result (found.new ≡ found.old
        ++ filter (is_wanted blocks pick.now.sections.now pick.now.address)
        (standing_in unit.now entries.now)) }
{
    let mut left = entries;
    'entries: while let [entry, behind @ ..] = left {
        push_if_wanted(pick, blocks, unit, entry, behind, lists, found)?;
        left = behind;
    }
    Ok(())
}

/// Appends a subprogram, and the scopes in it that hold an address, with or without lexical blocks.
fn push_scopes_in<'r, 'a>(
    alloc: Global,
    pick: &ScopeAt<'_, 'a>,
    blocks: bool,
    subprogram: Standing<'r, 'a>,
    scopes: &mut Items<Standing<'r, 'a>>,
) -> Result<(), NoMemory>
    requires { scopes.old ≡ [] }
    ensures { OnOk result (scopes.new ≡ subprogram.entry
        ∷ filter (is_wanted blocks pick.now.sections.now pick.now.address)
        (inside subprogram.entry)) }
{
    let unit = subprogram.unit();
    let entries = subprogram.inside();
    scopes.push(subprogram)?;
    let mut lists = no_ranges(alloc);
    let pushed = push_scopes(pick, blocks, unit, entries, &mut lists, scopes);
    drop(lists);
    pushed
}

/// A subprogram, and the scopes in it that hold an address, with or without lexical blocks.
fn scopes_in<'r, 'a>(
    alloc: Global,
    sections: &Sections5<'a>,
    address: u32,
    blocks: bool,
    subprogram: Standing<'r, 'a>,
) -> Result<Items<Standing<'r, 'a>>, NoMemory>
    ensures { IfOk result (λ xs. xs ≡ subprogram.entry
        ∷ filter (is_wanted blocks sections.now address) (inside subprogram.entry)) }
{
    let pick = ScopeAt { sections, address };
    let mut scopes = Items::new(alloc);
    push_scopes_in(alloc, &pick, blocks, subprogram, &mut scopes).and(Ok(scopes))
}

/// The subprogram at an address, and the lexical blocks and inlined subroutines in it that hold the
/// address: outer ones first, in the order of the section.
#[tactic(auto, unfolding(crate::specs::Scopes::scopes_at))]
pub fn scopes_at<'r, 'a>(
    alloc: Global,
    sections: &Sections5<'a>,
    units: &'r [UnitAnswer<'a>],
    address: u32,
) -> Result<Items<Standing<'r, 'a>>, NoMemory>
    ensures { IfOk result (λ xs. xs ≡ scopes.scopes_at sections.now units.now address) }
{
    match subprogram_at(alloc, sections, units, address) {
        Ok(Some(subprogram)) => scopes_in(alloc, sections, address, true, subprogram),
        Ok(None) => Ok(Items::new(alloc)),
        Err(e) => Err(e),
    }
}

/// The inlined subroutines among scopes, the last first.
fn inlined_of<'r, 'a>(
    alloc: Global,
    scopes: Items<Standing<'r, 'a>>,
) -> Result<Items<Standing<'r, 'a>>, NoMemory>
    ensures { IfOk result (λ xs. xs ≡ reverse (filter is_inlined scopes.entry)) }
{
    let mut outer = scopes;
    let mut inlined = Items::new(alloc);
    'scopes: while let Some(scope) = outer.pop() {
        if is_inlined(&scope) {
            inlined.push(scope)?;
        }
    }
    Ok(inlined)
}

/// The inlined subroutines in a subprogram that hold an address, the innermost first. Lexical blocks
/// are not asked.
#[tactic(auto, using(crate::proofs::Filters::inlined_alone))]
pub fn inlined_in<'r, 'a>(
    alloc: Global,
    sections: &Sections5<'a>,
    address: u32,
    subprogram: Standing<'r, 'a>,
) -> Result<Items<Standing<'r, 'a>>, NoMemory>
    ensures { IfOk result (λ xs. xs ≡ reverse (filter is_inlined
        (scopes.scopes_in sections.now address subprogram.entry))) }
{
    match scopes_in(alloc, sections, address, false, subprogram) {
        Ok(scopes) => inlined_of(alloc, scopes),
        Err(e) => Err(e),
    }
}

/// How many of these entries, which stand in a unit from a number on, are passed over: none of them
/// is an inlined subroutine that holds the address.
fn quiet_among(
    pick: &ScopeAt<'_, '_>,
    unit: &Unit<'_>,
    levels: &UnitLevels,
    at: usize,
    entries: &[Entry<'_>],
) -> usize
    requires levels { AreLevels unit.now.entries levels.now }
    requires stand { StandFrom at entries.now unit.now.entries }
    ensures few { result ≤ length entries.now }
    ensures none { filter (is_wanted false pick.now.sections.now pick.now.address)
        (standing_in unit.now entries.now)
        ≡ filter (is_wanted false pick.now.sections.now pick.now.address)
        (standing_in unit.now (drop result entries.now)) }
{
    let quiet = passed(levels, at, pick.address);
    if quiet < entries.len() {
        quiet
    } else {
        entries.len()
    }
}

/// Appends the inlined subroutines that hold the address among these entries, which stand in a unit
/// from a number on.
fn push_inlined<'r, 'a>(
    pick: &ScopeAt<'_, 'a>,
    unit: &'r Unit<'a>,
    levels: &UnitLevels,
    start: usize,
    entries: &'r [Entry<'a>],
    lists: &mut KnownRanges,
    found: &mut Items<Standing<'r, 'a>>,
) -> Result<(), NoMemory>
    requires right { AreRight pick.now.sections.now pick.now.address lists.old }
    requires levels { AreLevels unit.now.entries levels.now }
    requires stand { StandFrom start entries.now unit.now.entries }
    ensures { OnOk result (found.new ≡ found.old
        ++ filter (is_wanted false pick.now.sections.now pick.now.address)
        (standing_in unit.now entries.now)) }
{
    let mut at = start;
    let mut left = entries;
    'entries: while let [entry, behind @ ..] = left {
        let quiet = quiet_among(pick, unit, levels, at, left);
        if quiet > 0 {
            left = entries_from(left, quiet);
            at += quiet;
        } else {
            push_if_wanted(pick, false, unit, entry, behind, lists, found)?;
            left = behind;
            at += 1;
        }
    }
    Ok(())
}

/// Appends a subprogram, and the inlined subroutines in it that hold an address: those among these
/// entries, which stand in it, from a number on in its unit.
fn push_inlined_in<'r, 'a>(
    alloc: Global,
    pick: &ScopeAt<'_, 'a>,
    subprogram: Standing<'r, 'a>,
    levels: &UnitLevels,
    start: usize,
    entries: &'r [Entry<'a>],
    found: &mut Items<Standing<'r, 'a>>,
) -> Result<(), NoMemory>
    requires inside { entries.now ≡ entries_inside subprogram }
    requires levels { AreLevels subprogram.unit.entries levels.now }
    requires stand { StandFrom start entries.now subprogram.unit.entries }
    requires none { found.old ≡ [] }
    ensures { OnOk result (found.new ≡ subprogram.entry
        ∷ filter (is_wanted false pick.now.sections.now pick.now.address)
        (inside subprogram.entry)) }
{
    let unit = subprogram.unit();
    found.push(subprogram)?;
    let mut lists = no_ranges(alloc);
    let pushed = push_inlined(pick, unit, levels, start, entries, &mut lists, found);
    drop(lists);
    pushed
}

/// The inlined subroutines in a subprogram that hold an address, the innermost first: those among
/// these entries, which stand in it, from a number on in its unit.
#[tactic(auto, using(crate::proofs::Filters::inlined_alone))]
pub fn inlined_by<'r, 'a>(
    alloc: Global,
    sections: &Sections5<'a>,
    address: u32,
    subprogram: Standing<'r, 'a>,
    levels: &UnitLevels,
    start: usize,
    entries: &'r [Entry<'a>],
) -> Result<Items<Standing<'r, 'a>>, NoMemory>
    requires inside { entries.now ≡ entries_inside subprogram }
    requires levels { AreLevels subprogram.unit.entries levels.now }
    requires stand { StandFrom start entries.now subprogram.unit.entries }
    ensures { IfOk result (λ xs. xs ≡ reverse (filter is_inlined
        (scopes.scopes_in sections.now address subprogram.entry))) }
{
    let pick = ScopeAt { sections, address };
    let mut found = Items::new(alloc);
    match push_inlined_in(alloc, &pick, subprogram, levels, start, entries, &mut found) {
        Ok(()) => inlined_of(alloc, found),
        Err(e) => {
            drop(found);
            Err(e)
        }
    }
}

/// The inlined subroutines that hold an address, the innermost first.
#[tactic(auto, unfolding(crate::specs::Scopes::inlined_at))]
pub fn inlined_at<'r, 'a>(
    alloc: Global,
    sections: &Sections5<'a>,
    units: &'r [UnitAnswer<'a>],
    address: u32,
) -> Result<Items<Standing<'r, 'a>>, NoMemory>
    ensures { IfOk result (λ xs. xs ≡ scopes.inlined_at sections.now units.now address) }
{
    match scopes_at(alloc, sections, units, address) {
        Ok(scopes) => inlined_of(alloc, scopes),
        Err(e) => Err(e),
    }
}
