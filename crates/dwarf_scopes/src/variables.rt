//! The variables that are visible at an address (DWARF 4 sections 3.5 and 4.1).

ghost use Rattle.std.specs.Prelude.{◌≡◌, ◌++◌, ◌+◌, ◌<◌, ◌^◌, ◌==◌, suc, OnOk, IfOk, length, take, drop, ◌≤◌, [], ◌∷◌};
ghost use Rattle.std.specs.Prelude.{filter, flat_map, if◌then◌else◌};
ghost use Rattle.dwarf_entries.specs.Standing.{stands, standing_in, entries_inside};
ghost use Rattle.dwarf_scopes.specs.Scopes as scopes;
ghost use Rattle.dwarf_scopes.specs.inner.Insides.{deeper, insides};
ghost use Rattle.dwarf_scopes.specs.calls.Knowing.{AreRight};
ghost use Rattle.dwarf_scopes.specs.inner.Picks.{is_variable_of};

use crate::asked::{KnownRanges, no_ranges};
use crate::insides::insides_of;
use crate::scopes::ScopeAt;
use crate::subprograms::subprogram_at;
use causes::NoMemory;
use dwarf_entries::Standing;
use dwarf_entries::tags::{FORMAL_PARAMETER, VARIABLE};
use dwarf_info::{Entry, Sections5, Unit, UnitAnswer};
use pm_text::Items;
use std::alloc::Global;

/// Whether an entry is a formal parameter or a variable that is a child of an entry of this depth.
fn is_variable(depth: u32, standing: &Standing<'_, '_>) -> bool
    ensures { result ≡ is_variable_of depth standing.now }
{
    let entry = standing.entry();
    u64::from(entry.depth) == u64::from(depth) + 1
        && (entry.tag == FORMAL_PARAMETER || entry.tag == VARIABLE)
}

/// How many entries stand from an entry on up to the next one that may be a child of one of this
/// depth: what is in a child is none.
fn passed(depth: u32, entry: &Entry<'_>, inside: usize) -> usize
    requires { inside + 1 < 2 ^ 64 }
    ensures { result ≡ (if entry.now.depth == suc depth then inside + 1 else 1) }
{
    let child = u64::from(depth) + 1;
    if u64::from(entry.depth) == child {
        inside + 1
    } else {
        1
    }
}

/// Those behind one.
pub fn entries_behind<'r, 'a>(entries: &'r [Entry<'a>], at: usize) -> &'r [Entry<'a>]
    requires { at < length entries.now }
    ensures { result.now ≡ drop (at + 1) entries.now }
{
    &entries[at + 1..]
}

fn counts_behind(counts: &[usize], at: usize) -> &[usize]
    requires { at < length counts.now }
    ensures { result.now ≡ drop (at + 1) counts.now }
{
    &counts[at + 1..]
}

/// Appends an entry, behind which these stand, where it is a formal parameter or a variable that is
/// a child of one of this depth.
fn push_if_variable<'r, 'a>(
    unit: &'r Unit<'a>,
    depth: u32,
    entry: &'r Entry<'a>,
    behind: &'r [Entry<'a>],
    variables: &mut Items<Standing<'r, 'a>>,
) -> Result<(), NoMemory>
    ensures { OnOk result (variables.new ≡ variables.old
        ++ filter (is_variable_of depth) (stands unit.now entry.now behind.now ∷ [])) }
{
    let standing = Standing::new(unit, entry, behind);
    if !is_variable(depth, &standing) {
        return Ok(());
    }
    variables.push(standing)
}

/// Appends the formal parameters and variables among these entries that are children of one of this
/// depth, where it is known of each how many stand in it.
fn push_children<'r, 'a>(
    unit: &'r Unit<'a>,
    depth: u32,
    entries: &'r [Entry<'a>],
    counts: &[usize],
    variables: &mut Items<Standing<'r, 'a>>,
) -> Result<(), NoMemory>
    requires { counts.now ≡ insides entries.now }
    ensures { OnOk result (variables.new
        ≡ variables.old ++ filter (is_variable_of depth) (standing_in unit.now entries.now)) }
{
    let len = entries.len();
    let mut at = 0;
    'entries: while at < len {
        let entry = &entries[at];
        let behind = entries_behind(entries, at);
        push_if_variable(unit, depth, entry, behind, variables)?;
        at += passed(depth, entry, counts[at]);
    }
    Ok(())
}

fn first_counts(counts: &[usize], len: usize) -> &[usize]
    requires { len ≤ length counts.now }
    ensures { result.now ≡ take len counts.now }
{
    &counts[..len]
}

/// The first ones, so many.
pub fn first_entries<'r, 'a>(entries: &'r [Entry<'a>], len: usize) -> &'r [Entry<'a>]
    requires { len ≤ length entries.now }
    ensures { result.now ≡ take len entries.now }
{
    &entries[..len]
}

/// Appends the formal parameters and variables of an entry, behind which these stand, so many of
/// them in it.
fn push_variables<'r, 'a>(
    unit: &'r Unit<'a>,
    entry: &'r Entry<'a>,
    behind: &'r [Entry<'a>],
    inside: usize,
    counts: &[usize],
    variables: &mut Items<Standing<'r, 'a>>,
) -> Result<(), NoMemory>
    requires inside { inside ≡ deeper entry.now.depth behind.now }
    requires counts { counts.now ≡ insides behind.now }
    ensures { OnOk result (variables.new
        ≡ variables.old ++ scopes.variables_of (stands unit.now entry.now behind.now)) }
{
    let entries = first_entries(behind, inside);
    let counts = first_counts(counts, inside);
    push_children(unit, entry.depth, entries, counts, variables)
}

/// How many entries stand in an entry, and in each of those behind it.
#[derive(Drop)]
struct Counted<'c> {
    inside: usize,
    behind: &'c [usize],
}

/// The same where the entry is a scope at the address.
fn push_if_scope<'r, 'a>(
    pick: &ScopeAt<'_, 'a>,
    unit: &'r Unit<'a>,
    entry: &'r Entry<'a>,
    behind: &'r [Entry<'a>],
    counted: &Counted<'_>,
    lists: &mut KnownRanges,
    variables: &mut Items<Standing<'r, 'a>>,
) -> Result<(), NoMemory>
    requires right { AreRight pick.now.sections.now pick.now.address lists.old }
    requires inside { counted.now.inside ≡ deeper entry.now.depth behind.now }
    requires counts { counted.now.behind.now ≡ insides behind.now }
    ensures right { AreRight pick.now.sections.now pick.now.address lists.new }
    ensures variables { OnOk result (variables.new ≡ variables.old ++ flat_map scopes.variables_of
        (filter (scopes.is_scope_at pick.now.sections.now pick.now.address)
        (stands unit.now entry.now behind.now ∷ []))) }
{
    match pick.picks(&Standing::new(unit, entry, behind), lists) {
        Ok(true) => push_variables(
            unit,
            entry,
            behind,
            counted.inside,
            counted.behind,
            variables,
        ),
        Ok(false) => Ok(()),
        Err(e) => Err(e),
    }
}

/// Appends the formal parameters and variables of each of these entries that is a scope at the
/// address.
fn push_scopes<'r, 'a>(
    pick: &ScopeAt<'_, 'a>,
    unit: &'r Unit<'a>,
    entries: &'r [Entry<'a>],
    counts: &[usize],
    lists: &mut KnownRanges,
    variables: &mut Items<Standing<'r, 'a>>,
) -> Result<(), NoMemory>
    requires right { AreRight pick.now.sections.now pick.now.address lists.old }
    requires counts { counts.now ≡ insides entries.now }
    ensures { OnOk result (variables.new ≡ variables.old ++ flat_map scopes.variables_of
        (filter (scopes.is_scope_at pick.now.sections.now pick.now.address)
        (standing_in unit.now entries.now))) }
{
    let mut at = 0;
    'entries: while at < entries.len() {
        let entry = &entries[at];
        let behind = entries_behind(entries, at);
        let counts_behind = counts_behind(counts, at);
        push_if_scope(
            pick,
            unit,
            entry,
            behind,
            &Counted {
                inside: counts[at],
                behind: counts_behind,
            },
            lists,
            variables,
        )?;
        at += 1;
    }
    Ok(())
}

/// Appends the variables of a subprogram and of the scopes in it that hold an address. These stand
/// in it, and it is known of each how many stand in that.
fn push_counted<'r, 'a>(
    alloc: Global,
    pick: &ScopeAt<'_, 'a>,
    subprogram: &Standing<'r, 'a>,
    entries: &'r [Entry<'a>],
    counts: &[usize],
    variables: &mut Items<Standing<'r, 'a>>,
) -> Result<(), NoMemory>
    requires inside { entries.now ≡ entries_inside subprogram.now }
    requires counts { counts.now ≡ insides entries.now }
    requires none { variables.old ≡ [] }
    ensures { OnOk result (variables.new ≡ flat_map scopes.variables_of
        (scopes.scopes_in pick.now.sections.now pick.now.address subprogram.now)) }
{
    let unit = subprogram.unit();
    let depth = subprogram.entry().depth;
    push_children(unit, depth, entries, counts, variables)?;
    let mut lists = no_ranges(alloc);
    let pushed = push_scopes(pick, unit, entries, counts, &mut lists, variables);
    drop(lists);
    pushed
}

/// The variables of a subprogram and of the scopes in it that hold an address.
fn variables_in<'r, 'a>(
    alloc: Global,
    sections: &Sections5<'a>,
    address: u32,
    subprogram: &Standing<'r, 'a>,
) -> Result<Items<Standing<'r, 'a>>, NoMemory>
    ensures { IfOk result (λ xs. xs
        ≡ flat_map scopes.variables_of (scopes.scopes_in sections.now address subprogram.now)) }
{
    let entries = subprogram.inside();
    let counts = insides_of(alloc, entries)?;
    let mut variables = Items::new(alloc);
    let pushed = push_counted(
        alloc,
        &ScopeAt { sections, address },
        subprogram,
        entries,
        counts.as_slice(),
        &mut variables,
    );
    drop(counts);
    pushed.and(Ok(variables))
}

/// The variables that are visible at an address, by the subprogram there. It takes time linear in what
/// stands in it.
pub fn variables_from<'r, 'a>(
    alloc: Global,
    sections: &Sections5<'a>,
    address: u32,
    subprogram: &Option<Standing<'r, 'a>>,
) -> Result<Items<Standing<'r, 'a>>, NoMemory>
    ensures { IfOk result (λ xs. xs ≡ flat_map scopes.variables_of
        (scopes.scopes_from sections.now address subprogram.now)) }
{
    match subprogram {
        Some(subprogram) => variables_in(alloc, sections, address, subprogram),
        None => Ok(Items::new(alloc)),
    }
}

/// The variables that are visible at an address, those of outer scopes first.
#[tactic(auto, unfolding(crate::specs::Scopes::variables_at, crate::specs::Scopes::scopes_at))]
pub fn variables_at<'r, 'a>(
    alloc: Global,
    sections: &Sections5<'a>,
    units: &'r [UnitAnswer<'a>],
    address: u32,
) -> Result<Items<Standing<'r, 'a>>, NoMemory>
    ensures { IfOk result (λ xs. xs ≡ scopes.variables_at sections.now units.now address) }
{
    match subprogram_at(alloc, sections, units, address) {
        Ok(subprogram) => variables_from(alloc, sections, address, &subprogram),
        Err(e) => Err(e),
    }
}
