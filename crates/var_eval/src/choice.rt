//! The variable that a name means at an address (DWARF 4 sections 3.3, 3.4 and 4.1).

ghost use Rattle.std.specs.Prelude.{◌≡◌, ◌==◌, ◌&&◌, nat_le, find, reverse, IfOk};
ghost use Rattle.dwarf_entries.specs.Tags.{tag_variable};
ghost use Rattle.dwarf_scopes.specs.Scopes.{subprogram_at};
ghost use Rattle.var_eval.specs.Chosen as definitions;

use crate::named::LONGEST_NAME;
use crate::same_name::{is_same, is_same_by};
use causes::NoMemory;
use dwarf_entries::tags::VARIABLE;
use dwarf_entries::{Pick, Standing, first_picked, name_or_empty};
use dwarf_info::{Entry, Sections5, Unit, UnitAnswer, Units};
use dwarf_scopes::{subprogram_at, variables_from};
use pm_text::Items;
use std::alloc::Global;

/// Whether an entry has a name, where texts differ from it at these places (see `is_same`).
fn is_named<'r, 'a>(
    units: &'r Units<'a>,
    name: &[u8],
    places: &mut Items<usize>,
    standing: &Standing<'r, 'a>,
) -> bool
    ensures { result ≡ definitions.is_named units.now name.now standing.now }
{
    is_same(
        name_or_empty(units, &standing.entry().attributes),
        name,
        places,
    )
}

/// The last entry of a name.
fn last_named<'r, 'a>(
    units: &'r Units<'a>,
    name: &[u8],
    places: &mut Items<usize>,
    variables: Items<Standing<'r, 'a>>,
) -> Option<Standing<'r, 'a>>
    ensures { result ≡ find (definitions.is_named units.now name.now) (reverse variables.entry) }
{
    let mut left = variables;
    'variables: while let Some(last) = left.pop() {
        if is_named(units, name, places, &last) {
            return Some(last);
        }
    }
    None
}

/// Whether an entry is a variable that is a child of the root.
pub fn is_child_of_root(entry: &Entry<'_>) -> bool
    ensures { result ≡ (entry.now.depth == 1 && entry.now.tag == tag_variable) }
{
    entry.depth == 1 && entry.tag == VARIABLE
}

/// Finds the places where names of variables that are children of the root differ from a name, up to
/// the first that is the name.
fn find_places<'r, 'a>(
    units: &'r Units<'a>,
    name: &[u8],
    places: &mut Items<usize>,
    unit: &'r Unit<'a>,
) {
    for entry in unit.entries.as_slice() {
        if is_child_of_root(entry)
            && is_same(name_or_empty(units, &entry.attributes), name, places)
        {
            return;
        }
    }
}

/// The variables of a name that are children of the root.
#[derive(Drop)]
struct UnitVariable<'r, 'n, 'p, 'a> {
    units: &'r Units<'a>,
    name: &'n [u8],
    places: &'p [usize],
}

impl<'r, 'n, 'p, 'a> Pick for UnitVariable<'r, 'n, 'p, 'a> {
    ghost picks = { λ p. definitions.is_unit_variable p.units.now p.name.now };

    fn picks(&self, standing: &Standing<'_, '_>) -> bool {
        is_child_of_root(standing.entry())
            && is_same_by(
                name_or_empty(self.units, &standing.entry().attributes),
                self.name,
                self.places,
            )
    }
}

/// The first variable of a name that is the unit's own.
fn unit_variable<'r, 'a>(
    units: &'r Units<'a>,
    name: &[u8],
    places: &mut Items<usize>,
    unit: &'r Unit<'a>,
) -> Option<Standing<'r, 'a>>
    ensures { result ≡ definitions.unit_variable units.now name.now unit.now }
{
    if name.len() > LONGEST_NAME {
        find_places(units, name, places, unit);
    }
    let pick = UnitVariable {
        units,
        name,
        places: places.as_slice(),
    };
    first_picked(&pick, unit, unit.entries.as_slice())
}

const NAMESPACE: u64 = 0x39;

/// Behind an entry, how deep those are that stand in no more than the unit and namespaces.
pub fn reach(entry: &Entry<'_>) -> u64
    ensures { result ≡ definitions.reach entry.now }
{
    let depth = u64::from(entry.depth);
    if entry.depth == 0 || entry.tag == NAMESPACE {
        depth + 1
    } else {
        depth
    }
}

/// Whether an entry is at most so deep.
pub fn is_within(entry: &Entry<'_>, deepest: u64) -> bool
    ensures { result ≡ nat_le entry.now.depth deepest }
{
    u64::from(entry.depth) <= deepest
}

/// Whether an entry is a variable of a name.
fn is_global<'r, 'a>(
    units: &'r Units<'a>,
    name: &[u8],
    places: &mut Items<usize>,
    standing: &Standing<'r, 'a>,
) -> bool
    ensures { result ≡ definitions.is_global units.now name.now standing.now }
{
    standing.entry().tag == VARIABLE && is_named(units, name, places, standing)
}

/// The first variable of a name that stands in no more than a unit and namespaces.
#[tactic(auto, unfolding(crate::specs::Chosen::global_entries))]
fn global_variable<'r, 'a>(
    units: &'r Units<'a>,
    name: &[u8],
    places: &mut Items<usize>,
    unit: &'r Unit<'a>,
) -> Option<Standing<'r, 'a>>
    ensures { result ≡ find (definitions.is_global units.now name.now)
        (definitions.global_entries unit.now 0 unit.now.entries) }
{
    let mut left = unit.entries.as_slice();
    let mut deepest = 0;
    'entries: while let [entry, behind @ ..] = left {
        left = behind;
        if !is_within(entry, deepest) {
            continue;
        }
        let standing = Standing::new(unit, entry, behind);
        if is_global(units, name, places, &standing) {
            return Some(standing);
        }
        deepest = reach(entry);
    }
    None
}

/// The first of a unit that could be read.
fn global_of<'r, 'a>(
    units: &'r Units<'a>,
    name: &[u8],
    places: &mut Items<usize>,
    answer: &'r UnitAnswer<'a>,
) -> Option<Standing<'r, 'a>>
    ensures { result ≡ find (definitions.is_global units.now name.now)
        (definitions.globals answer.now) }
{
    match answer {
        UnitAnswer::Tree(unit) => global_variable(units, name, places, unit),
        UnitAnswer::Unreadable { section: _, at: _ } => None,
    }
}

/// The first of these units, in their order.
#[tactic(auto, using(crate::proofs::NameLaws::global_found, crate::proofs::NameLaws::global_missed))]
fn first_global<'r, 'a>(
    units: &'r Units<'a>,
    name: &[u8],
    places: &mut Items<usize>,
    answers: &'r [UnitAnswer<'a>],
) -> Option<Standing<'r, 'a>>
    ensures { result ≡ definitions.first_global units.now name.now answers.now }
{
    for answer in answers {
        if let Some(standing) = global_of(units, name, places, answer) {
            return Some(standing);
        }
    }
    None
}

/// The variable of a name that belongs to no scope: one of the unit itself, in a namespace of it,
/// or of another unit.
fn beyond_scopes<'r, 'a>(
    units: &'r Units<'a>,
    name: &[u8],
    places: &mut Items<usize>,
    unit: &'r Unit<'a>,
) -> Option<Standing<'r, 'a>>
    ensures { result ≡ definitions.beyond_scopes units.now name.now unit.now }
{
    match unit_variable(units, name, places, unit) {
        Some(own) => Some(own),
        None => match global_variable(units, name, places, unit) {
            Some(global) => Some(global),
            None => first_global(units, name, places, units.as_slice()),
        },
    }
}

/// The last visible variable of a name, or else one that belongs to no scope, by the subprogram at the
/// address.
#[tactic(auto, unfolding(dwarf_scopes::specs::Scopes::variables_at, dwarf_scopes::specs::Scopes::scopes_at))]
pub fn chosen_by<'r, 'a>(
    alloc: Global,
    sections: &Sections5<'a>,
    units: &'r Units<'a>,
    address: u32,
    subprogram: &Option<Standing<'r, 'a>>,
    name: &[u8],
) -> Result<Option<Standing<'r, 'a>>, NoMemory>
    requires { subprogram.now ≡ subprogram_at sections.now units.now address }
    ensures { IfOk result (λ x. x
        ≡ definitions.chosen_in sections.now units.now address name.now subprogram.now) }
{
    let Some(here) = subprogram else {
        return Ok(None);
    };
    let Ok(visible) = variables_from(alloc, sections, address, subprogram) else {
        return Err(NoMemory);
    };
    let mut places = Items::new(alloc);
    match last_named(units, name, &mut places, visible) {
        Some(last) => Ok(Some(last)),
        None => Ok(beyond_scopes(units, name, &mut places, here.unit())),
    }
}

/// The last visible variable of a name, or else one that belongs to no scope.
#[tactic(auto, unfolding(crate::specs::Chosen::chosen))]
pub fn chosen<'r, 'a>(
    alloc: Global,
    sections: &Sections5<'a>,
    units: &'r Units<'a>,
    address: u32,
    name: &[u8],
) -> Result<Option<Standing<'r, 'a>>, NoMemory>
    ensures { IfOk result (λ x. x ≡ definitions.chosen sections.now units.now address name.now) }
{
    let Ok(subprogram) = subprogram_at(alloc, sections, units.as_slice(), address) else {
        return Err(NoMemory);
    };
    chosen_by(alloc, sections, units, address, &subprogram, name)
}
