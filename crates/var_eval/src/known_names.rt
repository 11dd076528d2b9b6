//! What names mean at an address, kept for the next ones.

ghost use Rattle.std.specs.Prelude.{◌≡◌, ◌≤◌, ℕ, List, length, find, reverse, true, IfOk, OnOk, IfSome};
ghost use Rattle.std.specs.Prelude.{option_copied, option_and_then};
ghost use Rattle.std.specs.Option.{option_or};
ghost use Rattle.dwarf_info.specs.Sections.{SectionBytes5};
ghost use Rattle.dwarf_info.specs.declared.entry.UnitAnswer.{UnitAnswer as Answer};
ghost use Rattle.dwarf_entries.specs.Standing.{standing_at as stands_at};
ghost use Rattle.dwarf_scopes.specs.Scopes.{subprogram_at};
ghost use Rattle.var_eval.specs.Chosen as definitions;
ghost use Rattle.var_eval.specs.calls.Names.{look, offset_found, IsTable, AreNames, AreSame};
ghost use Rattle.var_eval.specs.inner.Adding.{own_offset, alone, Adds, meant_in};
ghost use Rattle.var_eval.specs.inner.Named.{longest_name};

use crate::choice::{chosen_by, is_child_of_root, is_within, reach};
use crate::named::LONGEST_NAME;
use crate::offsets::ascend;
use causes::NoMemory;
use dwarf_entries::tags::VARIABLE;
use dwarf_entries::{Standing, name_or_empty, standing_at};
use dwarf_info::{Sections5, Unit, UnitAnswer, Units};
use dwarf_scopes::variables_from;
use pm_text::Items;
use std::alloc::Global;
use std::collections::BTreeMap;

/// So many names of one address are looked for among the variables, which takes less time than
/// ordering all.
const FEW_NAMES: u32 = 8;

/// The offset of the entry that each name of at most `LONGEST_NAME` bytes means.
#[derive(Drop)]
pub struct NameTable<'a> {
    offsets: BTreeMap<&'a [u8], u32>,
}

/// What names mean at the address that was asked last, behind the first few. It is asked with the
/// units that it was made of, and borrows their names from the sections alone.
#[derive(Drop)]
pub struct KnownNames<'a> {
    address: u32,
    asked: u32,
    table: Option<NameTable<'a>>,
}

/// No name was asked yet.
pub fn no_names<'a>() -> KnownNames<'a>
    ensures { (s : SectionBytes5) → (units : List Answer) → AreNames s units result }
{
    KnownNames {
        address: 0,
        asked: 0,
        table: None,
    }
}

// ---- the table of an address

/// Adds a name behind all others.
#[tactic(auto, using(crate::proofs::NameLaws::name_there, crate::proofs::NamedLaws::one_added))]
fn add_first<'a>(table: &mut NameTable<'a>, name: &'a [u8], at: u32) -> Result<(), NoMemory>
    ensures { OnOk result ((q : List ℕ) → look table.new q
        ≡ option_or (look table.old q) (own_offset at name.now q)) }
{
    if table.offsets.contains_key(name) {
        return Ok(());
    }
    match table.offsets.insert(name, at) {
        Ok(_) => Ok(()),
        Err(_) => Err(NoMemory),
    }
}

/// Adds an entry behind all others, if its name is kept.
#[tactic(auto, using(crate::proofs::NameLaws::long_passed, crate::proofs::NameLaws::short_added))]
fn add_named<'r, 'a>(
    table: &mut NameTable<'a>,
    units: &'r Units<'a>,
    standing: &Standing<'r, 'a>,
) -> Result<(), NoMemory>
    ensures { OnOk result (Adds table.old table.new
        (λ q. alone (definitions.is_named units.now q) standing.now)) }
{
    let name = name_or_empty(units, &standing.entry().attributes);
    if name.len() > LONGEST_NAME {
        return Ok(());
    }
    add_first(table, name, standing.entry().at)
}

/// Adds variables, the last ones before the others.
fn add_visible<'r, 'a>(
    table: &mut NameTable<'a>,
    units: &'r Units<'a>,
    variables: Items<Standing<'r, 'a>>,
) -> Result<(), NoMemory>
    ensures { OnOk result (Adds table.old table.new
        (λ q. find (definitions.is_named units.now q) (reverse variables.entry))) }
{
    let mut left = variables;
    'variables: while let Some(last) = left.pop() {
        add_named(table, units, &last)?;
    }
    Ok(())
}

/// Adds an entry that is a child of the root, if it is a variable.
fn add_own<'r, 'a>(
    table: &mut NameTable<'a>,
    units: &'r Units<'a>,
    standing: &Standing<'r, 'a>,
) -> Result<(), NoMemory>
    ensures { OnOk result (Adds table.old table.new
        (λ q. alone (definitions.is_unit_variable units.now q) standing.now)) }
{
    if !is_child_of_root(standing.entry()) {
        return Ok(());
    }
    add_named(table, units, standing)
}

/// Adds a unit's own variables.
fn add_owns<'r, 'a>(
    table: &mut NameTable<'a>,
    units: &'r Units<'a>,
    unit: &'r Unit<'a>,
) -> Result<(), NoMemory>
    ensures { OnOk result (Adds table.old table.new
        (λ q. definitions.unit_variable units.now q unit.now)) }
{
    let mut left = unit.entries.as_slice();
    'entries: while let [entry, behind @ ..] = left {
        add_own(table, units, &Standing::new(unit, entry, behind))?;
        left = behind;
    }
    Ok(())
}

/// Adds an entry that stands in no more than the unit and namespaces, if it is a variable.
fn add_global<'r, 'a>(
    table: &mut NameTable<'a>,
    units: &'r Units<'a>,
    standing: &Standing<'r, 'a>,
) -> Result<(), NoMemory>
    ensures { OnOk result (Adds table.old table.new
        (λ q. alone (definitions.is_global units.now q) standing.now)) }
{
    if standing.entry().tag != VARIABLE {
        return Ok(());
    }
    add_named(table, units, standing)
}

/// Adds the variables of a unit that stand in no more than it and namespaces.
#[tactic(auto, unfolding(crate::specs::Chosen::global_entries))]
fn add_globals<'r, 'a>(
    table: &mut NameTable<'a>,
    units: &'r Units<'a>,
    unit: &'r Unit<'a>,
) -> Result<(), NoMemory>
    ensures { OnOk result (Adds table.old table.new
        (λ q. find (definitions.is_global units.now q)
        (definitions.global_entries unit.now 0 unit.now.entries))) }
{
    let mut left = unit.entries.as_slice();
    let mut deepest = 0;
    'entries: while let [entry, behind @ ..] = left {
        left = behind;
        if !is_within(entry, deepest) {
            continue;
        }
        add_global(table, units, &Standing::new(unit, entry, behind))?;
        deepest = reach(entry);
    }
    Ok(())
}

/// Adds those of a unit that could be read.
fn add_globals_of<'r, 'a>(
    table: &mut NameTable<'a>,
    units: &'r Units<'a>,
    answer: &'r UnitAnswer<'a>,
) -> Result<(), NoMemory>
    ensures { OnOk result (Adds table.old table.new
        (λ q. find (definitions.is_global units.now q) (definitions.globals answer.now))) }
{
    match answer {
        UnitAnswer::Tree(unit) => add_globals(table, units, unit),
        UnitAnswer::Unreadable { section: _, at: _ } => Ok(()),
    }
}

/// Adds those of these units, in their order.
fn add_all<'r, 'a>(
    table: &mut NameTable<'a>,
    units: &'r Units<'a>,
    answers: &'r [UnitAnswer<'a>],
) -> Result<(), NoMemory>
    ensures { OnOk result (Adds table.old table.new
        (λ q. definitions.first_global units.now q answers.now)) }
{
    for answer in answers {
        add_globals_of(table, units, answer)?;
    }
    Ok(())
}

/// What names mean in a subprogram at an address.
#[tactic(auto, using(crate::proofs::NameLaws::meant_told))]
fn table_of<'r, 'a>(
    alloc: Global,
    sections: &Sections5<'a>,
    units: &'r Units<'a>,
    address: u32,
    subprogram: &Option<Standing<'r, 'a>>,
    unit: &'r Unit<'a>,
) -> Result<NameTable<'a>, NoMemory>
    ensures { IfOk result (λ table. (q : List ℕ) → length q ≤ longest_name → look table q
        ≡ offset_found (meant_in sections.now units.now address subprogram.now unit.now q)) }
{
    let Ok(visible) = variables_from(alloc, sections, address, subprogram) else {
        return Err(NoMemory);
    };
    let mut table = NameTable {
        offsets: BTreeMap::new(alloc),
    };
    let Ok(()) = add_visible(&mut table, units, visible) else {
        return Err(NoMemory);
    };
    let Ok(()) = add_owns(&mut table, units, unit) else {
        return Err(NoMemory);
    };
    let Ok(()) = add_globals(&mut table, units, unit) else {
        return Err(NoMemory);
    };
    match add_all(&mut table, units, units.as_slice()) {
        Ok(()) => Ok(table),
        Err(NoMemory) => Err(NoMemory),
    }
}

// ---- what is kept of the address that was asked last

/// Counts one more name of an address, and whether a table of it pays.
fn pays(names: &mut KnownNames<'_>, address: u32) -> bool
    ensures known { (s : SectionBytes5) → (units : List Answer) → AreNames s units names.old
        → AreNames s units names.new }
    ensures here { result ≡ true → names.new.address ≡ address }
{
    if names.address != address {
        names.table = None;
        names.asked = 0;
        names.address = address;
    }
    if names.asked < FEW_NAMES {
        names.asked += 1;
        return false;
    }
    names.table.is_none()
}

/// The table of an address in a subprogram, where the offsets of entries ascend.
fn new_table<'r, 'a>(
    alloc: Global,
    sections: &Sections5<'a>,
    units: &'r Units<'a>,
    address: u32,
    subprogram: &Option<Standing<'r, 'a>>,
) -> Result<Option<NameTable<'a>>, NoMemory>
    requires { subprogram.now ≡ subprogram_at sections.now units.now address }
    ensures { IfOk result (λ table. IfSome table (IsTable sections.now units.now address)) }
{
    let Some(here) = subprogram else {
        return Ok(None);
    };
    if !ascend(units.as_slice()) {
        return Ok(None);
    }
    match table_of(alloc, sections, units, address, subprogram, here.unit()) {
        Ok(table) => Ok(Some(table)),
        Err(NoMemory) => Err(NoMemory),
    }
}

/// Makes the table of an address where that pays and none is there.
#[tactic(auto, using(crate::proofs::MeantLaws::table_kept))]
fn make_table<'r, 'a>(
    alloc: Global,
    sections: &Sections5<'a>,
    units: &'r Units<'a>,
    address: u32,
    subprogram: &Option<Standing<'r, 'a>>,
    names: &mut KnownNames<'a>,
) -> Result<(), NoMemory>
    requires subprogram { subprogram.now ≡ subprogram_at sections.now units.now address }
    requires known { AreNames sections.now units.now names.old }
    ensures { AreNames sections.now units.now names.new }
{
    if !pays(names, address) {
        return Ok(());
    }
    match new_table(alloc, sections, units, address, subprogram) {
        Ok(table) => {
            names.table = table;
            Ok(())
        }
        Err(NoMemory) => Err(NoMemory),
    }
}

/// The table of an address, where it is known.
fn table_at<'k, 'a>(names: &'k KnownNames<'a>, address: u32) -> Option<&'k NameTable<'a>>
    ensures { (s : SectionBytes5) → (units : List Answer) → AreNames s units names.now
        → IfSome (option_copied result) (IsTable s units address) }
{
    if names.address != address {
        return None;
    }
    match &names.table {
        Some(table) => Some(table),
        None => None,
    }
}

/// The entry of a name.
fn named<'r, 'a>(
    units: &'r Units<'a>,
    table: &NameTable<'a>,
    name: &[u8],
) -> Option<Standing<'r, 'a>>
    ensures { result ≡ option_and_then (stands_at units.now) (look table.now name.now) }
{
    match table.offsets.get(name) {
        Some(at) => standing_at(units, *at),
        None => None,
    }
}

/// The variable that a name means, or the same entry as it stands in all of its unit.
#[tactic(auto, using(crate::proofs::MeantLaws::meant_here, crate::proofs::MeantLaws::meant_else))]
pub fn chosen_known<'r, 'a>(
    alloc: Global,
    sections: &Sections5<'a>,
    units: &'r Units<'a>,
    address: u32,
    subprogram: &Option<Standing<'r, 'a>>,
    names: &mut KnownNames<'a>,
    name: &[u8],
) -> Result<Option<Standing<'r, 'a>>, NoMemory>
    requires subprogram { subprogram.now ≡ subprogram_at sections.now units.now address }
    requires known { AreNames sections.now units.now names.old }
    ensures is { IfOk result (λ x. AreSame x
        (definitions.chosen sections.now units.now address name.now)) }
    ensures known { AreNames sections.now units.now names.new }
{
    if name.len() > LONGEST_NAME {
        return chosen_by(alloc, sections, units, address, subprogram, name);
    }
    let Ok(()) = make_table(alloc, sections, units, address, subprogram, names) else {
        return Err(NoMemory);
    };
    match table_at(names, address) {
        Some(table) => Ok(named(units, table, name)),
        None => chosen_by(alloc, sections, units, address, subprogram, name),
    }
}
