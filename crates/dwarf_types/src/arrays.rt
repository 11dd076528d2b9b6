//! What is known of the arrays of units, by the offsets of their entries.

ghost use Rattle.std.specs.Prelude.{◌≡◌, List, Some, IfOk, OnOk, IfSome, option_copied};
ghost use Rattle.dwarf_info.specs.declared.entry.UnitAnswer.{UnitAnswer};
ghost use Rattle.dwarf_entries.specs.Standing.{standing_at};
ghost use Rattle.dwarf_types.specs.calls.Known.{AreKnown};
ghost use Rattle.dwarf_types.specs.calls.Subranges.{AreOf};

use crate::array_rows::ArrayRows;
use crate::behind::{Typed, type_of};
use crate::class::{Class, class_of};
use crate::offsets::keep;
use crate::shallow::is_shallow;
use crate::size::type_size;
use crate::typed_units::TypedUnits;
use causes::NoMemory;
use dwarf_entries::tags::ARRAY;
use dwarf_entries::{LONGEST_CHAIN, Standing, standing_at};
use dwarf_info::{Entry, UnitAnswer, Units};
use std::alloc::Global;
use std::collections::BTreeMap;

/// What is known of arrays, by the offsets of their entries. One that is left out is no mistake:
/// its subranges are read again by each who asks.
#[derive(Drop)]
pub struct Arrays {
    pub(crate) known: BTreeMap<u32, ArrayRows>,
}

/// The size of the elements of an array.
#[derive(Clone, Copy)]
enum ElementSize {
    /// It is that of another array, which is not known yet.
    Waiting,
    Unknown,
    Known(u64),
}

/// Whether the size of a type is told without reading the subranges of another array.
fn is_told<'r, 'k, 'a>(
    units: &TypedUnits<'r, 'k, 'a>,
    most: u32,
    typed: &Typed<'r, 'k, 'a>,
) -> bool {
    let Typed::At {
        standing,
        skipped: _,
    } = typed
    else {
        return true;
    };
    if most == 0 || standing.is_known() {
        return true;
    }
    let entry = standing.entry();
    match class_of(entry.tag) {
        Class::Passed | Class::Enumeration => {
            is_told(units, most - 1, &type_of(units, &entry.attributes))
        }
        Class::Array => false,
        Class::Pointing | Class::Members | Class::Base | Class::Another => true,
    }
}

/// The size of the elements of an array.
fn element_size<'r, 'k, 'a>(
    units: &'r Units<'a>,
    arrays: &'k Arrays,
    standing: &Standing<'r, 'a>,
) -> ElementSize
    requires { AreKnown units.now arrays.now }
{
    let units = TypedUnits::new(units, arrays);
    let element = type_of(&units, &standing.entry().attributes);
    if !is_told(&units, LONGEST_CHAIN, &element) {
        return ElementSize::Waiting;
    }
    match type_size(&units, &element) {
        Some(size) => ElementSize::Known(size),
        None => ElementSize::Unknown,
    }
}

/// Whether an entry is that of an array that is not known yet, in which not too many levels stand.
fn is_wanted(arrays: &Arrays, entry: &Entry<'_>, behind: &[Entry<'_>]) -> bool {
    entry.tag == ARRAY && !arrays.known.contains_key(&entry.at) && is_shallow(entry, behind)
}

/// Adds what is known of the array at an offset, unless the size of its elements waits for what is
/// known of another one. Whether it does.
#[tactic(auto, using(crate::proofs::KeptLaws::array_kept))]
fn add_array(
    alloc: Global,
    units: &Units<'_>,
    at: u32,
    arrays: &mut Arrays,
) -> Result<bool, NoMemory>
    requires { AreKnown units.now arrays.old }
    ensures { OnOk result (AreKnown units.now arrays.new) }
{
    let Some(standing) = standing_at(units, at) else {
        return Ok(false);
    };
    match element_size(units, arrays, &standing) {
        ElementSize::Waiting => Ok(true),
        ElementSize::Unknown => Ok(false),
        ElementSize::Known(size) => {
            match ArrayRows::of(alloc, &standing, size) {
                Ok(rows) => match keep(&mut arrays.known, at, rows) {
                    Ok(()) => Ok(false),
                    Err(NoMemory) => Err(NoMemory),
                },
                Err(NoMemory) => Err(NoMemory),
            }
        }
    }
}

/// Adds what is known of the arrays among entries. Whether one of them waits.
fn add_entries(
    alloc: Global,
    units: &Units<'_>,
    entries: &[Entry<'_>],
    arrays: &mut Arrays,
) -> Result<bool, NoMemory>
    requires { AreKnown units.now arrays.old }
    ensures { OnOk result (AreKnown units.now arrays.new) }
{
    let mut waits = false;
    let mut left = entries;
    'entries: while let [entry, behind @ ..] = left {
        if is_wanted(arrays, entry, behind) {
            waits = add_array(alloc, units, entry.at, arrays)? || waits;
        }
        left = behind;
    }
    Ok(waits)
}

/// Adds what is known of arrays whose elements' sizes are told by now. Whether some wait.
fn add_told(alloc: Global, units: &Units<'_>, arrays: &mut Arrays) -> Result<bool, NoMemory>
    requires { AreKnown units.now arrays.old }
    ensures { OnOk result (AreKnown units.now arrays.new) }
{
    let mut waits = false;
    for answer in units.as_slice() {
        if let UnitAnswer::Tree(unit) = answer {
            waits = add_entries(alloc, units, unit.entries.as_slice(), arrays)? || waits;
        }
    }
    Ok(waits)
}

impl Arrays {
    /// Those of the units. It goes through the entries once, and once more for each array that
    /// stands inside the elements of another, up to the longest chain.
    pub fn of(alloc: Global, units: &Units<'_>) -> Result<Self, NoMemory>
        ensures { IfOk result (AreKnown units.now) }
    {
        let mut arrays = Arrays {
            known: BTreeMap::new(alloc),
        };
        let mut more = LONGEST_CHAIN;
        'turns: while more > 0 {
            more -= 1;
            if !add_told(alloc, units, &mut arrays)? {
                return Ok(arrays);
            }
        }
        Ok(arrays)
    }

    /// What is known of the array at an offset.
    #[tactic(auto, using(crate::proofs::KeptLaws::rows_got))]
    pub(crate) fn get(&self, at: u32) -> Option<&ArrayRows>
        ensures { (units : List UnitAnswer) → AreKnown units self.now
            → IfSome (option_copied result) (AreOf (standing_at units at)) }
    {
        self.known.get(&at)
    }
}
