//! What a host sees of a table: whether it is doubled, and the functions that have wrappers there.

ghost use Rattle.std.specs.Prelude.{◌≡◌, ℕ, ◌+◌, ◌*◌, ◌<◌, ◌≤◌, ◌^◌, ◌++◌, ◌&&◌, List, [], ◌∷◌, flat_map, length, map};
ghost use Rattle.std.specs.Prelude.{nat_le, nat_lt, sum, unwrap_or, if◌then◌else◌, IfOk, OnOk};
ghost use Rattle.wasm_syntax.specs.declared.module.ModuleParts.{ModuleParts as Parts};
ghost use Rattle.wasm_syntax.specs.declared.quantity.Quantity.TheVariants.{Table};
ghost use Rattle.wasm_syntax.specs.Module.{function_types};
ghost use Rattle.wasm_syntax.specs.Quantity.{greatest};
ghost use Rattle.wasm_syntax.specs.Run.{element_fits};
ghost use Rattle.rewrite_bodies.specs.Numbering.{all_true, can_double, defines, doubles, element_functions};
ghost use Rattle.rewrite_bodies.specs.Numbering.{entry_weight, is_table, table_functions, table_shown, table_weight};
ghost use Rattle.index_map.specs.inner.Used.{AllBelow, HasMet};
ghost use Rattle.index_map.specs.inner.Kept.{AreShown, CanBeNumbered};

use crate::count::{entry_weight, wide};
use crate::used::{meet, new_places};
use causes::NoMemory;
use pm_text::Items;
use std::alloc::Global;
use wasm_syntax::{ElementSeg, Export, ExportKind, Limits, LimitsList, ModuleParts, Quantity};

/// The functions of element segments that the module defines, each once.
#[derive(Drop)]
pub(crate) struct TableFunctions {
    pub(crate) functions: Items<u32>,
    /// For each function of the module, how many of them stand behind it; None where it is none.
    pub(crate) places: Items<Option<usize>>,
}

/// Meets a function, where it is none of so many imported ones.
fn meet_function(
    met: &mut Vec<u32>,
    places: &mut [Option<usize>],
    imports: usize,
    function: u32,
) -> Result<(), NoMemory>
    requires { function < length places.old }
    ensures { (us : List ℕ) (m : Parts) → length m.imports ≡ imports
        → HasMet us met.old.items places.old
        → OnOk result (HasMet (defines m function ++ us) met.new.items places.new) }
{
    if (function as usize) < imports {
        Ok(())
    } else {
        meet(met, places, function)
    }
}

/// Meets the functions of a segment, from its end on.
fn meet_functions(
    met: &mut Vec<u32>,
    places: &mut [Option<usize>],
    imports: usize,
    functions: &[u32],
) -> Result<(), NoMemory>
    requires { AllBelow (length places.old) functions.now }
    ensures { (us : List ℕ) (m : Parts) → length m.imports ≡ imports
        → HasMet us met.old.items places.old
        → OnOk result (HasMet (flat_map (defines m) functions.now ++ us) met.new.items places.new) }
{
    let mut i = functions.len();
    while i > 0 {
        i -= 1;
        meet_function(met, places, imports, functions[i])?;
    }
    Ok(())
}

/// Meets the functions of all segments, from the last one on.
fn meet_elements(
    met: &mut Vec<u32>,
    places: &mut [Option<usize>],
    imports: usize,
    elements: &[ElementSeg],
) -> Result<(), NoMemory>
    requires { AllBelow (length places.old) (flat_map (λ e. e.functions) elements.now) }
    ensures { (us : List ℕ) (m : Parts) → length m.imports ≡ imports
        → HasMet us met.old.items places.old
        → OnOk result (HasMet (flat_map (λ e. flat_map (defines m) e.functions) elements.now ++ us)
        met.new.items places.new) }
{
    let mut i = elements.len();
    while i > 0 {
        i -= 1;
        meet_functions(met, places, imports, elements[i].functions.as_slice())?;
    }
    Ok(())
}

/// The functions that have a wrapper where the table is doubled, in one pass over the segments.
pub(crate) fn table_functions(
    alloc: Global,
    parts: &ModuleParts,
) -> Result<TableFunctions, NoMemory>
    requires few { length parts.now.imports + length parts.now.functions < 2 ^ 64 }
    requires there { AllBelow (length (function_types parts.now)) (element_functions parts.now) }
    ensures shown { IfOk result (λ table. AreShown parts.now table.functions table.places) }
    ensures listed { IfOk result (λ table. table.functions ≡ table_functions parts.now) }
{
    let imports = parts.imports.len();
    let mut places = new_places(alloc, imports + parts.functions.len())?;
    let mut met = Vec::new(alloc);
    meet_elements(&mut met, &mut places, imports, parts.elements.as_slice())?;
    met.reverse();
    Ok(TableFunctions {
        functions: Items::from_vec(met),
        places: Items::from_vec(places),
    })
}

fn is_table(export: &Export) -> bool
    ensures { result ≡ is_table export.now.kind }
{
    match export.kind {
        ExportKind::Table => true,
        ExportKind::Function | ExportKind::Memory | ExportKind::Global => false,
    }
}

/// Whether an export names the table.
fn table_shown(exports: &[Export]) -> bool
    ensures { result ≡ table_shown exports.now }
{
    for export in exports {
        if is_table(export) {
            return true;
        }
    }
    false
}

/// Whether each segment lies inside of the table, so that instances start.
fn elements_fit(parts: &ModuleParts) -> bool
    ensures { result ≡ all_true (map (element_fits parts.now) parts.now.elements) }
{
    for element in parts.elements.as_slice() {
        if !parts.element_fits(element) {
            return false;
        }
    }
    true
}

/// Whether twice these limits are limits of a table.
fn can_double(limits: &Limits) -> bool
    ensures { result ≡ can_double limits.now }
{
    2 * wide(limits.min) <= Quantity::Table.limit()
        && 2 * wide(limits.max.unwrap_or(0)) < 0x1_0000_0000
}

fn tables_can_double(tables: &LimitsList) -> bool
    ensures { result ≡ all_true (map can_double tables.now) }
{
    for limits in tables.as_slice() {
        if !can_double(limits) {
            return false;
        }
    }
    true
}

/// How many places the segments have.
fn places_count(elements: &[ElementSeg]) -> u64
    requires { length (flat_map (λ e. e.functions) elements.now) < 2 ^ 60 }
    ensures { result ≡ length (flat_map (λ e. e.functions) elements.now) }
{
    let mut sum = 0;
    for element in elements {
        sum += element.functions.len() as u64;
    }
    sum
}

/// The weight of wrappers for these functions.
fn wrappers_weight(parts: &ModuleParts, functions: &[u32]) -> u64
    requires { sum (map (entry_weight parts.now) functions.now) < 2 ^ 63 }
    ensures { result ≡ sum (map (entry_weight parts.now) functions.now) }
{
    let mut sum = 0;
    for function in functions {
        sum += entry_weight(parts, *function);
    }
    sum
}

/// What is added where the table is doubled, with wrappers for these functions.
fn table_weight(parts: &ModuleParts, functions: &[u32]) -> u64
    requires functions { functions.now ≡ table_functions parts.now }
    requires globals { length parts.now.globals < 2 ^ 32 }
    requires wrappers { sum (map (entry_weight parts.now) functions.now) < 2 ^ 63 }
    requires places { length (element_functions parts.now) < 2 ^ 59 }
    ensures { result ≡ table_weight parts.now }
{
    16 * parts.globals.len() as u64
        + wrappers_weight(parts, functions)
        + 10 * places_count(parts.elements.as_slice())
}

/// Whether the table of the rewritten module is twice as long, with wrappers for these functions in
/// front, which a host sees.
pub(crate) fn doubles(parts: &ModuleParts, functions: &[u32]) -> bool
    requires functions { functions.now ≡ table_functions parts.now }
    requires can { CanBeNumbered parts.now }
    ensures { result ≡ doubles parts.now }
{
    table_shown(parts.exports.as_slice())
        && elements_fit(parts)
        && tables_can_double(&parts.tables)
        && table_weight(parts, functions) <= 2 * wide(parts.plain_bytes) + 128
}

/// Adds these functions, where the table is doubled.
pub(crate) fn push_table(
    out: &mut Vec<u32>,
    doubled: bool,
    functions: &[u32],
) -> Result<(), NoMemory>
    ensures { OnOk result (out.new.items
        ≡ out.old.items ++ (if doubled then functions.now else [])) }
{
    if doubled {
        for function in functions {
            out.push(*function)?;
        }
    }
    Ok(())
}
