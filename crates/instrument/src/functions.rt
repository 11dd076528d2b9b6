//! The types of functions, and the functions of elements; the limits of tables.

ghost use Rattle.std.specs.Prelude.{◌≡◌, ◌+◌, ◌<◌, ◌^◌, ◌++◌, true, length, map, IfOk, OnOk};
ghost use Rattle.std.specs.List.{AllByRecursion};
ghost use Rattle.wasm_syntax.specs.Module.{function_types};
ghost use Rattle.wasm_syntax.specs.Run.{element_fits};
ghost use Rattle.rewrite_bodies.specs.Numbering.{can_double, doubles, element_functions, is_in, mapped, shown, wrapped};
ghost use Rattle.rewrite_modules.specs.calls.Instrument.{shown_element, shown_elements, wrapper_type};
ghost use Rattle.rewrite_modules.specs.Interface.{doubled};
ghost use Rattle.rewrite_modules.specs.Interface.{new_tables};
ghost use Rattle.rewrite_modules.specs.Weight.{types_used};
ghost use Rattle.instrument.specs.inner.Parts.{ElementThere, inner_code, written_element, written_elements};

use crate::copies::Duplicate;
use crate::declarations::number_code;
use causes::NoMemory;
use index_map::IndexMap;
use pm_text::Items;
use std::alloc::Global;
use wasm_syntax::{Body, ElementSeg, ElementSegs, Indices, Limits, LimitsList, ModuleParts};

/// The type index of a wrapper: that of its function.
fn wrapper_type(parts: &ModuleParts, function: u32) -> u32
    ensures { result ≡ wrapper_type parts.now function }
{
    let f = function as usize;
    let imported = parts.imports.len();
    if f < imported {
        return parts.imports.as_slice()[f].ftype;
    }
    parts.functions.get(f - imported).copied().unwrap_or(0)
}

/// Adds the types of wrappers.
fn push_wrappers(out: &mut Indices, parts: &ModuleParts, functions: &[u32]) -> Result<(), NoMemory>
    ensures { OnOk result (out.new ≡ out.old ++ map (wrapper_type parts.now) functions.now) }
{
    for function in functions {
        out.push(wrapper_type(parts, *function))?;
    }
    Ok(())
}

/// Adds the type of a helper for each of these types.
fn push_helpers(out: &mut Indices, ftype: u32, helped: &[u32]) -> Result<(), NoMemory>
    ensures { OnOk result (out.new ≡ out.old ++ map (λ u. ftype) helped.now) }
{
    for _ in helped {
        out.push(ftype)?;
    }
    Ok(())
}

/// The types of the functions, and behind them those of wrappers and of helpers.
pub(crate) fn new_functions(alloc: Global, numbers: &IndexMap<'_>) -> Result<Indices, NoMemory>
    requires { length numbers.now.types + 3 < 2 ^ 32 }
    ensures { IfOk result (λ functions. functions
        ≡ numbers.now.functions ++ (map (wrapper_type numbers.now) (wrapped numbers.now)
        ++ map (λ u. length numbers.now.types + 3) (types_used numbers.now))) }
{
    let parts = numbers.source();
    let mut functions = Items::from_slice(alloc, parts.functions.as_slice())?;
    push_wrappers(&mut functions, parts, numbers.wrapped())?;
    push_helpers(
        &mut functions,
        parts.types.len() as u32 + 3,
        numbers.helped(),
    )?;
    Ok(functions)
}

/// The indices of functions in the rewritten module.
fn mapped_functions(
    alloc: Global,
    numbers: &IndexMap<'_>,
    functions: &[u32],
) -> Result<Indices, NoMemory>
    requires { AllByRecursion (λ f. f < length (function_types numbers.now)) functions.now }
    ensures { IfOk result (λ out. out ≡ map (mapped numbers.now) functions.now) }
{
    let mut out = Items::new(alloc);
    for function in functions {
        out.push(numbers.function(*function))?;
    }
    Ok(out)
}

/// What a host sees in place of functions of the table.
fn shown_functions(
    alloc: Global,
    numbers: &IndexMap<'_>,
    functions: &[u32],
) -> Result<Indices, NoMemory>
    requires doubled { doubles numbers.now ≡ true }
    requires listed { AllByRecursion (λ f. is_in f (element_functions numbers.now) ≡ true)
        functions.now }
    ensures { IfOk result (λ out. out ≡ map (shown numbers.now) functions.now) }
{
    let mut out = Items::new(alloc);
    for function in functions {
        out.push(numbers.shown(*function))?;
    }
    Ok(out)
}

fn shown_element(
    alloc: Global,
    numbers: &IndexMap<'_>,
    element: &ElementSeg,
) -> Result<ElementSeg, NoMemory>
    requires doubled { doubles numbers.now ≡ true }
    requires listed { AllByRecursion (λ f. is_in f (element_functions numbers.now) ≡ true)
        element.now.functions }
    ensures { IfOk result (λ out. out ≡ shown_element numbers.now element.now) }
{
    Ok(ElementSeg {
        table: element.table,
        functions: shown_functions(alloc, numbers, element.functions.as_slice())?,
        offset: element.offset.duplicate(alloc)?,
    })
}

/// Adds the segments for a host, where the table is doubled.
fn push_shown(alloc: Global, out: &mut ElementSegs, numbers: &IndexMap<'_>) -> Result<(), NoMemory>
    requires { AllByRecursion (λ e. AllByRecursion
        (λ f. is_in f (element_functions numbers.now) ≡ true) e.functions) numbers.now.elements }
    ensures { OnOk result (out.new ≡ out.old ++ shown_elements numbers.now) }
{
    if numbers.doubles() {
        for element in numbers.source().elements.as_slice() {
            out.push(shown_element(alloc, numbers, element)?)?;
        }
    }
    Ok(())
}

/// The offset of a segment for what the module itself calls: behind the table for the host, where
/// the table is doubled.
fn inner_offset(
    alloc: Global,
    numbers: &IndexMap<'_>,
    element: &ElementSeg,
) -> Result<Body, NoMemory>
    requires { doubles numbers.now ≡ true → element_fits numbers.now element.now ≡ true }
    ensures { IfOk result (λ body. body ≡ inner_code numbers.now element.now) }
{
    if numbers.doubles() {
        let at = numbers.source().element_at(element);
        number_code(alloc, at + numbers.table_size())
    } else {
        element.offset.duplicate(alloc)
    }
}

fn inner_element(
    alloc: Global,
    numbers: &IndexMap<'_>,
    element: &ElementSeg,
) -> Result<ElementSeg, NoMemory>
    requires there { ElementThere numbers.now element.now }
    requires fits { doubles numbers.now ≡ true → element_fits numbers.now element.now ≡ true }
    ensures { IfOk result (λ out. out ≡ written_element numbers.now element.now) }
{
    Ok(ElementSeg {
        table: element.table,
        functions: mapped_functions(alloc, numbers, element.functions.as_slice())?,
        offset: inner_offset(alloc, numbers, element)?,
    })
}

/// Adds the segments for what the module itself calls, with the indices that functions have in the
/// rewritten module.
fn push_inner(alloc: Global, out: &mut ElementSegs, numbers: &IndexMap<'_>) -> Result<(), NoMemory>
    requires there { AllByRecursion (ElementThere numbers.now) numbers.now.elements }
    requires fit { AllByRecursion (λ e. doubles numbers.now ≡ true
        → element_fits numbers.now e ≡ true) numbers.now.elements }
    ensures { OnOk result (out.new
        ≡ out.old ++ map (written_element numbers.now) numbers.now.elements) }
{
    for element in numbers.source().elements.as_slice() {
        out.push(inner_element(alloc, numbers, element)?)?;
    }
    Ok(())
}

/// The segments of tables: where a table is doubled, those for a host, and then those for what the
/// module itself calls.
pub(crate) fn new_elements(alloc: Global, numbers: &IndexMap<'_>) -> Result<ElementSegs, NoMemory>
    requires there { AllByRecursion (ElementThere numbers.now) numbers.now.elements }
    requires listed { AllByRecursion (λ e. AllByRecursion
        (λ f. is_in f (element_functions numbers.now) ≡ true) e.functions) numbers.now.elements }
    requires fit { AllByRecursion (λ e. doubles numbers.now ≡ true
        → element_fits numbers.now e ≡ true) numbers.now.elements }
    ensures { IfOk result (λ out. out ≡ written_elements numbers.now) }
{
    let mut out = Items::new(alloc);
    push_shown(alloc, &mut out, numbers)?;
    push_inner(alloc, &mut out, numbers)?;
    Ok(out)
}

/// Twice these limits.
fn doubled(limits: Limits) -> Limits
    requires { can_double limits ≡ true }
    ensures { result ≡ doubled limits }
{
    Limits {
        min: 2 * limits.min,
        max: match limits.max {
            Some(max) => Some(2 * max),
            None => None,
        },
    }
}

/// The limits of tables, each of which can be doubled.
fn doubled_tables(alloc: Global, tables: &[Limits]) -> Result<LimitsList, NoMemory>
    requires { AllByRecursion (λ l. can_double l ≡ true) tables.now }
    ensures { IfOk result (λ out. out ≡ map doubled tables.now) }
{
    let mut out = Items::new(alloc);
    for limits in tables {
        out.push(doubled(*limits))?;
    }
    Ok(out)
}

/// The limits of tables, doubled for a host that sees them.
pub(crate) fn new_tables(alloc: Global, numbers: &IndexMap<'_>) -> Result<LimitsList, NoMemory>
    requires { doubles numbers.now ≡ true
        → AllByRecursion (λ l. can_double l ≡ true) numbers.now.tables }
    ensures { IfOk result (λ out. out ≡ new_tables numbers.now) }
{
    let tables = numbers.source().tables.as_slice();
    if numbers.doubles() {
        doubled_tables(alloc, tables)
    } else {
        Ok(Items::from_slice(alloc, tables)?)
    }
}
