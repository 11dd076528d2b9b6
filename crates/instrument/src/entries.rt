//! The bodies of wrappers and of helpers.

ghost use Rattle.std.specs.Prelude.{◌≡◌, ◌<◌, ◌^◌, ◌++◌, [], map, length, IfOk};
ghost use Rattle.wasm_syntax.specs.Module.{function_types, type_at};
ghost use Rattle.wasm_syntax.specs.Sizes.{parameter_count};
ghost use Rattle.rewrite_bodies.specs.calls.Guards.{entry_label, first_table, helper};
ghost use Rattle.wasm_syntax.specs.SameCode.{body_code};
ghost use Rattle.rewrite_modules.specs.calls.FlatCode.{body_of};
ghost use Rattle.rewrite_modules.specs.calls.Wrappers.{wrapper};
ghost use Rattle.unwind_rewrite.specs.calls.Rewritten.{Ascends};

use causes::NoMemory;
use index_map::IndexMap;
use pm_text::Items;
use rewrite_code::CodeWriter;
use std::alloc::Global;
use unwind_rewrite::{helper, wrapper};
use wasm_syntax::{Body, Indices, ModuleParts};

/// How many parameters a function has.
fn parameter_count(parts: &ModuleParts, function: u32) -> u32
    requires { parameter_count (type_at parts.now function) < 2 ^ 32 }
    ensures { result ≡ parameter_count (type_at parts.now function) }
{
    parts.parameters(function) as u32
}

/// The body of the wrapper of a function.
pub(crate) fn wrapper_body(
    alloc: Global,
    numbers: &IndexMap<'_>,
    function: u32,
) -> Result<Body, NoMemory>
    requires there { function < length (function_types numbers.now) }
    requires few { parameter_count (type_at numbers.now function) < 2 ^ 32 }
    ensures code { IfOk result (λ out. body_code out
        ≡ body_code (body_of [] (wrapper numbers.now function))) }
    ensures offsets { IfOk result Ascends }
{
    let parts = numbers.source();
    let count = parameter_count(parts, function);
    let mut writer = CodeWriter::new(alloc);
    wrapper(
        numbers,
        &mut writer,
        parts.globals.as_slice(),
        function,
        count,
    )?;
    writer.finish(Items::new(alloc))
}

/// The label of a table entry in the helper of a type, by which the kind of the trap of its call is
/// given.
fn entry_label(parts: &ModuleParts, ftype: u32, entry: Option<u32>) -> u32
    ensures { result ≡ entry_label parts.now ftype entry }
{
    let Some(function) = entry else {
        return 2;
    };
    match (
        parts.types.get(ftype as usize),
        parts.type_of(function as usize),
    ) {
        (Some(asked), Some(own)) if own.is_same(asked) => 0,
        (Some(_), Some(_)) => 3,
        _ => 0,
    }
}

/// The labels of all entries.
fn entry_labels(
    alloc: Global,
    parts: &ModuleParts,
    ftype: u32,
    table: &[Option<u32>],
) -> Result<Indices, NoMemory>
    ensures { IfOk result (λ labels. labels ≡ map (entry_label parts.now ftype) table.now) }
{
    let mut labels = Items::new(alloc);
    for entry in table {
        labels.push(entry_label(parts, ftype, *entry))?;
    }
    Ok(labels)
}

/// The body of the helper of a type, by the table where an instance starts.
pub(crate) fn helper_body(
    alloc: Global,
    parts: &ModuleParts,
    ftype: u32,
    table: &[Option<u32>],
) -> Result<Body, NoMemory>
    requires { table.now ≡ first_table parts.now }
    ensures code { IfOk result (λ out. body_code out
        ≡ body_code (body_of [] (helper parts.now ftype))) }
    ensures offsets { IfOk result Ascends }
{
    let labels = entry_labels(alloc, parts, ftype, table)?;
    let mut writer = CodeWriter::new(alloc);
    helper(&mut writer, labels.as_slice())?;
    writer.finish(Items::new(alloc))
}
