//! The weight of a module.

ghost use Rattle.std.specs.Prelude.{◌≡◌, ◌+◌, ◌*◌, ◌<◌, ◌≤◌, ◌^◌, ℕ, length, slice_get, unwrap_or, if◌then◌else◌};
ghost use Rattle.std.specs.Option.{option_copied};
ghost use Rattle.wasm_syntax.specs.declared.quantity.Quantity.TheVariants.{Height, Locals};
ghost use Rattle.wasm_syntax.specs.Module.{is_function, type_at};
ghost use Rattle.wasm_syntax.specs.Valid.{AtIndex};
ghost use Rattle.wasm_syntax.specs.Quantity.{greatest};
ghost use Rattle.wasm_syntax.specs.Run.{table_min};
ghost use Rattle.wasm_syntax.specs.Sizes.{WithinLimits, local_count};
ghost use Rattle.wasm_format_laws.specs.calls.Sized.{Sized};
ghost use Rattle.rewrite_bodies.specs.Numbering.{entry_weight};
ghost use Rattle.rewrite_modules.specs.Weight.{bodies_weight, exports_weight, height_at, op_weight, ops_weight};
ghost use Rattle.rewrite_modules.specs.Weight.{start_weight, types_used, weight};
ghost use Rattle.rewrite_bodies.specs.Numbering.{extra};

use crate::IndexMap;
use crate::count::{entry_weight, height_before, heights_of, least_size};
use wasm_syntax::{
    Basic, Body, Export, ExportKind, FuncType, Heights, Instr, LimitsList, ModuleParts, Op,
};

/// What an instruction weighs beside its length and its height.
fn extra(code: Instr) -> u64
    ensures { result ≡ extra code }
{
    match code {
        Instr::Basic(Basic::MemoryCopy | Basic::MemoryFill) => 128,
        _ => 0,
    }
}

fn op_weight(op: &Op, height: u64) -> u64
    requires { height < 2 ^ 32 }
    ensures { result ≡ op_weight op.now height }
{
    192 + 8 * u64::from(op.len) + 16 * height + extra(op.code)
}

/// The weight of flat code with these operand heights.
fn ops_weight(ops: &[Op], heights: &[u32]) -> u64
    requires { ops_weight (λ j. unwrap_or (slice_get heights.now j) 0) 0 ops.now < 2 ^ 64 }
    ensures { result ≡ ops_weight (λ j. unwrap_or (slice_get heights.now j) 0) 0 ops.now }
{
    let mut sum = 0;
    for j in 0..ops.len() {
        sum += op_weight(&ops[j], height_before(heights, j));
    }
    sum
}

/// The weight of a function of this type.
fn body_weight(ftype: Option<&FuncType>, body: &Body, heights: &[u32]) -> u64
    requires locals { local_count (option_copied ftype) body.now ≤ greatest Locals }
    requires fits { 192 + 16 * local_count (option_copied ftype) body.now
        + ops_weight (λ j. unwrap_or (slice_get heights.now j) 0) 0 body.now.ops < 2 ^ 64 }
    ensures { result ≡ 192 + 16 * local_count (option_copied ftype.entry) body.now
        + ops_weight (λ j. unwrap_or (slice_get heights.now j) 0) 0 body.now.ops }
{
    192 + 16 * body.locals(ftype) + ops_weight(body.ops.as_slice(), heights)
}

/// The weight of all functions that the module defines.
fn bodies_weight(parts: &ModuleParts, heights: &Heights) -> u64
    requires few { length parts.now.imports + length parts.now.bodies < 2 ^ 64 }
    requires locals { AtIndex parts.now.bodies
        (λ i body. local_count (type_at parts.now (length parts.now.imports + i)) body
        ≤ greatest Locals) }
    requires fits { bodies_weight parts.now heights.now 0 parts.now.bodies < 2 ^ 64 }
    ensures { result ≡ bodies_weight parts.now heights.now 0 parts.now.bodies }
{
    let bodies = parts.bodies.as_slice();
    let mut sum = 0;
    for i in 0..bodies.len() {
        let ftype = parts.type_of(parts.imports.len() + i);
        sum += body_weight(ftype, &bodies[i], heights_of(heights, i));
    }
    sum
}

/// The weight of an export: none, where it names no function.
fn export_weight(parts: &ModuleParts, export: &Export) -> u64
    requires { (if is_function export.now.kind then entry_weight parts.now export.now.index else 0)
        < 2 ^ 64 }
    ensures { result ≡ (if is_function export.now.kind then entry_weight parts.now export.now.index
        else 0) }
{
    match export.kind {
        ExportKind::Function => entry_weight(parts, export.index),
        ExportKind::Table | ExportKind::Memory | ExportKind::Global => 0,
    }
}

/// The weight of the exports.
fn exports_weight(parts: &ModuleParts) -> u64
    requires { exports_weight parts.now parts.now.exports < 2 ^ 64 }
    ensures { result ≡ exports_weight parts.now parts.now.exports }
{
    let mut sum = 0;
    for export in parts.exports.as_slice() {
        sum += export_weight(parts, export);
    }
    sum
}

/// The weight of the start function, where there is one.
fn start_weight(parts: &ModuleParts) -> u64
    requires { start_weight parts.now parts.now.start < 2 ^ 64 }
    ensures { result ≡ start_weight parts.now parts.now.start }
{
    match parts.start {
        Some(function) => entry_weight(parts, function),
        None => 0,
    }
}

/// The weight of so many types that are used to call functions through a table.
fn types_weight(count: usize, tables: &LimitsList) -> u64
    requires { count * (128 + 5 * table_min tables.now) < 2 ^ 64 }
    ensures { result ≡ count * (128 + 5 * table_min tables.now) }
{
    count as u64 * (128 + 5 * least_size(tables))
}

/// The sum of the parts, where so many types are used to call functions through a table.
fn total(parts: &ModuleParts, heights: &Heights, types: usize) -> u64
    requires few { length parts.now.imports + length parts.now.bodies < 2 ^ 64 }
    requires locals { AtIndex parts.now.bodies
        (λ i body. local_count (type_at parts.now (length parts.now.imports + i)) body
        ≤ greatest Locals) }
    requires fits { 512 + 8 * parts.now.plain_bytes
        + bodies_weight parts.now heights.now 0 parts.now.bodies + types
        * (128 + 5 * table_min parts.now.tables) + exports_weight parts.now parts.now.exports
        + start_weight parts.now parts.now.start < 2 ^ 64 }
    ensures { result ≡ 512 + 8 * parts.now.plain_bytes
        + bodies_weight parts.now heights.now 0 parts.now.bodies + types
        * (128 + 5 * table_min parts.now.tables) + exports_weight parts.now parts.now.exports
        + start_weight parts.now parts.now.start }
{
    512 + 8 * u64::from(parts.plain_bytes)
        + bodies_weight(parts, heights)
        + types_weight(types, &parts.tables)
        + exports_weight(parts)
        + start_weight(parts)
}

/// The weight of a module with these operand heights, by which the bytes of its rewriting are
/// bounded. The module is within the limits of the decoder and of validation, and its lengths are
/// those of a spelling.
pub fn weight(numbers: &IndexMap<'_>, heights: &Heights) -> u64
    requires sized { Sized numbers.now }
    requires limits { WithinLimits numbers.now }
    requires low { (i op : ℕ) → height_at heights.now i op ≤ greatest Height }
    ensures { result ≡ weight numbers.now heights.now }
{
    total(numbers.source(), heights, numbers.helped().len())
}
