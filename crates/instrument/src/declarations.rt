//! Types, imports and globals.

ghost use Rattle.std.specs.Prelude.{◌≡◌, ◌+◌, ◌*◌, ◌<◌, ◌^◌, ◌++◌, [], ◌∷◌, true, length, IfOk, OnOk};
ghost use Rattle.rewrite_bodies.specs.calls.Guards.{less_word};
ghost use Rattle.rewrite_modules.specs.Collector.{collector_import};
ghost use Rattle.rewrite_modules.specs.calls.Instrument.{memory_min};
ghost use Rattle.instrument.specs.inner.Parts.{flag, measure, measured, more_imports, more_types};
ghost use Rattle.instrument.specs.inner.Parts.{number_code, value_code};

use crate::copies::duplicates;
use causes::NoMemory;
use pm_text::{Items, Text};
use std::alloc::Global;
use wasm_syntax::{
    Basic, Body, FuncType, FuncTypes, Global as GlobalPart, Globals, Import, Imports, Instr,
    ModuleParts, Op, ValType, Value,
};

/// Adds a type of functions.
fn push_type(
    alloc: Global,
    types: &mut FuncTypes,
    params: &[ValType],
    results: &[ValType],
) -> Result<(), NoMemory>
    ensures { OnOk result (types.new
        ≡ types.old ++ record { params = params.now; results = results.now } ∷ []) }
{
    types.push(FuncType {
        params: Items::from_slice(alloc, params)?,
        results: Items::from_slice(alloc, results)?,
    })
}

/// Adds the types of the collector's imports and of helpers.
fn push_types(alloc: Global, types: &mut FuncTypes) -> Result<(), NoMemory>
    ensures { OnOk result (types.new ≡ types.old ++ more_types) }
{
    push_type(alloc, types, &[ValType::I32], &[])?;
    push_type(alloc, types, &[ValType::I64], &[])?;
    push_type(alloc, types, &[ValType::I32; 4], &[])?;
    push_type(alloc, types, &[ValType::I32], &[ValType::I32])
}

/// The types of the module, and behind them those of the collector's imports and of helpers.
pub(crate) fn new_types(alloc: Global, parts: &ModuleParts) -> Result<FuncTypes, NoMemory>
    ensures { IfOk result (λ types. types ≡ parts.now.types ++ more_types) }
{
    let mut types = duplicates(alloc, &parts.types)?;
    push_types(alloc, &mut types)?;
    Ok(types)
}

/// Adds an import of the collector's module.
fn push_import(alloc: Global, imports: &mut Imports, name: &str, ftype: u32) -> Result<(), NoMemory>
    ensures { OnOk result (imports.new ≡ imports.old ++ collector_import name.now ftype ∷ []) }
{
    imports.push(Import {
        module: Text::from_str(alloc, "coredump")?,
        name: Text::from_str(alloc, name)?,
        ftype,
    })
}

/// Adds the imports of the collector, behind so many types.
fn push_imports(alloc: Global, imports: &mut Imports, types: u32) -> Result<(), NoMemory>
    requires { types + 3 < 2 ^ 32 }
    ensures { OnOk result (imports.new ≡ imports.old ++ more_imports types) }
{
    push_import(alloc, imports, "value_i32", types)?;
    push_import(alloc, imports, "value_i64", types + 1)?;
    push_import(alloc, imports, "frame", types + 2)
}

/// The imports of the module, and behind them those of the collector.
pub(crate) fn new_imports(alloc: Global, parts: &ModuleParts) -> Result<Imports, NoMemory>
    requires { length parts.now.types + 3 < 2 ^ 32 }
    ensures { IfOk result (λ imports. imports
        ≡ parts.now.imports ++ more_imports (length parts.now.types)) }
{
    let types = parts.types.len() as u32;
    let mut imports = duplicates(alloc, &parts.imports)?;
    push_imports(alloc, &mut imports, types)?;
    Ok(imports)
}

/// An instruction at an offset, without a length.
fn placed(at: u32, code: Instr) -> Op
    ensures { result ≡ record { at = at; len = 0; code = code } }
{
    Op { at, len: 0, code }
}

/// The constant expression of a value (Core 3.3.7), with numbers in place of offsets.
fn value_code(alloc: Global, value: Value) -> Result<Body, NoMemory>
    ensures { IfOk result (λ body. body ≡ value_code value) }
{
    let code = Instr::Basic(Basic::Const(value));
    let ops = Items::from_slice(alloc, &[placed(0, code), placed(1, Instr::End)])?;
    Ok(Body {
        groups: Items::new(alloc),
        ops,
        targets: Items::new(alloc),
        start: 0,
    })
}

/// The constant expression of a number.
pub(crate) fn number_code(alloc: Global, number: u32) -> Result<Body, NoMemory>
    ensures { IfOk result (λ body. body ≡ number_code number) }
{
    value_code(alloc, Value::I32(number))
}

/// How many pages the memory has at the start; 0 where there is none.
fn memory_min(parts: &ModuleParts) -> u32
    ensures { result ≡ memory_min parts.now.memories }
{
    match parts.memories.as_slice() {
        [] => 0,
        [limits, ..] => limits.min,
    }
}

/// The length of the memory at the start: four bytes less, as a number of 64 bits.
fn first_length(parts: &ModuleParts) -> u64
    ensures { result ≡ less_word (65536 * memory_min parts.now.memories) }
{
    let pages = memory_min(parts) as u64;
    (65_536 * pages).wrapping_sub(4)
}

/// Adds a global of this type that begins with a value, and may change.
fn push_global(
    alloc: Global,
    globals: &mut Globals,
    vtype: ValType,
    value: Value,
) -> Result<(), NoMemory>
    ensures { OnOk result (globals.new ≡ globals.old
        ++ record { vtype = vtype; mutable = true; init = value_code value } ∷ []) }
{
    globals.push(GlobalPart {
        vtype,
        mutable: true,
        init: value_code(alloc, value)?,
    })
}

/// Adds the flag, which is down at first, and the global that tells the length of the memory, which
/// is this at first.
fn push_globals(alloc: Global, globals: &mut Globals, length: u64) -> Result<(), NoMemory>
    ensures { OnOk result (globals.new ≡ globals.old ++ flag ∷ measured length ∷ []) }
{
    push_global(alloc, globals, ValType::I32, Value::I32(0))?;
    push_global(alloc, globals, ValType::I64, Value::I64(length))
}

/// The globals of the module, and behind them the flag and the length of the memory.
pub(crate) fn new_globals(alloc: Global, parts: &ModuleParts) -> Result<Globals, NoMemory>
    ensures { IfOk result (λ globals. globals
        ≡ parts.now.globals ++ flag ∷ measure parts.now ∷ []) }
{
    let mut globals = duplicates(alloc, &parts.globals)?;
    push_globals(alloc, &mut globals, first_length(parts))?;
    Ok(globals)
}
