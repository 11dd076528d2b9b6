//! The whole module.

ghost use Rattle.std.specs.Prelude.{◌≡◌, ℕ, ◌+◌, option_copied, slice_get, length, OnOk, IfOk, Some};
ghost use Rattle.wasm_syntax.specs.declared.parts.FuncType.{FuncType as Signature};
ghost use Rattle.wasm_syntax.specs.Tree.{Tree as CodeTree, Writes};
ghost use Rattle.wasm_syntax.specs.Module.{Program, IsProgram, option_then};
ghost use Rattle.machine_code.specs.calls.Code.{FitsCode};
ghost use Rattle.machine_code.specs.calls.Prepares.{IsPrepared};
ghost use Rattle.machine_code.specs.inner.Codes.{PreparesUpTo};

use crate::numbers::function_numbers;
use crate::type_words::number_types;
use crate::{Code, Prepared};
use causes::NoMemory;
use pm_text::Items;
use std::alloc::Global;
use wasm_syntax::{Body, FuncType, Module, ModuleParts};

/// The code of a function, whose type is there in a valid module.
fn prepare_one<'a>(
    alloc: Global,
    body: &'a Body,
    ftype: Option<&FuncType>,
) -> Result<Code<'a>, NoMemory>
    ensures { (tree : CodeTree) (type : Signature) → option_copied ftype.entry ≡ Some type
        → Writes body.now.targets body.now.ops tree
        → IfOk result (λ code. (code.body.now ≡ body.now) × FitsCode tree type code) }
{
    match ftype {
        Some(ftype) => Code::prepare(alloc, body, ftype),
        None => Ok(Code {
            body,
            sides: Items::new(alloc),
            params: 0,
            gives: false,
        }),
    }
}

/// The type of a defined function.
fn type_of(lists: &ModuleParts, i: usize) -> Option<&FuncType>
    ensures { option_copied result
        ≡ option_then (slice_get lists.now.functions i) (slice_get lists.now.types) }
{
    match lists.functions.get(i).copied() {
        Some(t) => lists.types.get(t as usize),
        None => None,
    }
}

/// Puts the code of the next function behind those of the functions before it.
fn push_code<'a>(
    alloc: Global,
    body: &'a Body,
    ftype: Option<&FuncType>,
    codes: &mut Vec<Code<'a>>,
) -> Result<(), NoMemory>
    ensures { (p : Program) (i : ℕ) → IsProgram p → PreparesUpTo p i codes.old.items
        → slice_get p.module_.bodies i ≡ Some body.now
        → option_copied ftype.entry ≡ option_then (slice_get p.module_.functions i)
        (slice_get p.module_.types) → OnOk result (PreparesUpTo p (i + 1) codes.new.items) }
{
    let code = prepare_one(alloc, body, ftype)?;
    codes.push(code)?;
    Ok(())
}

/// The code of each function that the module defines.
fn prepare_codes<'a>(alloc: Global, lists: &'a ModuleParts) -> Result<Vec<Code<'a>>, NoMemory>
    ensures { (p : Program) → p.module_ ≡ lists.now → IsProgram p
        → IfOk result (λ codes. PreparesUpTo p (length lists.now.bodies) codes.items) }
{
    let mut codes = Vec::new(alloc);
    let mut i = 0;
    for body in lists.bodies.as_slice() {
        push_code(alloc, body, type_of(lists, i), &mut codes)?;
        i += 1;
    }
    Ok(codes)
}

/// The module with its functions and types prepared.
pub fn prepare<'a>(alloc: Global, source: &'a Module) -> Result<Prepared<'a>, NoMemory>
    ensures { (p : Program) → p.module_ ≡ source.now → IsProgram p
        → IfOk result (λ prepared. IsPrepared p prepared) }
{
    let lists = source.parts();
    let codes = prepare_codes(alloc, lists)?;
    let of_types = number_types(alloc, lists.types.as_slice())?;
    let of_functions = function_numbers(alloc, lists, &of_types)?;
    Ok(Prepared {
        codes,
        imports: lists.imports.len(),
        type_numbers: of_types,
        function_numbers: of_functions,
    })
}
