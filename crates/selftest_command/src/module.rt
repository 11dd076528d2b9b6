//! The module of a self-test.

ghost use Rattle.std.specs.Prelude.{◌≡◌, ◌∷◌, [], ◌≤◌, IfOk, codes, replicate};
ghost use Rattle.wasm_syntax.specs.declared.value.ValType.TheVariants.{I32};
ghost use Rattle.wasm_syntax.specs.declared.parts.ExportKind.TheVariants as kinds;
ghost use Rattle.wasm_syntax.specs.Valid.{Valid};
ghost use Rattle.selftest_command.specs.Selftest.{bodies as bodies_there, selftest};

use crate::code::{body_of, function_code};
use causes::NoMemory;
use pm_text::{Items, Text};
use std::alloc::Global;
use wasm_syntax::{
    Bodies, Export, ExportKind, Exports, FuncType, FuncTypes, Limits, Module, ModuleParts, ValType,
};

/// Each function has the one type.
fn functions(alloc: Global, count: u32) -> Result<Items<u32>, NoMemory>
    ensures { IfOk result (λ xs. xs ≡ replicate count 0) }
{
    let all = vec![in alloc; 0u32; count as usize]?;
    Ok(Items::from_vec(all))
}

/// The bodies of the functions, in order.
fn bodies(alloc: Global, count: u32) -> Result<Bodies, NoMemory>
    requires { count ≤ 900 }
    ensures { IfOk result (λ bs. bs ≡ bodies_there count count) }
{
    let mut all = Items::new(alloc);
    let mut r = count;
    for i in 0..count {
        let (code, last) = function_code(alloc, count, i, r)?;
        all.push(body_of(alloc, code.as_slice())?)?;
        r = last;
    }
    Ok(all)
}

fn one<T: Drop>(alloc: Global, item: T) -> Result<Items<T>, NoMemory>
    ensures { IfOk result (λ xs. xs ≡ item ∷ []) }
{
    let mut items = Items::new(alloc);
    items.push(item)?;
    Ok(items)
}

/// Two numbers to one.
fn function_type(alloc: Global) -> Result<FuncType, NoMemory>
    ensures { IfOk result (λ t. t ≡ record { params = I32 ∷ I32 ∷ []; results = I32 ∷ [] }) }
{
    let mut params = Items::new(alloc);
    params.push(ValType::I32)?;
    params.push(ValType::I32)?;
    let mut results = Items::new(alloc);
    results.push(ValType::I32)?;
    Ok(FuncType { params, results })
}

fn types(alloc: Global) -> Result<FuncTypes, NoMemory>
    ensures { IfOk result (λ ts. ts
        ≡ record { params = I32 ∷ I32 ∷ []; results = I32 ∷ [] } ∷ []) }
{
    let own = function_type(alloc)?;
    one(alloc, own)
}

fn main_export(alloc: Global) -> Result<Export, NoMemory>
    ensures { IfOk result (λ e. e ≡ record {
      name = codes "main";
      kind = kinds.Function;
      index = 0;
    }) }
{
    Ok(Export {
        name: Text::from_str(alloc, "main")?,
        kind: ExportKind::Function,
        index: 0,
    })
}

fn exports(alloc: Global) -> Result<Exports, NoMemory>
    ensures { IfOk result (λ es. es ≡ record {
      name = codes "main";
      kind = kinds.Function;
      index = 0;
    } ∷ []) }
{
    let main = main_export(alloc)?;
    one(alloc, main)
}

fn parts(alloc: Global, count: u32) -> Result<ModuleParts, NoMemory>
    requires { count ≤ 900 }
    ensures { IfOk result (λ m. m ≡ selftest count) }
{
    let memory = Limits { min: 1, max: None };
    Ok(ModuleParts {
        types: types(alloc)?,
        exports: exports(alloc)?,
        functions: functions(alloc, count)?,
        memories: one(alloc, memory)?,
        bodies: bodies(alloc, count)?,
        imports: Items::new(alloc),
        tables: Items::new(alloc),
        globals: Items::new(alloc),
        start: None,
        elements: Items::new(alloc),
        segments: Items::new(alloc),
        customs: Items::new(alloc),
        plain_bytes: 0,
    })
}

/// The module of a self-test of so many functions.
pub fn selftest_module(alloc: Global, count: u32) -> Result<Module, NoMemory>
    requires least { 1 ≤ count }
    requires most { count ≤ 900 }
    ensures is { IfOk result (λ m. m ≡ selftest count) }
    ensures valid { IfOk result Valid }
{
    Ok(Module::new(parts(alloc, count)?))
}
