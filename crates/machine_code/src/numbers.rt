//! The number of each function's type.

ghost use Rattle.std.specs.Prelude.{◌≡◌, ◌++◌, map, get_or, OnOk, IfOk};
ghost use Rattle.wasm_syntax.specs.Module.{function_types};

use causes::NoMemory;
use pm_text::Items;
use std::alloc::Global;
use wasm_syntax::{Import, ModuleParts};

/// The number of a type, or 0 where there is no such type.
fn number_at(numbers: &Items<usize>, t: u32) -> usize
    ensures { result ≡ get_or numbers.now t 0 }
{
    match numbers.get(t as usize).copied() {
        Some(number) => number,
        None => 0,
    }
}

/// The numbers of the types of imported functions.
fn imported(
    out: &mut Vec<usize>,
    imports: &[Import],
    numbers: &Items<usize>,
) -> Result<(), NoMemory>
    ensures { OnOk result (out.new.items
        ≡ out.old.items ++ map (λ i. get_or numbers.now i.ftype 0) imports.now) }
{
    for import in imports {
        out.push(number_at(numbers, import.ftype))?;
    }
    Ok(())
}

/// The numbers of the types at these indices.
fn defined(out: &mut Vec<usize>, types: &[u32], numbers: &Items<usize>) -> Result<(), NoMemory>
    ensures { OnOk result (out.new.items
        ≡ out.old.items ++ map (λ t. get_or numbers.now t 0) types.now) }
{
    for t in types {
        out.push(number_at(numbers, *t))?;
    }
    Ok(())
}

/// For each function, the imported ones first, the number of its type.
pub(crate) fn function_numbers(
    alloc: Global,
    parts: &ModuleParts,
    numbers: &Items<usize>,
) -> Result<Items<usize>, NoMemory>
    ensures { IfOk result (λ fs. fs
        ≡ map (λ t. get_or numbers.now t 0) (function_types parts.now)) }
{
    let mut out = Vec::new(alloc);
    imported(&mut out, parts.imports.as_slice(), numbers)?;
    defined(&mut out, parts.functions.as_slice(), numbers)?;
    Ok(Items::from_vec(out))
}
