//! The functions that have a wrapper.

ghost use Rattle.std.specs.Prelude.{◌≡◌, ℕ, ◌+◌, ◌<◌, ◌^◌, ◌++◌, [], ◌∷◌, map, nat_lt, not, false, length, IfOk, OnOk};
ghost use Rattle.std.specs.Prelude.{if◌then◌else◌};
ghost use Rattle.wasm_syntax.specs.declared.module.ModuleParts.{ModuleParts as Parts};
ghost use Rattle.wasm_syntax.specs.Module.{is_function};
ghost use Rattle.rewrite_bodies.specs.Numbering.{export_wrapped, start_wraps, wrapper_base, wraps};
ghost use Rattle.rewrite_modules.specs.calls.Instrument.{new_exports, new_index};

use causes::NoMemory;
use std::alloc::Global;
use wasm_syntax::{Export, ExportKind, ModuleParts};

/// Whether an export names a function that the module defines, behind so many imported ones.
pub(crate) fn is_wrapped(imports: usize, export: &Export) -> bool
    ensures { result ≡ (if is_function export.now.kind then not (nat_lt export.now.index imports)
        else false) }
{
    match export.kind {
        ExportKind::Function => export.index as usize >= imports,
        ExportKind::Table | ExportKind::Memory | ExportKind::Global => false,
    }
}

fn push_wrapped(out: &mut Vec<u32>, imports: usize, export: &Export) -> Result<(), NoMemory>
    ensures { (m : Parts) → length m.imports ≡ imports
        → OnOk result (out.new.items ≡ out.old.items ++ wraps m export.now) }
{
    if is_wrapped(imports, export) {
        out.push(export.index)?;
    }
    Ok(())
}

/// The functions that exports name and the module defines, one for each export.
pub(crate) fn of_exports(alloc: Global, parts: &ModuleParts) -> Result<Vec<u32>, NoMemory>
    ensures { IfOk result (λ out. out.items ≡ export_wrapped parts.now) }
{
    let mut out = Vec::new(alloc);
    let imports = parts.imports.len();
    for export in parts.exports.as_slice() {
        push_wrapped(&mut out, imports, export)?;
    }
    Ok(out)
}

/// Adds the start function, where the module defines it.
pub(crate) fn push_start(out: &mut Vec<u32>, parts: &ModuleParts) -> Result<(), NoMemory>
    ensures { OnOk result (out.new.items ≡ out.old.items ++ start_wraps parts.now parts.now.start) }
{
    match parts.start {
        Some(f) => {
            if f as usize >= parts.imports.len() {
                out.push(f)?;
            }
            Ok(())
        }
        None => Ok(()),
    }
}

/// Adds the index of an export in the rewritten module, where the next wrapper stands at this
/// index. Gives the index of the wrapper behind.
fn push_index(
    out: &mut Vec<u32>,
    imports: usize,
    next: usize,
    export: &Export,
) -> Result<usize, NoMemory>
    requires { next < 2 ^ 32 }
    ensures index { (m : Parts) (k : ℕ) → length m.imports ≡ imports → next ≡ wrapper_base m + k
        → OnOk result (out.new.items
        ≡ out.old.items ++ new_index m k (wraps m export.now) export.now.index ∷ []) }
    ensures next { (m : Parts) → length m.imports ≡ imports
        → IfOk result (λ behind. behind ≡ next + length (wraps m export.now)) }
{
    if is_wrapped(imports, export) {
        out.push(next as u32)?;
        Ok(next + 1)
    } else {
        out.push(export.index)?;
        Ok(next)
    }
}

/// The index of each export in the rewritten module, where the first wrapper stands at this index.
pub(crate) fn indices(alloc: Global, parts: &ModuleParts, base: usize) -> Result<Vec<u32>, NoMemory>
    requires base { base ≡ wrapper_base parts.now }
    requires few { wrapper_base parts.now + length (export_wrapped parts.now) < 2 ^ 32 }
    ensures { IfOk result (λ out. out.items
        ≡ map (λ e. e.index) (new_exports parts.now 0 parts.now.exports)) }
{
    let mut out = Vec::new(alloc);
    let imports = parts.imports.len();
    let mut next = base;
    for export in parts.exports.as_slice() {
        next = push_index(&mut out, imports, next, export)?;
    }
    Ok(out)
}
