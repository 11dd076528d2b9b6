//! The names that the rewriting takes: the module of the collector's imports, and the export of the
//! memory.

ghost use Rattle.std.specs.Prelude.{◌≡◌, ℕ, false, None, Some, codes, slice_get};
ghost use Rattle.std.specs.List.{AllByRecursion, position_from};
ghost use Rattle.std.specs.Str.{bytes_eq};
ghost use Rattle.wasm_syntax.specs.declared.parts.Import.{Import as Imported};
ghost use Rattle.wasm_syntax.specs.Sizes.{WithinLimits};

use wasm_syntax::{Export, Import, Module};

fn is_collector(import: &Import) -> bool
    ensures { result ≡ bytes_eq import.now.«module» (codes "coredump") }
{
    import.module.as_str() == "coredump"
}

fn is_memory_name(export: &Export) -> bool
    ensures { result ≡ bytes_eq export.now.name (codes "coredump.memory") }
{
    export.name.as_str() == "coredump.memory"
}

fn first_collector(imports: &[Import]) -> Option<usize>
    ensures { result ≡ position_from (λ i. bytes_eq i.«module» (codes "coredump")) 0 imports.now }
{
    imports.iter().position(|import| is_collector(import))
}

fn first_memory_name(exports: &[Export]) -> Option<usize>
    ensures { result ≡ position_from (λ e. bytes_eq e.name (codes "coredump.memory")) 0
        exports.now }
{
    exports.iter().position(|export| is_memory_name(export))
}

/// The first import from the collector's module.
pub fn import_collision(source: &Module) -> Option<u32>
    requires { WithinLimits source.now }
    ensures first { result ≡ position_from (λ i. bytes_eq i.«module» (codes "coredump")) 0
        source.now.imports }
    ensures none { result ≡ None → (f : ℕ) (i : Imported) → slice_get source.now.imports f ≡ Some i
        → bytes_eq i.«module» (codes "coredump") ≡ false }
{
    match first_collector(source.parts().imports.as_slice()) {
        Some(index) => Some(index as u32),
        None => None,
    }
}

/// The first export with the name under which the memory is exported.
pub fn export_collision(source: &Module) -> Option<u32>
    requires { WithinLimits source.now }
    ensures first { result ≡ position_from (λ e. bytes_eq e.name (codes "coredump.memory")) 0
        source.now.exports }
    ensures none { result ≡ None → AllByRecursion
        (λ e. bytes_eq e.name (codes "coredump.memory") ≡ false) source.now.exports }
{
    match first_memory_name(source.parts().exports.as_slice()) {
        Some(index) => Some(index as u32),
        None => None,
    }
}
