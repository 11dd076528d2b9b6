//! The whole module.

ghost use Rattle.std.specs.Prelude.{◌≡◌, ◌+◌, ◌<◌, ◌^◌, [], true, length, IfOk};
ghost use Rattle.std.specs.List.{AllByRecursion};
ghost use Rattle.wasm_syntax.specs.Run.{element_fits};
ghost use Rattle.rewrite_bodies.specs.Numbering.{can_double, doubles, element_functions, is_in};
ghost use Rattle.rewrite_promise.specs.calls.Promise.{IsRewriting, Promised};
ghost use Rattle.rewrite_promise.specs.calls.Layers.{Layered};
ghost use Rattle.instrument.specs.calls.Assembly.{AreBodies};
ghost use Rattle.instrument.specs.inner.Parts.{ElementThere, new_parts};

use crate::copies::duplicates;
use crate::declarations::{new_globals, new_imports, new_types};
use crate::exports::new_exports;
use crate::functions::{new_elements, new_functions, new_tables};
use causes::NoMemory;
use index_map::IndexMap;
use pm_text::Items;
use std::alloc::Global;
use wasm_syntax::{Bodies, Module, ModuleParts};

/// All parts of the rewritten module, with these bodies.
fn new_parts(alloc: Global, numbers: &IndexMap<'_>, bodies: Bodies) -> Result<ModuleParts, NoMemory>
    requires types { length numbers.now.types + 3 < 2 ^ 32 }
    requires elements { AllByRecursion (ElementThere numbers.now) numbers.now.elements }
    requires listed { AllByRecursion (λ e. AllByRecursion
        (λ f. is_in f (element_functions numbers.now) ≡ true) e.functions) numbers.now.elements }
    requires fit { AllByRecursion (λ e. doubles numbers.now ≡ true
        → element_fits numbers.now e ≡ true) numbers.now.elements }
    requires limits { doubles numbers.now ≡ true
        → AllByRecursion (λ l. can_double l ≡ true) numbers.now.tables }
    ensures { IfOk result (λ parts. parts ≡ new_parts numbers.now bodies) }
{
    let parts = numbers.source();
    Ok(ModuleParts {
        types: new_types(alloc, parts)?,
        imports: new_imports(alloc, parts)?,
        functions: new_functions(alloc, numbers)?,
        tables: new_tables(alloc, numbers)?,
        memories: Items::from_slice(alloc, parts.memories.as_slice())?,
        globals: new_globals(alloc, parts)?,
        exports: new_exports(alloc, numbers)?,
        start: numbers.start(),
        elements: new_elements(alloc, numbers)?,
        segments: duplicates(alloc, &parts.segments)?,
        bodies,
        customs: Items::new(alloc),
        plain_bytes: 0,
    })
}

/// The rewritten module with the bodies of its functions: those of the module, rewritten, in their
/// order; of wrappers, in that of `IndexMap::wrapped`; and of helpers, in that of
/// `IndexMap::helped`. Its instructions have numbers in place of offsets, and no lengths.
pub fn assemble(alloc: Global, numbers: &IndexMap<'_>, bodies: Bodies) -> Result<Module, NoMemory>
    requires { AreBodies numbers.now bodies }
    ensures rewriting { IfOk result (λ other. IsRewriting numbers.now other) }
    ensures promised { IfOk result (λ other. Promised numbers.now other) }
    ensures layers { IfOk result (λ other. Layered numbers.now other) }
    ensures no_customs { IfOk result (λ other. other.customs ≡ []) }
{
    let parts = new_parts(alloc, numbers, bodies)?;
    Ok(Module::new(parts))
}
