//! The whole module.

ghost use Rattle.std.specs.Prelude.{◌≡◌};
ghost use Rattle.rewrite_promise.specs.calls.Promise.{Accepted};
ghost use Rattle.wasm_format_laws.specs.calls.Sized.{Sized};
ghost use Rattle.instrument.specs.calls.Answers.{Instrumented, Rewrites};

use crate::bodies::all_bodies;
use crate::{InstrFault, admitted, assemble};
use index_map::IndexMap;
use std::alloc::Global;
use wasm_syntax::Module;
use wasm_validate::Validated;

/// The rewritten module of an accepted one, with its numbers.
fn rewritten(
    alloc: Global,
    source: &Validated,
    numbers: &IndexMap<'_>,
) -> Result<Module, InstrFault>
    requires accepted { Accepted source.now }
    requires numbers { numbers.now ≡ source.now }
    ensures { Rewrites result source.now }
{
    let bodies = all_bodies(alloc, source, numbers)?;
    let other = assemble(alloc, numbers, bodies)?;
    Ok(other)
}

/// The module rewritten, so that it hands over its dump at each trap; or the first cause why it is
/// not rewritten. The lengths of the module are those of a spelling.
pub fn instrument(alloc: Global, source: &Validated) -> Result<Module, InstrFault>
    requires sized { Sized source.now }
    ensures { Instrumented result source.now }
{
    match admitted(alloc, source.module(), source.heights()) {
        Ok(numbers) => rewritten(alloc, source, &numbers),
        Err(fault) => Err(fault),
    }
}
