//! The globals of an instance at its start.

ghost use Rattle.std.specs.Prelude.{◌≡◌, IfOk};
ghost use Rattle.wasm_syntax.specs.Run.{initial_globals};

use causes::NoMemory;
use machine_basics::Globals;
use std::alloc::Global as Allocator;
use wasm_syntax::Global;

/// The globals with their first values, in the order of their indices.
pub(crate) fn start_globals(alloc: Allocator, globals: &[Global]) -> Result<Globals, NoMemory>
    ensures { IfOk result (λ values. values ≡ initial_globals globals.now) }
{
    let mut values = Vec::new(alloc);
    for global in globals {
        values.push(global.initial_value())?;
    }
    Ok(Globals::from_vec(values))
}
