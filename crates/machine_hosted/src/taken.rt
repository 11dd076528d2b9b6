//! The arguments of a call of an import.

ghost use Rattle.std.specs.Prelude.{◌≡◌, ◌++◌, List, reverse, length, if◌then◌else◌, IfOk};
ghost use Rattle.wasm_syntax.specs.declared.value.Value.{Value as Val};
ghost use Rattle.wasm_syntax.specs.Machine.{Engine, Config, Stepped};
ghost use Rattle.machine_code.specs.declared.code.Code.{Code as FlatCode};
ghost use Rattle.machine_steps.specs.calls.Meets.{CallsImport};

use causes::NoMemory;
use machine_steps::{ImportCall, Machine};
use std::alloc::Global;
use wasm_syntax::Values;

/// How many operands lie above the arguments.
fn above(indirect: bool) -> usize
    ensures { result ≡ (if indirect then 1 else 0) }
{
    if indirect { 1 } else { 0 }
}

/// The arguments of a call of an import, which takes so many, in the parameters' order.
pub(crate) fn arguments(
    alloc: Global,
    m: &Machine,
    call: ImportCall,
    count: usize,
) -> Result<Values, NoMemory>
    ensures { (engine : Engine) (codes : List FlatCode) (c : Config) (s : Stepped)
        (h : CallsImport engine codes c call s m.now) (args below : List Val)
        → h.operands ≡ reverse args ++ below → length args ≡ count
        → IfOk result (λ taken. taken ≡ args) }
{
    let values = m.stack.values.as_slice();
    let top = values.len().saturating_sub(above(call.indirect));
    let start = top.saturating_sub(count);
    let taken = Values::from_slice(alloc, &values[start..top])?;
    Ok(taken)
}
