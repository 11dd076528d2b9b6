//! A function is begun.

ghost use Rattle.std.specs.Prelude.{◌≡◌, ◌+◌, ℕ, List, ◌∷◌, [], length, OnOk, Some};
ghost use Rattle.wasm_syntax.specs.declared.parts.Body.{Body as FunctionBody};
ghost use Rattle.wasm_syntax.specs.declared.parts.FuncType.{FuncType as Signature};
ghost use Rattle.wasm_syntax.specs.declared.host.CollectorCall.{CollectorCall as Collected};
ghost use Rattle.wasm_syntax.specs.Numbers.{types};
ghost use Rattle.wasm_syntax.specs.Tree.{Tree as CodeTree};
ghost use Rattle.wasm_syntax.specs.Module.{defined, defined_at};
ghost use Rattle.wasm_syntax.specs.Host.{World};
ghost use Rattle.wasm_syntax.specs.Machine.{Engine, config, entered};
ghost use Rattle.machine_code.specs.calls.Prepares.{IsPrepared};
ghost use Rattle.machine_steps.specs.calls.Meets.{Shares};
ghost use Rattle.machine_steps.specs.calls.Runs.{Begins};
ghost use Rattle.machine_hosted.specs.calls.Safe.{ValidProgram, WorldFits};

use causes::NoMemory;
use machine_code::Prepared;
use machine_steps::{Machine, Stepped, begin};
use wasm_syntax::Value;

/// Leaves all frames and begins a defined function, by its index among these, on arguments in the
/// parameters' order (Core 4.5.5). In a valid module no run from there gets stuck.
pub(crate) fn begin_function(
    m: &mut Machine,
    prepared: &Prepared,
    function: usize,
    args: &[Value],
) -> Result<(), NoMemory>
    ensures { (engine : Engine) (body : FunctionBody) (tree : CodeTree) (type : Signature)
        (w : World) (co : List Collected) → ValidProgram engine.program
        → IsPrepared engine.program prepared.now → Shares m.old w
        → WorldFits engine.program.module_ w
        → defined_at engine.program function ≡ Some (defined body tree type)
        → types args.now ≡ type.params
        → OnOk result (Begins engine prepared.now engine.depth
        (config (entered (length engine.program.module_.imports + function) body tree type args.now
        ∷ []) w co) m.new) }
{
    match begin(&mut m.stack, &prepared.codes, function, args) {
        Stepped::Next => Ok(()),
        Stepped::Ended | Stepped::Trap(_) | Stepped::Stuck | Stepped::NoMemory => Err(NoMemory),
    }
}
