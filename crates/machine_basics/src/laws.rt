//! Laws of effects, each the contract of a function with an empty body.

ghost use Rattle.std.specs.Prelude.{List};
ghost use Rattle.wasm_syntax.specs.Host.{World};
ghost use Rattle.wasm_syntax.specs.declared.instruction.Basic.{Basic as Instruction};
ghost use Rattle.wasm_syntax.specs.declared.value.Value.{Value as Val};
ghost use Rattle.machine_basics.specs.calls.Keeps.{EffectKeeps};
ghost use Rattle.machine_basics.specs.calls.Performs.{on_operands};

/// No instruction changes the number of locals or globals, the table, the replies that are left or
/// what was served.
pub fn effects_keep()
    ensures { (i : Instruction) (w : World) (locals operands : List Val)
        → EffectKeeps w locals (on_operands i w locals operands) }
{}
