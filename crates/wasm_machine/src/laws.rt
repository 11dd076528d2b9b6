//! Lists of invocations, and new instances.

ghost use Rattle.std.specs.Prelude.{[], List};
ghost use Rattle.wasm_syntax.specs.declared.host.Reply.{Reply};
ghost use Rattle.wasm_syntax.specs.declared.module.ModuleParts.{ModuleParts as Parts};
ghost use Rattle.wasm_syntax.specs.Module.{Program};
ghost use Rattle.wasm_syntax.specs.Machine.{config};
ghost use Rattle.wasm_syntax.specs.Run.{start_world};
ghost use Rattle.wasm_machine.specs.calls.Instances.{State, IsNew, IsOf, StandsAt};
ghost use Rattle.wasm_machine.specs.calls.Sessions.{GoesOn};

/// A list of invocations is its first one, and the list of the others behind it.
pub fn session_goes_on()
    ensures { GoesOn }
{}

/// An instance that was not invoked stands at the configuration without frames in which its first
/// invocation begins, whatever replies are left.
pub fn new_instances_stand()
    ensures { (m : Parts) (s : State) (p : Program) (replies : List Reply) → IsNew m s → IsOf s p
        → StandsAt s p (config [] (start_world m replies) []) }
{}
