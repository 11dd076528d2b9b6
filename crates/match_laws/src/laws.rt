//! Laws of the definitions.

ghost use Rattle.std.specs.Prelude.{◌≡◌, ℕ, length, Bool, true, false, List};
ghost use Rattle.wasm_syntax.specs.declared.host.Reply.{Reply as HostReply};
ghost use Rattle.wasm_syntax.specs.declared.parts.Body.{Body as FunctionBody};
ghost use Rattle.wasm_syntax.specs.declared.parts.FuncType.{FuncType as Signature};
ghost use Rattle.wasm_syntax.specs.declared.module.ModuleParts.{ModuleParts as Parts};
ghost use Rattle.wasm_syntax.specs.Module.{Program, IsProgram};
ghost use Rattle.wasm_syntax.specs.Sizes.{WithinLimits};
ghost use Rattle.wasm_syntax.specs.Static.{Spot, LiveAt, Static, Left};
ghost use Rattle.wasm_syntax.specs.Tree.{code_of};
ghost use Rattle.wasm_syntax.specs.Typing.{IsBody};
ghost use Rattle.wasm_syntax.specs.Valid.{Valid};
ghost use Rattle.wasm_syntax.specs.Run.{Invocation, run};
ghost use Rattle.dump_match.specs.Frames.{instruction, is_call, shown};
ghost use Rattle.match_laws.specs.calls.StateDumps.{StatesMatch};
ghost use Rattle.match_laws.specs.calls.TrapDumps.{TrapsMatch};

/// The dump of each trap of a valid module within the limits of the decoder can be one of that
/// module, whatever the invocations, their arguments, the replies, the depth and the number of
/// steps.
pub fn traps_match()
    ensures { (p : Program) (collecting : Bool) (invocations : List Invocation)
        (replies : List HostReply) (depth n : ℕ) → IsProgram p
        → length p.module_.bodies ≡ length p.module_.functions → Valid p.module_
        → WithinLimits p.module_ → TrapsMatch p.module_
        (run p collecting invocations replies depth n) }
{}

/// The dump of the last configuration of each invocation, however it ended or was left, can be one
/// of a state of that module.
pub fn states_match()
    ensures { (p : Program) (collecting : Bool) (invocations : List Invocation)
        (replies : List HostReply) (depth n : ℕ) → IsProgram p
        → length p.module_.bodies ≡ length p.module_.functions → Valid p.module_
        → WithinLimits p.module_ → StatesMatch p.module_
        (run p collecting invocations replies depth n) }
{}

/// What a frame shows at a call, where it is not the innermost one, is what the call left.
pub fn shown_at_a_call()
    ensures { (m : Parts) (ftype : Signature) (body : FunctionBody) (offset : ℕ) (s : Spot)
        → IsBody m ftype body (code_of body.targets body.ops) → LiveAt m ftype body offset s
        → is_call (instruction s.nodes) ≡ true → Left m ftype body offset (shown m 1 s) }
{}

/// At no call it shows all operands.
pub fn shown_elsewhere()
    ensures { (m : Parts) (ftype : Signature) (body : FunctionBody) (offset : ℕ) (s : Spot)
        → LiveAt m ftype body offset s → is_call (instruction s.nodes) ≡ false
        → Static m ftype body offset (shown m 1 s) }
{}
