//! Laws of safe runs.

ghost use Rattle.std.specs.Prelude.{◌≡◌, ◌+◌, ℕ, List, ◌∷◌, [], Option, Some, length, slice_get};
ghost use Rattle.wasm_syntax.specs.declared.value.Value.{Value as Val};
ghost use Rattle.wasm_syntax.specs.declared.parts.Body.{Body as FunctionBody};
ghost use Rattle.wasm_syntax.specs.declared.parts.FuncType.{FuncType as Signature};
ghost use Rattle.wasm_syntax.specs.declared.host.Reply.{Reply as HostReply};
ghost use Rattle.wasm_syntax.specs.declared.host.CollectorCall.{CollectorCall as Collected};
ghost use Rattle.wasm_syntax.specs.Numbers.{types};
ghost use Rattle.wasm_syntax.specs.Tree.{Tree as CodeTree};
ghost use Rattle.wasm_syntax.specs.Module.{Program, defined, function_at};
ghost use Rattle.wasm_syntax.specs.Host.{World};
ghost use Rattle.wasm_syntax.specs.Machine.{Engine, Config, config, entered, step, next};
ghost use Rattle.wasm_syntax.specs.Run.{run_steps, start_world, invoked};
ghost use Rattle.machine_steps.specs.declared.machine.Machine.{Machine as Kept};
ghost use Rattle.machine_code.specs.declared.prepared.Prepared.{Prepared as Ready};
ghost use Rattle.machine_steps.specs.calls.Meets.{StandsFor};
ghost use Rattle.machine_steps.specs.Places.{Place, place_of, invocation_places};
ghost use Rattle.machine_steps.specs.calls.Runs.{Begins, Leads};
ghost use Rattle.machine_hosted.specs.calls.Safe.{ValidProgram, WorldFits, RunFits};

/// What is outside the frames fits a valid module where its instance starts.
pub fn start_world_fits()
    ensures { (p : Program) (replies : List HostReply) → ValidProgram p
        → WorldFits p.module_ (start_world p.module_ replies) }
{}

/// From the begin of a function of a valid module, in a world that fits, no number of steps gets
/// stuck, and where the run ends or traps, the world fits again.
pub fn entered_runs_fit()
    ensures { (engine : Engine) (f : ℕ) (body : FunctionBody) (tree : CodeTree) (type : Signature)
        (args : List Val) (w : World) (co : List Collected) (n : ℕ) → ValidProgram engine.program
        → function_at engine.program f ≡ Some (defined body tree type) → types args ≡ type.params
        → WorldFits engine.program.module_ w
        → RunFits engine.program.module_
        (run_steps engine n (config (entered f body tree type args ∷ []) w co)).what }
{}

/// A machine that stands where the next step of a safe run leads, as behind a call of an import,
/// begins a safe run there.
pub fn step_stays_safe()
    ensures { (engine : Engine) (prepared : Ready) (depth : ℕ) (c then : Config) (m later : Kept)
        → Begins engine prepared depth c m → step engine c ≡ next then
        → StandsFor engine.program prepared.codes.items later then
        → Begins engine prepared depth then later }
{}

/// A machine that stands where so many steps of a safe run lead, as where the fuel is spent, begins
/// a safe run there.
pub fn reached_stays_safe()
    ensures { (engine : Engine) (prepared : Ready) (depth n : ℕ) (c then : Config) (m later : Kept)
        → Begins engine prepared depth c m → Leads engine prepared.codes.items c n then
        → StandsFor engine.program prepared.codes.items later then
        → Begins engine prepared depth then later }
{}

/// Each step of an invocation is made where the run stands behind the steps before it: at the place
/// of the last configuration for as many steps.
pub fn steps_are_made_where_runs_stand()
    ensures { (engine : Engine) (start : Option ℕ) (n k f : ℕ) (args : List Val) (w : World)
        (at : Option Place) → slice_get (invocation_places engine start n f args w) k ≡ Some at
        → (there : Config) × ((invoked engine start k f args w).last ≡ Some there)
        × (at ≡ place_of there) }
{}

/// As many places are those of an invocation as it makes steps.
pub fn each_step_has_a_place()
    ensures { (engine : Engine) (start : Option ℕ) (n f : ℕ) (args : List Val) (w : World)
        → length (invocation_places engine start n f args w)
        + (invoked engine start n f args w).left ≡ n }
{}
