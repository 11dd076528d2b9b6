//! One function, imported or defined, whose steps a watch sees.

ghost use Rattle.std.specs.Prelude.{◌≡◌, ◌≤◌, ◌+◌, ◌++◌, List, Option, length};
ghost use Rattle.wasm_syntax.specs.declared.module.ModuleParts.{ModuleParts as Module};
ghost use Rattle.wasm_syntax.specs.declared.host.CollectorCall.{CollectorCall as Collected};
ghost use Rattle.wasm_syntax.specs.Module.{Program, IsProgram};
ghost use Rattle.wasm_syntax.specs.Host.{World};
ghost use Rattle.wasm_syntax.specs.Run.{engine};
ghost use Rattle.machine_steps.specs.calls.Meets.{Shares};
ghost use Rattle.machine_steps.specs.Places.{Place, alone_places};
ghost use Rattle.machine_hosted.specs.calls.Settings.{Sound, MachineFits, HostServes, HostKept, Takes};
ghost use Rattle.machine_hosted.specs.calls.Answers.{FunctionCameWith, function_going, FitsThen, HasCause};
ghost use Rattle.machine_hosted.specs.calls.Watching.{Watched, function_placing};

use crate::alone::{Imported, call_alone};
use crate::answer::{FunctionRun, RunEnd};
use crate::begin::begin_function;
use crate::runner::{Runner, import_count};
use crate::watched_run::watch_frames;
use causes::NoMemory;
use host_devices::HostSide;
use machine_steps::{Machine, Watch};
use wasm_syntax::Value;

/// The one step of an import that is called with no frame is seen, where there is a step.
fn see_alone<W: Watch>(fuel: u64, watch: &mut W)
    ensures { (m : Module) (seen : List (Option Place)) → W.Saw m watch.old seen
        → W.Saw m watch.new (seen ++ alone_places fuel) }
{
    if fuel > 0 {
        watch.see(None);
    }
}

/// Runs a defined function, by its index among these.
fn watch_defined<H: HostSide, W: Watch>(
    runner: &Runner<'_, '_>,
    m: &mut Machine,
    function: usize,
    args: &[Value],
    fuel: u64,
    hosts: &mut H,
    watch: &mut W,
) -> FunctionRun
    requires sound { Sound runner.now.source.now runner.now.prepared.now }
    requires fits { MachineFits runner.now.source.now m.old }
    requires args { Takes runner.now.source.now (length runner.now.source.now.imports + function)
        args.now }
    requires host { HostServes (H.origin hosts.old) (H.serving hosts.old) runner.now.source.now }
    ensures came { (p : Program) (w : World) (co : List Collected)
        → p.module_ ≡ runner.now.source.now → IsProgram p → Shares m.old w
        → FunctionCameWith p runner.now.prepared.now.codes.items (H.used_up hosts.new)
        (function_going (engine p (H.collecting hosts.old) runner.now.depth)
        (length runner.now.source.now.imports + function) args.now w co) w co fuel result.answer
        result.steps m.new (H.calls hosts.old) (H.calls hosts.new) }
    ensures within { result.steps ≤ fuel }
    ensures fits { FitsThen runner.now.source.now result.answer m.new }
    ensures cause { HasCause result.answer (H.fault_count hosts.old) (H.fault_count hosts.new) }
    ensures host { HostKept H.origin H.collecting H.serving H.fault_count hosts.old hosts.new }
    ensures watched { (p : Program) (w : World) (co : List Collected)
        → p.module_ ≡ runner.now.source.now → IsProgram p → Shares m.old w
        → Watched W.Saw p.module_ (function_placing
        (engine p (H.collecting hosts.old) runner.now.depth)
        (length runner.now.source.now.imports + function) args.now w co) fuel result.answer
        result.steps watch.old watch.new (H.calls hosts.old) (H.calls hosts.new) }
{
    match begin_function(m, runner.prepared, function, args) {
        Ok(()) => watch_frames(runner, m, fuel, hosts, watch),
        Err(NoMemory) => FunctionRun {
            answer: RunEnd::NoMemory,
            steps: 0,
        },
    }
}

/// Runs a function of a valid module, the imported ones first, on arguments in the parameters'
/// order, for at most so many steps, each of which the watch sees. All frames are left before. A
/// host side serves the imports.
pub(crate) fn watch_function<H: HostSide, W: Watch>(
    runner: &Runner<'_, '_>,
    m: &mut Machine,
    function: u32,
    args: &[Value],
    fuel: u64,
    hosts: &mut H,
    watch: &mut W,
) -> FunctionRun
    requires sound { Sound runner.now.source.now runner.now.prepared.now }
    requires fits { MachineFits runner.now.source.now m.old }
    requires args { Takes runner.now.source.now function args.now }
    requires host { HostServes (H.origin hosts.old) (H.serving hosts.old) runner.now.source.now }
    ensures came { (p : Program) (w : World) (co : List Collected)
        → p.module_ ≡ runner.now.source.now → IsProgram p → Shares m.old w
        → FunctionCameWith p runner.now.prepared.now.codes.items (H.used_up hosts.new)
        (function_going (engine p (H.collecting hosts.old) runner.now.depth) function args.now w co)
        w co fuel result.answer result.steps m.new (H.calls hosts.old) (H.calls hosts.new) }
    ensures within { result.steps ≤ fuel }
    ensures fits { FitsThen runner.now.source.now result.answer m.new }
    ensures cause { HasCause result.answer (H.fault_count hosts.old) (H.fault_count hosts.new) }
    ensures host { HostKept H.origin H.collecting H.serving H.fault_count hosts.old hosts.new }
    ensures watched { (p : Program) (w : World) (co : List Collected)
        → p.module_ ≡ runner.now.source.now → IsProgram p → Shares m.old w
        → Watched W.Saw p.module_ (function_placing
        (engine p (H.collecting hosts.old) runner.now.depth) function args.now w co) fuel
        result.answer result.steps watch.old watch.new (H.calls hosts.old) (H.calls hosts.new) }
{
    let index = function as usize;
    let imported = import_count(runner.source);
    if index >= imported {
        let defined = index - imported;
        return watch_defined(runner, m, defined, args, fuel, hosts, watch);
    }
    let source = runner.source.parts();
    match (source.imports.get(index), source.type_of(index)) {
        (Some(import), Some(ftype)) => {
            see_alone(fuel, watch);
            let called = Imported {
                index: function,
                import,
                ftype,
            };
            call_alone(runner.alloc, m, &called, args, fuel, hosts)
        }
        _ => unreachable!(),
    }
}
