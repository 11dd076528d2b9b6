//! Runs whose steps were used up go on with more steps (Core 4.5.5).

ghost use Rattle.std.specs.Prelude.{◌≡◌, ◌≤◌, Bool, true, false, Some};
ghost use Rattle.wasm_syntax.specs.Module.{Program, IsProgram};
ghost use Rattle.wasm_syntax.specs.Machine.{Config};
ghost use Rattle.wasm_syntax.specs.Run.{engine};
ghost use Rattle.machine_hosted.specs.calls.Settings.{Sound, MachineFits, HostServes, HostKept, Takes};
ghost use Rattle.machine_hosted.specs.calls.Answers.{FunctionCameWith, FitsThen, HasCause};
ghost use Rattle.machine_hosted.specs.calls.Courses.{Course, Followed, WentOn};
ghost use Rattle.machine_hosted.specs.inner.Resumes.{Waits, resuming};

use crate::answer::{EntryRun, FunctionRun, RunEnd};
use crate::invocation::{ended, is_finished};
use crate::runner::{Runner, import_count};
use crate::watched_function::watch_function;
use crate::watched_run::watch_frames;
use host_devices::HostSide;
use machine_steps::{Machine, Unwatched};
use wasm_syntax::Value;

/// Goes on with a function of a valid module, where it waits for steps, for at most so many. An
/// import is called now, since a call is one step. A host side serves the imports.
fn resume_function<H: HostSide>(
    runner: &Runner<'_, '_>,
    m: &mut Machine,
    function: u32,
    args: &[Value],
    fuel: u64,
    hosts: &mut H,
) -> FunctionRun
    requires sound { Sound runner.now.source.now runner.now.prepared.now }
    requires args { Takes runner.now.source.now function args.now }
    requires waits { (p : Program) → p.module_ ≡ runner.now.source.now → IsProgram p
        → (c : Config) × Waits (engine p (H.collecting hosts.old) runner.now.depth) function
        runner.now.prepared.now.codes.items m.old c }
    requires host { HostServes (H.origin hosts.old) (H.serving hosts.old) runner.now.source.now }
    ensures came { (p : Program) (c : Config) → p.module_ ≡ runner.now.source.now → IsProgram p
        → (w : Waits (engine p (H.collecting hosts.old) runner.now.depth) function
        runner.now.prepared.now.codes.items m.old c)
        → FunctionCameWith p runner.now.prepared.now.codes.items (H.used_up hosts.new)
        (resuming (engine p (H.collecting hosts.old) runner.now.depth) function w.fn args.now c)
        c.world c.collected fuel result.answer result.steps m.new (H.calls hosts.old)
        (H.calls hosts.new) }
    ensures within { result.steps ≤ fuel }
    ensures fits { FitsThen runner.now.source.now result.answer m.new }
    ensures cause { HasCause result.answer (H.fault_count hosts.old) (H.fault_count hosts.new) }
    ensures host { HostKept H.origin H.collecting H.serving H.fault_count hosts.old hosts.new }
{
    if (function as usize) < import_count(runner.source) {
        watch_function(runner, m, function, args, fuel, hosts, &mut Unwatched {})
    } else {
        watch_frames(runner, m, fuel, hosts, &mut Unwatched {})
    }
}

/// Goes on with the start function, and then runs the entry where it ended.
fn resume_start<H: HostSide>(
    runner: &Runner<'_, '_>,
    m: &mut Machine,
    start: u32,
    entry: u32,
    args: &[Value],
    fuel: u64,
    hosts: &mut H,
) -> EntryRun
    requires sound { Sound runner.now.source.now runner.now.prepared.now }
    requires start { runner.now.source.now.start ≡ Some start }
    requires stopped { (p : Program) → p.module_ ≡ runner.now.source.now → IsProgram p
        → (course : Course) × (ready : Bool)
        × Followed p runner.now.prepared.now.codes.items (H.collecting hosts.old) runner.now.depth
        entry args.now runner.now.source.now course RunEnd.FuelSpent ready false m.old }
    requires host { HostServes (H.origin hosts.old) (H.serving hosts.old) runner.now.source.now }
    ensures came { (p : Program) (course : Course) (ready : Bool)
        → p.module_ ≡ runner.now.source.now → IsProgram p
        → Followed p runner.now.prepared.now.codes.items (H.collecting hosts.old) runner.now.depth
        entry args.now runner.now.source.now course RunEnd.FuelSpent ready false m.old
        → WentOn p runner.now.prepared.now.codes.items (H.collecting hosts.old) runner.now.depth
        entry args.now (H.used_up hosts.new) course fuel result m.new (H.calls hosts.old)
        (H.calls hosts.new) }
    ensures within { result.steps ≤ fuel }
    ensures fits { result.ready ≡ true → MachineFits runner.now.source.now m.new }
    ensures cause { HasCause result.answer (H.fault_count hosts.old) (H.fault_count hosts.new) }
    ensures host { HostKept H.origin H.collecting H.serving H.fault_count hosts.old hosts.new }
{
    let first = resume_function(runner, m, start, &[], fuel, hosts);
    if !is_finished(&first.answer) {
        return ended(first.answer, first.steps, false);
    }
    let left = fuel - first.steps;
    let then = watch_function(runner, m, entry, args, left, hosts, &mut Unwatched {});
    ended(then.answer, first.steps + then.steps, true)
}

/// Goes on with an invocation whose steps were used up, for at most so many more: with the entry
/// where that was begun, and otherwise with the start function and then the entry. The machine
/// stands where that stopped. A host side serves the imports.
pub fn resume_invocation<H: HostSide>(
    runner: &Runner<'_, '_>,
    m: &mut Machine,
    entered: bool,
    entry: u32,
    args: &[Value],
    fuel: u64,
    hosts: &mut H,
) -> EntryRun
    requires sound { Sound runner.now.source.now runner.now.prepared.now }
    requires stopped { (p : Program) → p.module_ ≡ runner.now.source.now → IsProgram p
        → (course : Course) × (ready : Bool)
        × Followed p runner.now.prepared.now.codes.items (H.collecting hosts.old) runner.now.depth
        entry args.now runner.now.source.now course RunEnd.FuelSpent ready entered m.old }
    requires host { HostServes (H.origin hosts.old) (H.serving hosts.old) runner.now.source.now }
    ensures came { (p : Program) (course : Course) (ready : Bool)
        → p.module_ ≡ runner.now.source.now → IsProgram p
        → Followed p runner.now.prepared.now.codes.items (H.collecting hosts.old) runner.now.depth
        entry args.now runner.now.source.now course RunEnd.FuelSpent ready entered m.old
        → WentOn p runner.now.prepared.now.codes.items (H.collecting hosts.old) runner.now.depth
        entry args.now (H.used_up hosts.new) course fuel result m.new (H.calls hosts.old)
        (H.calls hosts.new) }
    ensures within { result.steps ≤ fuel }
    ensures fits { result.ready ≡ true → MachineFits runner.now.source.now m.new }
    ensures cause { HasCause result.answer (H.fault_count hosts.old) (H.fault_count hosts.new) }
    ensures host { HostKept H.origin H.collecting H.serving H.fault_count hosts.old hosts.new }
{
    if entered {
        let run = resume_function(runner, m, entry, args, fuel, hosts);
        return ended(run.answer, run.steps, true);
    }
    let source = runner.source.parts();
    match source.start {
        Some(start) => resume_start(runner, m, start, entry, args, fuel, hosts),
        None => unreachable!(),
    }
}
