//! Invocations whose steps a watch sees: the start function where it is due, and then the entry
//! (Core 4.5.4, 4.5.5).

ghost use Rattle.std.specs.Prelude.{◌≡◌, ◌≤◌, true, [], IfSome, Some};
ghost use Rattle.wasm_syntax.specs.Module.{Program, IsProgram};
ghost use Rattle.wasm_syntax.specs.Run.{engine};
ghost use Rattle.machine_hosted.specs.calls.Settings.{Sound, MachineFits, HostServes, HostKept, Takes, world_of};
ghost use Rattle.machine_hosted.specs.calls.Answers.{HasCause};
ghost use Rattle.machine_hosted.specs.calls.Invocations.{InvocationCameWith, invoking};
ghost use Rattle.machine_hosted.specs.calls.Watching.{Watched, invocation_placing};

use crate::answer::EntryRun;
use crate::entry::Entry;
use crate::invocation::{ended, is_finished};
use crate::runner::Runner;
use crate::watched_function::watch_function;
use host_devices::HostSide;
use machine_steps::{Machine, Watch};

/// Runs the start function of this index, and then the entry where it ended. The watch sees each
/// step.
fn watch_with_start<H: HostSide, W: Watch>(
    runner: &Runner<'_, '_>,
    m: &mut Machine,
    start: u32,
    entry: &Entry<'_>,
    fuel: u64,
    hosts: &mut H,
    watch: &mut W,
) -> EntryRun
    requires sound { Sound runner.now.source.now runner.now.prepared.now }
    requires fits { MachineFits runner.now.source.now m.old }
    requires start { Takes runner.now.source.now start [] }
    requires entry { Takes runner.now.source.now entry.now.index entry.now.args.now }
    requires host { HostServes (H.origin hosts.old) (H.serving hosts.old) runner.now.source.now }
    ensures came { (p : Program) → p.module_ ≡ runner.now.source.now → IsProgram p
        → InvocationCameWith p runner.now.prepared.now.codes.items (H.used_up hosts.new)
        (invoking (engine p (H.collecting hosts.old) runner.now.depth) (Some start) entry.now.index
        entry.now.args.now (world_of m.old [])) fuel result.answer result.steps result.ready
        result.entered m.new (H.calls hosts.old) (H.calls hosts.new) }
    ensures within { result.steps ≤ fuel }
    ensures fits { result.ready ≡ true → MachineFits runner.now.source.now m.new }
    ensures cause { HasCause result.answer (H.fault_count hosts.old) (H.fault_count hosts.new) }
    ensures host { HostKept H.origin H.collecting H.serving H.fault_count hosts.old hosts.new }
    ensures watched { (p : Program) → p.module_ ≡ runner.now.source.now → IsProgram p
        → Watched W.Saw p.module_ (invocation_placing
        (engine p (H.collecting hosts.old) runner.now.depth) (Some start) entry.now.index
        entry.now.args.now (world_of m.old [])) fuel result.answer result.steps watch.old watch.new
        (H.calls hosts.old) (H.calls hosts.new) }
{
    let first = watch_function(runner, m, start, &[], fuel, hosts, watch);
    if !is_finished(&first.answer) {
        return ended(first.answer, first.steps, false);
    }
    let left = fuel - first.steps;
    let then = watch_function(runner, m, entry.index, entry.args, left, hosts, watch);
    ended(then.answer, first.steps + then.steps, true)
}

/// Runs the start function, where it is due, and then the entry on its arguments, for at most so
/// many steps in all. The watch sees each step. A host side serves the imports.
pub fn watch_invocation<H: HostSide, W: Watch>(
    runner: &Runner<'_, '_>,
    m: &mut Machine,
    start: Option<u32>,
    entry: &Entry<'_>,
    fuel: u64,
    hosts: &mut H,
    watch: &mut W,
) -> EntryRun
    requires sound { Sound runner.now.source.now runner.now.prepared.now }
    requires fits { MachineFits runner.now.source.now m.old }
    requires start { IfSome start (λ f. Takes runner.now.source.now f []) }
    requires entry { Takes runner.now.source.now entry.now.index entry.now.args.now }
    requires host { HostServes (H.origin hosts.old) (H.serving hosts.old) runner.now.source.now }
    ensures came { (p : Program) → p.module_ ≡ runner.now.source.now → IsProgram p
        → InvocationCameWith p runner.now.prepared.now.codes.items (H.used_up hosts.new)
        (invoking (engine p (H.collecting hosts.old) runner.now.depth) start entry.now.index
        entry.now.args.now (world_of m.old [])) fuel result.answer result.steps result.ready
        result.entered m.new (H.calls hosts.old) (H.calls hosts.new) }
    ensures within { result.steps ≤ fuel }
    ensures fits { result.ready ≡ true → MachineFits runner.now.source.now m.new }
    ensures cause { HasCause result.answer (H.fault_count hosts.old) (H.fault_count hosts.new) }
    ensures host { HostKept H.origin H.collecting H.serving H.fault_count hosts.old hosts.new }
    ensures watched { (p : Program) → p.module_ ≡ runner.now.source.now → IsProgram p
        → Watched W.Saw p.module_ (invocation_placing
        (engine p (H.collecting hosts.old) runner.now.depth) start entry.now.index
        entry.now.args.now (world_of m.old [])) fuel result.answer result.steps watch.old watch.new
        (H.calls hosts.old) (H.calls hosts.new) }
{
    match start {
        Some(function) => watch_with_start(runner, m, function, entry, fuel, hosts, watch),
        None => {
            let run = watch_function(runner, m, entry.index, entry.args, fuel, hosts, watch);
            ended(run.answer, run.steps, true)
        }
    }
}
