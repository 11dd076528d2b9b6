//! A run over a host side that a watch sees.

ghost use Rattle.std.specs.Prelude.{◌≡◌};
ghost use Rattle.machine_hosted.specs.calls.Answers.{HasCause};
ghost use Rattle.machine_hosted.specs.calls.Settings.{HostKept, Knows};
ghost use Rattle.machine_hosted.specs.calls.Watching.{Watched};
ghost use Rattle.machine_hosted.specs.inner.FrameRuns.{CameWith};
ghost use Rattle.machine_hosted.specs.inner.Turns.{Ready, going};
ghost use Rattle.machine_hosted.specs.inner.Watches.{frames_placing};

use crate::answer::{FunctionRun, RunEnd, ran};
use crate::runner::Runner;
use crate::turn::{Turn, serve_import};
use host_devices::HostSide;
use machine_steps::{Machine, Outcome, Watch, run_watched};

/// Runs a function of a valid module, begun with `crate::begin_function`, for at most so many
/// steps, each of which the watch sees. The host side serves its imports. After want of memory the
/// machine is of no use.
pub(crate) fn watch_frames<H: HostSide, W: Watch>(
    runner: &Runner<'_, '_>,
    m: &mut Machine,
    fuel: u64,
    hosts: &mut H,
    watch: &mut W,
) -> FunctionRun
    requires ready { Ready runner.now.prepared.now runner.now.source.now runner.now.depth m.old
        (H.collecting hosts.old) (H.serving hosts.old) }
    requires knows { Knows (H.origin hosts.old) runner.now.source.now }
    ensures came { (r : Ready runner.now.prepared.now runner.now.source.now runner.now.depth m.old
        (H.collecting hosts.old) (H.serving hosts.old))
        → CameWith r.engine.program runner.now.prepared.now.codes.items (H.used_up hosts.new)
        (going r.engine r.frames r.world r.collected) r.world r.collected fuel result.answer
        result.steps m.new (H.calls hosts.old) (H.calls hosts.new) }
    ensures cause { HasCause result.answer (H.fault_count hosts.old) (H.fault_count hosts.new) }
    ensures host { HostKept H.origin H.collecting H.serving H.fault_count hosts.old hosts.new }
    ensures watched { (r : Ready runner.now.prepared.now runner.now.source.now runner.now.depth
        m.old (H.collecting hosts.old) (H.serving hosts.old))
        → Watched W.Saw r.engine.program.module_
        (frames_placing r.engine r.frames r.world r.collected) fuel result.answer result.steps
        watch.old watch.new (H.calls hosts.old) (H.calls hosts.new) }
{
    let mut made = 0;
    while made < fuel {
        let ended = run_watched(m, runner.prepared, runner.depth, fuel - made, watch);
        match ended.outcome {
            Outcome::Import(call) => {
                made += ended.steps;
                match serve_import(runner, m, call, hosts) {
                    Turn::Goes => made += 1,
                    Turn::Ends(answer) => return ran(answer, made + 1),
                    Turn::Lacking => return ran(RunEnd::NoMemory, made),
                }
            }
            Outcome::Next => return ran(RunEnd::FuelSpent, fuel),
            Outcome::Ended => {
                let value = m.stack.values.peek(0);
                return ran(RunEnd::Finished { value }, made + ended.steps);
            }
            Outcome::Trap(kind) => return ran(RunEnd::Trapped { kind }, made + ended.steps),
            Outcome::NoMemory | Outcome::Stuck => return ran(RunEnd::NoMemory, made),
        }
    }
    ran(RunEnd::FuelSpent, fuel)
}
