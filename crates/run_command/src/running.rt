//! The run of a list of invocations on a valid module.

ghost use Rattle.std.specs.Prelude.{◌≡◌, ◌<◌, ◌≤◌, ◌⊎◌, [], Some, map, IfOk, length};
ghost use Rattle.causes.specs.Counts.{Rose};
ghost use Rattle.host_set.specs.Sets.{AreDistinct, names};
ghost use Rattle.commands.specs.Told.{UnlessFault};
ghost use Rattle.run_session.specs.Invocations.{invocation_of};
ghost use Rattle.run_session.specs.calls.Collecting.{serving_of};
ghost use Rattle.run_session.specs.Stop.{OnStop};
ghost use Rattle.run_session.specs.Created.{CreatesOnly, IsRunName};
ghost use Rattle.run_command.specs.Starting.{cause_text, segment_of};
ghost use Rattle.run_command.specs.RunAnswer.{ModuleAnswer, IsReadBy};
ghost use Rattle.run_command.specs.calls.Begun.{HasBegun};
ghost use Rattle.run_command.specs.inner.Steps.{IsAnswered};
ghost use Rattle.run_command.specs.Stops.{NothingDone, ModuleStops};
ghost use Rattle.pm_outside.specs.calls.Kept.{FilesGoOn};
ghost use Rattle.commands.specs.calls.Ended.{Ended};

use crate::recording::recorded;
use crate::starting::{early_cause, not_started};
use causes::NoMemory;
use commands::{Given, Outcome, numbered};
use host_collector::Collecting;
use host_devices::HostSide;
use host_set::{Devices, Hosts};
use pm_outside::Files;
use pm_text::{Items, Text};
use run_session::run_all;
use run_words::{Invocation, RunWords};
use std::alloc::Global;
use std::mem;
use wasm_machine::{Instance, StartFault};
use wasm_syntax::Reply;
use wasm_validate::Validated;

/// The cause that names a segment that lies outside.
fn segment_cause(alloc: Global, fault: StartFault) -> Result<Text, NoMemory>
    ensures { IfOk result (λ t. cause_text [] (segment_of fault) ≡ Some t) }
{
    match fault {
        StartFault::ElementOut { index } => numbered(alloc, "element ", u64::from(index)),
        StartFault::DataOut { index } => numbered(alloc, "data ", u64::from(index)),
        StartFault::NoMemory => Err(NoMemory),
    }
}

/// A new instance, where all of these invocations may begin with a host side, or the answer that
/// says why not.
///
/// # Errors
///
/// `NoMemory` where memory runs out.
pub fn begin<'a, H: HostSide>(
    alloc: Global,
    source: &'a Validated,
    invocations: &[Invocation],
    hosts: &H,
) -> Result<Given<Instance<'a>>, NoMemory>
    requires { 0 < length invocations.now }
    ensures { IfOk result (HasBegun (H.serving hosts.now) source.now
        (map invocation_of invocations.now)) }
{
    let cause = early_cause(alloc, source, invocations, hosts)?;
    match cause {
        Some(text) => {
            let refusal = not_started(alloc, &text)?;
            return Ok(Given::Refused(refusal));
        }
        None => {}
    }
    match Instance::new(alloc, source) {
        Ok(instance) => Ok(Given::Value(instance)),
        Err(fault) => {
            let text = segment_cause(alloc, fault)?;
            let refusal = not_started(alloc, &text)?;
            Ok(Given::Refused(refusal))
        }
    }
}

/// A new instance, where all invocations that the words name may begin, with a collector in front
/// of the host side where the words ask for one; or the answer that says why not. The host side
/// comes back.
fn begin_with<'a, H: HostSide>(
    alloc: Global,
    source: &'a Validated,
    words: &RunWords,
    hosts: H,
) -> (Result<Given<Instance<'a>>, NoMemory>, H)
    requires { 0 < length words.now.invocations }
    ensures begun { IfOk result.0
        (HasBegun (serving_of words.now.collect (H.serving result.1)) source.now
        (map invocation_of words.now.invocations)) }
    ensures same { result.1 ≡ hosts }
{
    let invocations = words.invocations.as_slice();
    if words.collect {
        let collecting = Collecting::new(alloc, hosts);
        let begun = begin(alloc, source, invocations, &collecting);
        (begun, collecting.into_inner())
    } else {
        let begun_there = begin(alloc, source, invocations, &hosts);
        (begun_there, hosts)
    }
}

/// Runs the invocations on a valid module, and gives the devices back.
pub(crate) fn run_valid<F: Files, D: Devices>(
    alloc: Global,
    files: &mut F,
    words: &RunWords,
    source: &Validated,
    script: Option<Items<Reply>>,
    devices: &mut D,
) -> Result<Outcome, NoMemory>
    requires distinct { AreDistinct (names (D.shown devices.old)) }
    requires some { 0 < length words.now.invocations }
    requires depth { words.now.depth ≤ 10000 }
    ensures told { IfOk result (λ o. UnlessFault o.status (IsAnswered
        (λ given writes. ModuleAnswer (D.shown devices.old) (D.shown devices.new)
        words.now given writes script source.now)
        (D.shown devices.old) (D.shown devices.new) (F.told files.old) (F.told files.new) o)) }
    ensures stops { OnStop (λ stop.
        NothingDone stop (IsReadBy words.now)
        (D.shown devices.old) (D.shown devices.new) (F.told files.old) (F.told files.new)
        ⊎ ModuleStops stop words.now source.now script
        (D.shown devices.old) (D.shown devices.new) (F.told files.old) (F.told files.new))
        result }
    ensures ended { IfOk result (Ended (λ _. Rose (F.faults files.old) (F.faults files.new))) }
    ensures distinct { AreDistinct (names (D.shown devices.new)) }
    ensures names { CreatesOnly (IsRunName words.now) (F.created files.old)
        (F.created files.new) }
    ensures files { FilesGoOn F.told F.faults files.old files.new }
{
    let set = mem::replace(devices, D::empty(alloc));
    let imports = source.module().parts().imports.as_slice();
    let hosts = Hosts::new(alloc, set, script, imports);
    let (begun, hosts) = begin_with(alloc, source, words, hosts);
    let Ok(begun) = begun else {
        *devices = hosts.into_devices();
        return Err(NoMemory);
    };
    match begun {
        Given::Value(mut instance) => {
            let (ran, hosts) = run_all(alloc, files, words, &mut instance, hosts);
            let outcome = recorded(alloc, files, &words.log_to, &instance, &hosts, ran);
            drop(instance);
            *devices = hosts.into_devices();
            outcome
        }
        Given::Refused(refusal) => {
            *devices = hosts.into_devices();
            Ok(refusal)
        }
    }
}
