//! The run of a module that hands over its own dump, which is compared with another module's.

ghost use Rattle.std.specs.Prelude.{◌≡◌, ◌≢◌, [], Err, None, List, IfOk, ℕ};
ghost use Rattle.dump_write.specs.Pictured.{bytes_in};
ghost use Rattle.run_session.specs.Delivery.{Delivery, Delivers};
ghost use Rattle.selftest_command.specs.inner.Steps.{IsCollected, IsTaken, Runs, RunsBytes, dumped, none_dumped};
ghost use Rattle.selftest_command.specs.inner.Steps.{summary};
ghost use Rattle.wasm_machine.specs.calls.Instances.{Begins, IsNew};
ghost use Rattle.wasm_syntax.specs.declared.module.ModuleParts.{ModuleParts as Parts};
ghost use Rattle.wasm_syntax.specs.Module.{IsModule};
ghost use Rattle.wasm_syntax.specs.Run.{cause_of_segments};

use crate::original::{FUEL, drop_hosts};
use crate::summary::{handed_summary, summary};
use causes::NoMemory;
use commands::{Given, Outcome, load};
use host_collector::Collecting;
use host_set::{Devices, Hosts};
use run_session::handed_over;
use std::alloc::Global;
use wasm_machine::{Instance, RunEnd, StartFault};
use wasm_syntax::{CollectorCall, Value};
use wasm_validate::Validated;

/// How many frames may stand: the default number, and two more for the wrapper of an export and the
/// helper of an indirect call.
const DEPTH: u32 = 1_002;

/// The line of an instance that was run, and made these calls of the collector.
fn shown(
    alloc: Global,
    instance: &Instance<'_>,
    calls: &[CollectorCall],
    count: u32,
    own: &[u8],
) -> Result<Outcome, NoMemory>
    ensures { IfOk result (λ o. (delivery : Delivery) × Delivers calls.now delivery
        × (o ≡ summary count
        (dumped own.now delivery (bytes_in instance.now.machine.shared.memory))
        instance.now.steps)) }
{
    let handed = handed_over(alloc, calls, instance.memory(), "module")?;
    handed_summary(alloc, count, own, &handed, instance.steps())
}

/// The line of an instance that was run up to this end.
fn ended(
    alloc: Global,
    instance: &Instance<'_>,
    end: &RunEnd,
    calls: &[CollectorCall],
    count: u32,
    own: &[u8],
) -> Result<Outcome, NoMemory>
    ensures { IfOk result (λ o. (end.now ≢ RunEnd.NoMemory)
        × ((delivery : Delivery) × Delivers calls.now delivery
        × (o ≡ summary count
        (dumped own.now delivery (bytes_in instance.now.machine.shared.memory))
        instance.now.steps))) }
{
    match end {
        RunEnd::NoMemory => Err(NoMemory),
        _ => shown(alloc, instance, calls, count, own),
    }
}

/// The line where nothing was run.
fn nothing_run(alloc: Global, count: u32) -> Result<Outcome, NoMemory>
    ensures { IfOk result (λ o. o ≡ summary count none_dumped 0) }
{
    summary(alloc, count, 0, 0, &[], 0)
}

/// The line where no instance was made.
fn not_begun(alloc: Global, fault: StartFault, count: u32) -> Result<Outcome, NoMemory>
    ensures { (m : Parts) (own : List ℕ) → IsModule m → Begins (Err fault) m
        → IfOk result (Runs count own m) }
{
    match fault {
        StartFault::ElementOut { .. } => nothing_run(alloc, count),
        StartFault::DataOut { .. } => nothing_run(alloc, count),
        StartFault::NoMemory => Err(NoMemory),
    }
}

/// Runs `main` on a new instance, and compares what it hands over with the first module's dump.
fn run_instance<D: Devices>(
    alloc: Global,
    source: &Validated,
    instance: &mut Instance<'_>,
    count: u32,
    own: &[u8],
) -> Result<Outcome, NoMemory>
    requires collected { IsCollected source.now }
    requires segments { cause_of_segments source.now ≡ None }
    requires new { IsNew source.now instance.old }
    ensures { IfOk result (Runs count own.now source.now) }
{
    let imports = source.module().parts().imports.as_slice();
    let hosts = Hosts::new(alloc, D::empty(alloc), None, imports);
    let mut collecting = Collecting::new(alloc, hosts);
    let args = [Value::I32(count), Value::I32(1)];
    let answer = instance.invoke("main", &args, DEPTH, FUEL, &mut collecting);
    match answer {
        Ok(end) => {
            let outcome = ended(alloc, instance, &end, collecting.calls(), count, own);
            drop_hosts(collecting.into_inner());
            outcome
        }
        Err(_) => nothing_run(alloc, count),
    }
}

/// Runs a module that imports nothing but from the collector.
fn run_module<D: Devices>(
    alloc: Global,
    source: &Validated,
    count: u32,
    own: &[u8],
) -> Result<Outcome, NoMemory>
    requires { IsCollected source.now }
    ensures { IfOk result (Runs count own.now source.now) }
{
    let _ = source.module().parts();
    match Instance::new(alloc, source) {
        Ok(mut instance) => run_instance::<D>(alloc, source, &mut instance, count, own),
        Err(fault) => not_begun(alloc, fault, count),
    }
}

/// Runs the module that the bytes spell. They are admitted as what a module is rewritten to that
/// imports nothing, and whose own dump has these bytes.
pub(crate) fn run_bytes<D: Devices>(
    alloc: Global,
    bytes: &[u8],
    count: u32,
    own: &[u8],
) -> Result<Outcome, NoMemory>
    requires { IsTaken bytes.now }
    ensures { IfOk result (RunsBytes count own.now bytes.now) }
{
    let loaded = load(alloc, bytes)?;
    match loaded {
        Given::Value(source) => {
            let outcome = run_module::<D>(alloc, &source, count, own);
            drop(source);
            outcome
        }
        Given::Refused(refusal) => Ok(refusal),
    }
}
