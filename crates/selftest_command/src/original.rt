//! The run of the module of a self-test, without a collector.

ghost use Rattle.std.specs.Prelude.{◌≡◌, ◌≢◌, [], Err, None, IfOk, ℕ};
ghost use Rattle.host_set.specs.Sets.{names};
ghost use Rattle.machine_basics.specs.declared.answer.TrapKind.{TrapKind};
ghost use Rattle.selftest_command.specs.Handing.{own_dump};
ghost use Rattle.selftest_command.specs.inner.Steps.{RunsAlone};
ghost use Rattle.wasm_machine.specs.calls.Instances.{Begins, IsNew, StandsAt};
ghost use Rattle.wasm_syntax.specs.Machine.{Config};
ghost use Rattle.wasm_syntax.specs.Module.{IsModule, Program};
ghost use Rattle.wasm_syntax.specs.declared.module.ModuleParts.{ModuleParts as Parts};
ghost use Rattle.wasm_syntax.specs.Run.{cause_of_segments};

use causes::NoMemory;
use dump_write::dump_bytes;
use host_set::{Devices, Hosts};
use machine_hosted::RunEnd;
use std::alloc::Global;
use trap_image::image;
use wasm_machine::{Instance, StartFault};
use wasm_syntax::Value;
use wasm_validate::Validated;

/// How many frames may stand: the default number.
const DEPTH: u32 = 1_000;

/// How many steps may be made: the default number.
pub(crate) const FUEL: u64 = 100_000_000;

/// A host side without devices and without a script serves nothing.
pub(crate) fn drop_hosts<D: Devices>(hosts: Hosts<'_, D>)
    requires devices { names hosts.devices ≡ [] }
    requires script { hosts.script ≡ None }
    ensures { hosts.entry.served ≡ [] }
{
    let _devices = hosts.into_devices();
}

/// The canonical bytes of the dump of an instance that was run up to a trap, and none behind
/// another end.
fn dump_behind(alloc: Global, instance: &Instance<'_>, end: &RunEnd) -> Result<Vec<u8>, NoMemory>
    ensures memory { IfOk result (λ _. end.now ≢ RunEnd.NoMemory) }
    ensures dump { (p : Program) (c : Config) (kind : TrapKind) → end.now ≡ RunEnd.Trapped kind
        → StandsAt instance.now p c → IfOk result (λ v. v.items ≡ own_dump c) }
{
    if let RunEnd::NoMemory = end {
        return Err(NoMemory);
    }
    match end {
        RunEnd::Trapped { .. } => {
            let dump = image(alloc, instance, "module")?;
            dump_bytes(alloc, &dump)
        }
        _ => Ok(Vec::new(alloc)),
    }
}

/// Runs `main` on a new instance.
fn dump_of_instance<D: Devices>(
    alloc: Global,
    source: &Validated,
    instance: &mut Instance<'_>,
    count: u32,
) -> Result<Vec<u8>, NoMemory>
    requires imports { source.now.imports ≡ [] }
    requires segments { cause_of_segments source.now ≡ None }
    requires new { IsNew source.now instance.old }
    ensures { IfOk result (λ v. RunsAlone count source.now v.items) }
{
    let imports = source.module().parts().imports.as_slice();
    let mut hosts = Hosts::new(alloc, D::empty(alloc), None, imports);
    let args = [Value::I32(count), Value::I32(1)];
    let answer = instance.invoke("main", &args, DEPTH, FUEL, &mut hosts);
    match answer {
        Ok(end) => {
            let dump = dump_behind(alloc, instance, &end);
            drop_hosts(hosts);
            dump
        }
        Err(_) => Ok(Vec::new(alloc)),
    }
}

/// No bytes, where no instance was made.
fn no_dump(alloc: Global, fault: StartFault) -> Result<Vec<u8>, NoMemory>
    ensures { (n : ℕ) (m : Parts) → IsModule m → Begins (Err fault) m
        → IfOk result (λ v. RunsAlone n m v.items) }
{
    match fault {
        StartFault::ElementOut { .. } => Ok(Vec::new(alloc)),
        StartFault::DataOut { .. } => Ok(Vec::new(alloc)),
        StartFault::NoMemory => Err(NoMemory),
    }
}

/// The canonical bytes of the dump of a module that imports nothing, where its run traps.
pub(crate) fn original_dump<D: Devices>(
    alloc: Global,
    source: &Validated,
    count: u32,
) -> Result<Vec<u8>, NoMemory>
    requires { source.now.imports ≡ [] }
    ensures { IfOk result (λ v. RunsAlone count source.now v.items) }
{
    let _ = source.module().parts();
    match Instance::new(alloc, source) {
        Ok(mut instance) => dump_of_instance::<D>(alloc, source, &mut instance, count),
        Err(fault) => no_dump(alloc, fault),
    }
}
