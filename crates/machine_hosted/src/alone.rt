//! A call of an import with no frame (Core 4.5.5): of an entry or a start function that is
//! imported.

ghost use Rattle.std.specs.Prelude.{◌≡◌, ◌≤◌, ℕ, List, true, length, slice_get, Some};
ghost use Rattle.wasm_syntax.specs.declared.host.CollectorCall.{CollectorCall as Collected};
ghost use Rattle.wasm_syntax.specs.Numbers.{types};
ghost use Rattle.wasm_syntax.specs.Module.{Program};
ghost use Rattle.wasm_syntax.specs.Host.{World};
ghost use Rattle.wasm_syntax.specs.Machine.{host_call};
ghost use Rattle.wasm_syntax.specs.Run.{engine};
ghost use Rattle.machine_basics.specs.calls.Performs.{Holds};
ghost use Rattle.machine_code.specs.declared.code.Code.{Code as FlatCode};
ghost use Rattle.machine_steps.specs.calls.Meets.{Shares};
ghost use Rattle.machine_hosted.specs.calls.Safe.{WorldFits};
ghost use Rattle.machine_hosted.specs.calls.Settings.{HostKept};
ghost use Rattle.host_devices.specs.calls.HostSides.{told, Answers, IsExhausted, KeepsUse, HasCause as AnswerHasCause};
ghost use Rattle.machine_hosted.specs.inner.Alone.{Took, alone};
ghost use Rattle.machine_hosted.specs.calls.Answers.{FunctionCameWith, HasCause};

use crate::answer::{FunctionRun, RunEnd};
use crate::heard::call_host;
use crate::reply::{Replied, fits_result};
use crate::writes::make_writes;
use causes::NoMemory;
use host_devices::{HostAnswer, HostSide};
use machine_basics::Shared;
use machine_steps::{Machine, leave_frames};
use pm_text::Items;
use std::alloc::Global;
use wasm_syntax::{FuncType, Import, Reply, ValType, Value};

/// Takes the reply to a call with this result: first its writes are made, and then its value is
/// what the call gives. Nothing is changed where it does not fit.
fn take_reply(shared: &mut Shared, wanted: Option<ValType>, reply: Reply) -> RunEnd
    ensures { (w : World) → Holds shared.old w → Took result wanted reply w shared.old shared.new }
{
    if !fits_result(wanted, reply.value) {
        return RunEnd::BadReply { reply };
    }
    match make_writes(shared, reply.writes.as_slice()) {
        Replied::Done => RunEnd::Finished { value: reply.value },
        Replied::Misfit => RunEnd::BadReply { reply },
        Replied::NoMemory => RunEnd::NoMemory,
    }
}

/// An import, by its index, and its type.
#[derive(Drop)]
pub(crate) struct Imported<'i> {
    pub(crate) index: u32,
    pub(crate) import: &'i Import,
    pub(crate) ftype: &'i FuncType,
}

/// What a host side answers to a call of an import on arguments in the parameters' order.
fn ask<H: HostSide>(
    alloc: Global,
    imported: &Imported<'_>,
    args: &[Value],
    shared: &Shared,
    hosts: &mut H,
) -> HostAnswer
    requires there { slice_get (H.origin hosts.old).imports imported.now.index
        ≡ Some imported.now.import.now }
    requires served { H.serving hosts.old imported.now.import.now imported.now.ftype.now ≡ true }
    requires args { types args.now ≡ imported.now.ftype.now.params }
    requires one { length imported.now.ftype.now.results ≤ 1 }
    ensures calls { Answers (told (H.collecting hosts.old) imported.now.import.now
        (host_call imported.now.index imported.now.import.now imported.now.ftype.now args.now))
        (host_call imported.now.index imported.now.import.now imported.now.ftype.now args.now)
        result (H.calls hosts.old) (H.calls hosts.new) }
    ensures exhausted { IsExhausted (H.used_up hosts.old imported.now.import.now) result }
    ensures used { KeepsUse result (H.used_up hosts.old) (H.used_up hosts.new) }
    ensures cause { AnswerHasCause imported.now.import.now result (H.fault_count hosts.old)
        (H.fault_count hosts.new) }
    ensures host { HostKept H.origin H.collecting H.serving H.fault_count hosts.old hosts.new }
{
    match Items::from_slice(alloc, args) {
        Ok(copy) => {
            let memory = shared.memory.as_ref();
            let index = imported.index;
            call_host(
                alloc,
                imported.import,
                imported.ftype,
                index,
                copy,
                memory,
                hosts,
            )
            .answer
        }
        Err(NoMemory) => HostAnswer::NoMemory,
    }
}

/// Calls an import with no frame, on arguments in the parameters' order. That is one step.
pub(crate) fn call_alone<H: HostSide>(
    alloc: Global,
    m: &mut Machine,
    imported: &Imported<'_>,
    args: &[Value],
    fuel: u64,
    hosts: &mut H,
) -> FunctionRun
    requires there { slice_get (H.origin hosts.old).imports imported.now.index
        ≡ Some imported.now.import.now }
    requires served { H.serving hosts.old imported.now.import.now imported.now.ftype.now ≡ true }
    requires args { types args.now ≡ imported.now.ftype.now.params }
    requires one { length imported.now.ftype.now.results ≤ 1 }
    ensures came { (p : Program) (codes : List FlatCode) (depth : ℕ) (w : World)
        (co : List Collected)
        → slice_get p.module_.imports imported.now.index ≡ Some imported.now.import.now
        → Shares m.old w → WorldFits p.module_ w → FunctionCameWith p codes (H.used_up hosts.new)
        (alone (engine p (H.collecting hosts.old) depth)
        (host_call imported.now.index imported.now.import.now imported.now.ftype.now args.now) w co)
        w co fuel result.answer result.steps m.new (H.calls hosts.old) (H.calls hosts.new) }
    ensures cause { HasCause result.answer (H.fault_count hosts.old) (H.fault_count hosts.new) }
    ensures host { HostKept H.origin H.collecting H.serving H.fault_count hosts.old hosts.new }
{
    leave_frames(&mut m.stack);
    if fuel == 0 {
        return FunctionRun {
            answer: RunEnd::FuelSpent,
            steps: 0,
        };
    }
    match ask(alloc, imported, args, &m.shared, hosts) {
        HostAnswer::Replied(reply) => FunctionRun {
            answer: take_reply(&mut m.shared, imported.ftype.result_type(), reply),
            steps: 1,
        },
        HostAnswer::NoReply => FunctionRun {
            answer: RunEnd::NoReply,
            steps: 1,
        },
        HostAnswer::Failed(name) => FunctionRun {
            answer: RunEnd::DeviceFault { name },
            steps: 1,
        },
        HostAnswer::NoMemory => FunctionRun {
            answer: RunEnd::NoMemory,
            steps: 0,
        },
    }
}
