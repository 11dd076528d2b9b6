//! One call of an import in a run.

ghost use Rattle.std.specs.Prelude.{◌≡◌, Bool, List, ◌∷◌, Some, None};
ghost use Rattle.wasm_syntax.specs.declared.value.Value.{Value as Val};
ghost use Rattle.wasm_syntax.specs.declared.parts.Import.{Import as ImportValue};
ghost use Rattle.wasm_syntax.specs.declared.host.Reply.{Reply as HostReply};
ghost use Rattle.wasm_syntax.specs.declared.host.CollectorCall.{CollectorCall as Collected};
ghost use Rattle.wasm_syntax.specs.Machine.{Engine, Config, host_call};
ghost use Rattle.machine_code.specs.declared.code.Code.{Code as FlatCode};
ghost use Rattle.machine_hosted.specs.calls.Answers.{HasCause};
ghost use Rattle.machine_hosted.specs.calls.Settings.{HostKept, Knows};
ghost use Rattle.machine_hosted.specs.inner.Turns.{Calling, AtCall, told_by, one_reply, one_told, Turned, TurnMeets};
ghost use Rattle.machine_hosted.specs.inner.Turns.{IsReplied, end_of};

use crate::answer::RunEnd;
use crate::heard::{Heard, call_host};
use crate::replies::finish_call;
use crate::reply::{Replied, serve};
use crate::runner::Runner;
use crate::taken::arguments;
use host_devices::{HostAnswer, HostSide};
use machine_steps::{ImportCall, Machine};
use wasm_syntax::{FuncType, Reply};

/// What came of a call of an import.
#[derive(Drop)]
pub(crate) enum Turn {
    /// The machine stands behind the call.
    Goes,
    /// The run ends with the call.
    Ends(RunEnd),
    /// Memory ran out before the host side answered.
    Lacking,
}

/// Goes on behind a call with its reply, or stops at it where the reply does not fit.
fn after_reply(m: &mut Machine, call: ImportCall, ftype: &FuncType, reply: Reply) -> Turn
    ensures replied { IsReplied (end_of result) }
    ensures turned { (used_up : ImportValue → Bool) (engine : Engine) (codes : List FlatCode)
        (import : ImportValue) (args : List Val) (c : Config) (left : List HostReply)
        → AtCall engine codes call import ftype.now args m.old c
        → told_by engine (host_call call.function import ftype.now args) ≡ None
        → c.world.replies ≡ reply ∷ left
        → Turned engine codes used_up
        (one_reply (host_call call.function import ftype.now args) reply) result c m.new left }
{
    let count = ftype.params.len();
    match serve(m, call, count, ftype.result_type(), &reply) {
        Replied::Done => Turn::Goes,
        Replied::Misfit => Turn::Ends(RunEnd::BadReply { reply }),
        Replied::NoMemory => Turn::Ends(RunEnd::NoMemory),
    }
}

/// Goes on behind a call of the collector, which gives no value.
fn after_told(m: &mut Machine, call: ImportCall, ftype: &FuncType) -> Turn
    ensures replied { IsReplied (end_of result) }
    ensures turned { (used_up : ImportValue → Bool) (engine : Engine) (codes : List FlatCode)
        (import : ImportValue) (args : List Val) (c : Config) (k : Collected)
        → AtCall engine codes call import ftype.now args m.old c
        → told_by engine (host_call call.function import ftype.now args) ≡ Some k
        → Turned engine codes used_up (one_told k) result c m.new c.world.replies }
{
    match finish_call(m, call, ftype.params.len(), None) {
        Ok(()) => Turn::Goes,
        Err(_) => Turn::Ends(RunEnd::NoMemory),
    }
}

/// Reads the arguments of a call of an import, asks the host side, and goes on behind the call with
/// its reply, or stops at it.
pub(crate) fn serve_import<H: HostSide>(
    runner: &Runner<'_, '_>,
    m: &mut Machine,
    call: ImportCall,
    hosts: &mut H,
) -> Turn
    requires calling { Calling runner.now.source.now call m.old (H.collecting hosts.old)
        (H.serving hosts.old) }
    requires knows { Knows (H.origin hosts.old) runner.now.source.now }
    ensures turned { (k : Calling runner.now.source.now call m.old (H.collecting hosts.old)
        (H.serving hosts.old)) → TurnMeets k.engine k.codes (H.used_up hosts.new) result k.there
        m.new (H.calls hosts.old) (H.calls hosts.new) }
    ensures cause { HasCause (end_of result) (H.fault_count hosts.old) (H.fault_count hosts.new) }
    ensures host { HostKept H.origin H.collecting H.serving H.fault_count hosts.old hosts.new }
{
    let source = runner.source.parts();
    let Some(import) = source.imports.get(call.function) else {
        return Turn::Lacking;
    };
    let Some(ftype) = source.types.get(import.ftype as usize) else {
        return Turn::Lacking;
    };
    let Ok(args) = arguments(runner.alloc, m, call, ftype.params.len()) else {
        return Turn::Lacking;
    };
    let function = call.function as u32;
    let memory = m.shared.memory.as_ref();
    let Heard { answer, told } = call_host(
        runner.alloc,
        import,
        ftype,
        function,
        args,
        memory,
        hosts,
    );
    match answer {
        HostAnswer::Replied(reply) => {
            if told {
                after_told(m, call, ftype)
            } else {
                after_reply(m, call, ftype, reply)
            }
        }
        HostAnswer::NoReply => Turn::Ends(RunEnd::NoReply),
        HostAnswer::Failed(name) => Turn::Ends(RunEnd::DeviceFault { name }),
        HostAnswer::NoMemory => Turn::Lacking,
    }
}
