//! A host side is asked to serve a call.

ghost use Rattle.std.specs.Prelude.{◌≡◌, ◌≤◌, true, length, slice_get, is_some, Some, IfOk};
ghost use Rattle.wasm_syntax.specs.Numbers.{types};
ghost use Rattle.wasm_syntax.specs.Machine.{host_call};
ghost use Rattle.machine_hosted.specs.calls.Settings.{HostKept};
ghost use Rattle.host_devices.specs.calls.HostSides.{told, Answers, IsExhausted, HasCause, KeepsUse};

use crate::collector::is_told;
use causes::NoMemory;
use host_devices::{HostAnswer, HostSide};
use linear_memory::Memory;
use pm_text::Text;
use std::alloc::Global;
use wasm_syntax::{FuncType, HostCall, Import, Values};

/// What a host side answered to a call of an import, and whether that was a call of the collector,
/// which takes no reply.
#[derive(Drop)]
pub struct Heard {
    pub answer: HostAnswer,
    pub told: bool,
}

fn make_call(
    alloc: Global,
    import: &Import,
    ftype: &FuncType,
    function: u32,
    args: Values,
) -> Result<HostCall, NoMemory>
    ensures { IfOk result (λ call. call ≡ host_call function import.now ftype.now args) }
{
    Ok(HostCall {
        import: function,
        name: Text::from_str(alloc, import.name.as_str())?,
        args,
        result: ftype.result_type(),
    })
}

/// Asks the host side to serve a call of an import, by its index and with arguments of the
/// parameters' types in their order. The memory is that of the run, where there is one.
pub(crate) fn call_host<H: HostSide>(
    alloc: Global,
    import: &Import,
    ftype: &FuncType,
    function: u32,
    args: Values,
    memory: Option<&Memory>,
    hosts: &mut H,
) -> Heard
    requires there { slice_get (H.origin hosts.old).imports function ≡ Some import.now }
    requires served { H.serving hosts.old import.now ftype.now ≡ true }
    requires types { types args ≡ ftype.now.params }
    requires results { length ftype.now.results ≤ 1 }
    ensures calls { Answers (told (H.collecting hosts.old) import.now
        (host_call function import.now ftype.now args))
        (host_call function import.now ftype.now args) result.answer (H.calls hosts.old)
        (H.calls hosts.new) }
    ensures told { result.told ≡ is_some
        (told (H.collecting hosts.old) import.now (host_call function import.now ftype.now args)) }
    ensures exhausted { IsExhausted (H.used_up hosts.old import.now) result.answer }
    ensures used { KeepsUse result.answer (H.used_up hosts.old) (H.used_up hosts.new) }
    ensures cause { HasCause import.now result.answer (H.fault_count hosts.old)
        (H.fault_count hosts.new) }
    ensures host { HostKept H.origin H.collecting H.serving H.fault_count hosts.old hosts.new }
{
    let told = is_told(
        hosts.collects(),
        import,
        ftype.result_type(),
        args.as_slice(),
    );
    let answer = match make_call(alloc, import, ftype, function, args) {
        Ok(call) => hosts.call(import, &call, memory),
        Err(_) => HostAnswer::NoMemory,
    };
    Heard { answer, told }
}
