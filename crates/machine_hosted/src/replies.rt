//! The arguments are taken, and the reply's value is put in their place.

ghost use Rattle.std.specs.Prelude.{◌≡◌, ℕ, ◌++◌, List, length, drop, option_to_list, OnOk};
ghost use Rattle.wasm_syntax.specs.declared.value.Value.{Value as Val};
ghost use Rattle.wasm_syntax.specs.declared.host.CollectorCall.{CollectorCall as Collected};
ghost use Rattle.wasm_syntax.specs.Host.{World};
ghost use Rattle.wasm_syntax.specs.Machine.{Engine, Config, Stepped};
ghost use Rattle.machine_code.specs.declared.code.Code.{Code as FlatCode};
ghost use Rattle.machine_steps.specs.declared.machine.Machine.{Machine as Kept};
ghost use Rattle.machine_steps.specs.calls.Meets.{Shares, CallsImport};
ghost use Rattle.machine_hosted.specs.inner.Replies.{Taken, Finished};

use causes::NoMemory;
use machine_steps::{ImportCall, Machine};
use pm_text::Stack;
use wasm_syntax::Value;

/// Takes the index of a table's entry away, and the arguments under it.
fn take_under_index(values: &mut Stack<Value>, count: usize)
    ensures { values.new ≡ drop count (drop 1 values.old) }
{
    values.discard(1);
    values.discard(count);
}

/// Takes the arguments away, with the index of a table's entry above them, if there is one.
fn take_arguments(values: &mut Stack<Value>, indirect: bool, count: usize)
    ensures { (taken below : List Val) → Taken indirect count taken → values.old ≡ taken ++ below
        → values.new ≡ below }
{
    if indirect {
        take_under_index(values, count);
    } else {
        values.discard(count);
    }
}

/// Puts a value on top, if there is one.
fn push_result(values: &mut Stack<Value>, value: Option<Value>) -> Result<(), NoMemory>
    ensures { OnOk result (values.new ≡ option_to_list value ++ values.old) }
{
    match value {
        Some(v) => values.push(v),
        None => Ok(()),
    }
}

/// Ends a call of an import, which takes so many arguments, with the value of its reply. What
/// frames share may have changed since the call.
pub(crate) fn finish_call(
    m: &mut Machine,
    call: ImportCall,
    count: usize,
    value: Option<Value>,
) -> Result<(), NoMemory>
    ensures { (engine : Engine) (codes : List FlatCode) (c : Config) (s : Stepped) (before : Kept)
        (h : CallsImport engine codes c call s before) (then_world : World)
        (then_collected : List Collected) (args below : List Val) → m.old.stack ≡ before.stack
        → Shares m.old then_world → h.operands ≡ args ++ below → length args ≡ count
        → OnOk result (Finished engine codes c call s before h then_world then_collected value below
        m.new) }
{
    take_arguments(&mut m.stack.values, call.indirect, count);
    push_result(&mut m.stack.values, value)?;
    m.stack.position = call.next;
    Ok(())
}
