//! A reply, where it fits the call.

ghost use Rattle.std.specs.Prelude.{◌≡◌, ℕ, List, ◌∷◌, length};
ghost use Rattle.wasm_syntax.specs.declared.host.Reply.{Reply as HostReply};
ghost use Rattle.wasm_syntax.specs.Numbers.{same_type};
ghost use Rattle.wasm_syntax.specs.Host.{fits_type};
ghost use Rattle.wasm_syntax.specs.Machine.{Engine, Config, Stepped, result_of};
ghost use Rattle.machine_code.specs.declared.code.Code.{Code as FlatCode};
ghost use Rattle.machine_steps.specs.calls.Meets.{CallsImport};
ghost use Rattle.machine_hosted.specs.inner.Meets.{NotCollected, MeetsReply};

use crate::replies::finish_call;
use crate::writes::make_writes;
use machine_steps::{ImportCall, Machine};
use wasm_syntax::{Reply, ValType, Value};

/// What came of a reply.
#[derive(Clone, Copy)]
pub enum Replied {
    /// Its writes were made, and the machine goes on behind the call with its value.
    Done,
    /// Its value is not of the result's type, or a write passes the end of the memory. Nothing is
    /// changed.
    Misfit,
    NoMemory,
}

/// Whether a value is there exactly where a result is wanted, and of its type.
pub(crate) fn fits_result(wanted: Option<ValType>, value: Option<Value>) -> bool
    ensures { result ≡ fits_type wanted value }
{
    match (wanted, value) {
        (None, None) => true,
        (Some(ValType::I32), Some(Value::I32(_))) => true,
        (Some(ValType::I64), Some(Value::I64(_))) => true,
        _ => false,
    }
}

/// Serves a call of an import, which takes so many arguments and gives a result of this type, with
/// a reply: first its writes are made, and then its value is the result of the call. All of it is
/// done, or nothing where it does not fit; after want of memory the machine is of no use.
pub(crate) fn serve(
    m: &mut Machine,
    call: ImportCall,
    count: usize,
    wanted: Option<ValType>,
    reply: &Reply,
) -> Replied
    ensures { (engine : Engine) (codes : List FlatCode) (c : Config) (s : Stepped)
        (left : List HostReply) (h : CallsImport engine codes c call s m.old)
        → length h.type.params ≡ count → result_of h.type ≡ wanted
        → c.world.replies ≡ reply.now ∷ left → NotCollected engine codes c call s m.old h
        → MeetsReply engine codes c call s m.old h reply.now left result s m.new }
{
    if !fits_result(wanted, reply.value) {
        return Replied::Misfit;
    }
    match make_writes(&mut m.shared, reply.writes.as_slice()) {
        Replied::Done => match finish_call(m, call, count, reply.value) {
            Ok(()) => Replied::Done,
            Err(_) => Replied::NoMemory,
        },
        Replied::Misfit => Replied::Misfit,
        Replied::NoMemory => Replied::NoMemory,
    }
}
