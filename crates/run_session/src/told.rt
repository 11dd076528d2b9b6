//! What is told of an invocation that ended.

ghost use Rattle.std.specs.Prelude.{◌≡◌, ◌≢◌, ◌≤◌, Bool, List, Some, IfOk};
ghost use Rattle.wasm_syntax.specs.declared.parts.Import.{Import};
ghost use Rattle.wasm_syntax.specs.declared.host.CollectorCall.{CollectorCall as Call};
ghost use Rattle.wasm_syntax.specs.Module.{Program};
ghost use Rattle.wasm_syntax.specs.Machine.{Config};
ghost use Rattle.wasm_syntax.specs.Run.{Outcome};
ghost use Rattle.dump_format.specs.Form.{pages_of};
ghost use Rattle.dump_format.specs.calls.Contained.{IsContained};
ghost use Rattle.run_session.specs.Delivery.{Delivery, IsDelivery};
ghost use Rattle.run_session.specs.Showing.{showing};
ghost use Rattle.run_session.specs.Telling.{plain_telling, shown_telling, tells};
ghost use Rattle.run_session.specs.inner.Dumping.{IsTold, IfDump};
ghost use Rattle.run_session.specs.inner.Turns.{CameTo, TellsIt};

use crate::{Shown, handed_over, shown_by};
use causes::NoMemory;
use dump_format::Dump;
use machine_hosted::RunEnd;
use run_words::RunWords;
use std::alloc::Global;
use trap_image::image;
use wasm_machine::Instance;
use wasm_syntax::{CollectorCall, Value};

/// What is told of an invocation.
#[derive(Drop)]
pub(crate) enum Told<'a> {
    /// Nothing: it neither finished nor trapped.
    Nothing,
    /// It finished, with its value.
    Finish(Option<Value>),
    /// It trapped, with the number of the trap's kind, and has this dump.
    Trap { kind: u32, dump: Dump<'a> },
    /// It trapped, and handed no dump over.
    BareTrap { kind: u32 },
    /// Its collector calls are torn at this index.
    Torn { at: usize },
}

/// What is told of an invocation with this answer whose collector calls are not looked at.
fn without_calls<'a>(
    alloc: Global,
    name: &str,
    instance: &'a Instance,
    answer: &RunEnd,
) -> Result<Told<'a>, NoMemory>
    requires { answer.now ≢ RunEnd.NoMemory }
    ensures told { (p : Program) (used_up : Import → Bool) (o : Outcome) (c : Config)
        → CameTo p used_up answer.now instance.now o c
        → IfOk result (IsTold (plain_telling o (Some c)) name.now) }
    ensures contained { IfOk result (IfDump (λ d. IsContained d)) }
    ensures pages { IfOk result (IfDump (λ d. pages_of d.memory ≤ 4096)) }
{
    match answer {
        RunEnd::Finished { value } => Ok(Told::Finish(*value)),
        RunEnd::Trapped { kind } => {
            let dump = image(alloc, instance, name)?;
            Ok(Told::Trap {
                kind: kind.code(),
                dump,
            })
        }
        _ => Ok(Told::Nothing),
    }
}

/// What is told of an invocation with this answer and these collector calls.
fn with_calls<'a>(
    alloc: Global,
    name: &str,
    instance: &'a Instance,
    answer: &RunEnd,
    calls: &[CollectorCall],
) -> Result<Told<'a>, NoMemory>
    requires { answer.now ≢ RunEnd.NoMemory }
    ensures told { (deliver : List Call → Delivery) → IsDelivery deliver
        → (p : Program) (used_up : Import → Bool) (o : Outcome) (c : Config)
        → CameTo p used_up answer.now instance.now o c
        → IfOk result (IsTold (shown_telling (showing o (deliver calls.now)) o (Some c)) name.now) }
    ensures contained { IfOk result (IfDump (λ d. IsContained d)) }
    ensures pages { IfOk result (IfDump (λ d. pages_of d.memory ≤ 4096)) }
{
    let handed = handed_over(alloc, calls, instance.memory(), name)?;
    match shown_by(answer, handed) {
        Shown::AsRun => without_calls(alloc, name, instance, answer),
        Shown::Collected(collected) => Ok(Told::Trap {
            kind: collected.kind,
            dump: collected.dump,
        }),
        Shown::NoDump { kind } => Ok(Told::BareTrap { kind: kind.code() }),
        Shown::Torn { at } => Ok(Told::Torn { at }),
    }
}

/// What is told of an invocation with this answer, which left the instance so. Its collector calls
/// are looked at where the words ask for a collector. A dump borrows the instance's memory.
///
/// # Errors
///
/// `NoMemory` where memory runs out, or ran out in the invocation.
pub(crate) fn tell<'a>(
    alloc: Global,
    words: &RunWords,
    instance: &'a Instance,
    answer: &RunEnd,
    calls: &[CollectorCall],
) -> Result<Told<'a>, NoMemory>
    ensures told { (deliver : List Call → Delivery) → IsDelivery deliver
        → IfOk result (TellsIt (tells words.now.collect deliver) words.now.collect answer.now
        instance.now calls.now words.now.name) }
    ensures contained { IfOk result (IfDump (λ d. IsContained d)) }
    ensures pages { IfOk result (IfDump (λ d. pages_of d.memory ≤ 4096)) }
    ensures memory { IfOk result (λ _. answer.now ≢ RunEnd.NoMemory) }
{
    if let RunEnd::NoMemory = answer {
        return Err(NoMemory);
    }
    let name = words.name.as_str();
    if words.collect {
        with_calls(alloc, name, instance, answer, calls)
    } else {
        without_calls(alloc, name, instance, answer)
    }
}
