//! What an invocation comes to, and what an instance keeps of it.

ghost use Rattle.std.specs.Prelude.{◌≡◌, IfOk};
ghost use Rattle.wasm_machine.specs.calls.Instances.{kept_end, last_of};

use crate::entries::EntryFault;
use causes::NoMemory;
use machine_basics::TrapKind;
use machine_hosted::RunEnd;
use std::alloc::Global;
use wasm_syntax::{Value, Values};

/// What an invocation came to, or why nothing was run.
pub type RunAnswer = Result<RunEnd, EntryFault>;

/// How an invocation ended, where memory sufficed: a variant for each other answer, without what
/// was handed out with it.
#[derive(Clone, Copy, PartialEq, Eq)]
pub enum End {
    /// The function gave this result, or none.
    Finished { value: Option<Value> },
    Trapped { kind: TrapKind },
    /// The replies for an import are used up.
    NoReply,
    /// A reply does not fit its call.
    BadReply,
    /// A device failed.
    DeviceFault,
    /// The steps are used up.
    FuelSpent,
}

/// The last invocation of an instance.
#[derive(Drop)]
pub struct LastInvocation {
    /// The index of the function.
    pub entry: u32,
    /// In the parameters' order.
    pub args: Values,
    /// The number of frames that there may be at most.
    pub depth: u32,
    /// Whether the host side collected the calls of the collector's imports.
    pub collecting: bool,
    pub end: End,
}

/// How an invocation ended, where memory sufficed.
fn ending(answer: &RunEnd) -> Option<End>
    ensures { result ≡ kept_end answer.now }
{
    match answer {
        RunEnd::Finished { value } => Some(End::Finished { value: *value }),
        RunEnd::Trapped { kind } => Some(End::Trapped { kind: *kind }),
        RunEnd::NoReply => Some(End::NoReply),
        RunEnd::BadReply { .. } => Some(End::BadReply),
        RunEnd::DeviceFault { .. } => Some(End::DeviceFault),
        RunEnd::FuelSpent => Some(End::FuelSpent),
        RunEnd::NoMemory => None,
    }
}

/// What is kept of an invocation that came to this answer.
pub(crate) fn kept(
    entry: u32,
    args: Values,
    depth: u32,
    collecting: bool,
    answer: &RunEnd,
) -> Option<LastInvocation>
    ensures { result ≡ last_of entry args depth collecting answer.now }
{
    match ending(answer) {
        Some(end) => Some(LastInvocation {
            entry,
            args,
            depth,
            collecting,
            end,
        }),
        None => None,
    }
}

/// What is kept, if anything is, once more.
pub(crate) fn copy_of_last(
    alloc: Global,
    last: &Option<LastInvocation>,
) -> Result<Option<LastInvocation>, NoMemory>
    ensures { IfOk result (λ copy. copy ≡ last.now) }
{
    let Some(last) = last else {
        return Ok(None);
    };
    let args = Values::from_slice(alloc, last.args.as_slice())?;
    Ok(Some(LastInvocation {
        entry: last.entry,
        args,
        depth: last.depth,
        collecting: last.collecting,
        end: last.end,
    }))
}
