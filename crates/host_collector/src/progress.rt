//! How far calls of the collector have come.

ghost use Rattle.std.specs.Prelude.{◌≡◌, ◌+◌, ◌≤◌, ◌<◌, ◌^◌};
ghost use Rattle.host_collector.specs.inner.Progress.{values_in, missing, with_value, with_first, with_later};
ghost use Rattle.host_collector.specs.inner.Progress.{with_last, with_frame, with_call, stepped, ended, judged};

use wasm_syntax::CollectorCall;

/// The most calls that a whole list has.
const MOST: usize = 134_217_728;

/// The kind of the last call.
const LAST: u32 = 255;

/// How far calls have come that begin a whole list. Values are counted from the end of the last
/// entry on.
#[derive(Clone, Copy)]
pub(crate) enum Progress {
    /// No entry is closed.
    First { values: usize },
    /// The first entry has this kind.
    Later { kind: u32, values: usize },
    /// The calls are whole.
    Whole { kind: u32 },
}

fn with_value(progress: Progress) -> Option<Progress>
    requires { values_in progress < 2 ^ 32 }
    ensures { result ≡ with_value progress }
{
    match progress {
        Progress::First { values } => Some(Progress::First { values: values + 1 }),
        Progress::Later { kind, values } => Some(Progress::Later {
            kind,
            values: values + 1,
        }),
        Progress::Whole { .. } => None,
    }
}

/// The end of the first entry, behind so many values.
fn with_first(values: usize, kind: u32, locals: u32) -> Option<Progress>
    ensures { result ≡ with_first values kind locals }
{
    if kind >= 1 && kind <= 7 && locals as usize <= values {
        Some(Progress::Later { kind, values: 0 })
    } else {
        None
    }
}

/// The end of a later entry, behind so many values.
fn with_later(first: u32, values: usize, locals: u32) -> Option<Progress>
    ensures { result ≡ with_later first values locals }
{
    if locals as usize <= values {
        Some(Progress::Later {
            kind: first,
            values: 0,
        })
    } else {
        None
    }
}

/// The last call, behind so many globals.
fn with_last(first: u32, values: usize, function: u32, offset: u32, locals: u32) -> Option<Progress>
    ensures { result ≡ with_last first values function offset locals }
{
    if function == 0 && offset == 0 && locals as usize == values {
        Some(Progress::Whole { kind: first })
    } else {
        None
    }
}

fn with_frame(
    progress: Progress,
    kind: u32,
    function: u32,
    offset: u32,
    locals: u32,
) -> Option<Progress>
    ensures { result ≡ with_frame progress kind function offset locals }
{
    match progress {
        Progress::First { values } => with_first(values, kind, locals),
        Progress::Later {
            kind: first,
            values,
        } => {
            if kind == 0 {
                with_later(first, values, locals)
            } else if kind == LAST {
                with_last(first, values, function, offset, locals)
            } else {
                None
            }
        }
        Progress::Whole { .. } => None,
    }
}

fn with_call(progress: Progress, call: CollectorCall) -> Option<Progress>
    requires { values_in progress < 2 ^ 32 }
    ensures { result ≡ with_call progress call }
{
    match call {
        CollectorCall::ValueI32(_) => with_value(progress),
        CollectorCall::ValueI64(_) => with_value(progress),
        CollectorCall::Frame {
            kind,
            function,
            offset,
            locals,
        } => with_frame(progress, kind, function, offset, locals),
    }
}

/// How many calls have to come at least.
fn missing(progress: Progress) -> usize
    ensures { result ≡ missing progress }
{
    match progress {
        Progress::First { .. } => 2,
        Progress::Later { .. } => 1,
        Progress::Whole { .. } => 0,
    }
}

/// How far the calls have come behind one more, the call at this index, where there is room for
/// those that have to come.
fn stepped(at: usize, progress: Progress, call: CollectorCall) -> Option<Progress>
    requires values { values_in progress ≤ at }
    requires room { at + missing progress ≤ 134217728 }
    ensures { result ≡ stepped at progress call }
{
    match with_call(progress, call) {
        Some(next) => {
            if at + 1 + missing(next) <= MOST {
                Some(next)
            } else {
                None
            }
        }
        None => None,
    }
}

/// The kind of the first entry of whole calls, or else the index of the first offending call.
pub(crate) fn judge(calls: &[CollectorCall]) -> Result<u32, usize>
    ensures { result ≡ judged 0 (Progress.First 0) calls.now }
{
    let mut progress = Progress::First { values: 0 };
    for at in 0..calls.len() {
        match stepped(at, progress, calls[at]) {
            Some(next) => progress = next,
            None => return Err(at),
        }
    }
    match progress {
        Progress::Whole { kind } => Ok(kind),
        _ => Err(calls.len()),
    }
}
