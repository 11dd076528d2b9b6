//! Endings and collector calls, row by row.

use machine_basics::TrapKind;
use machine_hosted::RunEnd;
use run_session::{Shown, handed_over, shown_by};
use std::alloc::Global;
use wasm_syntax::CollectorCall;

/// How an invocation is to be shown.
#[derive(Clone, Copy)]
enum Wanted {
    AsRun,
    /// By a dump of this kind.
    Dump(u32),
    NoDump,
    Torn(usize),
}

/// How it ends.
#[derive(Clone, Copy)]
enum Ending {
    Finished,
    Trapped,
    FuelSpent,
    NoReply,
}

const NONE: [CollectorCall; 0] = [];

/// One frame without values, of kind 3, and no globals.
const WHOLE: [CollectorCall; 2] = [
    CollectorCall::Frame {
        kind: 3,
        function: 0,
        offset: 0,
        locals: 0,
    },
    CollectorCall::Frame {
        kind: 255,
        function: 0,
        offset: 0,
        locals: 0,
    },
];

/// The second call has too few values before it.
const TOO_FEW: [CollectorCall; 2] = [
    CollectorCall::ValueI32(7),
    CollectorCall::Frame {
        kind: 1,
        function: 0,
        offset: 0,
        locals: 2,
    },
];

/// No first entry has kind 0.
const NO_KIND: [CollectorCall; 1] = [CollectorCall::Frame {
    kind: 0,
    function: 0,
    offset: 0,
    locals: 0,
}];

/// How an invocation ends, the calls of the collector, and how it is to be shown.
type Row = (Ending, &'static [CollectorCall], Wanted);

const ROWS: [Row; 12] = [
    (Ending::Finished, &NONE, Wanted::AsRun),
    (Ending::Finished, &WHOLE, Wanted::Torn(0)),
    (Ending::Finished, &TOO_FEW, Wanted::Torn(1)),
    (Ending::Finished, &NO_KIND, Wanted::Torn(0)),
    (Ending::Trapped, &NONE, Wanted::NoDump),
    (Ending::Trapped, &WHOLE, Wanted::Dump(3)),
    (Ending::Trapped, &TOO_FEW, Wanted::Torn(1)),
    (Ending::Trapped, &NO_KIND, Wanted::Torn(0)),
    (Ending::FuelSpent, &WHOLE, Wanted::AsRun),
    (Ending::FuelSpent, &TOO_FEW, Wanted::AsRun),
    (Ending::NoReply, &NONE, Wanted::AsRun),
    (Ending::NoReply, &NO_KIND, Wanted::AsRun),
];

fn answer(ending: Ending) -> RunEnd {
    match ending {
        Ending::Finished => RunEnd::Finished { value: None },
        Ending::Trapped => RunEnd::Trapped {
            kind: TrapKind::Unreachable,
        },
        Ending::FuelSpent => RunEnd::FuelSpent,
        Ending::NoReply => RunEnd::NoReply,
    }
}

fn is_wanted(shown: &Shown<'_>, wanted: Wanted) -> bool {
    match (shown, wanted) {
        (Shown::AsRun, Wanted::AsRun) => true,
        (Shown::Collected(collected), Wanted::Dump(kind)) => collected.kind == kind,
        (Shown::NoDump { kind }, Wanted::NoDump) => *kind == TrapKind::Unreachable,
        (Shown::Torn { at }, Wanted::Torn(index)) => *at == index,
        _ => false,
    }
}

fn shows(alloc: Global, ending: Ending, calls: &[CollectorCall], wanted: Wanted) -> bool {
    let answer = answer(ending);
    match handed_over(alloc, calls, None, "module") {
        Ok(handed) => is_wanted(&shown_by(&answer, handed), wanted),
        Err(_) => false,
    }
}

/// The number of the first row that does not hold, if there is one.
fn first_wrong(alloc: Global, rows: &[Row]) -> Option<usize> {
    for (number, row) in rows.iter().enumerate() {
        if !shows(alloc, row.0, row.1, row.2) {
            return Some(number);
        }
    }
    None
}

#[test]
fn ending_and_calls_decide(rt: HostRuntime) {
    assert_eq!(rt; first_wrong(rt.alloc(), &ROWS), None);
}
