//! What invocations come to: the start function where it is due, and then the entry (Core 4.5.4,
//! 4.5.5).

ghost use Rattle.std.specs.Prelude.{◌≡◌, ◌==◌, not};
ghost use Rattle.machine_basics.specs.calls.Traps.{trap_code};
ghost use Rattle.machine_hosted.specs.calls.Invocations.{follows_behind, finishes};

use crate::answer::{EntryRun, RunEnd};
use machine_basics::TrapKind;

/// Whether a trap of this kind leaves room for a call.
fn leaves_room(kind: TrapKind) -> bool
    ensures { result ≡ not (trap_code kind == 8) }
{
    match kind {
        TrapKind::StackExhausted => false,
        TrapKind::Unreachable
        | TrapKind::DivideByZero
        | TrapKind::Overflow
        | TrapKind::OutOfBounds
        | TrapKind::UndefinedElement
        | TrapKind::UninitializedElement
        | TrapKind::TypeMismatch => true,
    }
}

/// Whether another invocation may follow one that came to this inside its entry, or inside the
/// start function.
fn may_follow(answer: &RunEnd, entered: bool) -> bool
    ensures { result ≡ follows_behind answer.now entered }
{
    match answer {
        RunEnd::Finished { .. } => true,
        RunEnd::Trapped { kind } => leaves_room(*kind) && entered,
        RunEnd::NoReply
        | RunEnd::BadReply { .. }
        | RunEnd::DeviceFault { .. }
        | RunEnd::FuelSpent
        | RunEnd::NoMemory => false,
    }
}

pub(crate) fn is_finished(answer: &RunEnd) -> bool
    ensures { result ≡ finishes answer.now }
{
    match answer {
        RunEnd::Finished { .. } => true,
        RunEnd::Trapped { .. }
        | RunEnd::NoReply
        | RunEnd::BadReply { .. }
        | RunEnd::DeviceFault { .. }
        | RunEnd::FuelSpent
        | RunEnd::NoMemory => false,
    }
}

pub(crate) fn ended(answer: RunEnd, steps: u64, entered: bool) -> EntryRun
    ensures { result ≡ record {
      answer = answer;
      steps = steps;
      ready = follows_behind answer entered;
      entered = entered;
    } }
{
    let ready = may_follow(&answer, entered);
    EntryRun {
        answer,
        steps,
        ready,
        entered,
    }
}
