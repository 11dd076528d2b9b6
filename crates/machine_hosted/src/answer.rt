//! What a run comes to: one type for frames, for a function and for an invocation.

ghost use Rattle.std.specs.Prelude.{◌≡◌};

use machine_basics::TrapKind;
use pm_text::Text;
use wasm_syntax::{Reply, Value};

/// What a run came to.
#[derive(Drop)]
pub enum RunEnd {
    /// The last frame was left, with this result, or none.
    Finished { value: Option<Value> },
    Trapped { kind: TrapKind },
    /// The replies for an import are used up.
    NoReply,
    /// A reply does not fit its call.
    BadReply { reply: Reply },
    /// The device of this name failed, and its count of faults rose.
    DeviceFault { name: Text },
    /// The steps are used up.
    FuelSpent,
    NoMemory,
}

/// What a run of one function came to, and the number of steps that it made. A step that traps, or
/// that has no fitting reply, counts.
#[derive(Drop)]
pub struct FunctionRun {
    pub answer: RunEnd,
    pub steps: u64,
}

pub(crate) fn ran(answer: RunEnd, steps: u64) -> FunctionRun
    ensures { result ≡ record { answer = answer; steps = steps } }
{
    FunctionRun { answer, steps }
}

/// What an invocation came to, and the number of steps that it made with the start function.
#[derive(Drop)]
pub struct EntryRun {
    pub answer: RunEnd,
    pub steps: u64,
    /// Whether another invocation may follow.
    pub ready: bool,
    /// Whether the entry was begun. Where it was not, the start function was under way.
    pub entered: bool,
}
