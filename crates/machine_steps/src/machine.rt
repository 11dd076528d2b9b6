//! What a machine keeps, what a module is prepared to, and what a step comes to.

ghost use Rattle.std.specs.Prelude.{◌≡◌, IfOk};
ghost use Rattle.machine_steps.specs.calls.Meets.{outcome_of};

use crate::{CallStack, Stepped};
use causes::NoMemory;
use machine_basics::{Shared, TrapKind};
use pm_text::Items;
use std::alloc::Global;

/// What a run keeps.
#[derive(Drop)]
pub struct Machine {
    pub stack: CallStack,
    pub shared: Shared,
    /// The functions in the table, if it is there.
    pub table: Items<Option<u32>>,
}

impl Machine {
    /// A machine of its own that keeps the same.
    pub fn copy_of(&self, alloc: Global) -> Result<Machine, NoMemory>
        ensures { IfOk result (λ copy. copy ≡ self.now) }
    {
        let stack = self.stack.copy_of(alloc)?;
        let shared = self.shared.copy_of(alloc)?;
        let table = Items::from_slice(alloc, self.table.as_slice())?;
        Ok(Machine {
            stack,
            shared,
            table,
        })
    }
}

/// A call of an import, whose arguments are on top, or under the index of a table's entry.
#[derive(Clone, Copy)]
pub struct ImportCall {
    pub function: usize,
    pub indirect: bool,
    /// The index of the instruction behind the call.
    pub next: usize,
}

/// What a step came to.
#[derive(Clone, Copy)]
pub enum Outcome {
    Next,
    /// The last frame was left. Its result, if it has one, is on top of the values.
    Ended,
    /// Nothing is changed.
    Trap(TrapKind),
    /// An import is called. Nothing is changed.
    Import(ImportCall),
    NoMemory,
    /// No rule of Core applies. In a valid module this never comes.
    Stuck,
}

/// The outcome of a step of the frames.
pub(crate) fn of_frames(stepped: Stepped) -> Outcome
    ensures { result ≡ outcome_of stepped }
{
    match stepped {
        Stepped::Next => Outcome::Next,
        Stepped::Ended => Outcome::Ended,
        Stepped::Trap(kind) => Outcome::Trap(kind),
        Stepped::NoMemory => Outcome::NoMemory,
        Stepped::Stuck => Outcome::Stuck,
    }
}
