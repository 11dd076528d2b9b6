//! Who watches a run: told where each step is made.

ghost use Rattle.std.specs.Prelude.{◌≡◌, ◌+◌, ◌<◌, ◌^◌, ◌++◌, ◌∷◌, [], List, Option, Some, slice_get};
ghost use Rattle.wasm_syntax.specs.declared.module.ModuleParts.{ModuleParts as Module};
ghost use Rattle.machine_steps.specs.declared.machine.Machine.{Machine as Kept};
ghost use Rattle.machine_steps.specs.Places.{Place};
ghost use Rattle.machine_steps.specs.calls.Watches.{place_at, places_from};
ghost use Rattle.machine_steps.specs.calls.Watched.{position_of};

use crate::layout::CallFrame;

/// Where a machine stands: the index of a function among those that the module defines, and of an
/// instruction in its flat body.
#[derive(Clone, Copy)]
pub struct Position {
    pub function: usize,
    pub index: usize,
}

/// Watches runs of one module.
pub trait Watch {
    // What it was told of runs of a module: where the steps were made, in their order.
    ghost Saw: { Module → Self → List (Option Place) → Type 0 };

    /// A step is about to be made from a position, or with no frame.
    fn see(&mut self, at: Option<Position>)
        ensures saw { (m : Module) (seen : List (Option Place)) → Saw m self.old seen
            → Saw m self.new (seen ++ place_at m at ∷ []) };

    /// So many steps were made at the instructions of a function from one on, in their order: both
    /// are indices as those of a position.
    // All at once, so that a step costs no call of its own.
    fn see_run(&mut self, function: usize, start: usize, count: usize)
        requires room { start + count < 2 ^ 64 }
        ensures saw { (m : Module) (seen : List (Option Place)) → Saw m self.old seen
            → Saw m self.new (seen ++ places_from m function start count) };
}

/// Nobody watches.
#[derive(Clone, Copy)]
pub struct Unwatched {}

impl Watch for Unwatched {
    ghost Saw = { λ _ _ _. Unit {0} };

    #[inline(always)]
    fn see(&mut self, at: Option<Position>) {}

    #[inline(always)]
    fn see_run(&mut self, function: usize, start: usize, count: usize) {}
}

/// Where the innermost frame stands, which is this one, where its next instruction is this one.
#[inline(always)]
pub(crate) fn standing(frame: CallFrame, index: usize) -> Option<Position>
    ensures { (m : Kept) → slice_get m.stack.frames 0 ≡ Some frame → m.stack.position ≡ index
        → result ≡ position_of m }
{
    Some(Position {
        function: frame.function,
        index,
    })
}
