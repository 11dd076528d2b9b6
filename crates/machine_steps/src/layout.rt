//! What a run keeps, and what a step comes to.

ghost use Rattle.std.specs.Prelude.{◌≡◌, IfOk};

use causes::NoMemory;
use machine_basics::TrapKind;
use pm_text::Stack;
use std::alloc::Global;
use wasm_syntax::Value;

/// An open block.
#[derive(Clone, Copy)]
pub struct Control {
    /// The index of the instruction to which a branch goes.
    pub goes_to: usize,
    /// The number of values below its operands.
    pub height: usize,
    /// Whether a branch takes a value along.
    pub carries: bool,
}

/// A frame: a function under way.
#[derive(Clone, Copy)]
pub struct CallFrame {
    /// Its index among the functions that the module defines.
    pub function: usize,
    /// The number of values below its locals.
    pub base: usize,
    /// The number of values below its operands.
    pub floor: usize,
    /// The number of open blocks below its own.
    pub controls: usize,
    /// The index of the instruction at which its caller goes on.
    pub returns_to: usize,
}

/// The frames of a run: for each its locals and above them its operands, over all of its open
/// blocks; and the index of the instruction that the innermost one runs next.
#[derive(Drop)]
pub struct CallStack {
    pub values: Stack<Value>,
    pub controls: Stack<Control>,
    pub frames: Stack<CallFrame>,
    pub position: usize,
}

impl CallStack {
    /// Frames of their own, which are the same.
    pub fn copy_of(&self, alloc: Global) -> Result<CallStack, NoMemory>
        ensures { IfOk result (λ copy. copy ≡ self.now) }
    {
        let values = self.values.copy_of(alloc)?;
        let controls = self.controls.copy_of(alloc)?;
        let frames = self.frames.copy_of(alloc)?;
        Ok(CallStack {
            values,
            controls,
            frames,
            position: self.position,
        })
    }
}

/// What a step came to.
#[derive(Clone, Copy)]
pub enum Stepped {
    Next,
    /// The last frame was left. Its result, if it has one, is on top of the values.
    Ended,
    /// Nothing is changed.
    Trap(TrapKind),
    NoMemory,
    /// No rule of Core applies. In a valid module this never comes.
    Stuck,
}

/// What a step came to that may go on in its frame.
#[derive(Clone, Copy)]
pub(crate) enum Reach {
    /// The next instruction is run in the same frame.
    Inside,
    /// What a step came to that may have gone elsewhere.
    Beyond(Stepped),
}
