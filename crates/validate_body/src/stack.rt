//! The stack of types with its control frames.

ghost use Rattle.std.specs.Prelude.{◌≡◌, ◌-◌, ◌≤◌, List, [], ◌∷◌, length, drop, slice_get, OnOk, OnErr, MatchOption};
ghost use Rattle.std.specs.Prelude.{Some, None, Option, option_to_list};
ghost use Rattle.validate_body.specs.calls.Frames.{Frame, opening, pop as pop_frames, push as push_frames, emptied};
ghost use Rattle.validate_body.specs.calls.Frames.{forget as forget_frames, label as label_at, result_of, any_free};
ghost use Rattle.validate_body.specs.calls.Frames.{height_of, no_frame, gives_any, operands, topmost};
ghost use Rattle.validate_body.specs.inner.Stacked.{Did, Made, Took, Left};
ghost use Rattle.validate_body.specs.declared.stack.StackFault.TheVariants as faults;

use causes::NoMemory;
use pm_text::Stack;
use std::alloc::Global;
use std::marker::Model;
use wasm_syntax::{BlockKind, ValType};

/// Why an instruction is refused: it has no type here, or memory ran out.
#[derive(Clone, Copy)]
pub enum StackFault {
    Wrong,
    NoMemory,
}

impl From<NoMemory> for StackFault {
    ghost from_gives = { λ _ e. e ≡ faults.NoMemory };

    fn from(_error: NoMemory) -> Self {
        StackFault::NoMemory
    }
}

/// A control frame: an open block.
#[derive(Clone, Copy)]
pub struct Control {
    pub kind: BlockKind,
    /// What its end gives.
    pub result: Option<ValType>,
    /// How many types lie below it.
    pub height: usize,
    /// Whether any types may lie below the known ones: its code is dead here.
    pub free: bool,
    /// Whether an outer one is free.
    pub within: bool,
}

/// Operand types under control frames, which contracts see as frames that each hold their own
/// operands, the innermost first.
#[derive(Drop)]
pub struct TypeStack {
    types: Stack<Option<ValType>>,
    controls: Stack<Control>,
}

impl Model for TypeStack {
    ghost use Rattle.std.specs.Prelude.{List, length};
    ghost use Rattle.validate_body.specs.calls.Frames.{Frame};
    ghost use Rattle.validate_body.specs.inner.Stacked.{frames_of, Heights};

    ghost Value = { List Frame };

    ghost view = { λ s. frames_of s.types s.controls };

    ghost invariant = { λ s. Heights (length s.types) s.controls };
}

impl TypeStack {
    /// An empty stack without a frame, which takes no memory.
    pub fn new(alloc: Global) -> Self
        ensures { result ≡ [] }
    {
        TypeStack {
            types: Stack::new(alloc),
            controls: Stack::new(alloc),
        }
    }

    /// Opens a frame.
    pub fn open(&mut self, kind: BlockKind, result_type: Option<ValType>) -> Result<(), StackFault>
        ensures { Did result (Some (opening kind result_type ∷ self.old)) self.new }
    {
        let within = self.is_dead();
        let control = Control {
            kind,
            result: result_type,
            height: self.types.len(),
            free: false,
            within,
        };
        self.controls.push(control)?;
        Ok(())
    }

    /// Takes a type from the innermost frame.
    pub fn pop(&mut self, t: ValType) -> Result<(), StackFault>
        ensures { Made result (pop_frames self.old t) self.new }
    {
        match self.pop_any()? {
            Some(u) => {
                if u.is_same(t) {
                    return Ok(());
                }
                Err(StackFault::Wrong)
            }
            None => Ok(()),
        }
    }

    /// Takes a type, which may be unknown.
    pub fn pop_any(&mut self) -> Result<Option<ValType>, StackFault>
        ensures { Took result self.old self.new }
    {
        let control = match self.controls.peek(0) {
            Some(c) => c,
            None => return Err(StackFault::Wrong),
        };
        if self.types.len() == control.height {
            if control.free {
                return Ok(None);
            }
            return Err(StackFault::Wrong);
        }
        let u = match self.types.pop() {
            Some(u) => u,
            None => return Err(StackFault::Wrong),
        };
        Ok(u)
    }

    /// Puts a type, which may be unknown, onto the innermost frame.
    pub fn push(&mut self, t: Option<ValType>) -> Result<(), StackFault>
        ensures { Did result (Some (push_frames self.old t)) self.new }
    {
        if self.controls.len() == 0 {
            return Ok(());
        }
        self.types.push(t)?;
        Ok(())
    }

    /// Forgets the types of the innermost frame.
    pub fn forget(&mut self) -> Result<(), StackFault>
        ensures { Did result (Some (forget_frames self.old)) self.new }
    {
        let control = match self.controls.pop() {
            Some(c) => c,
            None => return Ok(()),
        };
        self.types.keep(control.height);
        self.controls.push(Control {
            kind: control.kind,
            result: control.result,
            height: control.height,
            free: true,
            within: control.within,
        })?;
        Ok(())
    }

    /// What a branch to a label takes.
    pub fn label(&self, n: usize) -> Option<Option<ValType>>
        ensures { result ≡ label_at self.now n }
    {
        match self.controls.peek(n) {
            Some(control) => match control.kind {
                BlockKind::Loop => Some(None),
                BlockKind::Plain => Some(control.result),
                BlockKind::Then => Some(control.result),
            },
            None => None,
        }
    }

    /// Whether the code here is dead.
    pub fn is_dead(&self) -> bool
        ensures { result ≡ any_free self.now }
    {
        match self.controls.peek(0) {
            Some(control) => {
                if control.free {
                    return true;
                }
                control.within
            }
            None => false,
        }
    }

    /// The number of operands in live code.
    pub fn height(&self) -> Option<usize>
        ensures { result ≡ height_of self.now }
    {
        if self.is_dead() {
            return None;
        }
        Some(self.types.len())
    }

    /// The type on top of all operands, where it is known.
    pub fn top(&self) -> Option<ValType>
        ensures { result ≡ topmost (operands self.now) }
    {
        match self.types.peek(0) {
            Some(t) => t,
            None => None,
        }
    }

    /// Whether the innermost frame has no operands of its own, and gives any types.
    pub fn gives_any(&self) -> bool
        ensures { result ≡ gives_any self.now }
    {
        match self.controls.peek(0) {
            Some(control) => {
                if control.free {
                    self.types.len() == control.height
                } else {
                    false
                }
            }
            None => false,
        }
    }

    /// Whether nothing is open.
    pub fn is_empty(&self) -> bool
        ensures { result ≡ no_frame self.now }
    {
        if self.controls.len() == 0 {
            return true;
        }
        false
    }

    /// What the innermost frame gives.
    pub fn ends(&self) -> Option<ValType>
        ensures { option_to_list result ≡ result_of self.now }
    {
        match self.controls.peek(0) {
            Some(control) => control.result,
            None => None,
        }
    }

    /// Leaves the innermost frame, where no types are left in it.
    pub fn leave(&mut self) -> Result<Control, StackFault>
        ensures { Left result self.old self.new }
    {
        let control = match self.controls.peek(0) {
            Some(c) => c,
            None => return Err(StackFault::Wrong),
        };
        if self.types.len() != control.height {
            return Err(StackFault::Wrong);
        }
        let _ = self.controls.pop();
        Ok(control)
    }
}
