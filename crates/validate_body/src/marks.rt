//! What is known before each instruction of a body.

ghost use Rattle.std.specs.Prelude.{◌≡◌};
ghost use Rattle.validate_body.specs.calls.Marks.{mark_of as mark_there};

use crate::TypeStack;
use pm_text::Items;
use wasm_syntax::ValType;

/// What is known before an instruction in live code: the number of operands of the function, over
/// all open blocks, and the type of the topmost one, where there is one.
#[derive(Clone, Copy)]
pub struct Mark {
    pub height: usize,
    pub top: Option<ValType>,
}

/// A mark for each instruction, or None where the code is dead.
pub type Marks = Items<Option<Mark>>;

/// What is known here.
pub fn mark_of(stack: &TypeStack) -> Option<Mark>
    ensures { result ≡ mark_there stack.now }
{
    match stack.height() {
        Some(height) => Some(Mark {
            height,
            top: stack.top(),
        }),
        None => None,
    }
}
