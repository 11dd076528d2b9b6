//! Open labels.

ghost use Rattle.std.specs.Prelude.{◌≡◌};
ghost use Rattle.rewrite_bodies.specs.calls.Typed.{end_gives};
ghost use Rattle.operand_spill.specs.calls.Labels.{info};

use rewrite_code::OperandPlaces;
use wasm_syntax::ValType;

/// What an open label stands for, with the type of the result.
#[derive(Clone, Copy, PartialEq, Eq)]
pub enum Label {
    /// A block, or an arm of an `if`.
    Block(Option<ValType>),
    Loop(Option<ValType>),
    Body(Option<ValType>),
}

/// An open block, with the places of the operands that lie below it.
#[derive(Drop)]
pub struct OpenBlock {
    pub label: Label,
    pub saved: OperandPlaces,
}

impl Label {
    /// What the end of the block, the loop or the body gives.
    pub fn end_gives(self) -> Option<ValType>
        ensures { result ≡ end_gives (info self) }
    {
        match self {
            Label::Block(t) => t,
            Label::Loop(t) => t,
            Label::Body(t) => t,
        }
    }
}
