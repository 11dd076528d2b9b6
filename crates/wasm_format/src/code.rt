//! What bytes are read as.

ghost use Rattle.std.specs.Prelude.{◌≡◌};
ghost use Rattle.wasm_format.specs.Reading.{code_or_none};

use wasm_syntax::{Instr, Labels};

/// What an opcode and its immediates spell.
#[derive(Clone, Copy)]
pub enum Code {
    Known(Instr),
    /// An instruction that has a float type: the offset of the float opcode, or of the byte that is
    /// the type of a block, in bytes from the first byte of the input.
    Float { at: usize },
}

impl Code {
    /// The instruction, unless it has a float type.
    pub fn known(self) -> Option<Instr>
        ensures { result ≡ code_or_none self }
    {
        match self {
            Code::Known(code) => Some(code),
            Code::Float { .. } => None,
        }
    }
}

/// An instruction that stands alone.
#[derive(Drop)]
pub struct ReadInstr {
    /// None where the instruction has a float type. A `br_table` has its targets from the first one
    /// on.
    pub code: Option<Instr>,
    /// The targets of a `br_table`, without its default.
    pub targets: Labels,
    /// The offset behind the instruction, in bytes from the first byte of the input.
    pub next: usize,
}
