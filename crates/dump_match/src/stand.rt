//! Where a frame stands.

ghost use Rattle.std.specs.Prelude.{◌≡◌};
ghost use Rattle.dump_match.specs.inner.Stands.{StandIs};

use crate::code::code_at;
use dump_format::Frame;
use wasm_syntax::Instr;
use wasm_validate::Validated;

/// A live instruction other than `else` and `end`: its number in its function, with the operand
/// height before it.
#[derive(Clone, Copy)]
pub struct Stand {
    pub op: u32,
    pub code: Instr,
    pub height: u32,
}

/// Where a frame stands, if a live instruction begins at its offset.
pub fn stand_of(m: &Validated, frame: &Frame) -> Option<Stand>
    ensures { StandIs result m.now frame.now }
{
    let parts = m.module().parts();
    let op = m.op_at(frame.function, frame.offset)?;
    let height = m.height(frame.function, op)?;
    let code = code_at(parts, frame.function, op)?;
    Some(Stand { op, code, height })
}
