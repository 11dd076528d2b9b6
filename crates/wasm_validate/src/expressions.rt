//! Constant expressions (Core 3.3.7.2).

ghost use Rattle.std.specs.Prelude.{◌≡◌, true, false};
ghost use Rattle.wasm_syntax.specs.Valid.{ConstBody, ConstTypes};
ghost use Rattle.wasm_validate.specs.calls.Deciding.{Decides};
ghost use Rattle.wasm_validate.specs.inner.Places.{one_instr};

use wasm_syntax::{Basic, Body, Global, Instr, Op, ValType};

/// The only instruction before the `end`.
fn only_instr(ops: &[Op]) -> Option<Instr>
    ensures { result ≡ one_instr ops.now }
{
    if ops.len() != 2 {
        return None;
    }
    match ops[1].code {
        Instr::End => Some(ops[0].code),
        _ => None,
    }
}

/// Whether an instruction is constant, and of this type.
fn is_const_instr(globals: &[Global], code: Instr, t: ValType) -> bool
    ensures { Decides result (ConstTypes globals.now code t) }
{
    match code {
        Instr::Basic(Basic::Const(v)) => v.type_of() == t,
        Instr::Basic(Basic::GlobalGet(x)) => match globals.get(x as usize) {
            Some(g) => !g.mutable && g.vtype == t,
            None => false,
        },
        _ => false,
    }
}

/// Whether an expression is constant, and of this type. It may read these globals.
pub fn is_const_body(globals: &[Global], body: &Body, t: ValType) -> bool
    ensures { Decides result (ConstBody globals.now body.now t) }
{
    match only_instr(body.ops.as_slice()) {
        Some(code) => is_const_instr(globals, code, t),
        None => false,
    }
}
