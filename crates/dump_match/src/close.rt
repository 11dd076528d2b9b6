//! Whether a frame stands at an `else` or `end`.

ghost use Rattle.std.specs.Prelude.{◌≡◌, false, not};
ghost use Rattle.wasm_validate.specs.calls.Instructions.{is_node};
ghost use Rattle.dump_match.specs.States.{AtClose, ClosesAt, SomeClosesAt};
ghost use Rattle.wasm_validate.specs.calls.Deciding.{Decides};

use dump_format::Frame;
use wasm_syntax::{Instr, Op};
use wasm_validate::Validated;

fn is_close(code: Instr) -> bool
    ensures { result ≡ not (is_node code) }
{
    match code {
        Instr::Else => true,
        Instr::End => true,
        _ => false,
    }
}

/// Whether an instruction is an `else` or `end` at an offset.
fn closes_at(ops: &[Op], n: usize, at: u32) -> bool
    ensures { Decides result (ClosesAt ops.now n at) }
{
    match ops.get(n).copied() {
        Some(op) => if op.at == at {
            is_close(op.code)
        } else {
            false
        },
        None => false,
    }
}

/// Whether an `else` or `end` stands at an offset.
fn some_closes_at(ops: &[Op], at: u32) -> bool
    ensures { Decides result (SomeClosesAt ops.now at) }
{
    for n in 0..ops.len() {
        if closes_at(ops, n, at) {
            return true;
        }
    }
    false
}

/// Whether a frame stands at an `else` or `end` of its function.
pub fn is_at_close(m: &Validated, frame: &Frame) -> bool
    ensures { Decides result (AtClose m.now frame.now) }
{
    match m.module().parts().body_of(frame.function) {
        Some(body) => some_closes_at(body.ops.as_slice(), frame.offset),
        None => false,
    }
}
