//! Instructions by their offsets.

ghost use Rattle.std.specs.Prelude.{◌≡◌};
ghost use Rattle.wasm_syntax.specs.Module.{IsModule};
ghost use Rattle.wasm_validate.specs.calls.Instructions.{is_node as is_node_there, OpIs};
ghost use Rattle.wasm_syntax.specs.Sizes.{WithinLimits};
ghost use Rattle.wasm_validate.specs.inner.Offsets.{SplitsAt, IsNodeAt};

use wasm_syntax::{Instr, ModuleParts, Op, read_op};

/// The first instruction at an offset or behind it.
fn first_from(ops: &[Op], at: u32) -> usize
    ensures { SplitsAt ops.now at result }
{
    let mut low = 0;
    let mut high = ops.len();
    while low < high {
        let middle = low + (high - low) / 2;
        if read_op(ops, middle).at < at {
            low = middle + 1;
        } else {
            high = middle;
        }
    }
    low
}

/// Whether an instruction is none of `else` and `end`.
fn is_node(code: Instr) -> bool
    ensures { result ≡ is_node_there code }
{
    match code {
        Instr::Basic(_) => true,
        Instr::Jump(_) => true,
        Instr::Block(_) => true,
        Instr::Loop(_) => true,
        Instr::If(_) => true,
        Instr::Else => false,
        Instr::End => false,
    }
}

/// The instruction at a number, where it stands at an offset and is none of `else` and `end`.
fn is_node_at(ops: &[Op], n: usize, at: u32) -> bool
    ensures { IsNodeAt result ops.now n at }
{
    match ops.get(n).copied() {
        Some(op) => if op.at == at { is_node(op.code) } else { false },
        None => false,
    }
}

/// The number of the instruction of a function at an offset, where it is none of `else` and `end`.
pub fn op_at(m: &ModuleParts, func: u32, at: u32) -> Option<u32>
    requires whole { IsModule m.now }
    requires limits { WithinLimits m.now }
    ensures { OpIs result m.now func at }
{
    match m.body_of(func) {
        Some(body) => {
            let ops = body.ops.as_slice();
            let n = first_from(ops, at);
            if is_node_at(ops, n, at) {
                Some(n as u32)
            } else {
                None
            }
        }
        None => None,
    }
}
