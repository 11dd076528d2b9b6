//! The end of a list of instructions, from its dead code on.

ghost use Rattle.std.specs.Prelude.{◌≡◌, ℕ, ◌<◌, ◌≤◌, ◌^◌, suc, List, length, drop, IfSome};
ghost use Rattle.wasm_syntax.specs.Tree.{Nodes, code_of, item_of, write};
ghost use Rattle.operand_spill.specs.calls.Standing.{Due, flat, passed};

use wasm_syntax::{Instr, Op};

/// In dead code with so many open blocks, how many are open behind an instruction; None where the
/// list ends in front of it.
fn passed(depth: usize, code: Instr) -> Option<usize>
    requires { depth < 2 ^ 63 }
    ensures value { (targets : List ℕ) → result ≡ passed depth (item_of targets code) }
    ensures bound { IfSome result (λ d. d ≤ suc depth) }
{
    match code {
        Instr::Basic(_) | Instr::Jump(_) => Some(depth),
        Instr::Block(_) | Instr::Loop(_) | Instr::If(_) => Some(depth + 1),
        Instr::Else => { if depth == 0 { None } else { Some(depth) } }
        Instr::End => depth.checked_sub(1),
    }
}

/// The index of the `else` or the `end` behind a list of which no instruction from this index on is
/// live.
pub fn end_of_list(ops: &[Op], from: usize) -> usize
    ensures forward { from ≤ result }
    ensures within { from ≤ length ops.now → result ≤ length ops.now }
    ensures end { (targets : List ℕ) (nodes : Nodes) (dues : List Due)
        → drop from (code_of targets ops.now) ≡ write nodes (flat dues)
        → drop result (code_of targets ops.now) ≡ flat dues }
{
    let mut depth = 0;
    let mut i = from;
    while i < ops.len() {
        match passed(depth, ops[i].code) {
            Some(inside) => depth = inside,
            None => return i,
        }
        i += 1;
    }
    i
}
