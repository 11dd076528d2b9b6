//! The side table of a flat body.

ghost use Rattle.std.specs.Prelude.{◌≡◌, ℕ, suc, List, reverse, IfOk, OnOk};
ghost use Rattle.wasm_syntax.specs.Tree.{Tree, WritesOut, code_of, item_of};
ghost use Rattle.machine_code.specs.calls.Flat.{Stands};
ghost use Rattle.machine_code.specs.inner.Sides.{scan_one, top, below, with_arm};

use causes::NoMemory;
use pm_text::{Items, Stack};
use std::alloc::Global;
use wasm_syntax::{Instr, Op};

/// Where a `block`, `loop` or `if` goes on, as indices of instructions.
#[derive(Clone, Copy)]
pub struct Side {
    /// Of an `if`: the first instruction that is run where the condition is 0, which may be its
    /// `end`.
    pub arm: usize,
    /// The instruction behind its `end`.
    pub end: usize,
}

fn no_side() -> Side
    ensures { result ≡ record { arm = 0; end = 0 } }
{
    Side { arm: 0, end: 0 }
}

/// Takes the innermost open block off.
fn close(opens: &mut Stack<Side>) -> Side
    ensures side { result ≡ top opens.old }
    ensures left { opens.new ≡ below opens.old }
{
    match opens.pop() {
        Some(side) => side,
        None => no_side(),
    }
}

/// The second arm of the innermost open block begins here.
fn set_arm(opens: &mut Stack<Side>, arm: usize) -> Result<(), NoMemory>
    ensures { OnOk result (opens.new ≡ with_arm arm opens.old) }
{
    match opens.pop() {
        Some(side) => opens.push(Side { arm, end: side.end }),
        None => Ok(()),
    }
}

/// Reads the instruction at an index, in front of those that were read.
fn read_one(
    opens: &mut Stack<Side>,
    sides: &mut Vec<Side>,
    code: Instr,
    index: usize,
    next: usize,
) -> Result<(), NoMemory>
    requires { next ≡ suc index }
    ensures { (targets : List ℕ) → OnOk result (record {
      opens = opens.new;
      sides = reverse sides.new.items;
    } ≡ scan_one index (item_of targets code)
        (record { opens = opens.old; sides = reverse sides.old.items })) }
{
    let side = match code {
        Instr::Block(_) | Instr::Loop(_) | Instr::If(_) => close(opens),
        Instr::Else => {
            set_arm(opens, next)?;
            no_side()
        }
        Instr::End => {
            opens.push(Side {
                arm: index,
                end: next,
            })?;
            no_side()
        }
        Instr::Basic(_) | Instr::Jump(_) => no_side(),
    };
    sides.push(side)?;
    Ok(())
}

/// The table of a body, in one pass from its end to its start.
pub fn side_table(alloc: Global, ops: &[Op]) -> Result<Items<Side>, NoMemory>
    ensures { (targets : List ℕ) (tree : Tree) → WritesOut (code_of targets ops.now) tree
        → IfOk result (λ sides. Stands (code_of targets ops.now) sides tree) }
{
    let mut opens = Stack::new(alloc);
    let mut sides = Vec::new(alloc);
    let mut index = ops.len();
    while index > 0 {
        let next = index;
        index -= 1;
        read_one(&mut opens, &mut sides, ops[index].code, index, next)?;
    }
    sides.reverse();
    Ok(Items::from_vec(sides))
}
