//! Whether an operand passes: it is taken before anything can be handed over, at once or behind one
//! instruction that takes none.

ghost use Rattle.std.specs.Prelude.{◌≡◌, ℕ, if◌then◌else◌, ◌∷◌, List, drop};
ghost use Rattle.wasm_syntax.specs.Tree.{Nodes as NodesOf, Placed, placed, basic, jump, write};
ghost use Rattle.wasm_syntax.specs.Tree.{item_of, jump_of, code_of};
ghost use Rattle.rewrite_bodies.specs.calls.Slots.{Ctx as CtxOf};
ghost use Rattle.wasm_syntax.specs.Effect.{takes};
ghost use Rattle.rewrite_bodies.specs.calls.Facts.{needs};
ghost use Rattle.rewrite_bodies.specs.calls.Rewrite.{passes};
ghost use Rattle.operand_spill.specs.calls.Standing.{Due, flat, Passes};
ghost use Rattle.unwind_rewrite.specs.calls.Points.{AtOnce};

use guard_insert::needs;
use operand_spill::takes;
use rewrite_code::FunctionContext;
use wasm_syntax::{Basic, Instr, Jump, Op};

/// How many operands a basic instruction takes, where it has no guard.
fn basic_at_once(context: &FunctionContext<'_, '_>, at: u32, instruction: Basic) -> usize
    ensures { result ≡ (if needs context.now at instruction then 0 else takes instruction) }
{
    if needs(context, at, &instruction) {
        0
    } else {
        takes(instruction)
    }
}

/// How many operands an instruction takes, where it is a basic one without a guard.
fn taken_at_once(context: &FunctionContext<'_, '_>, op: Op) -> usize
    ensures { (targets : List ℕ) (code : List Placed)
        → AtOnce context.now (placed op.at (item_of targets op.code) ∷ code) result }
{
    match op.code {
        Instr::Basic(basic) => basic_at_once(context, op.at, basic),
        Instr::Jump(_) => 0,
        Instr::Block(_) => 0,
        Instr::Loop(_) => 0,
        Instr::If(_) => 0,
        Instr::Else => 0,
        Instr::End => 0,
    }
}

/// The same of the instruction with this index, where there is one.
fn at_once(context: &FunctionContext<'_, '_>, ops: &[Op], index: usize) -> usize
    ensures { (targets : List ℕ)
        → AtOnce context.now (drop index (code_of targets ops.now)) result }
{
    if index < ops.len() {
        taken_at_once(context, ops[index])
    } else {
        0
    }
}

/// To a basic instruction in front of the one with an index: it has no guard, and takes an operand;
/// or takes none, and the one behind it takes another one than that which it pushed.
fn passes_to_basic(
    context: &FunctionContext<'_, '_>,
    offset: u32,
    instruction: Basic,
    ops: &[Op],
    behind: usize,
) -> bool
    ensures { (targets : List ℕ) (rest : NodesOf) (dues : List Due)
        → drop behind (code_of targets ops.now) ≡ write rest (flat dues)
        → result ≡ passes context.now (basic offset instruction rest) }
{
    if needs(context, offset, &instruction) {
        false
    } else if takes(instruction) == 0 {
        at_once(context, ops, behind) > 1
    } else {
        true
    }
}

/// To a control instruction that holds no others.
fn passes_to_jump(code: Jump) -> bool
    ensures { (C : CtxOf) (targets : List ℕ) (o : ℕ) (rest : NodesOf)
        → result ≡ passes C (jump o (jump_of targets code) rest) }
{
    match code {
        Jump::Unreachable => false,
        Jump::Br(_) => true,
        Jump::BrIf(_) => true,
        Jump::BrTable(_, _, _) => true,
        Jump::Return => true,
        Jump::Call(_) => false,
        Jump::CallIndirect(_) => false,
    }
}

/// To an instruction in front of the one with an index; an `else` or `end` hands it to the code
/// behind the block.
fn passes_to(context: &FunctionContext<'_, '_>, op: Op, ops: &[Op], behind: usize) -> bool
    ensures { (targets : List ℕ) → Passes context.now
        (placed op.at (item_of targets op.code) ∷ drop behind (code_of targets ops.now)) result }
{
    match op.code {
        Instr::Basic(basic) => passes_to_basic(context, op.at, basic, ops, behind),
        Instr::Jump(jump) => passes_to_jump(jump),
        Instr::Block(_) => false,
        Instr::Loop(_) => false,
        Instr::If(_) => true,
        Instr::Else => true,
        Instr::End => true,
    }
}

/// To the instruction with this index, where there is one.
pub(crate) fn passes(context: &FunctionContext<'_, '_>, ops: &[Op], index: usize) -> bool
    ensures { (targets : List ℕ)
        → Passes context.now (drop index (code_of targets ops.now)) result }
{
    if index < ops.len() {
        passes_to(context, ops[index], ops, index + 1)
    } else {
        true
    }
}
