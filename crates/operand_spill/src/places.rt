//! Where the operands are before an instruction.

ghost use Rattle.std.specs.Prelude.{◌≡◌, ℕ, suc, ◌+◌, ◌<◌, ◌≤◌, List, length, slice_get, IfOk, OnOk, MatchOption, Some};
ghost use Rattle.wasm_syntax.specs.declared.instruction.Basic.TheVariants.{Const};
ghost use Rattle.wasm_syntax.specs.Tree.{Tree, Placed, Writes, Opens, OpensLoop, OpensIf, Call, CallIndirect, code_of};
ghost use Rattle.wasm_syntax.specs.Tree.{item_of, jump_of};
ghost use Rattle.wasm_syntax.specs.Machine.{result_of};
ghost use Rattle.rewrite_bodies.specs.calls.Slots.{Ctx, Place, less, grown, after_plain};
ghost use Rattle.operand_spill.specs.calls.Walking.{with_places};
ghost use Rattle.operand_spill.specs.calls.Before.{before};
ghost use Rattle.operand_spill.specs.inner.Knowing.{Places, Knows, Ended, Over, Proceeds, Flowed, Jumped, AreDead};
ghost use Rattle.operand_spill.specs.inner.Knowing.{Starts, is_else};

use crate::{Flow, Label, Walk, copy_of, end_of_list, result_place, takes};
use causes::NoMemory;
use rewrite_code::OperandPlaces;
use std::alloc::Global;
use wasm_syntax::{Basic, FuncType, Instr, Jump, ModuleParts, Op, ValType, read_op};

/// A basic instruction.
fn basic(
    walk: &mut Walk,
    locals: &[ValType],
    source: &ModuleParts,
    instruction: Basic,
) -> Result<(), NoMemory>
    ensures { (C : Ctx) → C.locals ≡ locals.now → C.source ≡ source.now
        → OnOk result (walk.new ≡ with_places walk.old
        (after_plain C walk.old.places instruction)) }
{
    let taken = takes(instruction);
    let gives = result_place(locals, source, walk.places(), instruction);
    walk.perform_basic(instruction, taken, gives)
}

/// A call of a function of this type.
fn call(walk: &mut Walk, ftype: &FuncType) -> Result<(), NoMemory>
    ensures { OnOk result (walk.new
        ≡ with_places walk.old (grown (result_of ftype.now)
        (less (length ftype.now.params) walk.old.places))) }
{
    walk.perform(ftype.params.len(), ftype.result_type())
}

/// A call of a function.
fn call_direct(walk: &mut Walk, source: &ModuleParts, function: u32) -> Result<Flow, NoMemory>
    ensures { (C : Ctx) → C.source ≡ source.now
        → IfOk result (λ flow. Jumped flow C (Call function) walk.old walk.new) }
{
    match source.type_of(function as usize) {
        Some(ftype) => {
            call(walk, ftype)?;
            Ok(Flow::Next)
        }
        None => Ok(Flow::Ends),
    }
}

/// A call through the table of a function of the type with this index.
fn call_indirect(walk: &mut Walk, source: &ModuleParts, index: u32) -> Result<Flow, NoMemory>
    ensures { (C : Ctx) → C.source ≡ source.now
        → IfOk result (λ flow. Jumped flow C (CallIndirect index) walk.old walk.new) }
{
    walk.perform(1, None)?;
    match source.types.get(index as usize) {
        Some(ftype) => {
            call(walk, ftype)?;
            Ok(Flow::Next)
        }
        None => Ok(Flow::Ends),
    }
}

fn jump(walk: &mut Walk, source: &ModuleParts, code: Jump) -> Result<Flow, NoMemory>
    ensures { (C : Ctx) (targets : List ℕ) → C.source ≡ source.now
        → IfOk result (λ flow. Jumped flow C (jump_of targets code) walk.old walk.new) }
{
    match code {
        Jump::Unreachable | Jump::Br(_) | Jump::BrTable(_, _, _) | Jump::Return => Ok(Flow::Ends),
        Jump::BrIf(_) => {
            walk.perform(1, None)?;
            Ok(Flow::Next)
        }
        Jump::Call(function) => call_direct(walk, source, function),
        Jump::CallIndirect(index) => call_indirect(walk, source, index),
    }
}

fn is_else(code: Instr) -> bool
    ensures { (targets : List ℕ) → result ≡ is_else (item_of targets code) }
{
    matches!(code, Instr::Else)
}

/// The `else` or the `end` behind a list.
fn cross(walk: &mut Walk, code: Instr) -> Result<(), NoMemory>
    ensures { (C : Ctx) (targets : List ℕ) (items : List Placed) (whole : Places) (pc at : ℕ)
        → Over C items whole pc walk.old → Starts items pc at (item_of targets code)
        → OnOk result (Proceeds C items whole (suc pc) walk.new) }
{
    if is_else(code) {
        walk.alternate()
    } else {
        walk.close()
    }
}

/// The beginning of a block.
fn open_block(walk: &mut Walk, gives: Option<ValType>) -> Result<(), NoMemory>
    ensures { (C : Ctx) (items : List Placed) (whole : Places) (pc at : ℕ)
        → Knows C items whole pc walk.old → Starts items pc at (Opens gives)
        → OnOk result (Proceeds C items whole (suc pc) walk.new) }
{
    walk.open(Label::Block(gives))
}

/// The beginning of a loop.
fn open_loop(walk: &mut Walk, gives: Option<ValType>) -> Result<(), NoMemory>
    ensures { (C : Ctx) (items : List Placed) (whole : Places) (pc at : ℕ)
        → Knows C items whole pc walk.old → Starts items pc at (OpensLoop gives)
        → OnOk result (Proceeds C items whole (suc pc) walk.new) }
{
    walk.open(Label::Loop(gives))
}

/// The beginning of an `if`, which takes its condition.
fn open_if(walk: &mut Walk, gives: Option<ValType>) -> Result<(), NoMemory>
    ensures { (C : Ctx) (items : List Placed) (whole : Places) (pc at : ℕ)
        → Knows C items whole pc walk.old → Starts items pc at (OpensIf gives)
        → OnOk result (Proceeds C items whole (suc pc) walk.new) }
{
    walk.perform(1, None)?;
    walk.open(Label::Block(gives))
}

/// A live instruction.
fn pass(
    walk: &mut Walk,
    locals: &[ValType],
    source: &ModuleParts,
    code: Instr,
) -> Result<Flow, NoMemory>
    ensures { (C : Ctx) (targets : List ℕ) (items : List Placed) (whole : Places) (pc at : ℕ)
        → C.locals ≡ locals.now → C.source ≡ source.now → Knows C items whole pc walk.old
        → Starts items pc at (item_of targets code)
        → IfOk result (λ flow. Flowed flow C items whole (suc pc) walk.new) }
{
    match code {
        Instr::Jump(code) => jump(walk, source, code),
        Instr::Basic(code) => {
            basic(walk, locals, source, code)?;
            Ok(Flow::Next)
        }
        Instr::Block(t) => {
            open_block(walk, t)?;
            Ok(Flow::Next)
        }
        Instr::Loop(t) => {
            open_loop(walk, t)?;
            Ok(Flow::Next)
        }
        Instr::If(t) => {
            open_if(walk, t)?;
            Ok(Flow::Next)
        }
        Instr::Else => {
            walk.alternate()?;
            Ok(Flow::Next)
        }
        Instr::End => {
            walk.close()?;
            Ok(Flow::Next)
        }
    }
}

fn op_at(ops: &[Op], index: usize) -> Option<Op>
    ensures { result ≡ slice_get ops.now index }
{
    ops.get(index).copied()
}

/// From dead code to the instruction behind the end of its list.
fn leave(walk: &mut Walk, ops: &[Op], from: usize) -> Result<usize, NoMemory>
    requires { from ≤ length ops.now }
    ensures forward { IfOk result (λ next. from < next) }
    ensures stays { (C : Ctx) (targets : List ℕ) (whole : Places)
        → Ended C (code_of targets ops.now) whole from walk.old
        → IfOk result (λ next. AreDead whole from next
        × Proceeds C (code_of targets ops.now) whole next walk.new) }
{
    let end = end_of_list(ops, from);
    let next = end + 1;
    match op_at(ops, end) {
        Some(op) => {
            cross(walk, op.code)?;
            Ok(next)
        }
        None => Ok(next),
    }
}

/// From a live instruction to the next one that is live.
pub(crate) fn advance(
    walk: &mut Walk,
    locals: &[ValType],
    source: &ModuleParts,
    ops: &[Op],
    pc: usize,
) -> Result<usize, NoMemory>
    requires { pc < length ops.now }
    ensures forward { IfOk result (λ next. pc < next) }
    ensures stays { (C : Ctx) (targets : List ℕ) (whole : Places) → C.locals ≡ locals.now
        → C.source ≡ source.now → Proceeds C (code_of targets ops.now) whole pc walk.old
        → IfOk result (λ next. AreDead whole (pc + 1) next
        × Proceeds C (code_of targets ops.now) whole next walk.new) }
{
    let op = read_op(ops, pc);
    let flow = pass(walk, locals, source, op.code)?;
    match flow {
        Flow::Next => Ok(pc + 1),
        Flow::Ends => leave(walk, ops, pc + 1),
    }
}

/// Where the operands are before the instruction of this index of a body, or None in dead code.
pub(crate) fn places_before(
    alloc: Global,
    locals: &[ValType],
    source: &ModuleParts,
    ops: &[Op],
    op: usize,
) -> Result<Option<OperandPlaces>, NoMemory>
    ensures { (C : Ctx) (targets : List ℕ) (tree : Tree) → C.locals ≡ locals.now
        → C.source ≡ source.now → Writes targets ops.now tree
        → IfOk result (λ places. places ≡ before C tree.nodes op) }
{
    let count = ops.len();
    let bound = op.min(count);
    let mut walk = Walk::new(alloc, None);
    let mut pc = 0;
    while pc < bound {
        pc = advance(&mut walk, locals, source, ops, pc)?;
    }
    if count <= op {
        return Ok(None);
    }
    if op < pc {
        return Ok(None);
    }
    let here = copy_of(alloc, walk.places())?;
    Ok(Some(here))
}
