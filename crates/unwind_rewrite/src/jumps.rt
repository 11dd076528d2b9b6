//! Control instructions that hold no others.

ghost use Rattle.std.specs.Prelude.{◌≡◌, ℕ, ◌+◌, ◌^◌, ◌<◌, ◌≤◌, Bool, true, length, take, drop, IfOk};
ghost use Rattle.wasm_syntax.specs.Tree.{Goes, Br as BrOf, BrIf as BrIfOf, BrTable as BrTableOf, Return as ReturnOf};
ghost use Rattle.wasm_syntax.specs.Tree.{Unreachable as UnreachableOf, Call as CallOf, CallIndirect as CallIndirectOf};
ghost use Rattle.wasm_syntax.specs.Tree.{jump_of};
ghost use Rattle.rewrite_bodies.specs.calls.Landings.{most_landings};
ghost use Rattle.rewrite_bodies.specs.Numbering.{is_in};
ghost use Rattle.rewrite_bodies.specs.calls.Slots.{Ctx as CtxOf};
ghost use Rattle.rewrite_modules.specs.Weight.{types_used};
ghost use Rattle.operand_spill.specs.calls.Walking.{Walking as WalkingOf};
ghost use Rattle.unwind_rewrite.specs.calls.Numbers.{HasHelpers, JumpHelped};
ghost use Rattle.unwind_rewrite.specs.calls.Points.{Advances};

use crate::site::Spot;
use crate::{Site, TypeNumbers, branch_table, call_function, call_through_table, trap};
use causes::NoMemory;
use operand_spill::{Flow, Walk};
use rewrite_code::{CodeWriter, FunctionContext};
use wasm_syntax::{Jump, ModuleParts};

/// So many targets of a `br_table`, from a place on.
fn targets_at(targets: &[u32], start: u32, count: u32) -> &[u32]
    ensures { result.now ≡ take count (drop start targets.now) }
{
    let from = targets.len().min(start as usize);
    let behind = &targets[from..];
    &behind[..behind.len().min(count as usize)]
}

/// `br`.
fn write_branch(writer: &mut CodeWriter, label: u32) -> Result<Flow, NoMemory>
    ensures { (C : CtxOf) (passing : Bool) (o : ℕ) (w : WalkingOf) → IfOk result
        (Advances C passing o (Goes (BrOf label)) w writer.old w writer.new) }
{
    writer.branch(label)?;
    Ok(Flow::Ends)
}

/// `br_if`, behind which the code goes on.
fn write_branch_if(writer: &mut CodeWriter, walk: &mut Walk, label: u32) -> Result<Flow, NoMemory>
    ensures { (C : CtxOf) (passing : Bool) (o : ℕ) → IfOk result
        (Advances C passing o (Goes (BrIfOf label)) walk.old writer.old walk.new writer.new) }
{
    writer.branch_if(label)?;
    walk.perform(1, None)?;
    Ok(Flow::Next)
}

/// `br_table`.
fn write_branch_table(
    writer: &mut CodeWriter,
    targets: &[u32],
    default_label: u32,
) -> Result<Flow, NoMemory>
    ensures { (C : CtxOf) (passing : Bool) (o : ℕ) (w : WalkingOf) → IfOk result
        (Advances C passing o (Goes (BrTableOf targets.now default_label)) w writer.old w writer.new) }
{
    branch_table(writer, targets, default_label)?;
    Ok(Flow::Ends)
}

/// `return`.
fn write_return(writer: &mut CodeWriter) -> Result<Flow, NoMemory>
    ensures { (C : CtxOf) (passing : Bool) (o : ℕ) (w : WalkingOf) → IfOk result
        (Advances C passing o (Goes ReturnOf) w writer.old w writer.new) }
{
    writer.return_values()?;
    Ok(Flow::Ends)
}

/// `unreachable`.
fn write_trap(
    context: &FunctionContext<'_, '_>,
    writer: &mut CodeWriter,
    walk: &Walk,
    offset: u32,
) -> Result<Flow, NoMemory>
    requires shallow { length walk.now.opens + most_landings + 2 < 2 ^ 32 }
    requires room { length walk.now.places ≤ context.now.slots }
    ensures { (passing : Bool) → IfOk result (Advances context.now passing offset
        (Goes UnreachableOf) walk.now writer.old walk.now writer.new) }
{
    trap(
        context,
        writer,
        &Site {
            labels: walk.depth() as u32,
            places: walk.places(),
            offset,
            passing: false,
        },
    )?;
    Ok(Flow::Ends)
}

/// `call`.
fn write_call(
    context: &FunctionContext<'_, '_>,
    writer: &mut CodeWriter,
    walk: &mut Walk,
    parts: &ModuleParts,
    spot: Spot,
    function: u32,
) -> Result<Flow, NoMemory>
    requires source { parts.now ≡ context.now.source }
    requires shallow { length walk.old.opens + most_landings + 2 < 2 ^ 32 }
    requires room { length walk.old.places ≤ context.now.slots }
    ensures { IfOk result (Advances context.now spot.passing spot.offset (Goes (CallOf function))
        walk.old writer.old walk.new writer.new) }
{
    let Some(ftype) = parts.type_of(function as usize) else {
        return Ok(Flow::Ends);
    };
    let labels = walk.depth() as u32;
    call_function(
        context,
        writer,
        &Site {
            labels,
            places: walk.places(),
            offset: spot.offset,
            passing: spot.passing,
        },
        function,
        ftype,
    )?;
    walk.perform(ftype.params.len(), ftype.result_type())?;
    Ok(Flow::Next)
}

/// `call_indirect`.
fn write_call_indirect(
    context: &FunctionContext<'_, '_>,
    writer: &mut CodeWriter,
    walk: &mut Walk,
    parts: &ModuleParts,
    offset: u32,
    index: u32,
) -> Result<Flow, NoMemory>
    requires source { parts.now ≡ context.now.source }
    requires helpers { HasHelpers context.now }
    requires helped { is_in index (types_used context.now.source) ≡ true }
    requires shallow { length walk.old.opens + most_landings + 2 < 2 ^ 32 }
    requires room { length walk.old.places ≤ context.now.slots }
    ensures { (passing : Bool) → IfOk result (Advances context.now passing offset
        (Goes (CallIndirectOf index)) walk.old writer.old walk.new writer.new) }
{
    let Some(ftype) = parts.types.get(index as usize) else {
        return Ok(Flow::Ends);
    };
    if walk.places().len() == 0 {
        return Ok(Flow::Ends);
    }
    let taken = ftype.params.as_slice().len() + 1;
    let labels = walk.depth() as u32;
    let helper = context.map().helper(index);
    let numbers = TypeNumbers { index, helper };
    call_through_table(
        context,
        writer,
        &Site {
            labels,
            places: walk.places(),
            offset,
            passing: false,
        },
        numbers,
        ftype,
    )?;
    walk.perform(taken, ftype.result_type())?;
    Ok(Flow::Next)
}

/// A control instruction that holds no others, in a body with these targets.
pub(crate) fn write_jump(
    context: &FunctionContext<'_, '_>,
    writer: &mut CodeWriter,
    walk: &mut Walk,
    parts: &ModuleParts,
    targets: &[u32],
    spot: Spot,
    jump: Jump,
) -> Result<Flow, NoMemory>
    requires source { parts.now ≡ context.now.source }
    requires helpers { HasHelpers context.now }
    requires helped { JumpHelped context.now jump }
    requires shallow { length walk.old.opens + most_landings + 2 < 2 ^ 32 }
    requires room { length walk.old.places ≤ context.now.slots }
    ensures { IfOk result (Advances context.now spot.passing spot.offset
        (Goes (jump_of targets.now jump)) walk.old writer.old walk.new writer.new) }
{
    match jump {
        Jump::Unreachable => write_trap(context, writer, walk, spot.offset),
        Jump::Br(label) => write_branch(writer, label),
        Jump::BrIf(label) => write_branch_if(writer, walk, label),
        Jump::BrTable(start, count, default_label) => {
            let own = targets_at(targets, start, count);
            write_branch_table(writer, own, default_label)
        }
        Jump::Return => write_return(writer),
        Jump::Call(function) => write_call(context, writer, walk, parts, spot, function),
        Jump::CallIndirect(ftype) => {
            write_call_indirect(context, writer, walk, parts, spot.offset, ftype)
        }
    }
}
