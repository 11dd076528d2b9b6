//! Instructions in live code, and the ends of lists.

ghost use Rattle.std.specs.Prelude.{◌≡◌, ℕ, ◌+◌, ◌^◌, ◌<◌, ◌≤◌, ◌∷◌, Bool, List, length, IfOk, OnOk};
ghost use Rattle.wasm_syntax.specs.Tree.{Plain, Opens, OpensLoop, OpensIf, Else as ElseOf, End as EndOf, item_of};
ghost use Rattle.rewrite_bodies.specs.calls.Landings.{most_landings};
ghost use Rattle.rewrite_bodies.specs.calls.Slots.{Ctx as CtxOf};
ghost use Rattle.operand_spill.specs.declared.labels.OpenBlock.{OpenBlock as OpenBlockOf};
ghost use Rattle.unwind_rewrite.specs.calls.Numbers.{HasHelpers, Helped};
ghost use Rattle.unwind_rewrite.specs.calls.Points.{Advances, IsBehind, Resumes};

use crate::jumps::write_jump;
use crate::site::Spot;
use crate::{Site, close_block, instruction, open_block, open_if, open_loop};
use causes::NoMemory;
use operand_spill::{Flow, Label, Walk, result_place, takes};
use rewrite_code::{CodeWriter, FunctionContext};
use wasm_syntax::{Basic, Instr, ModuleParts, Op, ValType};

/// A basic instruction.
fn write_basic(
    context: &FunctionContext<'_, '_>,
    writer: &mut CodeWriter,
    walk: &mut Walk,
    parts: &ModuleParts,
    offset: u32,
    passing: bool,
    basic: Basic,
) -> Result<Flow, NoMemory>
    requires source { parts.now ≡ context.now.source }
    requires shallow { length walk.old.opens + most_landings + 2 < 2 ^ 32 }
    requires room { length walk.old.places ≤ context.now.slots }
    ensures { IfOk result (Advances context.now passing offset (Plain basic) walk.old writer.old
        walk.new writer.new) }
{
    let taken = takes(basic);
    let gives = result_place(context.locals(), parts, walk.places(), basic);
    let labels = walk.depth() as u32;
    instruction(
        context,
        writer,
        &Site {
            labels,
            places: walk.places(),
            offset,
            passing,
        },
        basic,
        taken,
        gives,
    )?;
    walk.perform_basic(basic, taken, gives)?;
    Ok(Flow::Next)
}

/// The beginning of a block.
fn write_block(
    context: &FunctionContext<'_, '_>,
    writer: &mut CodeWriter,
    walk: &mut Walk,
    gives: Option<ValType>,
) -> Result<Flow, NoMemory>
    requires { length walk.old.places ≤ context.now.slots }
    ensures { (passing : Bool) (o : ℕ) → IfOk result
        (Advances context.now passing o (Opens gives) walk.old writer.old walk.new writer.new) }
{
    open_block(context, writer, gives, walk.places())?;
    walk.open(Label::Block(gives))?;
    Ok(Flow::Next)
}

/// The beginning of a loop.
fn write_loop(
    context: &FunctionContext<'_, '_>,
    writer: &mut CodeWriter,
    walk: &mut Walk,
    gives: Option<ValType>,
) -> Result<Flow, NoMemory>
    requires { length walk.old.places ≤ context.now.slots }
    ensures { (passing : Bool) (o : ℕ) → IfOk result
        (Advances context.now passing o (OpensLoop gives) walk.old writer.old walk.new writer.new) }
{
    open_loop(context, writer, gives, walk.places())?;
    walk.open(Label::Loop(gives))?;
    Ok(Flow::Next)
}

/// The beginning of an `if`, which takes its condition.
fn write_if(
    context: &FunctionContext<'_, '_>,
    writer: &mut CodeWriter,
    walk: &mut Walk,
    gives: Option<ValType>,
) -> Result<Flow, NoMemory>
    requires { length walk.old.places ≤ context.now.slots }
    ensures { (passing : Bool) (o : ℕ) → IfOk result
        (Advances context.now passing o (OpensIf gives) walk.old writer.old walk.new writer.new) }
{
    walk.perform(1, None)?;
    open_if(context, writer, gives, walk.places())?;
    walk.open(Label::Block(gives))?;
    Ok(Flow::Next)
}

/// A live instruction, in a body with these targets, whose result passes to the next one, or not; an
/// `else` or `end` leaves its list.
pub(crate) fn write_live(
    context: &FunctionContext<'_, '_>,
    writer: &mut CodeWriter,
    walk: &mut Walk,
    parts: &ModuleParts,
    targets: &[u32],
    op: Op,
    passing: bool,
) -> Result<Flow, NoMemory>
    requires source { parts.now ≡ context.now.source }
    requires helpers { HasHelpers context.now }
    requires helped { Helped context.now op.code }
    requires shallow { length walk.old.opens + most_landings + 2 < 2 ^ 32 }
    requires room { length walk.old.places ≤ context.now.slots }
    ensures { IfOk result (Advances context.now passing op.at (item_of targets.now op.code) walk.old
        writer.old walk.new writer.new) }
{
    match op.code {
        Instr::Basic(basic) => write_basic(context, writer, walk, parts, op.at, passing, basic),
        Instr::Jump(jump) => {
            let spot = Spot {
                offset: op.at,
                passing,
            };
            write_jump(context, writer, walk, parts, targets, spot, jump)
        }
        Instr::Block(gives) => write_block(context, writer, walk, gives),
        Instr::Loop(gives) => write_loop(context, writer, walk, gives),
        Instr::If(gives) => write_if(context, writer, walk, gives),
        Instr::Else => Ok(Flow::Ends),
        Instr::End => Ok(Flow::Ends),
    }
}

/// `else`, behind the first arm.
fn write_else(writer: &mut CodeWriter, walk: &mut Walk) -> Result<(), NoMemory>
    ensures { (C : CtxOf) (passing : Bool) → OnOk result
        (Resumes C passing ElseOf walk.old writer.old walk.new writer.new) }
{
    writer.alternate()?;
    walk.alternate()
}

/// The `end` of a block, and its result.
fn write_end(
    context: &FunctionContext<'_, '_>,
    writer: &mut CodeWriter,
    walk: &mut Walk,
    passing: bool,
) -> Result<(), NoMemory>
    requires open { 1 ≤ length walk.old.opens }
    requires room { (block : OpenBlockOf) (others : List OpenBlockOf)
        → walk.old.opens ≡ block ∷ others → length block.saved ≤ context.now.slots }
    ensures { OnOk result (Resumes context.now passing EndOf walk.old writer.old walk.new
        writer.new) }
{
    let gives = walk.innermost().end_gives();
    close_block(context, writer, passing, gives, walk.below())?;
    walk.close()
}

/// The `else` or the `end` behind a list that was written.
pub(crate) fn write_behind(
    context: &FunctionContext<'_, '_>,
    writer: &mut CodeWriter,
    walk: &mut Walk,
    code: Instr,
    passing: bool,
) -> Result<(), NoMemory>
    requires behind { IsBehind code }
    requires open { 1 ≤ length walk.old.opens }
    requires room { (block : OpenBlockOf) (others : List OpenBlockOf)
        → walk.old.opens ≡ block ∷ others → length block.saved ≤ context.now.slots }
    ensures { (targets : List ℕ) → OnOk result
        (Resumes context.now passing (item_of targets code) walk.old writer.old walk.new
        writer.new) }
{
    match code {
        Instr::Else => write_else(writer, walk),
        _ => write_end(context, writer, walk, passing),
    }
}
