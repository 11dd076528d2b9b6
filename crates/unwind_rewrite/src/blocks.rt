//! The beginning and the end of blocks, which stand as they are.

ghost use Rattle.std.specs.Prelude.{◌≡◌, ◌≤◌, true, List, length, Some, None, option_map, OnOk};
ghost use Rattle.wasm_syntax.specs.Tree.{block, loop, choose, stop};
ghost use Rattle.rewrite_bodies.specs.calls.Slots.{Place as PlaceOf, Spilled as SpilledOf, less};
ghost use Rattle.rewrite_bodies.specs.calls.Pieces.{keep, spill};
ghost use Rattle.rewrite_code.specs.calls.Writing.{Opens};
ghost use Rattle.unwind_rewrite.specs.calls.Bodies.{OpensTwo, OpensBoth, ClosesBefore};

use causes::NoMemory;
use rewrite_code::{CodeWriter, FunctionContext, OperandPlaces};
use wasm_syntax::ValType;

/// The beginning of a block, and of another one in it, which gives this.
pub(crate) fn open_two(writer: &mut CodeWriter, gives: Option<ValType>) -> Result<(), NoMemory>
    ensures { OnOk result (OpensTwo gives writer.old writer.new) }
{
    writer.open_block(None)?;
    writer.open_block(gives)
}

/// `block`: the operands below it that are copies of locals go to their slots first.
#[tactic(auto, using(crate::proofs::Branching::one_opened))]
pub fn open_block(
    context: &FunctionContext<'_, '_>,
    writer: &mut CodeWriter,
    gives: Option<ValType>,
    places: &OperandPlaces,
) -> Result<(), NoMemory>
    requires { length places.now ≤ context.now.slots }
    ensures { OnOk result (Opens (λ inner k. spill context.now (λ x. true) places.now
        (block 0 gives inner 0 k)) writer.old writer.new) }
{
    context.spill(writer, None, 0, places)?;
    writer.open_block(gives)
}

/// `loop`, in the same way.
#[tactic(auto, using(crate::proofs::Branching::one_opened))]
pub fn open_loop(
    context: &FunctionContext<'_, '_>,
    writer: &mut CodeWriter,
    gives: Option<ValType>,
    places: &OperandPlaces,
) -> Result<(), NoMemory>
    requires { length places.now ≤ context.now.slots }
    ensures { OnOk result (Opens (λ inner k. spill context.now (λ x. true) places.now
        (loop 0 gives inner 0 k)) writer.old writer.new) }
{
    context.spill(writer, None, 0, places)?;
    writer.open_loop(gives)
}

/// `if`, in the same way: these are the operands under its condition.
#[tactic(auto, using(crate::proofs::Branching::one_opened, crate::proofs::Branching::both_opened))]
pub fn open_if(
    context: &FunctionContext<'_, '_>,
    writer: &mut CodeWriter,
    gives: Option<ValType>,
    places: &OperandPlaces,
) -> Result<(), NoMemory>
    requires { length places.now ≤ context.now.slots }
    ensures one_arm { OnOk result (Opens (λ arm k. spill context.now (λ x. true) places.now
        (choose 0 gives arm None stop 0 k)) writer.old writer.new) }
    ensures two_arms { OnOk result
        (OpensBoth (λ arm other k. spill context.now (λ x. true) places.now
        (choose 0 gives arm (Some 0) other 0 k)) writer.old writer.new) }
{
    context.spill(writer, None, 0, places)?;
    writer.open_if(gives)
}

/// `end`, behind which the block's result is kept, over so many operands, or passes.
#[tactic(auto, using(crate::proofs::Branching::closed_before))]
pub fn close_block(
    context: &FunctionContext<'_, '_>,
    writer: &mut CodeWriter,
    passing: bool,
    gives: Option<ValType>,
    height: usize,
) -> Result<(), NoMemory>
    requires { height ≤ context.now.slots }
    ensures { (places : List PlaceOf) → length places ≡ height
        → OnOk result (ClosesBefore (keep passing context.now (option_map SpilledOf gives) places)
        writer.old writer.new) }
{
    writer.close()?;
    context.keep_result(writer, passing, gives, height)
}
