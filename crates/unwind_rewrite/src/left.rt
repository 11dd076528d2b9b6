//! The operands that a call leaves: they are handed over where the callee unwound, or where the
//! call would trap.

ghost use Rattle.std.specs.Prelude.{◌+◌, ◌^◌, ◌<◌, ◌≤◌, length, option_map, Some, None, OnOk};
ghost use Rattle.wasm_syntax.specs.Tree.{stop};
ghost use Rattle.rewrite_bodies.specs.calls.Landings.{most_landings};
ghost use Rattle.rewrite_bodies.specs.calls.Slots.{Spilled as SpilledOf, less, kind_at};
ghost use Rattle.rewrite_bodies.specs.calls.Pieces.{const, i32, keep, set};
ghost use Rattle.rewrite_bodies.specs.calls.Rewrite.{hand, hand_top, hand_left, unwind, checked, get_flag, test_flag};
ghost use Rattle.rewrite_bodies.specs.calls.Rewrite.{test_both};
ghost use Rattle.rewrite_code.specs.calls.Writing.{Emits, EmitsLast};

use crate::Site;
use causes::NoMemory;
use rewrite_code::{CodeWriter, FunctionContext, OperandPlaces};
use wasm_syntax::{Basic, Binary, ValType, Value};

/// A result on the stack is kept over the operands under so many, or passes.
pub(crate) fn keep_left(
    context: &FunctionContext<'_, '_>,
    writer: &mut CodeWriter,
    passing: bool,
    gives: Option<ValType>,
    places: &OperandPlaces,
    count: usize,
) -> Result<(), NoMemory>
    requires { length places.now ≤ context.now.slots }
    ensures { OnOk result (Emits (keep passing context.now (option_map SpilledOf gives)
        (less count places.now)) writer.old writer.new) }
{
    let height = places.len().saturating_sub(count);
    context.keep_result(writer, passing, gives, height)
}

/// The operands under so many, the lowest first.
fn hand_under(
    context: &FunctionContext<'_, '_>,
    writer: &mut CodeWriter,
    places: &OperandPlaces,
    count: usize,
) -> Result<(), NoMemory>
    requires { length places.now ≤ context.now.slots }
    ensures { OnOk result (Emits (hand context.now (less count places.now)) writer.old writer.new) }
{
    let operands = places.as_slice();
    let kept = operands.len().saturating_sub(count);
    for height in 0..kept {
        context.hand_one(writer, operands[height], height)?;
    }
    Ok(())
}

/// The kind of a trap in another frame is kept, and the code unwinds, with the operands under so
/// many.
fn unwind_caller(
    context: &FunctionContext<'_, '_>,
    writer: &mut CodeWriter,
    site: &Site<'_>,
    count: usize,
) -> Result<(), NoMemory>
    requires shallow { site.now.labels + most_landings + 1 < 2 ^ 32 }
    requires room { length site.now.places.now ≤ context.now.slots }
    ensures { OnOk result (EmitsLast (const (i32 0)
        (set context.now (kind_at context.now)
        (unwind context.now site.now.labels (less count site.now.places.now) site.now.offset)))
        writer.old writer.new) }
{
    writer.const_value(Value::I32(0))?;
    context.set(writer, context.kind_at())?;
    context.set_offset(writer, site.offset)?;
    hand_under(context, writer, site.places, count)?;
    context.to_exit(writer, site.labels)
}

/// Where the flag is up behind a call that took so many operands, they are handed over in place.
fn test_in_place(
    context: &FunctionContext<'_, '_>,
    writer: &mut CodeWriter,
    site: &Site<'_>,
    count: usize,
) -> Result<(), NoMemory>
    requires shallow { site.now.labels + most_landings + 1 < 2 ^ 32 }
    requires room { length site.now.places.now ≤ context.now.slots }
    ensures { OnOk result (Emits (checked None context.now site.now.labels
        (less count site.now.places.now) site.now.offset (get_flag context.now) (const (i32 0)))
        writer.old writer.new) }
{
    context.get_flag(writer)?;
    writer.open_if(None)?;
    unwind_caller(context, writer, site, count)?;
    writer.close()
}

/// Or at this landing.
fn test_by_landing(
    context: &FunctionContext<'_, '_>,
    writer: &mut CodeWriter,
    site: &Site<'_>,
    count: usize,
    number: u32,
) -> Result<(), NoMemory>
    requires shallow { site.now.labels + number < 2 ^ 32 }
    ensures { OnOk result (Emits (checked (Some number) context.now site.now.labels
        (less count site.now.places.now) site.now.offset (get_flag context.now) (const (i32 0)))
        writer.old writer.new) }
{
    context.set_offset(writer, site.offset)?;
    context.get_flag(writer)?;
    context.to_landing(writer, site.labels, number)
}

/// Where the flag is up behind a call that took so many operands, the code unwinds.
pub(crate) fn test_flag(
    context: &FunctionContext<'_, '_>,
    writer: &mut CodeWriter,
    site: &Site<'_>,
    count: usize,
) -> Result<(), NoMemory>
    requires shallow { site.now.labels + most_landings + 1 < 2 ^ 32 }
    requires room { length site.now.places.now ≤ context.now.slots }
    ensures { OnOk result (Emits (test_flag context.now site.now.labels
        (less count site.now.places.now) site.now.offset) writer.old writer.new) }
{
    match context.landing_behind(site.offset, site.places, count) {
        Some(number) => test_by_landing(context, writer, site, count, number),
        None => test_in_place(context, writer, site, count),
    }
}

/// The operands under so many are handed over, and those too where the guard gave a kind.
fn hand_left(
    context: &FunctionContext<'_, '_>,
    writer: &mut CodeWriter,
    labels: u32,
    places: &OperandPlaces,
    count: usize,
) -> Result<(), NoMemory>
    requires shallow { labels + most_landings + 1 < 2 ^ 32 }
    requires room { length places.now ≤ context.now.slots }
    ensures { OnOk result (EmitsLast (hand_left context.now labels (less count places.now)
        (hand_top context.now count places.now stop)) writer.old writer.new) }
{
    hand_under(context, writer, places, count)?;
    context.get(writer, context.kind_at())?;
    writer.open_if(None)?;
    context.hand_top(writer, count, places)?;
    writer.close()?;
    context.to_exit(writer, labels)
}

/// The code unwinds where the guard of a call gave a kind or the flag is up; so many operands were
/// its own.
pub(crate) fn test_both(
    context: &FunctionContext<'_, '_>,
    writer: &mut CodeWriter,
    site: &Site<'_>,
    count: usize,
) -> Result<(), NoMemory>
    requires shallow { site.now.labels + most_landings + 1 < 2 ^ 32 }
    requires room { length site.now.places.now ≤ context.now.slots }
    ensures { OnOk result (Emits (test_both context.now site.now.labels
        (less count site.now.places.now) site.now.offset
        (hand_top context.now count site.now.places.now stop)) writer.old writer.new) }
{
    context.get(writer, context.kind_at())?;
    context.get_flag(writer)?;
    writer.basic(Basic::Binary(ValType::I32, Binary::Or))?;
    writer.open_if(None)?;
    context.set_offset(writer, site.offset)?;
    hand_left(context, writer, site.labels, site.places, count)?;
    writer.close()
}
