//! All instructions of a body.

ghost use Rattle.std.specs.Prelude.{◌≡◌, ◌+◌, ◌^◌, ◌<◌, [], length, IfOk, OnOk};
ghost use Rattle.wasm_syntax.specs.Tree.{Tree as TreeOf, Nodes as NodesOf, Writes};
ghost use Rattle.rewrite_bodies.specs.calls.Landings.{most_landings};
ghost use Rattle.rewrite_bodies.specs.calls.Rewrite.{rewrite};
ghost use Rattle.rewrite_code.specs.calls.Writing.{Written, EmitsLast};
ghost use Rattle.operand_spill.specs.calls.Standing.{Fine};
ghost use Rattle.unwind_rewrite.specs.calls.Numbers.{HasHelpers, AllHelped};
ghost use Rattle.unwind_rewrite.specs.declared.points.Point.TheVariants.{Live, Ended};
ghost use Rattle.unwind_rewrite.specs.calls.Points.{BeforeLast, CanBeWritten, Holds, Stood, code_in, is_last, left_of};

use crate::instructions::{write_behind, write_live};
use crate::passing::passes;
use crate::points::Point;
use causes::NoMemory;
use operand_spill::{Flow, Walk, end_of_list};
use rewrite_code::{CodeWriter, FunctionContext};
use std::alloc::Global;
use wasm_syntax::{Body, ModuleParts};

/// From a live instruction on: it is written, and what is dead behind it is left out.
fn write_from_live(
    context: &FunctionContext<'_, '_>,
    writer: &mut CodeWriter,
    walk: &mut Walk,
    parts: &ModuleParts,
    body: &Body,
    index: usize,
) -> Result<Point, NoMemory>
    requires source { parts.now ≡ context.now.source }
    requires helpers { HasHelpers context.now }
    requires helped { AllHelped context.now body.now.ops }
    requires few { length body.now.ops + most_landings + 1 < 2 ^ 32 }
    requires stood { Stood context.now (code_in body.now) walk.old writer.old (Live index) }
    ensures goes_on { (start : Written) (whole : NodesOf)
        → Holds context.now (code_in body.now) start whole walk.old writer.old (Live index)
        → IfOk result (Holds context.now (code_in body.now) start whole walk.new writer.new) }
    ensures less { IfOk result (λ p. left_of (length body.now.ops) p
        < left_of (length body.now.ops) (Live index)) }
{
    let ops = body.ops.as_slice();
    let targets = body.targets.as_slice();
    let op = ops[index];
    let passing = passes(context, ops, index + 1);
    match write_live(context, writer, walk, parts, targets, op, passing)? {
        Flow::Next => Ok(Point::Live(index + 1)),
        Flow::Ends => Ok(Point::Ended(end_of_list(ops, index))),
    }
}

/// From the end of a list on: its `else` or `end` is written.
fn write_from_end(
    context: &FunctionContext<'_, '_>,
    writer: &mut CodeWriter,
    walk: &mut Walk,
    body: &Body,
    index: usize,
) -> Result<Point, NoMemory>
    requires before_last { index + 1 < length body.now.ops }
    requires stood { Stood context.now (code_in body.now) walk.old writer.old (Ended index) }
    ensures goes_on { (start : Written) (whole : NodesOf)
        → Holds context.now (code_in body.now) start whole walk.old writer.old (Ended index)
        → IfOk result (Holds context.now (code_in body.now) start whole walk.new writer.new) }
    ensures less { IfOk result (λ p. left_of (length body.now.ops) p
        < left_of (length body.now.ops) (Ended index)) }
{
    let ops = body.ops.as_slice();
    let op = ops[index];
    let passing = passes(context, ops, index + 1);
    write_behind(context, writer, walk, op.code, passing)?;
    Ok(Point::Live(index + 1))
}

/// From a point on.
fn write_from(
    context: &FunctionContext<'_, '_>,
    writer: &mut CodeWriter,
    walk: &mut Walk,
    parts: &ModuleParts,
    body: &Body,
    point: Point,
) -> Result<Point, NoMemory>
    requires source { parts.now ≡ context.now.source }
    requires helpers { HasHelpers context.now }
    requires helped { AllHelped context.now body.now.ops }
    requires few { length body.now.ops + most_landings + 1 < 2 ^ 32 }
    requires before_last { BeforeLast (length body.now.ops) point }
    requires stood { Stood context.now (code_in body.now) walk.old writer.old point }
    ensures goes_on { (start : Written) (whole : NodesOf)
        → Holds context.now (code_in body.now) start whole walk.old writer.old point
        → IfOk result (Holds context.now (code_in body.now) start whole walk.new writer.new) }
    ensures less { IfOk result (λ p. left_of (length body.now.ops) p
        < left_of (length body.now.ops) point) }
{
    match point {
        Point::Live(index) => write_from_live(context, writer, walk, parts, body, index),
        Point::Ended(index) => write_from_end(context, writer, walk, body, index),
    }
}

/// Whether this is the end of the last list, in front of the instruction with this index.
fn is_last(last: usize, point: Point) -> bool
    ensures { result ≡ is_last last point }
{
    match point {
        Point::Live(_) => false,
        Point::Ended(index) => last <= index,
    }
}

/// The nodes of a body, without its last `end`.
pub fn write_nodes(
    alloc: Global,
    context: &FunctionContext<'_, '_>,
    writer: &mut CodeWriter,
    parts: &ModuleParts,
    body: &Body,
) -> Result<(), NoMemory>
    requires source { parts.now ≡ context.now.source }
    requires helpers { HasHelpers context.now }
    requires helped { AllHelped context.now body.now.ops }
    requires few { length body.now.ops + most_landings + 1 < 2 ^ 32 }
    requires tree { CanBeWritten context.now body.now }
    ensures { (tree : TreeOf) → Writes body.now.targets body.now.ops tree
        → Fine context.now [] tree.nodes
        → OnOk result (EmitsLast (rewrite context.now 1 [] tree.nodes) writer.old writer.new) }
{
    let mut walk = Walk::new(alloc, context.gives());
    let last = body.ops.len() - 1;
    let mut point = Point::Live(0);
    'points: while !is_last(last, point) {
        point = write_from(context, writer, &mut walk, parts, body, point)?;
    }
    Ok(())
}
