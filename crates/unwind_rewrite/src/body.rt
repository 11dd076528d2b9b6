//! The body of a rewritten function.

ghost use Rattle.std.specs.Prelude.{◌≡◌, ◌+◌, ◌^◌, ◌<◌, ◌≤◌, ◌++◌, ℕ, List, [], length, slice_get, IfOk, OnOk, Some};
ghost use Rattle.wasm_syntax.specs.declared.parts.Body.{Body as FunctionBody};
ghost use Rattle.wasm_syntax.specs.Module.{Ascend};
ghost use Rattle.wasm_syntax.specs.Tree.{Tree as TreeOf, Writes};
ghost use Rattle.rewrite_bodies.specs.calls.Landings.{most_landings};
ghost use Rattle.rewrite_bodies.specs.calls.Rewrite.{laid};
ghost use Rattle.rewrite_bodies.specs.calls.Slots.{groups};
ghost use Rattle.wasm_syntax.specs.SameCode.{body_code};
ghost use Rattle.rewrite_modules.specs.calls.FlatCode.{body_of};
ghost use Rattle.rewrite_code.specs.calls.Writing.{EmitsLast};
ghost use Rattle.rewrite_modules.specs.Multiple.{half};
ghost use Rattle.rewrite_modules.specs.Weight.{AreHeights};
ghost use Rattle.rewrite_modules.specs.calls.Unwinding.{Unwinds};
ghost use Rattle.rewrite_promise.specs.calls.Promise.{Accepted};
ghost use Rattle.rewrite_promise.specs.calls.Layers.{BodyPromised};
ghost use Rattle.operand_spill.specs.calls.Standing.{Fine};
ghost use Rattle.unwind_rewrite.specs.calls.Bodies.{LowLandings};
ghost use Rattle.unwind_rewrite.specs.calls.Contexts.{IsContextFor};
ghost use Rattle.unwind_rewrite.specs.calls.Numbers.{HasHelpers, AllHelped};
ghost use Rattle.unwind_rewrite.specs.calls.Points.{CanBeWritten};
ghost use Rattle.operand_spill.specs.calls.Plans.{IsDefined};
ghost use Rattle.unwind_rewrite.specs.calls.Rewritten.{Ascends, IsPlanIn, IsRewritten, gives_of, program_in};

use crate::{close_body, open_body, with_added, write_nodes};
use causes::NoMemory;
use index_map::IndexMap;
use operand_spill::{SlotPlan, body_at, derivations, exposed, landings};
use pm_text::Items;
use rewrite_code::{CodeWriter, Exits, FunctionContext};
use std::alloc::Global;
use wasm_syntax::{Body, ModuleParts, ValType};

/// The code of a body with this context, behind what was written.
fn write_code(
    alloc: Global,
    context: &FunctionContext<'_, '_>,
    writer: &mut CodeWriter,
    parts: &ModuleParts,
    body: &Body,
) -> Result<(), NoMemory>
    requires source { parts.now ≡ context.now.source }
    requires helpers { HasHelpers context.now }
    requires helped { AllHelped context.now body.now.ops }
    requires few { length body.now.ops + most_landings + 1 < 2 ^ 32 }
    requires tree { CanBeWritten context.now body.now }
    requires low { LowLandings context.now }
    ensures { (tree : TreeOf) → Writes body.now.targets body.now.ops tree
        → Fine context.now [] tree.nodes
        → OnOk result (EmitsLast (laid context.now tree.nodes) writer.old writer.new) }
{
    open_body(context, writer)?;
    write_nodes(alloc, context, writer, parts, body)?;
    close_body(context, writer)
}

/// The rewritten body of a function whose body and context these are, with the locals that are
/// added.
fn write_body(
    alloc: Global,
    context: &FunctionContext<'_, '_>,
    parts: &ModuleParts,
    body: &Body,
) -> Result<Body, NoMemory>
    requires source { parts.now ≡ context.now.source }
    requires helpers { HasHelpers context.now }
    requires helped { AllHelped context.now body.now.ops }
    requires few { length body.now.ops + most_landings + 1 < 2 ^ 32 }
    requires tree { CanBeWritten context.now body.now }
    requires low { LowLandings context.now }
    ensures code { (tree : TreeOf) → Writes body.now.targets body.now.ops tree
        → Fine context.now [] tree.nodes
        → IfOk result (λ out. body_code out
        ≡ body_code (body_of (body.now.groups ++ groups context.now.slots)
        (laid context.now tree.nodes))) }
    ensures offsets { IfOk result (λ out. length out.ops ≤ 2 ^ 32 → Ascend 0 out.ops) }
{
    let mut writer = CodeWriter::new(alloc);
    write_code(alloc, context, &mut writer, parts, body)?;
    let locals = with_added(alloc, body.groups.as_slice(), context.slots())?;
    writer.finish(locals)
}

/// What a function gives, if anything.
fn gives(parts: &ModuleParts, func: u32) -> Option<ValType>
    ensures { result ≡ gives_of parts.now func }
{
    match parts.type_of(func as usize) {
        Some(ftype) => ftype.result_type(),
        None => None,
    }
}

/// The context of a function with this body, by its plan.
fn planned_context<'m, 'a>(
    alloc: Global,
    numbers: &'m IndexMap<'a>,
    func: u32,
    plan: &SlotPlan,
    body: &Body,
) -> Result<FunctionContext<'m, 'a>, NoMemory>
    ensures { IfOk result (IsContextFor numbers.now func plan.now body.now) }
{
    let parts = numbers.source();
    let types = plan.types();
    let ops = body.ops.as_slice();
    let guarded = exposed(alloc, parts, ops)?;
    let found = landings(alloc, types, parts, ops, &guarded)?;
    let derived = derivations(alloc, parts, func, types, ops, &guarded)?;
    let locals = Items::from_slice(alloc, types)?;
    let heights = plan.heights();
    let result = gives(parts, func);
    let exits = Exits {
        landings: found,
        exposed: guarded,
        derivations: derived,
    };
    Ok(FunctionContext::new(numbers, locals, heights, func, result, exits))
}

/// The body of a function of an accepted module, rewritten by its plan: that of the definitions,
/// but for offsets. It is well typed in the rewritten module, within the limits of the decoder, and
/// takes at most its share of the weight. The rewritten module, whose body it is, follows each step
/// of the original, and at a trap its frames hand over their values.
pub fn rewrite_body(
    alloc: Global,
    numbers: &IndexMap<'_>,
    func: u32,
    plan: &SlotPlan,
) -> Result<Body, NoMemory>
    requires accepted { Accepted numbers.now }
    requires defined { IsDefined numbers.now func }
    requires plan { IsPlanIn numbers.now func plan.now }
    ensures code { IfOk result (IsRewritten numbers.now func) }
    ensures offsets { IfOk result Ascends }
    ensures promised { (a : Accepted numbers.now) (i : ℕ) (old : FunctionBody)
        → func ≡ length numbers.now.imports + i → slice_get numbers.now.bodies i ≡ Some old
        → IfOk result (BodyPromised numbers.now a.premises.whole i old) }
    ensures unwinds { (a : Accepted numbers.now) (heights : List (List ℕ))
        → AreHeights numbers.now heights → (depth : ℕ)
        → Unwinds (program_in numbers.now a) (half numbers.now heights) depth }
{
    let parts = numbers.source();
    let body = body_at(parts, func);
    match planned_context(alloc, numbers, func, plan, body) {
        Ok(context) => write_body(alloc, &context, parts, body),
        Err(NoMemory) => Err(NoMemory),
    }
}
