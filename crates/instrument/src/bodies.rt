//! The bodies of all functions of a rewritten module.

ghost use Rattle.std.specs.Prelude.{◌≡◌, IfOk, OnOk};
ghost use Rattle.rewrite_promise.specs.calls.Promise.{Accepted};
ghost use Rattle.operand_spill.specs.calls.Plans.{IsDefined};
ghost use Rattle.instrument.specs.calls.Assembly.{AreBodies};
ghost use Rattle.unwind_rewrite.specs.calls.Rewritten.{Ascends, IsRewritten};
ghost use Rattle.instrument.specs.inner.Adding.{Adds, helper_bodies, new_bodies, wrapper_bodies};

use crate::entries::{helper_body, wrapper_body};
use crate::table::first_table;
use causes::NoMemory;
use index_map::IndexMap;
use operand_spill::plan;
use pm_text::Items;
use std::alloc::Global;
use unwind_rewrite::rewrite_body;
use wasm_syntax::{Bodies, Body};
use wasm_validate::Validated;

/// The body of a function, rewritten.
fn rewritten(
    alloc: Global,
    source: &Validated,
    numbers: &IndexMap<'_>,
    func: u32,
) -> Result<Body, NoMemory>
    requires accepted { Accepted source.now }
    requires numbers { numbers.now ≡ source.now }
    requires defined { IsDefined source.now func }
    ensures code { IfOk result (IsRewritten source.now func) }
    ensures offsets { IfOk result Ascends }
{
    let plan = plan(alloc, source, func)?;
    rewrite_body(alloc, numbers, func, &plan)
}

/// Adds the rewritten bodies of the module's functions.
fn push_functions(
    alloc: Global,
    out: &mut Bodies,
    source: &Validated,
    numbers: &IndexMap<'_>,
) -> Result<(), NoMemory>
    requires accepted { Accepted source.now }
    requires numbers { numbers.now ≡ source.now }
    ensures { (a : Accepted source.now)
        → OnOk result (Adds (new_bodies source.now a) out.old out.new) }
{
    let parts = numbers.source();
    let first = parts.imports.len();
    for i in 0..parts.bodies.len() {
        let body = rewritten(alloc, source, numbers, (first + i) as u32)?;
        out.push(body)?;
    }
    Ok(())
}

/// Adds the bodies of wrappers.
fn push_wrappers(alloc: Global, out: &mut Bodies, numbers: &IndexMap<'_>) -> Result<(), NoMemory>
    requires { Accepted numbers.now }
    ensures { OnOk result (Adds (wrapper_bodies numbers.now) out.old out.new) }
{
    for function in numbers.wrapped() {
        let body = wrapper_body(alloc, numbers, *function)?;
        out.push(body)?;
    }
    Ok(())
}

/// Adds the bodies of helpers.
fn push_helpers(alloc: Global, out: &mut Bodies, numbers: &IndexMap<'_>) -> Result<(), NoMemory>
    ensures { OnOk result (Adds (helper_bodies numbers.now) out.old out.new) }
{
    let parts = numbers.source();
    let table = first_table(alloc, parts)?;
    for ftype in numbers.helped() {
        let body = helper_body(alloc, parts, *ftype, table.as_slice())?;
        out.push(body)?;
    }
    Ok(())
}

/// All bodies: those of the module's functions, rewritten, and behind them those of wrappers and of
/// helpers.
pub(crate) fn all_bodies(
    alloc: Global,
    source: &Validated,
    numbers: &IndexMap<'_>,
) -> Result<Bodies, NoMemory>
    requires accepted { Accepted source.now }
    requires numbers { numbers.now ≡ source.now }
    ensures { IfOk result (AreBodies source.now) }
{
    let mut out = Items::new(alloc);
    push_functions(alloc, &mut out, source, numbers)?;
    push_wrappers(alloc, &mut out, numbers)?;
    push_helpers(alloc, &mut out, numbers)?;
    Ok(out)
}
