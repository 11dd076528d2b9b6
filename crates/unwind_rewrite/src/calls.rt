//! Calls, and what stands behind them.

ghost use Rattle.std.specs.Prelude.{◌≡◌, ◌+◌, ◌^◌, ◌<◌, ◌≤◌, nat_lt, List, ◌∷◌, length, Some, None, OnOk};
ghost use Rattle.wasm_syntax.specs.declared.value.ValType.TheVariants.{I32 as I32Of};
ghost use Rattle.wasm_syntax.specs.declared.instruction.Basic.TheVariants.{Eqz as EqzOf};
ghost use Rattle.wasm_syntax.specs.Tree.{CallIndirect, stop, basic, choose, jump};
ghost use Rattle.wasm_syntax.specs.Machine.{result_of};
ghost use Rattle.wasm_syntax.specs.Module.{function_types};
ghost use Rattle.rewrite_bodies.specs.Numbering.{doubles, import_count};
ghost use Rattle.rewrite_bodies.specs.calls.Slots.{Place as PlaceOf, less, kind_at};
ghost use Rattle.rewrite_bodies.specs.calls.Pieces.{call, drops, fetch, get, load, reload, set, store};
ghost use Rattle.rewrite_bodies.specs.calls.Rewrite.{after_direct, call_code, helper_of, indirect_code};
ghost use Rattle.rewrite_bodies.specs.calls.Rewrite.{past_shown};
ghost use Rattle.rewrite_bodies.specs.calls.Guards.{renew_both};
ghost use Rattle.rewrite_code.specs.calls.Writing.{Emits};
ghost use Rattle.rewrite_code.specs.calls.Places.{place};
ghost use Rattle.rewrite_bodies.specs.calls.Landings.{most_landings};

use crate::Site;
use crate::left::{keep_left, test_both, test_flag};
use causes::NoMemory;
use guard_insert::guard_entry;
use rewrite_code::{CodeWriter, FunctionContext, OperandPlace, OperandPlaces, drops};
use wasm_syntax::{Basic, Binary, FuncType, ValType, Value};

/// The index of a type, and that of the function that is its helper.
#[derive(Clone, Copy)]
pub struct TypeNumbers {
    pub index: u32,
    pub helper: u32,
}

/// Whether a function is imported: the collector's imports stand behind the module's.
fn is_imported(context: &FunctionContext<'_, '_>, function: u32) -> bool
    ensures { result ≡ nat_lt function (import_count context.now.source) }
{
    function < context.map().value_import(ValType::I32)
}

/// Behind the call of a function: an import cannot come back with the flag up, but its host may have
/// made the memory longer; another one may have done both.
fn after_direct(
    context: &FunctionContext<'_, '_>,
    writer: &mut CodeWriter,
    site: &Site<'_>,
    function: u32,
    ftype: &FuncType,
) -> Result<(), NoMemory>
    requires shallow { site.now.labels + most_landings + 1 < 2 ^ 32 }
    requires room { length site.now.places.now ≤ context.now.slots }
    ensures { OnOk result (Emits (λ k. after_direct (nat_lt function (import_count context.now.source))
        context.now site.now.labels (result_of ftype.now)
        (less (length ftype.now.params) site.now.places.now) site.now.offset site.now.passing
        (λ es. k)) writer.old writer.new) }
{
    let count = ftype.params.len();
    let gives = ftype.result_type();
    keep_left(context, writer, site.passing, gives, site.places, count)?;
    if is_imported(context, function) {
        return context.renew(writer);
    }
    test_flag(context, writer, site, count)?;
    context.measure(writer)
}

/// `call`, of a function of this type.
#[tactic(auto, using(crate::proofs::Calling::called))]
pub fn call_function(
    context: &FunctionContext<'_, '_>,
    writer: &mut CodeWriter,
    site: &Site<'_>,
    function: u32,
    ftype: &FuncType,
) -> Result<(), NoMemory>
    requires there { function < length (function_types context.now.source) }
    requires shallow { site.now.labels + most_landings + 1 < 2 ^ 32 }
    requires room { length site.now.places.now ≤ context.now.slots }
    ensures { OnOk result (Emits (λ k. call_code context.now site.now.labels site.now.places.now
        site.now.offset function (Some ftype.now) site.now.passing (λ es. k)) writer.old
        writer.new) }
{
    writer.call(context.map().function(function))?;
    after_direct(context, writer, site, function, ftype)
}

/// The kind that a helper gives for the index of an entry, which is kept, and whether it is none.
fn keep_verdict(
    context: &FunctionContext<'_, '_>,
    writer: &mut CodeWriter,
    entry: OperandPlace,
    height: usize,
    helper: u32,
) -> Result<(), NoMemory>
    requires { height ≤ context.now.slots }
    ensures { OnOk result (Emits (λ k. fetch context.now (place entry) height
        (call helper (set context.now (kind_at context.now)
        (get context.now (kind_at context.now) (basic 0 (EqzOf I32Of) k))))) writer.old
        writer.new) }
{
    guard_entry(context, writer, entry, height, helper)?;
    context.set(writer, context.kind_at())?;
    context.get(writer, context.kind_at())?;
    writer.basic(Basic::Eqz(ValType::I32))
}

/// Behind the index of an entry: where a host sees the table, it has as many entries for the host in
/// front.
fn past_shown(context: &FunctionContext<'_, '_>, writer: &mut CodeWriter) -> Result<(), NoMemory>
    ensures { OnOk result (Emits (past_shown (doubles context.now.source) context.now) writer.old
        writer.new) }
{
    let map = context.map();
    if map.doubles() {
        writer.const_value(Value::I32(map.table_size()))?;
        writer.basic(Basic::Binary(ValType::I32, Binary::Add))
    } else {
        Ok(())
    }
}

/// The call of an entry where the number on the stack is not 0, with its operands, so many with the
/// index of the entry, and its result.
fn call_where_sound(
    context: &FunctionContext<'_, '_>,
    writer: &mut CodeWriter,
    places: &OperandPlaces,
    count: usize,
    type_index: u32,
    gives: Option<ValType>,
) -> Result<(), NoMemory>
    requires { length places.now ≤ context.now.slots }
    ensures { OnOk result (Emits (λ k. choose 0 None (load context.now count places.now
        (past_shown (doubles context.now.source) context.now
        (jump 0 (CallIndirect type_index) (store context.now gives (less count places.now) stop))))
        None stop 0 k) writer.old writer.new) }
{
    writer.open_if(None)?;
    context.load(writer, count, places)?;
    past_shown(context, writer)?;
    writer.call_indirect(type_index)?;
    context.store(writer, gives, places.len().saturating_sub(count))?;
    writer.close()
}

/// Behind the call of an entry: its operands are dropped, so many with the index, and its result
/// comes back from its slot.
fn end_call(
    context: &FunctionContext<'_, '_>,
    writer: &mut CodeWriter,
    places: &OperandPlaces,
    count: usize,
    gives: Option<ValType>,
) -> Result<(), NoMemory>
    requires { length places.now ≤ context.now.slots }
    ensures { OnOk result (Emits (λ k. drops count (renew_both context.now
        (reload context.now gives (less count places.now) k))) writer.old writer.new) }
{
    drops(writer, count)?;
    context.renew(writer)?;
    context.reload(writer, gives, places.len().saturating_sub(count))
}

/// `call_indirect`, of a function of this type; the index of the entry is the topmost operand.
pub fn call_through_table(
    context: &FunctionContext<'_, '_>,
    writer: &mut CodeWriter,
    site: &Site<'_>,
    numbers: TypeNumbers,
    ftype: &FuncType,
) -> Result<(), NoMemory>
    requires shallow { site.now.labels + most_landings + 1 < 2 ^ 32 }
    requires room { length site.now.places.now ≤ context.now.slots }
    ensures { (e : PlaceOf) (es : List PlaceOf)
        → numbers.helper ≡ helper_of context.now numbers.index → site.now.places.now ≡ e ∷ es
        → OnOk result (Emits (λ k. indirect_code context.now site.now.labels site.now.places.now
        site.now.offset numbers.index (Some ftype.now) (λ es. k)) writer.old writer.new) }
{
    let places = site.places;
    let Some(entry) = places.peek(0) else {
        return Ok(());
    };
    let gives = ftype.result_type();
    let count = ftype.params.as_slice().len() + 1;
    keep_verdict(context, writer, entry, places.len() - 1, numbers.helper)?;
    call_where_sound(context, writer, places, count, numbers.index, gives)?;
    test_both(context, writer, site, count)?;
    end_call(context, writer, places, count, gives)
}
