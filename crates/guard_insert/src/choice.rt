//! Which instructions have a guard, and which one.

ghost use Rattle.std.specs.Prelude.{◌≡◌, ◌+◌, ◌^◌, ◌<◌, ◌≤◌, true, length, Some, None, OnOk};
ghost use Rattle.rewrite_bodies.specs.calls.Guards.{can_trap, guard, kind};
ghost use Rattle.rewrite_bodies.specs.calls.Pieces.{const, i32};
ghost use Rattle.rewrite_bodies.specs.calls.Facts.{needs};
ghost use Rattle.rewrite_bodies.specs.calls.Landings.{most_landings};
ghost use Rattle.rewrite_bodies.specs.calls.Rewrite.{checked, tested, guarded};
ghost use Rattle.int_ops.specs.declared.operators.Binary.TheVariants.{DivS as DivSOf, DivU as DivUOf, RemS as RemSOf};
ghost use Rattle.int_ops.specs.declared.operators.Binary.TheVariants.{RemU as RemUOf};
ghost use Rattle.wasm_syntax.specs.declared.instruction.Basic.TheVariants.{Binary as BinaryOf, Load as LoadOf};
ghost use Rattle.wasm_syntax.specs.declared.instruction.Basic.TheVariants.{Store as StoreOf};
ghost use Rattle.wasm_syntax.specs.declared.instruction.Basic.TheVariants.{MemoryCopy as MemoryCopyOf};
ghost use Rattle.wasm_syntax.specs.declared.instruction.Basic.TheVariants.{MemoryFill as MemoryFillOf};
ghost use Rattle.rewrite_bodies.specs.calls.Verdicts.{IsGuard, IsKind};
ghost use Rattle.rewrite_code.specs.calls.Writing.{Emits};
ghost use Rattle.guard_insert.specs.calls.Meaning.{Writes};

use crate::accesses::{guard_copy, guard_fill, guard_memory};
use crate::division::{guard_signed, guard_zero, kind_signed};
use causes::NoMemory;
use rewrite_code::{CodeWriter, FunctionContext, OperandPlaces, can_trap};
use wasm_syntax::{Basic, Binary, Load, Store, ValType, Value};

/// Whether the instruction at an offset of a function has a guard: where it can trap, and nothing
/// answers for it.
pub fn needs(context: &FunctionContext<'_, '_>, offset: u32, instruction: &Basic) -> bool
    ensures { result ≡ needs context.now offset instruction.now }
{
    can_trap(instruction) && context.is_exposed(offset)
}

/// No trap.
fn no_trap(writer: &mut CodeWriter) -> Result<(), NoMemory>
    ensures { OnOk result (Emits (const (i32 0)) writer.old writer.new) }
{
    writer.const_value(Value::I32(0))
}

/// Of a quotient of signed numbers.
fn guard_quotient(
    context: &FunctionContext<'_, '_>,
    writer: &mut CodeWriter,
    t: ValType,
    places: &OperandPlaces,
) -> Result<(), NoMemory>
    requires { length places.now ≤ context.now.slots }
    ensures { OnOk result (Emits (guard context.now (BinaryOf t DivSOf) places.now) writer.old
        writer.new) }
{
    let Some(dividend) = places.peek(1) else {
        return no_trap(writer);
    };
    let Some(divisor) = places.peek(0) else {
        return no_trap(writer);
    };
    guard_signed(context, writer, t, divisor, dividend, places.len() - 2)
}

/// Of the other quotient and the remainders, which want a divisor.
fn guard_divisor(
    context: &FunctionContext<'_, '_>,
    writer: &mut CodeWriter,
    t: ValType,
    places: &OperandPlaces,
) -> Result<(), NoMemory>
    requires { length places.now ≤ context.now.slots }
    ensures quotient { OnOk result
        (Emits (guard context.now (BinaryOf t DivUOf) places.now) writer.old writer.new) }
    ensures signed { OnOk result (Emits (guard context.now (BinaryOf t RemSOf) places.now)
        writer.old writer.new) }
    ensures unsigned { OnOk result
        (Emits (guard context.now (BinaryOf t RemUOf) places.now) writer.old writer.new) }
{
    let Some(_) = places.peek(1) else {
        return no_trap(writer);
    };
    let Some(divisor) = places.peek(0) else {
        return no_trap(writer);
    };
    guard_zero(context, writer, t, divisor, places.len() - 1)
}

/// Of an operator on two numbers.
fn guard_binary(
    context: &FunctionContext<'_, '_>,
    writer: &mut CodeWriter,
    t: ValType,
    operator: Binary,
    places: &OperandPlaces,
) -> Result<(), NoMemory>
    requires { length places.now ≤ context.now.slots }
    ensures { OnOk result (Emits (guard context.now (BinaryOf t operator) places.now) writer.old
        writer.new) }
{
    match operator {
        Binary::DivS => guard_quotient(context, writer, t, places),
        Binary::DivU => guard_divisor(context, writer, t, places),
        Binary::RemS => guard_divisor(context, writer, t, places),
        Binary::RemU => guard_divisor(context, writer, t, places),
        _ => no_trap(writer),
    }
}

/// Of a load of so many bytes, offset included.
fn guard_load(
    context: &FunctionContext<'_, '_>,
    writer: &mut CodeWriter,
    load: Load,
    align: u32,
    offset: u32,
    places: &OperandPlaces,
) -> Result<(), NoMemory>
    requires { length places.now ≤ context.now.slots }
    ensures { OnOk result (Emits (guard context.now (LoadOf load align offset) places.now)
        writer.old writer.new) }
{
    let Some(address) = places.peek(0) else {
        return no_trap(writer);
    };
    let count = u64::from(offset) + u64::from(load.bytes());
    guard_memory(context, writer, address, places.len() - 1, count)
}

/// Of a store of so many bytes, offset included.
fn guard_store(
    context: &FunctionContext<'_, '_>,
    writer: &mut CodeWriter,
    store: Store,
    align: u32,
    offset: u32,
    places: &OperandPlaces,
) -> Result<(), NoMemory>
    requires { length places.now ≤ context.now.slots }
    ensures { OnOk result (Emits (guard context.now (StoreOf store align offset) places.now)
        writer.old writer.new) }
{
    let Some(address) = places.peek(1) else {
        return no_trap(writer);
    };
    let count = u64::from(offset) + u64::from(store.bytes());
    guard_memory(context, writer, address, places.len() - 2, count)
}

/// Of `memory.copy`.
fn guard_copied(
    context: &FunctionContext<'_, '_>,
    writer: &mut CodeWriter,
    places: &OperandPlaces,
) -> Result<(), NoMemory>
    requires { length places.now ≤ context.now.slots }
    ensures { OnOk result (Emits (guard context.now MemoryCopyOf places.now) writer.old
        writer.new) }
{
    let Some(to) = places.peek(2) else {
        return no_trap(writer);
    };
    let Some(second) = places.peek(1) else {
        return no_trap(writer);
    };
    let Some(len) = places.peek(0) else {
        return no_trap(writer);
    };
    guard_copy(context, writer, len, second, to, places.len() - 3)
}

/// Of `memory.fill`.
fn guard_filled(
    context: &FunctionContext<'_, '_>,
    writer: &mut CodeWriter,
    places: &OperandPlaces,
) -> Result<(), NoMemory>
    requires { length places.now ≤ context.now.slots }
    ensures { OnOk result (Emits (guard context.now MemoryFillOf places.now) writer.old
        writer.new) }
{
    let Some(to) = places.peek(2) else {
        return no_trap(writer);
    };
    let Some(len) = places.peek(0) else {
        return no_trap(writer);
    };
    guard_fill(context, writer, len, to, places.len() - 3)
}

fn write_guard(
    context: &FunctionContext<'_, '_>,
    writer: &mut CodeWriter,
    instruction: &Basic,
    places: &OperandPlaces,
) -> Result<(), NoMemory>
    requires { length places.now ≤ context.now.slots }
    ensures { OnOk result (Emits (guard context.now instruction.now places.now) writer.old
        writer.new) }
{
    match *instruction {
        Basic::Binary(t, operator) => guard_binary(context, writer, t, operator, places),
        Basic::Load(load, align, offset) => {
            guard_load(context, writer, load, align, offset, places)
        }
        Basic::Store(store, align, offset) => {
            guard_store(context, writer, store, align, offset, places)
        }
        Basic::MemoryCopy => guard_copied(context, writer, places),
        Basic::MemoryFill => guard_filled(context, writer, places),
        _ => no_trap(writer),
    }
}

/// The kind of a trap of a quotient of signed numbers.
fn kind_quotient(
    context: &FunctionContext<'_, '_>,
    writer: &mut CodeWriter,
    t: ValType,
    places: &OperandPlaces,
) -> Result<(), NoMemory>
    requires { length places.now ≤ context.now.slots }
    ensures { OnOk result (Emits (kind context.now (BinaryOf t DivSOf) places.now) writer.old
        writer.new) }
{
    let Some(_) = places.peek(1) else {
        return writer.const_value(Value::I32(2));
    };
    let Some(divisor) = places.peek(0) else {
        return writer.const_value(Value::I32(2));
    };
    kind_signed(context, writer, t, divisor, places.len() - 1)
}

/// Of an operator on two numbers.
fn kind_binary(
    context: &FunctionContext<'_, '_>,
    writer: &mut CodeWriter,
    t: ValType,
    operator: Binary,
    places: &OperandPlaces,
) -> Result<(), NoMemory>
    requires { length places.now ≤ context.now.slots }
    ensures { OnOk result (Emits (kind context.now (BinaryOf t operator) places.now) writer.old
        writer.new) }
{
    match operator {
        Binary::DivS => kind_quotient(context, writer, t, places),
        _ => writer.const_value(Value::I32(2)),
    }
}

fn write_kind(
    context: &FunctionContext<'_, '_>,
    writer: &mut CodeWriter,
    instruction: &Basic,
    places: &OperandPlaces,
) -> Result<(), NoMemory>
    requires { length places.now ≤ context.now.slots }
    ensures { OnOk result (Emits (kind context.now instruction.now places.now) writer.old
        writer.new) }
{
    match *instruction {
        Basic::Binary(t, operator) => kind_binary(context, writer, t, operator, places),
        _ => writer.const_value(Value::I32(4)),
    }
}

/// The code that leaves the kind with which an instruction traps on these operands.
pub fn kind(
    context: &FunctionContext<'_, '_>,
    writer: &mut CodeWriter,
    instruction: &Basic,
    places: &OperandPlaces,
) -> Result<(), NoMemory>
    requires { length places.now ≤ context.now.slots }
    ensures emits { OnOk result (Emits (kind context.now instruction.now places.now) writer.old
        writer.new) }
    ensures means { can_trap instruction.now ≡ true
        → OnOk result (Writes (IsKind context.now instruction.now places.now) writer.old
        writer.new) }
{
    write_kind(context, writer, instruction, places)
}

/// The guard of an instruction on these operands, which leaves 1 on the stack where it traps, and 0
/// where it does not.
pub fn guard(
    context: &FunctionContext<'_, '_>,
    writer: &mut CodeWriter,
    instruction: &Basic,
    places: &OperandPlaces,
) -> Result<(), NoMemory>
    requires { length places.now ≤ context.now.slots }
    ensures emits { OnOk result (Emits (guard context.now instruction.now places.now) writer.old
        writer.new) }
    ensures means { can_trap instruction.now ≡ true
        → OnOk result (Writes (IsGuard context.now instruction.now places.now) writer.old
        writer.new) }
{
    write_guard(context, writer, instruction, places)
}

/// Where the guard has left 1, the code unwinds with the kind.
fn tested(
    context: &FunctionContext<'_, '_>,
    writer: &mut CodeWriter,
    labels: u32,
    places: &OperandPlaces,
    offset: u32,
    instruction: &Basic,
) -> Result<(), NoMemory>
    requires shallow { labels + most_landings + 1 < 2 ^ 32 }
    requires room { length places.now ≤ context.now.slots }
    ensures { OnOk result (Emits (tested context.now labels places.now offset
        (kind context.now instruction.now places.now)) writer.old writer.new) }
{
    writer.open_if(None)?;
    kind(context, writer, instruction, places)?;
    context.unwind_kind(writer, labels, places, offset)?;
    writer.close()
}

/// The guard with the test of its verdict, which hands over in place.
fn guarded_in_place(
    context: &FunctionContext<'_, '_>,
    writer: &mut CodeWriter,
    labels: u32,
    places: &OperandPlaces,
    offset: u32,
    instruction: &Basic,
) -> Result<(), NoMemory>
    requires shallow { labels + most_landings + 1 < 2 ^ 32 }
    requires room { length places.now ≤ context.now.slots }
    ensures { OnOk result (Emits (checked None context.now labels places.now offset
        (guard context.now instruction.now places.now)
        (kind context.now instruction.now places.now)) writer.old writer.new) }
{
    guard(context, writer, instruction, places)?;
    tested(context, writer, labels, places, offset, instruction)
}

/// The guard, where it leaves 1 the code goes to this landing.
fn guarded_by_landing(
    context: &FunctionContext<'_, '_>,
    writer: &mut CodeWriter,
    labels: u32,
    places: &OperandPlaces,
    offset: u32,
    instruction: &Basic,
    number: u32,
) -> Result<(), NoMemory>
    requires shallow { labels + number < 2 ^ 32 }
    requires room { length places.now ≤ context.now.slots }
    ensures { OnOk result (Emits (checked (Some number) context.now labels places.now offset
        (guard context.now instruction.now places.now)
        (kind context.now instruction.now places.now)) writer.old writer.new) }
{
    context.set_offset(writer, offset)?;
    guard(context, writer, instruction, places)?;
    context.to_landing(writer, labels, number)
}

/// The guard with the test of its verdict, where the instruction needs one.
pub fn guarded(
    context: &FunctionContext<'_, '_>,
    writer: &mut CodeWriter,
    labels: u32,
    places: &OperandPlaces,
    offset: u32,
    instruction: &Basic,
) -> Result<(), NoMemory>
    requires shallow { labels + most_landings + 1 < 2 ^ 32 }
    requires room { length places.now ≤ context.now.slots }
    ensures { OnOk result (Emits (guarded (needs context.now offset instruction.now) context.now
        labels places.now offset instruction.now) writer.old writer.new) }
{
    if !needs(context, offset, instruction) {
        return Ok(());
    }
    match context.landing_of(offset, instruction, places) {
        Some(number) => {
            guarded_by_landing(context, writer, labels, places, offset, instruction, number)
        }
        None => guarded_in_place(context, writer, labels, places, offset, instruction),
    }
}
