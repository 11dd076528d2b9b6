//! Guards of divisions and remainders.

ghost use Rattle.std.specs.Prelude.{◌≡◌, ◌+◌, ◌≤◌, OnOk};
ghost use Rattle.rewrite_bodies.specs.calls.Guards.{least, minus_one, guard_zero, overflow_test};
ghost use Rattle.rewrite_bodies.specs.calls.Guards.{guard_signed, kind_signed};
ghost use Rattle.rewrite_code.specs.calls.Writing.{Emits};
ghost use Rattle.rewrite_code.specs.calls.Places.{place};

use crate::accesses::above;
use causes::NoMemory;
use rewrite_code::{CodeWriter, FunctionContext, OperandPlace};
use wasm_syntax::{Basic, Binary, Compare, ValType, Value};

/// The least signed number of a type.
fn least(t: ValType) -> Value
    ensures { result ≡ least t }
{
    match t {
        ValType::I32 => Value::I32(0x8000_0000),
        ValType::I64 => Value::I64(0x8000_0000_0000_0000),
    }
}

/// -1.
fn minus_one(t: ValType) -> Value
    ensures { result ≡ minus_one t }
{
    match t {
        ValType::I32 => Value::I32(0xFFFF_FFFF),
        ValType::I64 => Value::I64(0xFFFF_FFFF_FFFF_FFFF),
    }
}

/// Whether the divisor is zero.
pub(crate) fn guard_zero(
    context: &FunctionContext<'_, '_>,
    writer: &mut CodeWriter,
    t: ValType,
    divisor: OperandPlace,
    height: usize,
) -> Result<(), NoMemory>
    requires { height ≤ context.now.slots }
    ensures { OnOk result (Emits (guard_zero context.now t (place divisor) height) writer.old
        writer.new) }
{
    context.fetch(writer, divisor, height)?;
    writer.basic(Basic::Eqz(t))
}

/// Whether the quotient is past the range. The dividend is at this height, and the divisor above
/// it.
fn overflow_test(
    context: &FunctionContext<'_, '_>,
    writer: &mut CodeWriter,
    t: ValType,
    divisor: OperandPlace,
    dividend: OperandPlace,
    height: usize,
) -> Result<(), NoMemory>
    requires { height + 1 ≤ context.now.slots }
    ensures { OnOk result (Emits (overflow_test context.now t (place divisor) (place dividend)
        height) writer.old writer.new) }
{
    let upper = above(context, height, 1);
    context.fetch(writer, dividend, height)?;
    writer.const_value(least(t))?;
    writer.basic(Basic::Compare(t, Compare::Eq))?;
    context.fetch(writer, divisor, upper)?;
    writer.const_value(minus_one(t))?;
    writer.basic(Basic::Compare(t, Compare::Eq))?;
    writer.basic(Basic::Binary(ValType::I32, Binary::And))
}

/// Of a quotient of signed numbers.
pub(crate) fn guard_signed(
    context: &FunctionContext<'_, '_>,
    writer: &mut CodeWriter,
    t: ValType,
    divisor: OperandPlace,
    dividend: OperandPlace,
    height: usize,
) -> Result<(), NoMemory>
    requires { height + 1 ≤ context.now.slots }
    ensures { OnOk result (Emits (guard_signed context.now t (place divisor) (place dividend)
        height) writer.old writer.new) }
{
    let upper = above(context, height, 1);
    overflow_test(context, writer, t, divisor, dividend, height)?;
    guard_zero(context, writer, t, divisor, upper)?;
    writer.basic(Basic::Binary(ValType::I32, Binary::Or))
}

/// The kind of a trap of a quotient of signed numbers: 2 where the divisor is zero, or else 3.
pub(crate) fn kind_signed(
    context: &FunctionContext<'_, '_>,
    writer: &mut CodeWriter,
    t: ValType,
    divisor: OperandPlace,
    height: usize,
) -> Result<(), NoMemory>
    requires { height ≤ context.now.slots }
    ensures { OnOk result (Emits (kind_signed context.now t (place divisor) height) writer.old
        writer.new) }
{
    writer.const_value(Value::I32(2))?;
    writer.const_value(Value::I32(3))?;
    guard_zero(context, writer, t, divisor, height)?;
    writer.basic(Basic::Select)
}
