//! Guards of accesses to the memory.

ghost use Rattle.std.specs.Prelude.{◌≡◌, ◌+◌, ◌==◌, ◌≤◌, OnOk};
ghost use Rattle.rewrite_bodies.specs.calls.Guards.{past_end, beyond_word, out_test};
ghost use Rattle.rewrite_bodies.specs.calls.Guards.{guard_memory, range_test, guard_copy};
ghost use Rattle.rewrite_bodies.specs.calls.Guards.{guard_fill};
ghost use Rattle.rewrite_code.specs.calls.Writing.{Emits};
ghost use Rattle.rewrite_code.specs.calls.Places.{place};

use causes::NoMemory;
use rewrite_code::{CodeWriter, FunctionContext, OperandPlace};
use wasm_syntax::{Basic, Binary, Compare, Convert, ValType, Value};

/// The bytes of most accesses, by which the local of the length is less than it.
const WORD: u64 = 4;

/// The height so many operands above another one.
pub(crate) fn above(context: &FunctionContext<'_, '_>, height: usize, count: usize) -> usize
    requires { height + count ≤ context.now.slots }
    ensures { result ≡ height + count }
{
    // The number of heights is read so that its bound is known.
    let _ = context.slots();
    height + count
}

/// Whether the i64 on top is past the end of the memory.
fn past_end(context: &FunctionContext<'_, '_>, writer: &mut CodeWriter) -> Result<(), NoMemory>
    ensures { OnOk result (Emits (past_end context.now) writer.old writer.new) }
{
    context.get_length(writer)?;
    writer.const_value(Value::I64(WORD))?;
    writer.basic(Basic::Binary(ValType::I64, Binary::Add))?;
    writer.basic(Basic::Compare(ValType::I64, Compare::GtU))
}

/// What so many bytes are more than four is taken from the i64 on top.
fn beyond_word(writer: &mut CodeWriter, count: u64) -> Result<(), NoMemory>
    ensures { OnOk result (Emits (beyond_word (count == 4) count) writer.old writer.new) }
{
    if count == WORD {
        return Ok(());
    }
    writer.const_value(Value::I64(count.wrapping_sub(WORD)))?;
    writer.basic(Basic::Binary(ValType::I64, Binary::Sub))
}

/// Whether so many bytes from the address on top pass the end: whether it is greater than the
/// length less these bytes, which an engine can keep through a loop.
fn out_test(
    context: &FunctionContext<'_, '_>,
    writer: &mut CodeWriter,
    count: u64,
) -> Result<(), NoMemory>
    ensures { OnOk result (Emits (out_test context.now count) writer.old writer.new) }
{
    writer.basic(Basic::Convert(Convert::ExtendU))?;
    context.get_length(writer)?;
    beyond_word(writer, count)?;
    writer.basic(Basic::Compare(ValType::I64, Compare::GtS))
}

/// Whether an access of so many bytes, offset included, passes the end.
pub(crate) fn guard_memory(
    context: &FunctionContext<'_, '_>,
    writer: &mut CodeWriter,
    address: OperandPlace,
    height: usize,
    count: u64,
) -> Result<(), NoMemory>
    requires { height ≤ context.now.slots }
    ensures { OnOk result (Emits (guard_memory context.now (place address) height count) writer.old
        writer.new) }
{
    context.fetch(writer, address, height)?;
    out_test(context, writer, count)
}

/// Whether so many bytes from an address on pass the end. Both operands have their heights.
fn range_test(
    context: &FunctionContext<'_, '_>,
    writer: &mut CodeWriter,
    address: (OperandPlace, usize),
    count: (OperandPlace, usize),
) -> Result<(), NoMemory>
    requires { (address.1 ≤ context.now.slots) × (count.1 ≤ context.now.slots) }
    ensures { OnOk result (Emits (range_test context.now (place address.0) address.1 (place count.0)
        count.1) writer.old writer.new) }
{
    context.fetch(writer, address.0, address.1)?;
    writer.basic(Basic::Convert(Convert::ExtendU))?;
    context.fetch(writer, count.0, count.1)?;
    writer.basic(Basic::Convert(Convert::ExtendU))?;
    writer.basic(Basic::Binary(ValType::I64, Binary::Add))?;
    past_end(context, writer)
}

/// Of `memory.copy`. Where to is at this height, and above it are where from and the length.
pub(crate) fn guard_copy(
    context: &FunctionContext<'_, '_>,
    writer: &mut CodeWriter,
    len: OperandPlace,
    from: OperandPlace,
    to: OperandPlace,
    height: usize,
) -> Result<(), NoMemory>
    requires { height + 2 ≤ context.now.slots }
    ensures { OnOk result (Emits (guard_copy context.now (place len) (place from) (place to) height)
        writer.old writer.new) }
{
    let second = above(context, height, 1);
    let third = above(context, height, 2);
    range_test(context, writer, (from, second), (len, third))?;
    range_test(context, writer, (to, height), (len, third))?;
    writer.basic(Basic::Binary(ValType::I32, Binary::Or))
}

/// Of `memory.fill`. Where to is at this height, and the length is the second one above it.
pub(crate) fn guard_fill(
    context: &FunctionContext<'_, '_>,
    writer: &mut CodeWriter,
    len: OperandPlace,
    to: OperandPlace,
    height: usize,
) -> Result<(), NoMemory>
    requires { height + 2 ≤ context.now.slots }
    ensures { OnOk result (Emits (guard_fill context.now (place len) (place to) height) writer.old
        writer.new) }
{
    let third = above(context, height, 2);
    range_test(context, writer, (to, height), (len, third))
}
