//! Guards of `unreachable` and of `call_indirect`.

ghost use Rattle.std.specs.Prelude.{◌≤◌, ℕ, OnOk};
ghost use Rattle.rewrite_bodies.specs.calls.Pieces.{const, i32, call, fetch};
ghost use Rattle.rewrite_bodies.specs.calls.Slots.{Ctx};
ghost use Rattle.rewrite_bodies.specs.calls.Verdicts.{IsGuardOfUnreachable, IsGuardOfEntry};
ghost use Rattle.rewrite_code.specs.calls.Writing.{Emits};
ghost use Rattle.rewrite_code.specs.calls.Places.{place};
ghost use Rattle.guard_insert.specs.calls.Meaning.{Writes};

use causes::NoMemory;
use rewrite_code::{CodeWriter, FunctionContext, OperandPlace};
use wasm_syntax::Value;

fn write_kind(writer: &mut CodeWriter, kind: u32) -> Result<(), NoMemory>
    ensures { OnOk result (Emits (const (i32 kind)) writer.old writer.new) }
{
    writer.const_value(Value::I32(kind))
}

/// The guard of `unreachable`, which leaves 1; its kind is 1 too.
pub fn guard_unreachable(writer: &mut CodeWriter) -> Result<(), NoMemory>
    ensures emits { OnOk result (Emits (const (i32 1)) writer.old writer.new) }
    ensures means { (C : Ctx) → OnOk result
        (Writes (IsGuardOfUnreachable C) writer.old writer.new) }
{
    write_kind(writer, 1)
}

fn write_entry(
    context: &FunctionContext<'_, '_>,
    writer: &mut CodeWriter,
    entry: OperandPlace,
    height: usize,
    helper: u32,
) -> Result<(), NoMemory>
    requires { height ≤ context.now.slots }
    ensures { OnOk result (Emits (λ k. fetch context.now (place entry) height (call helper k))
        writer.old writer.new) }
{
    context.fetch(writer, entry, height)?;
    writer.call(helper)
}

/// The guard of `call_indirect`, of the type that has this helper: the operand at a height is the
/// number of the entry. It leaves the kind or 0 on the stack.
pub fn guard_entry(
    context: &FunctionContext<'_, '_>,
    writer: &mut CodeWriter,
    entry: OperandPlace,
    height: usize,
    helper: u32,
) -> Result<(), NoMemory>
    requires { height ≤ context.now.slots }
    ensures emits { OnOk result (Emits (λ k. fetch context.now (place entry) height (call helper k))
        writer.old writer.new) }
    ensures means { (ftype : ℕ) → OnOk result
        (Writes (IsGuardOfEntry context.now ftype helper (place entry) height) writer.old
        writer.new) }
{
    write_entry(context, writer, entry, height, helper)
}
