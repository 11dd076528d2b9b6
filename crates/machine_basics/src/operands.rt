//! Instructions on operands alone (Core 4.4.1, 4.4.2). Where the operands do not fit the
//! instruction, nothing is said of them.

ghost use Rattle.std.specs.Prelude.{◌≡◌, ◌∷◌, List, drop, slice_set, IfSome};
ghost use Rattle.wasm_syntax.specs.Host.{World};
ghost use Rattle.wasm_syntax.specs.declared.value.Value.{Value as Val};
ghost use Rattle.wasm_syntax.specs.declared.instruction.Basic.TheVariants as basics;
ghost use Rattle.wasm_syntax.specs.declared.value.ValType.TheVariants as types;
ghost use Rattle.wasm_syntax.specs.Effect.{trap_kind};
ghost use Rattle.machine_basics.specs.calls.Performs.{on_operands, UnlessDone};
ghost use Rattle.machine_basics.specs.inner.Parts.{Acts, Pushes};
ghost use Rattle.machine_basics.specs.calls.Traps.{trap_code};

use crate::answer::{Performed, TrapKind};
use crate::numeric;
use int_ops::{ArithTrap, Binary, Compare, Narrow32, Narrow64, Unary};
use pm_text::Stack;
use wasm_syntax::{Convert, ValType, Value};

// ---- results in the place of operands

/// Writes a result over the operand that it comes from.
#[inline(always)]
fn replace_one(values: &mut Stack<Value>, found: Option<Value>) -> Performed
    ensures found { IfSome found (λ v. values.new ≡ slice_set values.old 0 v) }
    ensures done { result ≡ Performed.Done }
{
    match found {
        Some(v) => {
            values.set_top(v);
            Performed::Done
        }
        None => Performed::Done,
    }
}

/// Writes a result over the two operands that it comes from.
#[inline(always)]
fn replace_two(values: &mut Stack<Value>, found: Option<Value>) -> Performed
    ensures found { IfSome found (λ v. values.new ≡ slice_set (drop 1 values.old) 0 v) }
    ensures done { result ≡ Performed.Done }
{
    match found {
        Some(v) => {
            values.discard(1);
            values.set_top(v);
            Performed::Done
        }
        None => Performed::Done,
    }
}

/// Puts a value on top.
#[inline(always)]
pub(crate) fn push(values: &mut Stack<Value>, v: Value) -> Performed
    ensures { Pushes result v values.old values.new }
{
    match values.push(v) {
        Ok(()) => Performed::Done,
        Err(_) => Performed::NoMemory,
    }
}

// ---- Core 4.4.2

#[inline(always)]
pub(crate) fn drop_top(values: &mut Stack<Value>) -> Performed
    ensures effect { (w : World) (ls : List Val)
        → Acts (on_operands basics.Drop w ls values.old) result w ls values.new }
    ensures done { result ≡ Performed.Done }
{
    values.discard(1);
    Performed::Done
}

/// Leaves the deepest of three operands, or where the topmost one is 0, the one between.
#[inline(always)]
pub(crate) fn select(values: &mut Stack<Value>) -> Performed
    ensures effect { (w : World) (ls : List Val)
        → Acts (on_operands basics.Select w ls values.old) result w ls values.new }
    ensures done { result ≡ Performed.Done }
{
    match (values.peek(0), values.peek(1)) {
        (Some(Value::I32(0)), Some(b)) => {
            values.discard(2);
            values.set_top(b);
            Performed::Done
        }
        // The value that is left stands there already.
        _ => {
            values.discard(2);
            Performed::Done
        }
    }
}

// ---- Core 4.4.1

#[inline(always)]
pub(crate) fn constant(values: &mut Stack<Value>, v: Value) -> Performed
    ensures effect { (w : World) (ls : List Val)
        → Acts (on_operands (basics.Const v) w ls values.old) result w ls values.new }
    ensures same { UnlessDone result (values.new ≡ values.old) }
{
    push(values, v)
}

#[inline(always)]
pub(crate) fn eqz(values: &mut Stack<Value>, t: ValType) -> Performed
    ensures effect { (w : World) (ls : List Val)
        → Acts (on_operands (basics.Eqz t) w ls values.old) result w ls values.new }
    ensures done { result ≡ Performed.Done }
{
    match values.peek(0) {
        Some(a) => replace_one(values, numeric::eqz(t, a)),
        None => Performed::Done,
    }
}

#[inline(never)]
pub(crate) fn unary(values: &mut Stack<Value>, t: ValType, op: Unary) -> Performed
    ensures effect { (w : World) (ls : List Val)
        → Acts (on_operands (basics.Unary t op) w ls values.old) result w ls values.new }
    ensures done { result ≡ Performed.Done }
{
    match values.peek(0) {
        Some(a) => replace_one(values, numeric::unary(t, op, a)),
        None => Performed::Done,
    }
}

#[inline(always)]
pub(crate) fn compare(values: &mut Stack<Value>, t: ValType, op: Compare) -> Performed
    ensures effect { (w : World) (ls : List Val)
        → Acts (on_operands (basics.Compare t op) w ls values.old) result w ls values.new }
    ensures done { result ≡ Performed.Done }
{
    match values.peek(1) {
        Some(a) => match values.peek(0) {
            Some(b) => replace_two(values, numeric::compare(t, op, a, b)),
            None => Performed::Done,
        },
        None => Performed::Done,
    }
}

/// The same of 64 bits, which is called.
#[inline(never)]
pub(crate) fn compare_64(values: &mut Stack<Value>, op: Compare) -> Performed
    ensures effect { (w : World) (ls : List Val)
        → Acts (on_operands (basics.Compare types.I64 op) w ls values.old) result w ls values.new }
    ensures done { result ≡ Performed.Done }
{
    compare(values, ValType::I64, op)
}

fn trap_of(trap: ArithTrap) -> TrapKind
    ensures { trap_code result ≡ trap_kind trap }
{
    match trap {
        ArithTrap::DivideByZero => TrapKind::DivideByZero,
        ArithTrap::Overflow => TrapKind::Overflow,
    }
}

/// A division or a remainder may trap. The operands are then still there.
#[inline(always)]
pub(crate) fn binary(values: &mut Stack<Value>, t: ValType, op: Binary) -> Performed
    ensures effect { (w : World) (ls : List Val)
        → Acts (on_operands (basics.Binary t op) w ls values.old) result w ls values.new }
    ensures room { result ≡ Performed.NoMemory → ⊥ }
    ensures same { UnlessDone result (values.new ≡ values.old) }
{
    match values.peek(1) {
        Some(a) => match values.peek(0) {
            Some(b) => match numeric::binary(t, op, a, b) {
                Some(Ok(v)) => replace_two(values, Some(v)),
                Some(Err(trap)) => Performed::Trap(trap_of(trap)),
                None => Performed::Done,
            },
            None => Performed::Done,
        },
        None => Performed::Done,
    }
}

/// The same of 64 bits. It is called, as the loop has room for the code of the usual instructions
/// alone.
#[inline(never)]
pub(crate) fn binary_64(values: &mut Stack<Value>, op: Binary) -> Performed
    ensures effect { (w : World) (ls : List Val)
        → Acts (on_operands (basics.Binary types.I64 op) w ls values.old) result w ls values.new }
    ensures room { result ≡ Performed.NoMemory → ⊥ }
    ensures same { UnlessDone result (values.new ≡ values.old) }
{
    binary(values, ValType::I64, op)
}

#[inline(never)]
pub(crate) fn convert(values: &mut Stack<Value>, c: Convert) -> Performed
    ensures effect { (w : World) (ls : List Val)
        → Acts (on_operands (basics.Convert c) w ls values.old) result w ls values.new }
    ensures done { result ≡ Performed.Done }
{
    match values.peek(0) {
        Some(a) => replace_one(values, numeric::convert(c, a)),
        None => Performed::Done,
    }
}

#[inline(never)]
pub(crate) fn extend_32(values: &mut Stack<Value>, bits: Narrow32) -> Performed
    ensures effect { (w : World) (ls : List Val)
        → Acts (on_operands (basics.Extend32 bits) w ls values.old) result w ls values.new }
    ensures done { result ≡ Performed.Done }
{
    match values.peek(0) {
        Some(a) => replace_one(values, numeric::extend_32(bits, a)),
        None => Performed::Done,
    }
}

#[inline(never)]
pub(crate) fn extend_64(values: &mut Stack<Value>, bits: Narrow64) -> Performed
    ensures effect { (w : World) (ls : List Val)
        → Acts (on_operands (basics.Extend64 bits) w ls values.old) result w ls values.new }
    ensures done { result ≡ Performed.Done }
{
    match values.peek(0) {
        Some(a) => replace_one(values, numeric::extend_64(bits, a)),
        None => Performed::Done,
    }
}
