//! What an operator does to the stack (DWARF 4 section 2.5.1).

ghost use Rattle.std.specs.Prelude.{◌≡◌, ◌∷◌, Ok};
ghost use Rattle.int_ops.specs.Integers.{binary, compare};
ghost use Rattle.int_ops.specs.declared.operators.Binary.TheVariants.{Sub};
ghost use Rattle.dwarf_expr.specs.Meaning as meaning;
ghost use Rattle.dwarf_expr.specs.Meaning.{pushed, pushed_if, on_one, on_two, flag, spaced, effect};
ghost use Rattle.dwarf_expr.specs.inner.Steps.{Leaves};

use crate::answer::Base;
use crate::operators::{Operator, Space};
use crate::stack::Stack;
use crate::view::FrameView;
use int_ops::{ArithTrap, Binary, Compare, i64_binary, i64_compare, wrap};
use wasm_syntax::Seen;

/// Why an operator has no effect.
#[derive(Clone, Copy)]
pub(crate) enum Event {
    /// It can't be applied.
    Bad,
    /// A value that it needs is not recorded.
    Missing,
    /// It reads there, past the end of the memory.
    Outside(u32),
    /// There would be more than 64 entries.
    TooDeep,
}

// ---- numbers of 64 bits

/// The quotient of the least number by -1 is the least again.
fn settled(op: Binary, a: u64, b: u64) -> Result<u64, Event>
    ensures { result ≡ meaning.settled a (binary 64 op a b) }
{
    match i64_binary(op, a, b) {
        Ok(word) => Ok(word),
        Err(ArithTrap::DivideByZero) => Err(Event::Bad),
        Err(ArithTrap::Overflow) => Ok(a),
    }
}

/// A shift, which gives `far` by 64 or more.
fn shifted(op: Binary, a: u64, b: u64, far: u64) -> Result<u64, Event>
    ensures { result ≡ meaning.shifted op a b far }
{
    if b < 64 { settled(op, a, b) } else { Ok(far) }
}

fn sign_word(a: u64) -> u64
    ensures { result ≡ meaning.sign_word a }
{
    if a < 0x8000_0000_0000_0000 {
        0
    } else {
        u64::MAX
    }
}

fn calculated(op: Binary, a: u64, b: u64) -> Result<u64, Event>
    ensures { result ≡ meaning.calculated op a b }
{
    match op {
        Binary::Shl | Binary::ShrU => shifted(op, a, b, 0),
        Binary::ShrS => shifted(op, a, b, sign_word(a)),
        _ => settled(op, a, b),
    }
}

// ---- what a frame shows

/// An i32 is zero-extended.
fn seen_at(list: &[Seen], index: u64) -> Result<u64, Event>
    ensures { result ≡ meaning.seen_at list.now index }
{
    if list.is_empty() {
        return Err(Event::Missing);
    }
    match list.get(index as usize) {
        Some(Seen::I32(value)) => Ok(u64::from(*value)),
        Some(Seen::I64(value)) => Ok(*value),
        Some(Seen::Missing) => Err(Event::Missing),
        None => Err(Event::Bad),
    }
}

fn located(view: &FrameView<'_>, space: Space, index: u64) -> Result<u64, Event>
    ensures { result ≡ meaning.seen_at (spaced view.now space) index }
{
    match space {
        Space::Local => seen_at(view.locals, index),
        Space::Global => seen_at(view.globals, index),
        Space::Operand => seen_at(view.operands, index),
    }
}

fn based(base: Base, offset: i64) -> Result<u64, Event>
    ensures { result ≡ meaning.based base offset }
{
    match base {
        Base::At(address) => Ok(u64::from(address).wrapping_add(offset.cast_unsigned())),
        Base::Missing => Err(Event::Missing),
        Base::Absent => Err(Event::Bad),
    }
}

/// One, two or four bytes at an address.
fn dereferenced(view: &FrameView<'_>, bytes: u64, address: u64) -> Result<u64, Event>
    ensures { result ≡ meaning.dereferenced view.now bytes address }
{
    if bytes == 1 || bytes == 2 || bytes == 4 {
        view.load(wrap(address), bytes as u32)
    } else {
        Err(Event::Bad)
    }
}

// ---- operators

fn dup(stack: &mut Stack) -> Result<(), Event>
    ensures { Leaves result stack.new (on_one stack.old (λ x rest. pushed stack.old x)) }
{
    let x = stack.pop()?;
    stack.push(x)?;
    stack.push(x)
}

fn drop_top(stack: &mut Stack) -> Result<(), Event>
    ensures { Leaves result stack.new (on_one stack.old (λ x rest. Ok rest)) }
{
    stack.pop()?;
    Ok(())
}

fn over(stack: &mut Stack) -> Result<(), Event>
    ensures { Leaves result stack.new (on_two stack.old (λ x y rest. pushed stack.old x)) }
{
    let y = stack.pop()?;
    let x = stack.pop()?;
    stack.push(x)?;
    stack.push(y)?;
    stack.push(x)
}

fn swap(stack: &mut Stack) -> Result<(), Event>
    ensures { Leaves result stack.new (on_two stack.old (λ x y rest. Ok (x ∷ y ∷ rest))) }
{
    let y = stack.pop()?;
    let x = stack.pop()?;
    stack.push(y)?;
    stack.push(x)
}

/// An operation on the topmost entry and a number.
fn with_number(stack: &mut Stack, op: Binary, number: u64) -> Result<(), Event>
    ensures { Leaves result stack.new
        (on_one stack.old (λ x rest. pushed_if rest (meaning.calculated op x number))) }
{
    let x = stack.pop()?;
    stack.push(calculated(op, x, number)?)
}

fn neg(stack: &mut Stack) -> Result<(), Event>
    ensures { Leaves result stack.new
        (on_one stack.old (λ x rest. pushed_if rest (meaning.calculated Sub 0 x))) }
{
    let x = stack.pop()?;
    stack.push(calculated(Binary::Sub, 0, x)?)
}

fn arithmetic(stack: &mut Stack, op: Binary) -> Result<(), Event>
    ensures { Leaves result stack.new
        (on_two stack.old (λ x y rest. pushed_if rest (meaning.calculated op x y))) }
{
    let y = stack.pop()?;
    let x = stack.pop()?;
    stack.push(calculated(op, x, y)?)
}

fn comparison(stack: &mut Stack, op: Compare) -> Result<(), Event>
    ensures { Leaves result stack.new
        (on_two stack.old (λ x y rest. pushed rest (flag (compare 64 op x y)))) }
{
    let y = stack.pop()?;
    let x = stack.pop()?;
    stack.push(u64::from(i64_compare(op, x, y)))
}

fn deref(stack: &mut Stack, view: &FrameView<'_>, bytes: u64) -> Result<(), Event>
    ensures { Leaves result stack.new
        (on_one stack.old (λ a rest. pushed_if rest (meaning.dereferenced view.now bytes a))) }
{
    let address = stack.pop()?;
    stack.push(dereferenced(view, bytes, address)?)
}

fn push_if(stack: &mut Stack, entry: Result<u64, Event>) -> Result<(), Event>
    ensures { Leaves result stack.new (pushed_if stack.old entry) }
{
    stack.push(entry?)
}

/// Applies an operator.
#[tactic(auto, unfolding(crate::specs::Meaning::effect))]
pub(crate) fn apply(
    operator: Operator,
    stack: &mut Stack,
    view: &FrameView<'_>,
    base: Base,
) -> Result<(), Event>
    ensures { Leaves result stack.new (effect view.now base operator stack.old) }
{
    match operator {
        Operator::Constant(word) => stack.push(word),
        Operator::Dup => dup(stack),
        Operator::Drop => drop_top(stack),
        Operator::Over => over(stack),
        Operator::Swap => swap(stack),
        Operator::Neg => neg(stack),
        Operator::Not => with_number(stack, Binary::Xor, u64::MAX),
        Operator::Arithmetic(op) => arithmetic(stack, op),
        Operator::Comparison(op) => comparison(stack, op),
        Operator::PlusUconst(number) => with_number(stack, Binary::Add, number),
        Operator::Deref(bytes) => deref(stack, view, bytes),
        Operator::Fbreg(offset) => push_if(stack, based(base, offset)),
        Operator::Location(space, index) => push_if(stack, located(view, space, index)),
        Operator::Piece(_) | Operator::Nop | Operator::StackValue => Ok(()),
    }
}
