//! What groups of instructions do to the stack.

ghost use Rattle.std.specs.Prelude.{◌≡◌, ◌∷◌, [], ◌++◌, reverse, option_to_list, Some, None};
ghost use Rattle.validate_body.specs.calls.Frames.{pops, pushes, forget};
ghost use Rattle.validate_body.specs.calls.Algorithm.{apply as apply_arrow, select as select_frames};
ghost use Rattle.validate_body.specs.calls.Algorithm.{both as both_types, closed, drop_any};
ghost use Rattle.validate_body.specs.inner.Steps.{Closed, arrow_of};
ghost use Rattle.validate_body.specs.inner.Stacked.{Did};
ghost use Rattle.wasm_syntax.specs.declared.value.ValType.TheVariants as types;
ghost use Rattle.wasm_syntax.specs.Typing.{◌⇒◌};

use crate::shape::Shape;
use crate::{Control, StackFault, TypeStack};
use wasm_syntax::{FuncType, ValType};

/// Takes a type, if there is one to take.
pub fn pop_option(stack: &mut TypeStack, t: Option<ValType>) -> Result<(), StackFault>
    ensures { Did result (pops stack.old (option_to_list t)) stack.new }
{
    match t {
        Some(t) => stack.pop(t),
        None => Ok(()),
    }
}

/// Puts a type, if there is one to put.
pub fn push_option(stack: &mut TypeStack, t: Option<ValType>) -> Result<(), StackFault>
    ensures { Did result (Some (pushes stack.old (option_to_list t))) stack.new }
{
    match t {
        Some(t) => stack.push(Some(t)),
        None => Ok(()),
    }
}

/// Takes two types, the first one topmost.
pub fn pop_two(
    stack: &mut TypeStack,
    first: Option<ValType>,
    second: Option<ValType>,
) -> Result<(), StackFault>
    ensures { Did result (pops stack.old (option_to_list first ++ option_to_list second))
        stack.new }
{
    pop_option(stack, first)?;
    pop_option(stack, second)
}

/// Takes three types, the first one topmost.
fn pop_three(
    stack: &mut TypeStack,
    first: Option<ValType>,
    second: Option<ValType>,
    third: Option<ValType>,
) -> Result<(), StackFault>
    ensures { Did result (pops stack.old
        (option_to_list first ++ option_to_list second ++ option_to_list third)) stack.new }
{
    pop_option(stack, first)?;
    pop_two(stack, second, third)
}

/// Takes and gives types.
pub fn apply(stack: &mut TypeStack, shape: Shape) -> Result<(), StackFault>
    ensures { Did result (apply_arrow stack.old (arrow_of shape)) stack.new }
{
    pop_three(stack, shape.first, shape.second, shape.third)?;
    push_option(stack, shape.gives)
}

/// Takes a type, whichever it is.
pub fn drop_top(stack: &mut TypeStack) -> Result<(), StackFault>
    ensures { Did result (drop_any stack.old) stack.new }
{
    stack.pop_any()?;
    Ok(())
}

/// The type that both are, as far as it is known.
fn both(a: Option<ValType>, b: Option<ValType>) -> Option<Option<ValType>>
    ensures { result ≡ both_types a b }
{
    match (a, b) {
        (None, b) => Some(b),
        (Some(t), None) => Some(Some(t)),
        (Some(t), Some(u)) => if t == u { Some(Some(t)) } else { None },
    }
}

/// Takes an i32 and two types that are the same, and gives that type.
pub fn select(stack: &mut TypeStack) -> Result<(), StackFault>
    ensures { Did result (select_frames stack.old) stack.new }
{
    stack.pop(ValType::I32)?;
    let a = stack.pop_any()?;
    let b = stack.pop_any()?;
    match both(a, b) {
        Some(t) => stack.push(t),
        None => Err(StackFault::Wrong),
    }
}

/// Takes types, the last one first. Dead code gives any types, so there it stops once nothing else
/// is left.
pub fn pop_all(stack: &mut TypeStack, types: &[ValType]) -> Result<(), StackFault>
    ensures { Did result (pops stack.old (reverse types.now)) stack.new }
{
    let mut n = types.len();
    while n > 0 {
        if stack.gives_any() {
            return Ok(());
        }
        n -= 1;
        match stack.pop(types[n]) {
            Ok(()) => {}
            Err(fault) => return Err(fault),
        }
    }
    Ok(())
}

/// Puts types, the first one first.
pub fn push_all(stack: &mut TypeStack, types: &[ValType]) -> Result<(), StackFault>
    ensures { Did result (Some (pushes stack.old (reverse types.now))) stack.new }
{
    let mut n = 0;
    while n < types.len() {
        stack.push(Some(types[n]))?;
        n += 1;
    }
    Ok(())
}

/// A call.
pub fn call(stack: &mut TypeStack, t: &FuncType) -> Result<(), StackFault>
    ensures { Did result (apply_arrow stack.old (reverse t.now.params ⇒ reverse t.now.results))
        stack.new }
{
    pop_all(stack, t.params.as_slice())?;
    push_all(stack, t.results.as_slice())
}

/// A call, with the index on top.
pub fn call_indirect(stack: &mut TypeStack, t: &FuncType) -> Result<(), StackFault>
    ensures { Did result (apply_arrow stack.old
        (types.I32 ∷ reverse t.now.params ⇒ reverse t.now.results)) stack.new }
{
    stack.pop(ValType::I32)?;
    call(stack, t)
}

/// The end of a frame: its types are those that it gives.
pub fn close(stack: &mut TypeStack) -> Result<Control, StackFault>
    ensures { Closed result stack.old stack.new }
{
    let t = stack.ends();
    pop_option(stack, t)?;
    stack.leave()
}
