//! Functions are called (Core 4.4.7).

ghost use Rattle.std.specs.Prelude.{◌≡◌, ℕ, true, false, ◌+◌, ◌-◌, ◌<◌, ◌≤◌, ◌∷◌, ◌++◌, List, length, reverse};
ghost use Rattle.std.specs.Prelude.{replicate, map, slice_get, OnOk, MatchOption, Some, None};
ghost use Rattle.wasm_syntax.specs.declared.value.Value.{Value as Val};
ghost use Rattle.wasm_syntax.specs.Module.{declared_locals};
ghost use Rattle.wasm_syntax.specs.Machine.{zero_of, zeros};
ghost use Rattle.wasm_syntax.specs.Tree.{Goes, Call};
ghost use Rattle.machine_code.specs.declared.code.Code.{Code as Prepared};
ghost use Rattle.machine_steps.specs.calls.FramesMeet.{Point, Inner, Reads, Meets, step_at, call_at, CallPlace};
ghost use Rattle.machine_steps.specs.inner.Moves.{Becomes};

use crate::layout::{CallFrame, CallStack, Stepped};
use causes::NoMemory;
use machine_basics::TrapKind;
use machine_code::Code;
use pm_text::Stack;
use wasm_syntax::{LocalGroup, Value};

/// A zero for each local of a group, on top.
fn push_group(values: &mut Stack<Value>, group: LocalGroup) -> Result<(), NoMemory>
    ensures { OnOk result (values.new ≡ replicate group.count (zero_of group.vtype) ++ values.old) }
{
    let zero = group.vtype.zero();
    for i in 0..group.count {
        values.push(zero)?;
    }
    Ok(())
}

/// A zero for each local that a body declares, on top.
fn push_locals(values: &mut Stack<Value>, groups: &[LocalGroup]) -> Result<(), NoMemory>
    ensures { OnOk result (values.new
        ≡ reverse (zeros (declared_locals groups.now)) ++ values.old) }
{
    for group in groups {
        push_group(values, *group)?;
    }
    Ok(())
}

/// Enters a function with its arguments on top. Its caller goes on at `next`.
pub(crate) fn enter(m: &mut CallStack, callee: &Code, function: usize, next: usize) -> Stepped
    ensures { Becomes result m.new (record {
      values = reverse (zeros (declared_locals callee.now.body.now.groups)) ++ m.old.values;
      controls = m.old.controls;
      frames = record {
        function = function;
        base = length m.old.values - callee.now.params;
        floor = length (reverse (zeros (declared_locals callee.now.body.now.groups))
            ++ m.old.values);
        controls = length m.old.controls;
        returns_to = next;
      } ∷ m.old.frames;
      position = 0;
    }) }
{
    let base = m.values.len().saturating_sub(callee.params);
    match push_locals(&mut m.values, callee.body.groups.as_slice()) {
        Ok(()) => {
            let frame = CallFrame {
                function,
                base,
                floor: m.values.len(),
                controls: m.controls.len(),
                returns_to: next,
            };
            match m.frames.push(frame) {
                Ok(()) => {
                    m.position = 0;
                    Stepped::Next
                }
                Err(_) => Stepped::NoMemory,
            }
        }
        Err(_) => Stepped::NoMemory,
    }
}

/// Whether there are as many frames as may be.
fn is_full(m: &CallStack, depth: usize) -> bool
    ensures full { result ≡ true → depth ≤ length m.now.frames }
    ensures room { result ≡ false → length m.now.frames < depth }
{
    m.frames.len() >= depth
}

/// The code of a function that the module defines, by its index among these.
pub fn code_at<'a, 'b>(codes: &'b [Code<'a>], function: usize) -> Option<&'b Code<'a>>
    ensures { MatchOption result (slice_get codes.now function ≡ None)
        (λ code. slice_get codes.now function ≡ Some code.now) }
{
    codes.get(function)
}

/// Calls a defined function, by its index among these, with its arguments on top.
pub fn call(
    m: &mut CallStack,
    codes: &[Code],
    function: usize,
    depth: usize,
    next: usize,
) -> Stepped
    requires { next ≡ m.old.position + 1 }
    ensures { (x : Point) (code : Prepared) (g : ℕ) → Inner x m.old code → x.codes ≡ codes.now
        → x.engine.depth ≡ depth → g ≡ length x.engine.program.module_.imports + function
        → Reads m.old code (Goes (Call g)) → Meets x result (step_at x) m.new }
{
    match code_at(codes, function) {
        Some(callee) => {
            if is_full(m, depth) {
                Stepped::Trap(TrapKind::StackExhausted)
            } else {
                enter(m, callee, function, next)
            }
        }
        None => Stepped::Stuck,
    }
}

/// Calls a defined function, by its index among these, with its arguments under the index of a
/// table's entry, which is taken away.
pub fn call_under_index(
    m: &mut CallStack,
    codes: &[Code],
    function: usize,
    depth: usize,
    next: usize,
) -> Stepped
    requires { next ≡ m.old.position + 1 }
    ensures { (x : Point) (code : Prepared) (place : CallPlace x) → Inner x m.old code
        → x.codes ≡ codes.now → x.engine.depth ≡ depth
        → Meets x result (call_at x (length x.engine.program.module_.imports + function)
        place.operands place.at place.rest) m.new }
{
    match code_at(codes, function) {
        Some(callee) => {
            if is_full(m, depth) {
                Stepped::Trap(TrapKind::StackExhausted)
            } else {
                m.values.discard(1);
                enter(m, callee, function, next)
            }
        }
        None => Stepped::Stuck,
    }
}
