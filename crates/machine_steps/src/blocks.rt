//! Blocks are opened and left (Core 4.4.5).

ghost use Rattle.std.specs.Prelude.{◌≡◌, ◌+◌, ◌∷◌, ◌==◌, if◌then◌else◌, length, Option};
ghost use Rattle.wasm_syntax.specs.declared.value.ValType.{ValType as Sort};
ghost use Rattle.wasm_syntax.specs.Tree.{Opens, OpensLoop, OpensIf, Else, End};
ghost use Rattle.machine_code.specs.calls.Code.{gives_one};
ghost use Rattle.machine_code.specs.declared.code.Code.{Code as Prepared};
ghost use Rattle.machine_steps.specs.calls.FramesMeet.{Point, Inner, Reads, Meets, step_at};
ghost use Rattle.machine_steps.specs.inner.Moves.{Becomes};

use crate::layout::{CallStack, Control, Stepped};
use machine_code::Code;
use wasm_syntax::{ValType, Value};

fn carries(t: Option<ValType>) -> bool
    ensures { result ≡ gives_one t }
{
    t.is_some()
}

/// Opens a block, in which the instruction at `next` is run next.
#[inline(always)]
fn open(m: &mut CallStack, goes_to: usize, carries: bool, next: usize) -> Stepped
    ensures frames { m.new.frames ≡ m.old.frames }
    ensures becomes { Becomes result m.new (record m.old {
      controls = record {
        goes_to = goes_to;
        height = length m.old.values;
        carries = carries;
      } ∷ m.old.controls;
      position = next;
    }) }
{
    let control = Control {
        goes_to,
        height: m.values.len(),
        carries,
    };
    match m.controls.push(control) {
        Ok(()) => {
            m.position = next;
            Stepped::Next
        }
        Err(_) => Stepped::NoMemory,
    }
}

/// Opens a `block`.
// It is called: inlined in the loop, it would have each step count the place in the side table too.
#[inline(never)]
pub(crate) fn block(m: &mut CallStack, code: &Code, t: Option<ValType>, next: usize) -> Stepped
    requires { next ≡ m.old.position + 1 }
    ensures frames { m.new.frames ≡ m.old.frames }
    ensures meets { (x : Point) → Inner x m.old code.now → Reads m.old code.now (Opens t)
        → Meets x result (step_at x) m.new }
{
    match code.side(m.position) {
        Some(side) => open(m, side.end, carries(t), next),
        None => Stepped::Stuck,
    }
}

/// Opens a `loop`. A branch to it comes back to this instruction.
#[inline(always)]
pub(crate) fn loop_(m: &mut CallStack, next: usize) -> Stepped
    requires { next ≡ m.old.position + 1 }
    ensures frames { m.new.frames ≡ m.old.frames }
    ensures meets { (x : Point) (code : Prepared) (t : Option Sort) → Inner x m.old code
        → Reads m.old code (OpensLoop t) → Meets x result (step_at x) m.new }
{
    let here = m.position;
    open(m, here, false, next)
}

/// One of two positions, the first one for 0.
fn pick(n: u32, zero: usize, other: usize) -> usize
    ensures { result ≡ (if n == 0 then zero else other) }
{
    if n == 0 { zero } else { other }
}

/// Opens an arm of an `if`, by the condition on top.
#[inline(always)]
pub(crate) fn if_(m: &mut CallStack, code: &Code, t: Option<ValType>, next: usize) -> Stepped
    requires { next ≡ m.old.position + 1 }
    ensures frames { m.new.frames ≡ m.old.frames }
    ensures meets { (x : Point) → Inner x m.old code.now → Reads m.old code.now (OpensIf t)
        → Meets x result (step_at x) m.new }
{
    match code.side(m.position) {
        Some(side) => match m.values.pop() {
            Some(Value::I32(n)) => open(m, side.end, carries(t), pick(n, side.arm, next)),
            Some(Value::I64(_)) => Stepped::Stuck,
            None => Stepped::Stuck,
        },
        None => Stepped::Stuck,
    }
}
