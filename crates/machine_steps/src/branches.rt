//! Branches, and the ends of blocks (Core 4.4.5).

ghost use Rattle.std.specs.Prelude.{◌≡◌, ◌+◌, ◌∷◌, ◌++◌, List, Some, length, slice_get, take, drop};
ghost use Rattle.wasm_syntax.specs.declared.value.Value.{Value as Val};
ghost use Rattle.wasm_syntax.specs.Tree.{Goes, BrIf, BrTable, Else, End};
ghost use Rattle.machine_code.specs.declared.code.Code.{Code as Prepared};
ghost use Rattle.machine_steps.specs.declared.layout.Control.{Control as Kept};
ghost use Rattle.machine_steps.specs.calls.FramesMeet.{Point, Inner, Reads, Meets, step_at, branch_at};
ghost use Rattle.machine_steps.specs.declared.layout.CallStack.{CallStack as Calls};
ghost use Rattle.machine_steps.specs.inner.Moves.{Becomes, Carried, InFrame, stepped_of};

use crate::layout::{CallFrame, CallStack, Control, Reach, Stepped};
use crate::returns::{leave, unwind};
use machine_code::Code;
use wasm_syntax::Value;

/// A step that leaves the frames as they are.
#[inline(always)]
pub(crate) fn inside(stepped: Stepped) -> Reach
    ensures stepped { stepped_of result ≡ stepped }
    ensures stays { (m m' : Calls) → m'.frames ≡ m.frames → InFrame result m m' }
{
    match stepped {
        Stepped::Next => Reach::Inside,
        other => Reach::Beyond(other),
    }
}

/// Goes where a branch to a block goes, with so many open blocks left.
#[inline(always)]
fn go(m: &mut CallStack, k: Control, left: usize) -> Stepped
    ensures frames { m.new.frames ≡ m.old.frames }
    ensures goes { (kept over below : List Val) (above ks : List Kept)
        → m.old.values ≡ kept ++ (over ++ below) → Carried k.carries kept → length below ≡ k.height
        → m.old.controls ≡ above ++ ks → length ks ≡ left
        → Becomes result m.new (record m.old
        { values = kept ++ below; controls = ks; position = k.goes_to }) }
{
    match unwind(&mut m.values, k.carries, k.height) {
        Ok(()) => {
            m.controls.keep(left);
            m.position = k.goes_to;
            Stepped::Next
        }
        Err(_) => Stepped::NoMemory,
    }
}

/// Goes on behind a block at its `end`, or leaves the function.
#[inline(always)]
pub(crate) fn end(m: &mut CallStack, frame: CallFrame, gives: bool, next: usize) -> Reach
    requires next { next ≡ m.old.position + 1 }
    requires frame { slice_get m.old.frames 0 ≡ Some frame }
    ensures meets { (x : Point) (code : Prepared) → Inner x m.old code → gives ≡ code.gives
        → Reads m.old code End → Meets x (stepped_of result) (step_at x) m.new }
    ensures stays { InFrame result m.old m.new }
{
    if m.controls.len() > frame.controls {
        m.controls.discard(1);
        m.position = next;
        Reach::Inside
    } else {
        Reach::Beyond(leave(m, gives))
    }
}

/// Goes on behind an `if` at the `else` behind its first arm.
#[inline(always)]
pub(crate) fn else_(m: &mut CallStack) -> Stepped
    ensures frames { m.new.frames ≡ m.old.frames }
    ensures meets { (x : Point) (code : Prepared) → Inner x m.old code → Reads m.old code Else
        → Meets x result (step_at x) m.new }
{
    match m.controls.pop() {
        Some(k) => {
            m.position = k.goes_to;
            Stepped::Next
        }
        None => Stepped::Stuck,
    }
}

/// A branch to the block that has n others inside it, or out of the function.
#[inline(always)]
pub(crate) fn branch(m: &mut CallStack, frame: CallFrame, gives: bool, n: usize) -> Reach
    requires { slice_get m.old.frames 0 ≡ Some frame }
    ensures meets { (x : Point) (code : Prepared) → Inner x m.old code → gives ≡ code.gives
        → Meets x (stepped_of result) (branch_at x n) m.new }
    ensures stays { InFrame result m.old m.new }
{
    let count = m.controls.len();
    let own = count.saturating_sub(frame.controls);
    if n < own {
        match m.controls.peek(n) {
            Some(k) => inside(go(m, k, count - n - 1)),
            None => Reach::Beyond(Stepped::Stuck),
        }
    } else {
        Reach::Beyond(leave(m, gives))
    }
}

/// A `br_if`.
#[inline(always)]
pub(crate) fn branch_if(
    m: &mut CallStack,
    frame: CallFrame,
    gives: bool,
    n: u32,
    next: usize,
) -> Reach
    requires next { next ≡ m.old.position + 1 }
    requires frame { slice_get m.old.frames 0 ≡ Some frame }
    ensures meets { (x : Point) (code : Prepared) → Inner x m.old code → gives ≡ code.gives
        → Reads m.old code (Goes (BrIf n)) → Meets x (stepped_of result) (step_at x) m.new }
    ensures stays { InFrame result m.old m.new }
{
    match m.values.pop() {
        Some(Value::I32(c)) => {
            if c == 0 {
                m.position = next;
                Reach::Inside
            } else {
                branch(m, frame, gives, n as usize)
            }
        }
        Some(Value::I64(_)) => Reach::Beyond(Stepped::Stuck),
        None => Reach::Beyond(Stepped::Stuck),
    }
}

/// A `br_table`, whose targets are these of its body.
#[inline(always)]
pub(crate) fn branch_table(
    m: &mut CallStack,
    frame: CallFrame,
    code: &Code,
    start: u32,
    count: u32,
    default: u32,
) -> Reach
    requires { slice_get m.old.frames 0 ≡ Some frame }
    ensures meets { (x : Point) → Inner x m.old code.now
        → Reads m.old code.now (Goes
        (BrTable (take count (drop start code.now.body.now.targets)) default))
        → Meets x (stepped_of result) (step_at x) m.new }
    ensures stays { InFrame result m.old m.new }
{
    match m.values.pop() {
        Some(Value::I32(i)) => {
            let n = code.target(start, count, default, i);
            branch(m, frame, code.gives, n as usize)
        }
        Some(Value::I64(_)) => Reach::Beyond(Stepped::Stuck),
        None => Reach::Beyond(Stepped::Stuck),
    }
}
