//! A function is left (Core 4.4.7).

ghost use Rattle.std.specs.Prelude.{◌≡◌, ◌+◌, ◌-◌, ◌∷◌, ◌++◌, List, length, drop, OnOk};
ghost use Rattle.wasm_syntax.specs.declared.value.Value.{Value as Val};
ghost use Rattle.machine_steps.specs.declared.layout.Control.{Control as Kept};
ghost use Rattle.machine_steps.specs.declared.layout.CallFrame.{CallFrame as Framed};
ghost use Rattle.machine_code.specs.declared.code.Code.{Code as Prepared};
ghost use Rattle.machine_steps.specs.calls.FramesMeet.{Point, Inner, Meets, return_at};
ghost use Rattle.machine_steps.specs.inner.Moves.{Carried, Leaves};

use crate::layout::{CallStack, Stepped};
use causes::NoMemory;
use pm_text::Stack;
use wasm_syntax::Value;

/// Keeps so many of the lowest values and one above them, or all where there are not so many.
#[inline(always)]
fn keep_above(values: &mut Stack<Value>, height: usize)
    ensures { values.new ≡ drop (length values.old - height - 1) values.old }
{
    if height < values.len() {
        values.keep(height + 1);
    }
}

/// Keeps the topmost value, if one is carried along, and so many of the lowest ones.
#[inline(always)]
pub(crate) fn unwind(
    values: &mut Stack<Value>,
    carries: bool,
    height: usize,
) -> Result<(), NoMemory>
    ensures { (kept over below : List Val) → values.old ≡ kept ++ (over ++ below)
        → Carried carries kept → length below ≡ height → OnOk result (values.new ≡ kept ++ below) }
{
    if carries {
        match values.peek(0) {
            // It takes the place of the deepest value that goes.
            Some(v) => {
                keep_above(values, height);
                values.set_top(v);
                Ok(())
            }
            None => Ok(()),
        }
    } else {
        values.keep(height);
        Ok(())
    }
}

/// Drops the innermost frame and leaves its result, if it gives one.
fn drop_frame(m: &mut CallStack, gives: bool) -> Stepped
    ensures { (kept over below : List Val) (above ks : List Kept) (e : Framed) (es : List Framed)
        → m.old.values ≡ kept ++ (over ++ below) → Carried gives kept → length below ≡ e.base
        → m.old.controls ≡ above ++ ks → length ks ≡ e.controls → m.old.frames ≡ e ∷ es
        → Leaves result es m.new (record {
          values = kept ++ below;
          controls = ks;
          frames = es;
          position = e.returns_to;
        }) }
{
    match m.frames.pop() {
        Some(frame) => match unwind(&mut m.values, gives, frame.base) {
            Ok(()) => {
                m.controls.keep(frame.controls);
                m.position = frame.returns_to;
                if m.frames.len() == 0 {
                    Stepped::Ended
                } else {
                    Stepped::Next
                }
            }
            Err(_) => Stepped::NoMemory,
        },
        None => Stepped::Stuck,
    }
}

/// Leaves the function with its result on top, if it gives one.
#[inline(never)]
pub fn leave(m: &mut CallStack, gives: bool) -> Stepped
    ensures { (x : Point) (code : Prepared) → Inner x m.old code → gives ≡ code.gives
        → Meets x result (return_at x) m.new }
{
    drop_frame(m, gives)
}
