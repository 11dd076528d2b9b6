//! Variable instructions (Core 4.4.3).

ghost use Rattle.std.specs.Prelude.{◌≡◌, List, length};
ghost use Rattle.wasm_syntax.specs.Host.{World};
ghost use Rattle.wasm_syntax.specs.declared.value.Value.{Value as Val};
ghost use Rattle.wasm_syntax.specs.declared.instruction.Basic.TheVariants as basics;
ghost use Rattle.machine_basics.specs.calls.Performs.{on_operands, laid_out, Holds, UnlessDone};
ghost use Rattle.machine_basics.specs.inner.Parts.{Acts, Moves, Changes};

use crate::answer::Performed;
use crate::operands::push;
use crate::shared::Shared;
use pm_text::Stack;
use wasm_syntax::Value;

// ---- locals, which stand from the place `base` on

#[inline(always)]
pub(crate) fn local_get(values: &mut Stack<Value>, base: usize, index: u32) -> Performed
    ensures effect { (w : World) (operands locals below : List Val)
        → values.old ≡ laid_out operands locals below → base ≡ length below
        → Moves (on_operands (basics.LocalGet index) w locals operands) result w below values.new }
    ensures same { UnlessDone result (values.new ≡ values.old) }
{
    match values.at(base, index as usize) {
        Some(v) => push(values, v),
        None => Performed::Done,
    }
}

#[inline(always)]
pub(crate) fn local_set(values: &mut Stack<Value>, base: usize, index: u32) -> Performed
    ensures effect { (w : World) (operands locals below : List Val)
        → values.old ≡ laid_out operands locals below → base ≡ length below
        → Moves (on_operands (basics.LocalSet index) w locals operands) result w below values.new }
    ensures done { result ≡ Performed.Done }
{
    match values.pop() {
        Some(v) => {
            values.set_at(base, index as usize, v);
            Performed::Done
        }
        None => Performed::Done,
    }
}

#[inline(always)]
pub(crate) fn local_tee(values: &mut Stack<Value>, base: usize, index: u32) -> Performed
    ensures effect { (w : World) (operands locals below : List Val)
        → values.old ≡ laid_out operands locals below → base ≡ length below
        → Moves (on_operands (basics.LocalTee index) w locals operands) result w below values.new }
    ensures done { result ≡ Performed.Done }
{
    match values.peek(0) {
        Some(v) => {
            values.set_at(base, index as usize, v);
            Performed::Done
        }
        None => Performed::Done,
    }
}

// ---- globals

#[inline(never)]
pub(crate) fn global_get(values: &mut Stack<Value>, shared: &Shared, index: u32) -> Performed
    ensures effect { (w : World) (ls : List Val) → Holds shared.now w
        → Acts (on_operands (basics.GlobalGet index) w ls values.old) result w ls values.new }
    ensures same { UnlessDone result (values.new ≡ values.old) }
{
    match shared.globals.get(index as usize) {
        Some(v) => push(values, v),
        None => Performed::Done,
    }
}

#[inline(never)]
pub(crate) fn global_set(values: &mut Stack<Value>, shared: &mut Shared, index: u32) -> Performed
    ensures effect { (w : World) (ls : List Val) → Holds shared.old w
        → Changes (on_operands (basics.GlobalSet index) w ls values.old) result ls values.new
        shared.new }
    ensures done { result ≡ Performed.Done }
{
    match values.pop() {
        Some(v) => {
            shared.globals.set(index as usize, v);
            Performed::Done
        }
        None => Performed::Done,
    }
}
