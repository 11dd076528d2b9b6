//! A function is begun from outside of all frames (Core 4.5.5).

ghost use Rattle.std.specs.Prelude.{◌≡◌, ℕ, ◌++◌, [], length, reverse, OnOk, Some};
ghost use Rattle.wasm_syntax.specs.declared.parts.Body.{Body as FunctionBody};
ghost use Rattle.wasm_syntax.specs.declared.parts.FuncType.{FuncType as Signature};
ghost use Rattle.wasm_syntax.specs.Tree.{Tree as CodeTree};
ghost use Rattle.wasm_syntax.specs.Module.{Program, defined, defined_at};
ghost use Rattle.machine_code.specs.calls.Code.{Prepares};
ghost use Rattle.machine_steps.specs.calls.FramesMeet.{Begun};

use crate::calls::{code_at, enter};
use crate::layout::{CallStack, Stepped};
use causes::NoMemory;
use machine_code::Code;
use pm_text::Stack;
use wasm_syntax::Value;

/// Values on top, the last one topmost.
fn push_values(values: &mut Stack<Value>, args: &[Value]) -> Result<(), NoMemory>
    ensures { OnOk result (values.new ≡ reverse args.now ++ values.old) }
{
    for v in args {
        values.push(*v)?;
    }
    Ok(())
}

/// Leaves all frames.
pub fn leave_frames(m: &mut CallStack)
    ensures whole { m.new ≡ record m.old { values = []; controls = []; frames = [] } }
    ensures frames { m.new.frames ≡ [] }
{
    m.values.keep(0);
    m.controls.keep(0);
    m.frames.keep(0);
}

/// Leaves all frames and begins a defined function, by its index among these, on arguments in the
/// parameters' order.
pub fn begin(m: &mut CallStack, codes: &[Code], function: usize, args: &[Value]) -> Stepped
    ensures { (p : Program) (body : FunctionBody) (tree : CodeTree) (type : Signature)
        → Prepares p codes.now → defined_at p function ≡ Some (defined body tree type)
        → length args.now ≡ length type.params
        → Begun p codes.now function body tree type args.now result m.new }
{
    leave_frames(m);
    match code_at(codes, function) {
        Some(callee) => match push_values(&mut m.values, args) {
            Ok(()) => enter(m, callee, function, 0),
            Err(_) => Stepped::NoMemory,
        },
        None => Stepped::Stuck,
    }
}
