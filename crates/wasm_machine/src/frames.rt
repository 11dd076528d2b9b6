//! The frames of a machine.

ghost use Rattle.std.specs.Prelude.{◌≡◌, ◌<◌, ◌-◌, length, reverse, slice_get, Some};
ghost use Rattle.wasm_machine.specs.inner.Shown.{between, offset_at, numbered, frame_shown, all_shown, extent_under};

use machine_code::{Code, Prepared};
use machine_steps::{CallFrame, CallStack, Machine};
use std::marker::Model;
use wasm_syntax::Value;

/// A frame as a dump shows it. Its values are lent by the instance.
#[derive(Drop)]
pub struct FrameRef<'a> {
    pub function: u32,
    /// In bytes, from the first byte behind the size of the function's code entry.
    pub offset: u32,
    pub locals: &'a [Value],
    /// The bottom operand first.
    pub operands: &'a [Value],
}

impl<'a> Model for FrameRef<'a> {
    ghost use Rattle.dump_write.specs.Image.{DumpFrame};

    ghost Value = { DumpFrame };

    ghost view = { λ s. record {
      function = s.function;
      offset = s.offset;
      locals = s.locals.now;
      operands = s.operands.now;
    } };
}

/// Up to where the values of a frame go, and the index of the instruction at which it stands.
#[derive(Clone, Copy)]
pub(crate) struct Extent {
    pub top: usize,
    pub at: usize,
}

/// The values from one place up to another.
fn between(values: &[Value], from: usize, to: usize) -> &[Value]
    ensures { result.now ≡ between values.now from to }
{
    let end = to.min(values.len());
    if from < end { &values[from..end] } else { &[] }
}

/// The code offset of an instruction.
fn offset_at(codes: &[Code], function: usize, at: usize) -> u32
    ensures { result ≡ offset_at codes.now function at }
{
    match codes.get(function) {
        Some(code) => match code.op(at) {
            Some(op) => op.at,
            None => 0,
        },
        None => 0,
    }
}

/// The index of a defined function among all functions.
fn numbered(imports: usize, function: usize) -> u32
    ensures { result ≡ numbered imports function }
{
    u32::try_from(imports.saturating_add(function)).unwrap_or(u32::MAX)
}

/// The innermost frame goes up to the topmost value and stands at its next instruction. Each other
/// frame goes up to the one above it and stands at its call.
fn extent_at(stack: &CallStack, index: usize) -> Extent
    ensures first { index ≡ 0 → result ≡ record {
      top = length stack.now.values;
      at = stack.now.position;
    } }
    ensures others { 0 < index → result ≡ extent_under (slice_get stack.now.frames (index - 1)) }
{
    if index == 0 {
        return Extent {
            top: stack.values.len(),
            at: stack.position,
        };
    }
    match stack.frames.peek(index - 1) {
        Some(above) => Extent {
            top: above.base,
            at: above.returns_to.saturating_sub(1),
        },
        None => Extent { top: 0, at: 0 },
    }
}

/// A frame that goes so far.
fn shown<'a>(m: &'a Machine, prepared: &Prepared, frame: CallFrame, extent: Extent) -> FrameRef<'a>
    ensures { result ≡ frame_shown prepared.now.imports prepared.now.codes.items
        (reverse m.now.stack.values) frame extent.top extent.at }
{
    let values = m.stack.values.as_slice();
    FrameRef {
        function: numbered(prepared.imports, frame.function),
        offset: offset_at(&prepared.codes, frame.function, extent.at),
        locals: between(values, frame.base, frame.floor),
        operands: between(values, frame.floor, extent.top),
    }
}

/// The frame under so many others, as the machine has it.
pub(crate) fn frame_at<'a>(m: &'a Machine, prepared: &Prepared, index: usize) -> FrameRef<'a>
    requires { index < length m.now.stack.frames }
    ensures { slice_get (all_shown prepared.now m.now) index ≡ Some result }
{
    match m.stack.frames.peek(index) {
        Some(frame) => shown(m, prepared, frame, extent_at(&m.stack, index)),
        None => FrameRef {
            function: 0,
            offset: 0,
            locals: &[],
            operands: &[],
        },
    }
}
