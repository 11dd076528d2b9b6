//! The tests of each frame of a dump.

ghost use Rattle.std.specs.Prelude.{◌≡◌, ◌<◌, ◌≤◌, ◌^◌, ℕ, List, length};
ghost use Rattle.std.specs.Ordering.{nat_cmp};
ghost use Rattle.std.specs.BTreeMap.{get};
ghost use Rattle.wasm_syntax.specs.declared.module.ModuleParts.{ModuleParts as Module};
ghost use Rattle.wasm_syntax.specs.Sizes.{WithinLimits};
ghost use Rattle.wasm_syntax.specs.Tree.{item_of};
ghost use Rattle.dump_format.specs.declared.dump.Frame.{Frame as ShownFrame};
ghost use Rattle.dump_match.specs.Frames.{FunctionFits, LocalsFit, OperandsFit, CallFits, CalleeFits};
ghost use Rattle.dump_match.specs.States.{StateOperandCount};
ghost use Rattle.wasm_validate.specs.calls.Deciding.{Decides};
ghost use Rattle.dump_match.specs.inner.Decides.{FrameJudged, FramesJudged};
ghost use Rattle.dump_match.specs.inner.Kept.{KeepsGroups};
ghost use Rattle.dump_match.specs.inner.Stands.{Stands, OperandsAre, count_shown};

use crate::code::{can_call, is_call, taken};
use crate::kept::{KeptGroups, can_be_locals_of, kept_groups};
use crate::mismatch::Mismatch;
use crate::stand::{Stand, stand_of};
use crate::values::has_type;
use dump_format::{Dump, Frame};
use std::alloc::Global;
use wasm_syntax::{ModuleParts, Seen};
use wasm_validate::Validated;

/// Whether a frame is of a function that the module defines.
fn is_defined(m: &Validated, frame: &Frame) -> bool
    ensures { Decides result (FunctionFits m.now frame.now) }
{
    match m.module().parts().body_of(frame.function) {
        Some(_body) => true,
        None => false,
    }
}

/// Whether the recorded locals have their types.
pub fn locals_fit(m: &ModuleParts, kept: &KeptGroups, frame: &Frame) -> bool
    requires fits { FunctionFits m.now frame.now }
    requires kept { KeepsGroups m.now (get nat_cmp kept.now) }
    ensures { Decides result (LocalsFit m.now frame.now) }
{
    match (
        m.type_of(frame.function as usize),
        m.body_of(frame.function),
    ) {
        (Some(ftype), Some(body)) => can_be_locals_of(kept, ftype, body, frame),
        _ => false,
    }
}

/// Whether the recorded operands are the bottom ones, so many, of those before the instruction.
fn are_operands(m: &Validated, frame: &Frame, stand: Stand, count: u32) -> bool
    requires stands { Stands m.now frame.now stand }
    requires below { count ≤ stand.height }
    ensures { OperandsAre result m.now frame.now stand count }
{
    let values = frame.operands.as_slice();
    if values.is_empty() {
        return true;
    }
    if values.len() != count as usize {
        return false;
    }
    for i in 0..count {
        let t = m.operand(frame.function, stand.op, i);
        if !has_type(t, values[i as usize]) {
            return false;
        }
    }
    true
}

/// How many operands a frame shows: all, or but for the innermost frame those that its call left.
fn shown_count(m: &ModuleParts, stand: Stand, i: u32) -> u32
    requires { WithinLimits m.now }
    ensures most { result ≤ stand.height }
    ensures count { (targets : List ℕ)
        → result ≡ count_shown m.now (item_of targets stand.code) i stand.height }
{
    if i == 0 {
        return stand.height;
    }
    let count = taken(m, stand.code);
    (stand.height as usize).saturating_sub(count) as u32
}

/// How many operands a frame shows by the module: none where it stands before no live instruction.
pub fn operand_count(m: &Validated, frame: &Frame, i: u32) -> u32
    ensures { StateOperandCount m.now i frame.now result }
{
    match stand_of(m, frame) {
        Some(stand) => shown_count(m.module().parts(), stand, i),
        None => 0,
    }
}

/// Whether the recorded operands have the types of those that the frame shows.
fn operands_fit(m: &Validated, frame: &Frame, stand: Stand, i: u32) -> bool
    requires { Stands m.now frame.now stand }
    ensures { Decides result (OperandsFit m.now i frame.now) }
{
    let count = shown_count(m.module().parts(), stand, i);
    are_operands(m, frame, stand, count)
}

/// Whether a frame is the innermost one, or at a call.
fn call_fits(stand: Stand, i: u32) -> bool
    ensures { (m : Module) (f : ShownFrame) → Stands m f stand → Decides result (CallFits m i f) }
{
    i == 0 || is_call(stand.code)
}

/// Whether a frame is the innermost one, or its call can have called the function of the frame
/// before it.
fn callee_fits(m: &ModuleParts, frames: &[Frame], stand: Stand, i: u32) -> bool
    requires { i < length frames.now }
    ensures { (f : ShownFrame) → Stands m.now f stand
        → Decides result (CalleeFits m.now frames.now i f) }
{
    if i == 0 {
        return true;
    }
    can_call(m, stand.code, frames[i as usize - 1].function)
}

/// The tests of a frame.
pub fn judge_frame(
    m: &Validated,
    kept: &KeptGroups,
    dump: &Dump<'_>,
    i: u32,
) -> Result<(), Mismatch>
    requires there { i < length dump.now.frames }
    requires kept { KeepsGroups m.now (get nat_cmp kept.now) }
    ensures { FrameJudged result m.now dump.now i }
{
    let parts = m.module().parts();
    let frames = dump.frames.as_slice();
    let frame = &frames[i as usize];
    if !is_defined(m, frame) {
        return Err(Mismatch::Function { frame: i });
    }
    let Some(stand) = stand_of(m, frame) else {
        return Err(Mismatch::Offset { frame: i });
    };
    if !locals_fit(parts, kept, frame) {
        return Err(Mismatch::Locals { frame: i });
    }
    if !operands_fit(m, frame, stand, i) {
        return Err(Mismatch::Operands { frame: i });
    }
    if !call_fits(stand, i) {
        return Err(Mismatch::NotACall { frame: i });
    }
    if !callee_fits(parts, frames, stand, i) {
        return Err(Mismatch::Callee { frame: i });
    }
    Ok(())
}

/// The tests of all frames, the innermost first, with the groups that are kept.
fn judge_each(m: &Validated, kept: &KeptGroups, dump: &Dump<'_>) -> Result<(), Mismatch>
    requires frames { length dump.now.frames < 2 ^ 32 }
    requires kept { KeepsGroups m.now (get nat_cmp kept.now) }
    ensures { FramesJudged result m.now dump.now }
{
    for i in 0..dump.frames.len() {
        judge_frame(m, kept, dump, i as u32)?;
    }
    Ok(())
}

/// The tests of all frames, the innermost first.
pub fn judge_frames(alloc: Global, m: &Validated, dump: &Dump<'_>) -> Result<(), Mismatch>
    requires { length dump.now.frames < 2 ^ 32 }
    ensures { FramesJudged result m.now dump.now }
{
    let kept = kept_groups(alloc, m, dump.frames.as_slice());
    judge_each(m, &kept, dump)
}
