//! The texts of frames, and of the values that a dump records.

ghost use Rattle.std.specs.Prelude.{◌≡◌, ◌<◌, ◌≤◌, ◌++◌, ℕ, List, OnOk, slice_get, Some, length};
ghost use Rattle.commands.specs.Values.{numbered};
ghost use Rattle.debug_frames.specs.Frames.{frame_text};
ghost use Rattle.debug_frames.specs.Unreadable.{unreadable_text};
ghost use Rattle.debugger.specs.Texts as definitions;

use crate::counts::frame_locals;
use crate::subject::Subject;
use crate::{push_examined, push_listing};
use causes::NoMemory;
use commands::push_number;
use debug_frames::{Information, Symbolizer, push_frame, push_unreadable};
use dump_format::Frame;
use pm_text::Text;
use std::alloc::Global;
use wasm_syntax::ModuleParts;

/// Adds that there is no frame of a number.
#[tactic(auto, unfolding(crate::specs::Texts::no_frame))]
pub fn push_no_frame(out: &mut Text, number: u64) -> Result<(), NoMemory>
    ensures { OnOk result (out.new ≡ out.old ++ definitions.no_frame number) }
{
    push_number(out, "no frame ", number)?;
    out.push_str("\n")
}

#[tactic(auto, using(crate::proofs::FrameLines::frames_go_on, crate::proofs::FrameLines::frames_are_done))]
fn push_each(
    out: &mut Text,
    alloc: Global,
    symbolizer: &mut Symbolizer<'_, '_>,
    parts: &ModuleParts,
    frames: &[Frame],
) -> Result<(), NoMemory>
    ensures { OnOk result (out.new
        ≡ out.old ++ numbered (frame_text symbolizer.old parts.now) 0 frames.now) }
{
    for (i, frame) in frames.iter().enumerate() {
        push_frame(out, alloc, symbolizer, parts, i as u64, frame)?;
    }
    Ok(())
}

fn push_frames(
    out: &mut Text,
    alloc: Global,
    information: &Information<'_>,
    parts: &ModuleParts,
    frames: &[Frame],
) -> Result<(), NoMemory>
    ensures { OnOk result (out.new
        ≡ out.old ++ numbered (frame_text information.now parts.now) 0 frames.now) }
{
    let mut symbolizer = Symbolizer::new(alloc, information);
    push_each(out, alloc, &mut symbolizer, parts, frames)
}

fn push_one(
    out: &mut Text,
    alloc: Global,
    information: &Information<'_>,
    parts: &ModuleParts,
    number: u64,
    frame: &Frame,
) -> Result<(), NoMemory>
    ensures { OnOk result (out.new
        ≡ out.old ++ frame_text information.now parts.now number frame.now) }
{
    let mut symbolizer = Symbolizer::new(alloc, information);
    push_frame(out, alloc, &mut symbolizer, parts, number, frame)
}

/// Adds the lines on what could not be read.
pub fn push_unread(
    out: &mut Text,
    information: &Information<'_>,
    subject: &Subject<'_, '_, '_, '_>,
) -> Result<(), NoMemory>
    requires { information.now ≡ subject.now.information }
    ensures { OnOk result (out.new ≡ out.old ++ unreadable_text subject.now.information) }
{
    push_unreadable(out, information)
}

/// Adds the lines of each frame, behind those on what could not be read.
#[tactic(auto, unfolding(crate::specs::Texts::backtrace_text))]
pub fn push_backtrace(
    out: &mut Text,
    alloc: Global,
    information: &Information<'_>,
    subject: &Subject<'_, '_, '_, '_>,
) -> Result<(), NoMemory>
    requires { information.now ≡ subject.now.information }
    ensures { OnOk result (out.new ≡ out.old ++ definitions.backtrace_text subject.now) }
{
    push_unreadable(out, information)?;
    push_frames(out, alloc, information, subject.parts(), subject.frames())
}

/// Adds the lines of the frame of a number, or that there is none.
#[tactic(auto, unfolding(crate::specs::Texts::frame_text_at))]
pub fn push_frame_at(
    out: &mut Text,
    alloc: Global,
    information: &Information<'_>,
    subject: &Subject<'_, '_, '_, '_>,
    number: u64,
) -> Result<(), NoMemory>
    requires { information.now ≡ subject.now.information }
    ensures { OnOk result (out.new ≡ out.old ++ definitions.frame_text_at subject.now number) }
{
    match subject.frames().get(number as usize) {
        Some(frame) => push_one(out, alloc, information, subject.parts(), number, frame),
        None => push_no_frame(out, number),
    }
}

/// Adds the locals of a frame.
#[tactic(auto, unfolding(crate::specs::Texts::locals_text))]
pub fn push_locals(
    out: &mut Text,
    subject: &Subject<'_, '_, '_, '_>,
    frame: &Frame,
) -> Result<(), NoMemory>
    ensures { OnOk result (out.new ≡ out.old ++ definitions.locals_text subject.now frame.now) }
{
    let count = frame_locals(subject.parts(), frame);
    push_listing(out, "local", frame.locals.as_slice(), count)
}

/// Adds the operands of a frame, of which so many are shown, the bottom one first.
#[tactic(auto, unfolding(crate::specs::Texts::operands_text))]
pub fn push_operands(out: &mut Text, frame: &Frame, count: u32) -> Result<(), NoMemory>
    ensures { OnOk result (out.new ≡ out.old ++ definitions.operands_text count frame.now) }
{
    push_listing(out, "operand", frame.operands.as_slice(), count)
}

/// Adds the recorded globals.
#[tactic(auto, unfolding(crate::specs::Texts::globals_text))]
pub fn push_globals(out: &mut Text, subject: &Subject<'_, '_, '_, '_>) -> Result<(), NoMemory>
    ensures { OnOk result (out.new ≡ out.old ++ definitions.globals_text subject.now) }
{
    let count = subject.parts().globals.len() as u32;
    push_listing(out, "global", subject.globals(), count)
}

/// Adds so many bytes of the recorded memory.
#[tactic(auto, unfolding(crate::specs::Texts::memory_text))]
pub fn push_memory(
    out: &mut Text,
    alloc: Global,
    subject: &Subject<'_, '_, '_, '_>,
    at: u64,
    count: u64,
) -> Result<(), NoMemory>
    ensures { OnOk result (out.new ≡ out.old ++ definitions.memory_text subject.now at count) }
{
    push_examined(out, alloc, subject.memory(), at, count)
}
