//! The dump.

ghost use Rattle.std.specs.Prelude.{◌≡◌, ◌≤◌, map, IfOk};
ghost use Rattle.wasm_syntax.specs.Module.{Program};
ghost use Rattle.wasm_syntax.specs.Machine.{Config};
ghost use Rattle.wasm_machine.specs.calls.Instances.{StandsAt};
ghost use Rattle.dump_format.specs.Form.{pages_of};
ghost use Rattle.dump_format.specs.calls.Contained.{IsContained};
ghost use Rattle.dump_write.specs.Canonical.{canonical_bytes};
ghost use Rattle.dump_write.specs.Image.{frame_images, image as image_of};
ghost use Rattle.dump_write.specs.ImageBytes.{frame_of, bytes_of};
ghost use Rattle.dump_write.specs.Pictured.{Pictures};

use causes::NoMemory;
use dump_format::{Dump, Frame, Frames};
use dump_write::{picture, recorded_frame};
use pm_text::Items;
use std::alloc::Global;
use wasm_machine::{FrameRef, Instance};

/// A frame of the one instance, which has the index 0.
fn owned_frame(alloc: Global, frame: &FrameRef) -> Result<Frame, NoMemory>
    ensures { IfOk result (λ f. f ≡ frame_of frame.now) }
{
    recorded_frame(
        alloc,
        frame.function,
        frame.offset,
        frame.locals,
        frame.operands,
    )
}

/// All frames, innermost first.
fn all_frames(alloc: Global, instance: &Instance) -> Result<Frames, NoMemory>
    ensures { (p : Program) (c : Config) → StandsAt instance.now p c
        → IfOk result (λ v. v ≡ map frame_of (frame_images c.frames)) }
{
    let mut frames = Items::new(alloc);
    for index in 0..instance.frame_count() {
        frames.push(owned_frame(alloc, &instance.frame(index))?)?;
    }
    Ok(frames)
}

/// The dump of an instance where it stands, with one module and one instance of this name. Its
/// segments are the memory's pages that are made, and borrow their bytes.
pub fn image<'a>(alloc: Global, instance: &'a Instance, name: &str) -> Result<Dump<'a>, NoMemory>
    ensures image { (p : Program) (c : Config) → StandsAt instance.now p c
        → IfOk result (λ d. Pictures (image_of c name.now) d) }
    ensures bytes { (p : Program) (c : Config) → StandsAt instance.now p c
        → IfOk result (λ d. canonical_bytes d ≡ bytes_of (image_of c name.now)) }
    ensures contained { IfOk result (λ d. IsContained d) }
    ensures pages { IfOk result (λ d. pages_of d.memory ≤ 4096) }
{
    let frames = all_frames(alloc, instance)?;
    let globals = Items::from_slice(alloc, instance.globals())?;
    let memory = instance.memory();
    let dump = picture(alloc, name, frames, globals, memory)?;
    Ok(dump)
}
