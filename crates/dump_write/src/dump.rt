//! A dump of one module and one instance.

ghost use Rattle.std.specs.Prelude.{◌≡◌, ◌∷◌, ◌-◌, ◌^◌, ◌≤◌, [], List, map, min, IfOk, Option, option_copied};
ghost use Rattle.std.specs.Prelude.{option_map};
ghost use Rattle.std.specs.List.{range_with_len};
ghost use Rattle.linear_memory.specs.Memory.{pages};
ghost use Rattle.linear_memory.specs.calls.Paged.{Paged};
ghost use Rattle.dump_format.specs.Form.{pages_of};
ghost use Rattle.dump_format.specs.calls.Contained.{IsContained};
ghost use Rattle.dump_write.specs.Canonical.{canonical_bytes, memory_indices};
ghost use Rattle.dump_write.specs.Image.{DumpFrame};
ghost use Rattle.wasm_syntax.specs.Numbers.{seen_of};
ghost use Rattle.dump_write.specs.ImageBytes.{frame_of, bytes_of};
ghost use Rattle.dump_write.specs.Pictured.{Pictures, bytes_in, CoversIfThere};

use crate::memory_segments;
use causes::NoMemory;
use dump_format::{
    Dump, Frame, Frames, Indices, Instance, Instances, Seens, Segments, Texts, Values,
};
use linear_memory::Memory;
use pm_text::{Items, Text};
use std::alloc::Global;
use wasm_syntax::Value;

/// Each value is recorded.
fn all_seen(alloc: Global, values: &[Value]) -> Result<Seens, NoMemory>
    ensures { IfOk result (λ v. v ≡ map seen_of values.now) }
{
    let mut out = Items::new(alloc);
    for value in values {
        out.push(value.shown())?;
    }
    Ok(out)
}

/// A frame of the one instance, which has the index 0, with all its values. Operands stand bottom
/// first.
pub fn recorded_frame(
    alloc: Global,
    function: u32,
    offset: u32,
    locals: &[Value],
    operands: &[Value],
) -> Result<Frame, NoMemory>
    ensures { IfOk result (λ f. f ≡ frame_of (record {
      function = function;
      offset = offset;
      locals = locals.now;
      operands = operands.now;
    })) }
{
    Ok(Frame {
        instance: 0,
        function,
        offset,
        locals: all_seen(alloc, locals)?,
        operands: all_seen(alloc, operands)?,
    })
}

/// The indices below a count.
fn indices(alloc: Global, count: u32) -> Result<Indices, NoMemory>
    ensures { IfOk result (λ v. v ≡ range_with_len 0 count) }
{
    let mut out = Items::new(alloc);
    for index in 0..count {
        out.push(index)?;
    }
    Ok(out)
}

/// The one instance, with its memory and all globals.
fn instances(alloc: Global, memory: Option<u32>, globals: usize) -> Result<Instances, NoMemory>
    ensures { IfOk result (λ v. v ≡ record {
      «module» = 0;
      memories = memory_indices memory;
      globals = range_with_len 0 (min globals (2 ^ 32 - 1));
    } ∷ []) }
{
    let count = u32::try_from(globals).unwrap_or(u32::MAX);
    let memories = indices(alloc, u32::from(memory.is_some()))?;
    let globals = indices(alloc, count)?;
    let mut out = Items::new(alloc);
    out.push(Instance {
        module: 0,
        memories,
        globals,
    })?;
    Ok(out)
}

fn one_name(alloc: Global, name: &str) -> Result<Texts, NoMemory>
    ensures { IfOk result (λ v. v ≡ name.now ∷ []) }
{
    let name = Text::from_str(alloc, name)?;
    let mut out = Items::new(alloc);
    out.push(name)?;
    Ok(out)
}

/// The size of the memory in pages, if there is one.
fn memory_size(memory: Option<&Memory>) -> Option<u32>
    ensures size { result ≡ option_map (λ m. pages m.memory) (option_copied memory.entry) }
    ensures limit { pages_of result ≤ 4096 }
{
    match memory {
        Some(memory) => Some(memory.size()),
        None => None,
    }
}

/// The pages of the memory that are made, if there is one.
fn segments<'a>(alloc: Global, memory: Option<&'a Memory>) -> Result<Segments<'a>, NoMemory>
    ensures { IfOk result (λ v. CoversIfThere (option_copied memory.entry) v) }
{
    match memory {
        Some(memory) => {
            let pages = memory_segments(alloc, memory)?;
            Ok(pages)
        }
        None => Ok(Items::new(alloc)),
    }
}

/// The dump with one module and one instance of this name. Its segments are the memory's pages that
/// are made, and borrow their bytes.
pub fn picture<'a>(
    alloc: Global,
    name: &str,
    frames: Frames,
    globals: Values,
    memory: Option<&'a Memory>,
) -> Result<Dump<'a>, NoMemory>
    ensures pictures { (held : Option Paged) (shown : List DumpFrame)
        → option_copied memory.entry ≡ held → frames ≡ map frame_of shown
        → IfOk result (λ d. Pictures (record {
          name = name.now;
          frames = shown;
          globals = globals;
          memory = bytes_in held;
        }) d) }
    ensures bytes { (held : Option Paged) (shown : List DumpFrame)
        → option_copied memory.entry ≡ held → frames ≡ map frame_of shown
        → IfOk result (λ d. canonical_bytes d ≡ bytes_of (record {
          name = name.now;
          frames = shown;
          globals = globals;
          memory = bytes_in held;
        })) }
    ensures contained { IfOk result (λ d. IsContained d) }
    ensures pages { IfOk result (λ d. pages_of d.memory ≤ 4096) }
{
    let size = memory_size(memory);
    Ok(Dump {
        name: Text::from_str(alloc, name)?,
        modules: one_name(alloc, name)?,
        instances: instances(alloc, size, globals.len())?,
        frames,
        memory: size,
        globals,
        segments: segments(alloc, memory)?,
    })
}
