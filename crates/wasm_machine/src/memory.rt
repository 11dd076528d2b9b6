//! The memory of an instance, into whose pages the data segments are written.

ghost use Rattle.std.specs.Prelude.{◌≡◌, ◌+◌, ◌≤◌, ◌^◌, length, map, fold, min, unwrap_or, option_map, IfOk, OnOk};
ghost use Rattle.std.specs.Prelude.{Some, None};
ghost use Rattle.std.specs.List.{AllByRecursion};
ghost use Rattle.wasm_syntax.specs.Run.{data_fits, first_false, empty_memory as memory_at_first, memory_bytes};
ghost use Rattle.wasm_syntax.specs.Run.{start_memory as memory_at_start};
ghost use Rattle.wasm_syntax.specs.calls.Starting.{put_data};
ghost use Rattle.wasm_machine.specs.calls.Starts.{most_pages, MayBegin};

use causes::NoMemory;
use linear_memory::{Memory, StoreFault};
use std::alloc::Global;
use wasm_syntax::{Limits, ModuleParts};

/// The most pages that a memory may have: at most 4,096.
fn greatest_size(limits: Limits) -> u32
    ensures { result ≡ most_pages limits }
{
    match limits.max {
        Some(max) if max < 4096 => max,
        _ => 4096,
    }
}

/// The memory that a module declares, of zeros.
fn empty_memory(alloc: Global, m: &ModuleParts) -> Result<Option<Memory>, NoMemory>
    requires { AllByRecursion MayBegin m.now.memories }
    ensures { IfOk result (λ memory. option_map (λ k. k.memory) memory
        ≡ memory_at_first m.now.memories) }
{
    match m.memories.as_slice() {
        [] => Ok(None),
        [limits, ..] => {
            let memory = Memory::new(alloc, limits.min, greatest_size(*limits))?;
            Ok(Some(memory))
        }
    }
}

/// Writes the bytes of all data segments into a memory, in the order of the segments.
fn fill_memory(memory: &mut Memory, m: &ModuleParts) -> Result<(), NoMemory>
    requires size { length memory.old.memory.bytes
        ≡ length (memory_bytes (memory_at_first m.now.memories)) }
    requires fits { first_false 0 (map (data_fits m.now) m.now.segments) ≡ None }
    ensures { OnOk result (memory.new.memory
        ≡ fold (put_data m.now) memory.old.memory m.now.segments) }
{
    let segments = m.segments.as_slice();
    for segment in segments {
        let at = u64::from(m.data_at(segment));
        match memory.write(at, segment.bytes.as_slice()) {
            Ok(()) => {}
            Err(StoreFault::NoMemory) => return Err(NoMemory),
            Err(StoreFault::Out) => unreachable!(),
        }
    }
    Ok(())
}

/// The memory with the bytes of all data segments, where there is one.
pub(crate) fn start_memory(alloc: Global, m: &ModuleParts) -> Result<Option<Memory>, NoMemory>
    requires memories { AllByRecursion MayBegin m.now.memories }
    requires fits { first_false 0 (map (data_fits m.now) m.now.segments) ≡ None }
    ensures { IfOk result (λ memory. option_map (λ k. k.memory) memory ≡ memory_at_start m.now) }
{
    match empty_memory(alloc, m)? {
        Some(mut memory) => {
            fill_memory(&mut memory, m)?;
            Ok(Some(memory))
        }
        None => Ok(None),
    }
}
