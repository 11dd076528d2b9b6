//! The memory that a dump records.

ghost use Rattle.std.specs.Prelude.{◌≡◌, ◌+◌, ◌*◌, ◌≤◌, IfOk, OnOk, IfSome, All, length, Some, option_map};
ghost use Rattle.linear_memory.specs.Memory.{page_size, put};
ghost use Rattle.dump_format.specs.calls.Contained.{IsContained};
ghost use Rattle.debugger.specs.Recorded as definitions;

use causes::NoMemory;
use dump_format::{Dump, Instance, Segment};
use linear_memory::{Memory, StoreFault};
use std::alloc::Global;

/// Writes a segment that is inside the memory.
fn put(memory: &mut Memory, segment: &Segment<'_>) -> Result<(), NoMemory>
    requires { segment.now.at + length segment.now.bytes ≤ length memory.old.memory.bytes }
    ensures { OnOk result (put memory.old.memory segment.now.at segment.now.bytes
        ≡ Some memory.new.memory) }
{
    match memory.write(u64::from(segment.at), segment.bytes) {
        Ok(()) => Ok(()),
        Err(StoreFault::NoMemory) => Err(NoMemory),
        Err(StoreFault::Out) => Err(NoMemory),
    }
}

/// Writes segments that are inside the memory, one after the other.
fn lay(memory: &mut Memory, segments: &[Segment<'_>]) -> Result<(), NoMemory>
    requires { All (λ r. r.at + length r.bytes ≤ length memory.old.memory.bytes) segments.now }
    ensures { OnOk result (memory.new.memory
        ≡ definitions.laid_over memory.old.memory segments.now) }
{
    for segment in segments {
        put(memory, segment)?;
    }
    Ok(())
}

/// A memory of so many pages with segments written over zeros.
fn laid(alloc: Global, pages: u32, segments: &[Segment<'_>]) -> Result<Memory, NoMemory>
    requires small { pages ≤ 4096 }
    requires inside { All (λ r. r.at + length r.bytes ≤ page_size * pages) segments.now }
    ensures { IfOk result (λ m. m.memory ≡ definitions.laid_memory pages segments.now) }
{
    let mut memory = Memory::new(alloc, pages, pages)?;
    lay(&mut memory, segments)?;
    Ok(memory)
}

/// The memory of a dump, where an instance lists one.
fn memory_in(alloc: Global, dump: &Dump<'_>, memories: &[u32]) -> Result<Option<Memory>, NoMemory>
    requires small { IfSome (definitions.memory_in dump.now memories.now) (λ m. m.max ≤ 4096) }
    requires contained { IsContained dump.now }
    ensures { IfOk result (λ memory. option_map (λ m. m.memory) memory
        ≡ definitions.memory_in dump.now memories.now) }
{
    if memories.is_empty() {
        return Ok(None);
    }
    let Some(pages) = dump.memory else {
        return Ok(None);
    };
    let memory = laid(alloc, pages, dump.segments.as_slice())?;
    Ok(Some(memory))
}

fn memory_among(
    alloc: Global,
    dump: &Dump<'_>,
    instances: &[Instance],
) -> Result<Option<Memory>, NoMemory>
    requires small { IfSome (definitions.memory_among dump.now instances.now) (λ m. m.max ≤ 4096) }
    requires contained { IsContained dump.now }
    ensures { IfOk result (λ memory. option_map (λ m. m.memory) memory
        ≡ definitions.memory_among dump.now instances.now) }
{
    match instances.first() {
        Some(one) => memory_in(alloc, dump, one.memories.as_slice()),
        None => Ok(None),
    }
}

/// The memory of a dump, where its instance lists one.
#[tactic(auto, unfolding(crate::specs::Recorded::recorded_memory))]
pub fn recorded_memory(alloc: Global, dump: &Dump<'_>) -> Result<Option<Memory>, NoMemory>
    requires small { IfSome (definitions.recorded_memory dump.now) (λ m. m.max ≤ 4096) }
    requires contained { IsContained dump.now }
    ensures { IfOk result (λ memory. option_map (λ m. m.memory) memory
        ≡ definitions.recorded_memory dump.now) }
{
    memory_among(alloc, dump, dump.instances.as_slice())
}
