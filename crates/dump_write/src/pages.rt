//! The memory of a dump, as pages that are not all zero.

ghost use Rattle.std.specs.Prelude.{◌≡◌, ◌==◌, ◌≤◌, ◌*◌, ◌+◌, not, filter, length, replicate, All, IfOk, Ok, OnOk};
ghost use Rattle.std.specs.Bool.{OnTrue};
ghost use Rattle.std.specs.List.{list_any};
ghost use Rattle.linear_memory.specs.Memory.{page_size, pages};
ghost use Rattle.dump_format.specs.Form.{pages_of};
ghost use Rattle.dump_format.specs.calls.Contained.{IsContained};
ghost use Rattle.dump_write.specs.Pages.{laid_on, memory_bytes, is_used};
ghost use Rattle.dump_write.specs.calls.Paged.{ArePages};

use causes::NoMemory;
use dump_format::{Dump, Segment, Segments};
use linear_memory::Memory;
use pm_text::Items;
use std::alloc::Global;

/// The size of a page in bytes (Core 4.2.8).
const PAGE_SIZE: u64 = 65_536;

/// Whether a byte is not zero.
fn has_nonzero(bytes: &[u8]) -> bool
    ensures { result ≡ list_any (λ b. not (b == 0)) bytes.now }
{
    bytes.iter().any(|b| *b != 0)
}

/// The segments that are not all zero.
pub fn used_segments<'a>(alloc: Global, segments: &[Segment<'a>]) -> Result<Segments<'a>, NoMemory>
    ensures { IfOk result (λ v. v ≡ filter is_used segments.now) }
{
    let mut used = Items::new(alloc);
    for segment in segments {
        if has_nonzero(segment.bytes) {
            used.push(Segment {
                at: segment.at,
                bytes: segment.bytes,
            })?;
        }
    }
    Ok(used)
}

/// Whether each segment is a whole page, and their addresses rise.
pub fn are_pages(segments: &[Segment<'_>]) -> bool
    ensures { OnTrue result (ArePages 0 segments.now) }
{
    let mut next = 0;
    for segment in segments {
        let at = u64::from(segment.at);
        let page = at / PAGE_SIZE;
        if at % PAGE_SIZE != 0 || page < next || segment.bytes.len() as u64 != PAGE_SIZE {
            return false;
        }
        next = page + 1;
    }
    true
}

/// The pages of a memory that are made, each as a segment that borrows its bytes, in rising order.
/// All other bytes of the memory are zero.
pub fn memory_segments<'a>(alloc: Global, memory: &'a Memory) -> Result<Segments<'a>, NoMemory>
    ensures paged { IfOk result (ArePages 0) }
    ensures bytes { IfOk result (λ v. laid_on (replicate (page_size * pages memory.now.memory) 0) v
        ≡ memory.now.memory.bytes) }
    ensures inside { IfOk result (λ v. All
        (λ r. r.at + length r.bytes ≤ page_size * pages memory.now.memory) v) }
{
    let mut segments = Items::new(alloc);
    for index in 0..memory.size() {
        if let Some(bytes) = memory.page(index) {
            segments.push(Segment {
                at: 65_536 * index,
                bytes,
            })?;
        }
    }
    Ok(segments)
}

/// A memory with the bytes of the dump's memory.
pub fn laid_memory(alloc: Global, dump: &Dump<'_>) -> Result<Memory, NoMemory>
    requires pages { pages_of dump.now.memory ≤ 4096 }
    requires contained { IsContained dump.now }
    ensures size { IfOk result (λ m. pages m.memory ≡ pages_of dump.now.memory) }
    ensures bytes { IfOk result (λ m. m.memory.bytes ≡ memory_bytes dump.now) }
{
    let pages = dump.memory.unwrap_or(0);
    let mut memory = Memory::new(alloc, pages, pages)?;
    for segment in dump.segments.as_slice() {
        // Each segment lies inside the memory, so that memory alone can be wanting.
        if memory.write(u64::from(segment.at), segment.bytes).is_err() {
            return Err(NoMemory);
        }
    }
    Ok(memory)
}
