//! Dumps as bytes, and as files.

ghost use Rattle.std.specs.Prelude.{◌≡◌, ◌++◌, ◌≤◌, ◌*◌, ◌⊎◌, filter, length, IfOk, All, Contains};
ghost use Rattle.causes.specs.Counts.{Rose};
ghost use Rattle.pm_outside.specs.calls.Answers.{Appends};
ghost use Rattle.pm_outside.specs.Created.{with_name};
ghost use Rattle.dump_format.specs.Form.{pages_of};
ghost use Rattle.dump_format.specs.calls.Contained.{IsContained};
ghost use Rattle.dump_write.specs.Spelled.{segment_bytes};
ghost use Rattle.dump_write.specs.Pages.{is_used};
ghost use Rattle.dump_write.specs.inner.Pieces.{data_head, pages_bytes};
ghost use Rattle.dump_write.specs.Canonical.{sections_before_data, segments_of, canonical_bytes};
ghost use Rattle.dump_write.specs.calls.Typed.{IsTyped};
ghost use Rattle.pm_outside.specs.Written.{OnTold, Leaves};
ghost use Rattle.pm_outside.specs.calls.Kept.{FilesGoOn};

use crate::pages::{are_pages, laid_memory, memory_segments, used_segments};
use crate::sections::sections_before_data;
use crate::segments::{push_data_head, push_segment_head, segment_head};
use causes::NoMemory;
use dump_format::{Dump, Segment};
use pm_outside::{Files, WriteAnswer};
use std::alloc::Global;

/// All that stands before the first of these segments.
fn head(alloc: Global, dump: &Dump<'_>, segments: &[Segment<'_>]) -> Result<Vec<u8>, NoMemory>
    requires count { length segments.now ≤ 4096 }
    requires pages { All (λ r. length r.bytes ≤ 65536) segments.now }
    ensures bytes { IfOk result (λ v. v.items
        ≡ sections_before_data dump.now ++ data_head segments.now) }
    ensures typed { IfOk result (λ _. IsTyped dump.now) }
{
    let mut out = sections_before_data(alloc, dump)?;
    push_data_head(alloc, &mut out, segments)?;
    Ok(out)
}

/// The canonical bytes, where the segments that are not all zero are the used pages of the memory.
fn bytes_with(alloc: Global, dump: &Dump<'_>, segments: &[Segment<'_>]) -> Result<Vec<u8>, NoMemory>
    requires pages { pages_of dump.now.memory ≤ 4096 }
    requires used { filter is_used segments.now ≡ segments_of dump.now }
    ensures bytes { IfOk result (λ v. v.items ≡ canonical_bytes dump.now) }
    ensures typed { IfOk result (λ _. IsTyped dump.now) }
{
    let used = used_segments(alloc, segments)?;
    let mut out = head(alloc, dump, used.as_slice())?;
    for segment in used.as_slice() {
        push_segment_head(&mut out, segment)?;
        out.extend_from_slice(segment.bytes)?;
    }
    Ok(out)
}

/// The canonical bytes of a dump.
pub fn dump_bytes(alloc: Global, dump: &Dump<'_>) -> Result<Vec<u8>, NoMemory>
    requires pages { pages_of dump.now.memory ≤ 4096 }
    requires contained { IsContained dump.now }
    ensures bytes { IfOk result (λ v. v.items ≡ canonical_bytes dump.now) }
    ensures typed { IfOk result (λ _. IsTyped dump.now) }
{
    let segments = dump.segments.as_slice();
    if are_pages(segments) {
        return bytes_with(alloc, dump, segments);
    }
    let memory = laid_memory(alloc, dump)?;
    let pages = memory_segments(alloc, &memory)?;
    bytes_with(alloc, dump, pages.as_slice())
}

/// Adds a segment at the end of a file, which was created.
fn append_segment<F: Files>(
    alloc: Global,
    files: &mut F,
    name: &str,
    segment: &Segment<'_>,
) -> WriteAnswer
    requires { Contains (F.created files.old) name.now }
    ensures content { OnTold (Appends name.now (segment_bytes segment.now) result)
        (F.told files.old) (F.told files.new) }
    ensures files { FilesGoOn F.told F.faults files.old files.new }
    ensures names { F.created files.new ≡ F.created files.old }
    ensures failed { result ≡ WriteAnswer.Failed → Rose (F.faults files.old) (F.faults files.new) }
{
    let Ok(head) = segment_head(alloc, segment) else {
        return WriteAnswer::NoMemory;
    };
    match files.append(name, &head) {
        WriteAnswer::Done => files.append(name, segment.bytes),
        refused => refused,
    }
}

/// Makes a file of these pieces, each segment behind its head.
fn write_pieces<F: Files>(
    alloc: Global,
    files: &mut F,
    name: &str,
    head: &[u8],
    segments: &[Segment<'_>],
) -> WriteAnswer
    ensures content { OnTold (Leaves name.now (head.now ++ pages_bytes segments.now) result)
        (F.told files.old) (F.told files.new) }
    ensures files { FilesGoOn F.told F.faults files.old files.new }
    ensures names { (F.created files.new ≡ F.created files.old)
        ⊎ (F.created files.new ≡ with_name (F.created files.old) name.now) }
    ensures failed { result ≡ WriteAnswer.Failed → Rose (F.faults files.old) (F.faults files.new) }
{
    match files.create(name) {
        WriteAnswer::Done => {}
        refused => return refused,
    }
    match files.append(name, head) {
        WriteAnswer::Done => {}
        refused => return refused,
    }
    for segment in segments {
        match append_segment(alloc, files, name, segment) {
            WriteAnswer::Done => {}
            refused => return refused,
        }
    }
    WriteAnswer::Done
}

/// Makes a file of the canonical bytes, where the segments that are not all zero are the used pages
/// of the memory.
fn write_with<F: Files>(
    alloc: Global,
    dump: &Dump<'_>,
    segments: &[Segment<'_>],
    files: &mut F,
    name: &str,
) -> WriteAnswer
    requires pages { pages_of dump.now.memory ≤ 4096 }
    requires used { filter is_used segments.now ≡ segments_of dump.now }
    ensures content { OnTold (Leaves name.now (canonical_bytes dump.now) result) (F.told files.old)
        (F.told files.new) }
    ensures files { FilesGoOn F.told F.faults files.old files.new }
    ensures names { (F.created files.new ≡ F.created files.old)
        ⊎ (F.created files.new ≡ with_name (F.created files.old) name.now) }
    ensures failed { result ≡ WriteAnswer.Failed → Rose (F.faults files.old) (F.faults files.new) }
    ensures typed { result ≡ WriteAnswer.Done → IsTyped dump.now }
{
    let Ok(used) = used_segments(alloc, segments) else {
        return WriteAnswer::NoMemory;
    };
    let Ok(head) = head(alloc, dump, used.as_slice()) else {
        return WriteAnswer::NoMemory;
    };
    write_pieces(alloc, files, name, &head, used.as_slice())
}

/// Makes a file of the canonical bytes of a dump. The memory goes out page by page, and is not
/// copied where the segments are whole pages in rising order.
pub fn write_dump<F: Files>(
    alloc: Global,
    dump: &Dump<'_>,
    files: &mut F,
    name: &str,
) -> WriteAnswer
    requires pages { pages_of dump.now.memory ≤ 4096 }
    requires contained { IsContained dump.now }
    ensures content { OnTold (Leaves name.now (canonical_bytes dump.now) result) (F.told files.old)
        (F.told files.new) }
    ensures files { FilesGoOn F.told F.faults files.old files.new }
    ensures names { (F.created files.new ≡ F.created files.old)
        ⊎ (F.created files.new ≡ with_name (F.created files.old) name.now) }
    ensures failed { result ≡ WriteAnswer.Failed → Rose (F.faults files.old) (F.faults files.new) }
    ensures typed { result ≡ WriteAnswer.Done → IsTyped dump.now }
{
    let segments = dump.segments.as_slice();
    if are_pages(segments) {
        return write_with(alloc, dump, segments, files, name);
    }
    let Ok(memory) = laid_memory(alloc, dump) else {
        return WriteAnswer::NoMemory;
    };
    let Ok(pages) = memory_segments(alloc, &memory) else {
        return WriteAnswer::NoMemory;
    };
    write_with(alloc, dump, pages.as_slice(), files, name)
}
