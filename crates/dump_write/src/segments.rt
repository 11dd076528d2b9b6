//! The data section, segment by segment (Core 5.5.14).

ghost use Rattle.std.specs.Prelude.{◌≡◌, ◌++◌, ◌≤◌, ◌<◌, length, IfOk, OnOk, All};
ghost use Rattle.dump_write.specs.Spelled.{segment_head, segment_bytes, vector_bytes};
ghost use Rattle.dump_write.specs.inner.Pieces.{data_head};

use causes::NoMemory;
use dump_format::Segment;
use std::alloc::Global;
use wasm_leb::{write_s32, write_u64};

/// What stands before the bytes of a segment: the index of its memory, its address, and the count
/// of its bytes.
#[tactic(auto, unfolding(crate::specs::Spelled::segment_head))]
pub fn push_segment_head(out: &mut Vec<u8>, segment: &Segment<'_>) -> Result<(), NoMemory>
    ensures { OnOk result (out.new.items ≡ out.old.items ++ segment_head segment.now) }
{
    out.extend_from_slice(&[0x00, 0x41])?;
    write_s32(out, segment.at.cast_signed())?;
    out.push(0x0b)?;
    write_u64(out, segment.bytes.len() as u64)
}

/// The bytes that stand before those of a segment.
pub fn segment_head(alloc: Global, segment: &Segment<'_>) -> Result<Vec<u8>, NoMemory>
    ensures { IfOk result (λ v. v.items ≡ segment_head segment.now) }
{
    let mut head = Vec::new(alloc);
    push_segment_head(&mut head, segment)?;
    Ok(head)
}

/// The size of the contents of a data section, in bytes.
fn contents_size(alloc: Global, segments: &[Segment<'_>]) -> Result<u64, NoMemory>
    requires count { length segments.now ≤ 4096 }
    requires pages { All (λ r. length r.bytes ≤ 65536) segments.now }
    ensures { IfOk result (λ n. n ≡ length (vector_bytes segment_bytes segments.now)) }
{
    let mut count = Vec::new(alloc);
    write_u64(&mut count, segments.len() as u64)?;
    let mut size = count.len() as u64;
    for segment in segments {
        let head = segment_head(alloc, segment)?;
        size += head.len() as u64 + segment.bytes.len() as u64;
    }
    Ok(size)
}

/// What stands before the first segment, where there is one.
#[tactic(auto, unfolding(crate::specs::inner::Pieces::data_head))]
pub fn push_data_head(
    alloc: Global,
    out: &mut Vec<u8>,
    segments: &[Segment<'_>],
) -> Result<(), NoMemory>
    requires count { length segments.now ≤ 4096 }
    requires pages { All (λ r. length r.bytes ≤ 65536) segments.now }
    ensures { OnOk result (out.new.items ≡ out.old.items ++ data_head segments.now) }
{
    if segments.is_empty() {
        return Ok(());
    }
    let size = contents_size(alloc, segments)?;
    out.push(11)?;
    write_u64(out, size)?;
    write_u64(out, segments.len() as u64)
}
