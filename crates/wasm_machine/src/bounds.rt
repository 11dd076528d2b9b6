//! Whether the segments of a module lie inside its table and its memory, which is judged before
//! anything is written.

ghost use Rattle.std.specs.Prelude.{◌≡◌, ◌<◌, ◌^◌, ◌*◌, option_map, length, map};
ghost use Rattle.linear_memory.specs.Memory.{page_size};
ghost use Rattle.wasm_syntax.specs.Sizes.{Short};
ghost use Rattle.wasm_syntax.specs.Run.{element_fits as is_element_inside, data_fits as is_data_inside, empty_memory};
ghost use Rattle.wasm_syntax.specs.Run.{memory_bytes, first_false, cause_of_segments};
ghost use Rattle.wasm_machine.specs.calls.Starts.{segment_cause};

use wasm_syntax::{DataSeg, ModuleParts};

/// A segment that passes the end of the table or of the memory, by its index among its kind.
#[derive(Clone, Copy)]
pub enum SegmentOut {
    Element { index: u32 },
    Data { index: u32 },
}

/// How many bytes the memory has at the start.
fn memory_size(m: &ModuleParts) -> u64
    ensures { result ≡ length (memory_bytes (empty_memory m.now.memories)) }
{
    match m.memories.as_slice() {
        [] => 0,
        [limits, ..] => 65536 * u64::from(limits.min),
    }
}

fn data_fits(m: &ModuleParts, segment: &DataSeg) -> bool
    ensures { result ≡ is_data_inside m.now segment.now }
{
    let at = u64::from(m.data_at(segment));
    let size = memory_size(m);
    at <= size && segment.bytes.len() as u64 <= size - at
}

/// The first element segment that passes the end of the table.
fn element_out(m: &ModuleParts) -> Option<u32>
    requires few { Short m.now.elements }
    ensures { result ≡ first_false 0 (map (is_element_inside m.now) m.now.elements) }
{
    let elements = m.elements.as_slice();
    let mut index = 0u32;
    for element in elements {
        if !m.element_fits(element) {
            return Some(index);
        }
        index += 1;
    }
    None
}

/// The first data segment that passes the end of the memory.
fn data_out(m: &ModuleParts) -> Option<u32>
    requires few { Short m.now.segments }
    ensures { result ≡ first_false 0 (map (is_data_inside m.now) m.now.segments) }
{
    let segments = m.segments.as_slice();
    let mut index = 0u32;
    for segment in segments {
        if !data_fits(m, segment) {
            return Some(index);
        }
        index += 1;
    }
    None
}

/// The first segment that passes the end of what it is put into, where the element segments come
/// first (Core 4.5.4). It takes no memory.
pub fn segment_out(m: &ModuleParts) -> Option<SegmentOut>
    requires elements { Short m.now.elements }
    requires segments { Short m.now.segments }
    ensures { option_map segment_cause result ≡ cause_of_segments m.now }
{
    match element_out(m) {
        Some(index) => Some(SegmentOut::Element { index }),
        None => match data_out(m) {
            Some(index) => Some(SegmentOut::Data { index }),
            None => None,
        },
    }
}
