//! Dumps byte by byte, with offsets that were worked out by hand.

use dump_format::{Dump, DumpFault, DumpPart, Frame, decode_dump};
use std::alloc::{AllocError, Global};
use wasm_syntax::{Quantity, Seen};

/// A trap in a module of one function: one frame, no memory, no globals.
const TRAP: [u8; 100] = [
    0x00, 0x61, 0x73, 0x6D, 0x01, 0x00, 0x00, 0x00, 0x00, 0x0D, 0x04, 0x63, 0x6F, 0x72, 0x65, 0x00,
    0x06, 0x6D, 0x6F, 0x64, 0x75, 0x6C, 0x65, 0x00, 0x15, 0x0B, 0x63, 0x6F, 0x72, 0x65, 0x6D, 0x6F,
    0x64, 0x75, 0x6C, 0x65, 0x73, 0x01, 0x00, 0x06, 0x6D, 0x6F, 0x64, 0x75, 0x6C, 0x65, 0x00, 0x13,
    0x0D, 0x63, 0x6F, 0x72, 0x65, 0x69, 0x6E, 0x73, 0x74, 0x61, 0x6E, 0x63, 0x65, 0x73, 0x01, 0x00,
    0x00, 0x00, 0x00, 0x00, 0x1F, 0x09, 0x63, 0x6F, 0x72, 0x65, 0x73, 0x74, 0x61, 0x63, 0x6B, 0x00,
    0x04, 0x6D, 0x61, 0x69, 0x6E, 0x01, 0x00, 0x00, 0x00, 0x05, 0x02, 0x7F, 0x07, 0x7F, 0x00, 0x02,
    0x7F, 0x07, 0x7F, 0x00,
];

/// A dump with a foreign section, a memory of one page and three segments.
const SEGMENTS: [u8; 113] = [
    0x00, 0x61, 0x73, 0x6D, 0x01, 0x00, 0x00, 0x00, 0x00, 0x07, 0x04, 0x63, 0x6F, 0x72, 0x65, 0x00,
    0x00, 0x00, 0x03, 0x01, 0x78, 0xFF, 0x00, 0x0F, 0x0B, 0x63, 0x6F, 0x72, 0x65, 0x6D, 0x6F, 0x64,
    0x75, 0x6C, 0x65, 0x73, 0x01, 0x00, 0x00, 0x00, 0x14, 0x0D, 0x63, 0x6F, 0x72, 0x65, 0x69, 0x6E,
    0x73, 0x74, 0x61, 0x6E, 0x63, 0x65, 0x73, 0x01, 0x00, 0x00, 0x01, 0x00, 0x00, 0x00, 0x17, 0x09,
    0x63, 0x6F, 0x72, 0x65, 0x73, 0x74, 0x61, 0x63, 0x6B, 0x00, 0x04, 0x6D, 0x61, 0x69, 0x6E, 0x01,
    0x00, 0x00, 0x00, 0x03, 0x00, 0x00, 0x05, 0x03, 0x01, 0x00, 0x01, 0x0B, 0x14, 0x03, 0x00, 0x41,
    0x00, 0x0B, 0x01, 0x01, 0x00, 0x41, 0x10, 0x0B, 0x02, 0x02, 0x03, 0x00, 0x41, 0x10, 0x0B, 0x01,
    0xFF,
];

/// The header, and a section `core` with the empty name: 17 bytes.
const CORE: [u8; 17] = [
    0x00, 0x61, 0x73, 0x6D, 0x01, 0x00, 0x00, 0x00, 0x00, 0x07, 0x04, 0x63, 0x6F, 0x72, 0x65, 0x00,
    0x00,
];

/// A stack with one frame, whose one local is a float.
const FLOAT_STACK: [u8; 30] = [
    0x00, 0x1C, 0x09, 0x63, 0x6F, 0x72, 0x65, 0x73, 0x74, 0x61, 0x63, 0x6B, 0x00, 0x04, 0x6D, 0x61,
    0x69, 0x6E, 0x01, 0x00, 0x00, 0x00, 0x05, 0x01, 0x7D, 0x00, 0x00, 0x80, 0x3F, 0x00,
];

/// Whether a frame stands at 5 and has seen 7 and 0, as locals and as operands.
fn is_frame(frame: &Frame) -> bool {
    let values = [Seen::I32(7), Seen::I32(0)];
    frame.offset == 5
        && frame.locals.as_slice() == values.as_slice()
        && frame.operands.as_slice() == values.as_slice()
}

fn is_trap(dump: &Dump<'_>) -> bool {
    dump.name.as_str() == "module"
        && matches!(dump.modules.as_slice(), [name] if name.as_str() == "module")
        && matches!(dump.instances.as_slice(), [instance] if instance.memories.is_empty())
        && matches!(dump.frames.as_slice(), [frame] if is_frame(frame))
}

fn has_no_memory(dump: &Dump<'_>) -> bool {
    dump.memory.is_none() && dump.globals.is_empty() && dump.segments.is_empty()
}

fn has_segments(dump: &Dump<'_>) -> bool {
    dump.name.as_str() == ""
        && dump.memory == Some(1)
        && matches!(
            dump.segments.as_slice(),
            [_, _, last] if last.at == 16 && last.bytes == [0xFF].as_slice()
        )
}

/// What is asked of a dump.
#[derive(Drop)]
enum Asked {
    Trap,
    Segments,
    /// Whether it has a memory of one page.
    Page,
    /// Whether it is refused so.
    Refused(DumpFault),
}

fn answers(dump: &Dump<'_>, asked: &Asked) -> bool {
    match asked {
        Asked::Trap => is_trap(dump) && has_no_memory(dump),
        Asked::Segments => has_segments(dump),
        Asked::Page => dump.memory == Some(1),
        Asked::Refused(_) => false,
    }
}

fn is_so(alloc: Global, bytes: &[u8], asked: &Asked) -> bool {
    match decode_dump(alloc, bytes) {
        Ok(dump) => answers(&dump, asked),
        Err(found) => matches!(asked, Asked::Refused(fault) if found == *fault),
    }
}

fn breaks_at(alloc: Global, bytes: &[u8], at: usize) -> bool {
    is_so(alloc, bytes, &Asked::Refused(DumpFault::Malformed { at }))
}

#[test]
fn dumps_are_read(rt: HostRuntime) {
    let alloc = rt.alloc();
    assert!(rt; is_so(alloc, &TRAP, &Asked::Trap));
    assert!(rt; is_so(alloc, &SEGMENTS, &Asked::Segments));
    // inputs that end early
    assert!(rt; breaks_at(alloc, &[], 0) && breaks_at(alloc, &[0x00, 0x61, 0x73, 0x6E], 3));
    assert!(rt; breaks_at(alloc, &CORE[..8], 8) && breaks_at(alloc, &TRAP[..99], 68));
}

/// The bytes of `CORE`, and others behind them.
fn with_core(alloc: Global, others: &[&[u8]]) -> Result<Vec<u8>, AllocError> {
    let mut bytes = CORE.to_vec(alloc)?;
    for other in others {
        bytes.extend_from_slice(other)?;
    }
    Ok(bytes)
}

/// What stands behind the header in `CORE`.
const SECOND_CORE: [u8; 9] = [0x00, 0x07, 0x04, 0x63, 0x6F, 0x72, 0x65, 0x00, 0x00];

const PAGE: [u8; 5] = [0x05, 0x03, 0x01, 0x00, 0x01];

/// What stands behind `CORE`, and what is asked of it.
type Row = (&'static [&'static [u8]], Asked);

const BEHIND_CORE: [Row; 15] = [
    // long numbers
    (&[&[0x05, 0x05, 0x01, 0x00, 0x81, 0x80, 0x00]], Asked::Page),
    // a section twice, and one left over byte
    (
        &[&PAGE, &PAGE],
        Asked::Refused(DumpFault::Malformed { at: 22 }),
    ),
    (
        &[&[0x05, 0x04, 0x01, 0x00, 0x01, 0x00]],
        Asked::Refused(DumpFault::Malformed { at: 22 }),
    ),
    // an id past 11
    (
        &[&[0x0C, 0x00]],
        Asked::Refused(DumpFault::Malformed { at: 17 }),
    ),
    // a segment that is cut, one past the end, one without a memory
    (
        &[&PAGE, &[0x0B, 0x06, 0x01, 0x00, 0x41, 0x00, 0x0B, 0x02]],
        Asked::Refused(DumpFault::Malformed { at: 30 }),
    ),
    (
        &[
            &PAGE,
            &[
                0x0B, 0x0A, 0x01, 0x00, 0x41, 0xFF, 0xFF, 0x03, 0x0B, 0x02, 0xAA, 0xBB,
            ],
        ],
        Asked::Refused(DumpFault::Malformed { at: 25 }),
    ),
    (
        &[&[0x0B, 0x06, 0x01, 0x00, 0x41, 0x00, 0x0B, 0x00]],
        Asked::Refused(DumpFault::Malformed { at: 20 }),
    ),
    // a float that is cut, and an unknown tag of a global
    (
        &[&[0x06, 0x05, 0x01, 0x7C, 0x00, 0x44, 0x00]],
        Asked::Refused(DumpFault::Malformed { at: 23 }),
    ),
    (
        &[&[0x06, 0x02, 0x01, 0x70]],
        Asked::Refused(DumpFault::Malformed { at: 20 }),
    ),
    // floats: a global, a local
    (
        &[&[
            0x06, 0x09, 0x01, 0x7D, 0x00, 0x43, 0x00, 0x00, 0x80, 0x3F, 0x0B,
        ]],
        Asked::Refused(DumpFault::FloatValue { at: 20 }),
    ),
    (
        &[&FLOAT_STACK],
        Asked::Refused(DumpFault::FloatValue { at: 41 }),
    ),
    // parts that stand twice, behind a float and before the limits
    (
        &[&SECOND_CORE, &FLOAT_STACK],
        Asked::Refused(DumpFault::FloatValue { at: 50 }),
    ),
    (
        &[&SECOND_CORE, &[0x05, 0x04, 0x01, 0x00, 0x81, 0x20]],
        Asked::Refused(DumpFault::Several {
            part: DumpPart::Core,
        }),
    ),
    (
        &[&[0x05, 0x05, 0x02, 0x00, 0x01, 0x00, 0x01]],
        Asked::Refused(DumpFault::Several {
            part: DumpPart::Memory,
        }),
    ),
    (
        &[&[0x05, 0x04, 0x01, 0x00, 0x81, 0x20]],
        Asked::Refused(DumpFault::Limit {
            what: Quantity::DumpPages,
            count: 4097,
        }),
    ),
];

fn is_so_behind_core(alloc: Global, row: &Row) -> bool {
    match with_core(alloc, row.0) {
        Ok(bytes) => is_so(alloc, &bytes, &row.1),
        Err(_) => false,
    }
}

/// The number of the first row that does not hold.
fn first_wrong(alloc: Global) -> Option<usize> {
    for (i, row) in BEHIND_CORE.iter().enumerate() {
        if !is_so_behind_core(alloc, row) {
            return Some(i);
        }
    }
    None
}

#[test]
fn what_stands_behind_the_core(rt: HostRuntime) {
    assert_eq!(rt; first_wrong(rt.alloc()), None);
}
