//! What the output takes of an answer: one piece, or a front of it where the output fails.

use crate::reading::words_of;
use crate::trial::{USAGE, status_of};
use pm_outside::{MemFiles, MemSink, Part, PutAnswer, Sink};
use std::alloc::Global;
use std::test::Fail;

/// Exports `div`, which divides its two parameters.
const DIVISION: [u8; 41] = [
    0x00, 0x61, 0x73, 0x6D, 0x01, 0x00, 0x00, 0x00, 0x01, 0x07, 0x01, 0x60, 0x02, 0x7F, 0x7F, 0x01,
    0x7F, 0x03, 0x02, 0x01, 0x00, 0x07, 0x07, 0x01, 0x03, 0x64, 0x69, 0x76, 0x00, 0x00, 0x0A, 0x09,
    0x01, 0x07, 0x00, 0x20, 0x00, 0x20, 0x01, 0x6D, 0x0B,
];

/// The status of a command over the module in `d`, with this output.
fn ended(alloc: Global, line: &str, out: &mut MemSink) -> Result<u8, Fail> {
    let words = words_of(alloc, line)?;
    let mut files = MemFiles::new(alloc, Vec::new(alloc));
    files.add("d", &DIVISION)?;
    Ok(status_of(alloc, &words, &mut files, out))
}

/// An output whose call with that number fails and takes so many bytes.
fn failing(alloc: Global, part: Part) -> Result<MemSink, Fail> {
    let mut out = MemSink::new(alloc, Vec::from_slice(alloc, &[part.call])?);
    out.take_parts(Vec::from_slice(alloc, &[part])?);
    Ok(out)
}

/// Whether a command ends so and puts once: the second call of `put` fails, and is that of the
/// test.
fn puts_once(alloc: Global, line: &str, code: u8) -> Result<bool, Fail> {
    let mut out = failing(alloc, Part { call: 1, bytes: 0 })?;
    let status = ended(alloc, line, &mut out)?;
    let second = out.put(b"x");
    Ok(status == code && matches!(second, PutAnswer::Failed { written: 0 }))
}

#[test]
fn a_text_is_put_at_once(rt: HostRuntime) -> Result<(), Fail> {
    let rows = [
        ("none", 2),
        ("check d", 0),
        ("check e", 3),
        ("show d", 11),
        ("run d div i32:8 i32:2", 0),
        ("run d div i32:8 i32:0", 1),
    ];
    for (line, code) in rows {
        assert!(rt; puts_once(rt.alloc(), line, code)?, "{line}");
    }
    Ok(())
}

/// Whether an output that takes so many bytes has this front.
fn takes(alloc: Global, bytes: usize, front: &str) -> Result<bool, Fail> {
    let mut out = failing(alloc, Part { call: 0, bytes })?;
    let status = ended(alloc, "none", &mut out)?;
    Ok(status == 4 && out.bytes() == front.as_bytes())
}

#[test]
fn a_failing_output_takes_a_front(rt: HostRuntime) -> Result<(), Fail> {
    for (bytes, front) in [(0, ""), (6, "usage:"), (99, USAGE)] {
        assert!(rt; takes(rt.alloc(), bytes, front)?, "{front}");
    }
    Ok(())
}
