//! `run` over long files, and over files whose calls fail.

use crate::trial::{are_answered, files_of};
use pm_outside::{MemFiles, Part};
use std::alloc::Global;
use test_modules::{FAR_STORES, READING};

fn are_replies(alloc: Global, replies: &[u8], wanted: (u8, &str)) -> bool {
    match files_of(alloc, &READING, replies, &[]) {
        Ok(mut files) => are_answered(alloc, ["run m", "--replies r f"], &mut files, wanted),
        Err(_) => false,
    }
}

/// Whether a module that calls an import gets this from replies of so many bytes, all of them in a
/// comment without an end of its line.
fn is_answered_at(alloc: Global, size: usize, wanted: (u8, &str)) -> bool {
    match Vec::from_elem(alloc, b'#', size) {
        Ok(replies) => are_replies(alloc, &replies, wanted),
        Err(_) => false,
    }
}

const UNANSWERED: (u8, &str) = (9, "host stopped: no reply for call 0\n");

const TOO_LONG: (u8, &str) = (13, "limit: replies bytes 16777217 over 16777216\n");

#[test]
fn long_replies_are_refused(rt: HostRuntime) {
    let longest = is_answered_at(rt.alloc(), 16_777_216, UNANSWERED);
    assert!(rt; longest && is_answered_at(rt.alloc(), 16_777_217, TOO_LONG));
}

const MODULE_FAULT: (u8, &str) = (4, "file fault: \"m\"\n");

const DUMP_FAULT: (u8, &str) = (4, "file fault: \"core.wasm\"\n");

/// The call of `Files` that fails in a run of far stores, the status and text, and how long the
/// dump is then, if it is there. The module is read in two calls. Then the dump is created, and
/// gets its head of 104 bytes and each page behind its own head.
const FAULTS: [(u64, (u8, &str), Option<usize>); 8] = [
    (0, MODULE_FAULT, None),
    (1, MODULE_FAULT, None),
    (2, DUMP_FAULT, None),
    (3, DUMP_FAULT, Some(0)),
    (4, DUMP_FAULT, Some(104)),
    (5, DUMP_FAULT, Some(111)),
    (6, DUMP_FAULT, Some(65_647)),
    (7, DUMP_FAULT, Some(65_658)),
];

/// Whether far stores run so, and leave a dump of this length.
fn are_stored(
    alloc: Global,
    files: &mut MemFiles,
    wanted: (u8, &str),
    length: Option<usize>,
) -> bool {
    are_answered(alloc, ["run m", "f"], files, wanted)
        && match files.get("core.wasm") {
            Some(dump) => length == Some(dump.len()),
            None => length.is_none(),
        }
}

/// Whether a call fails so.
fn may_fail(alloc: Global, row: &(u64, (u8, &str), Option<usize>)) -> bool {
    match files_of(alloc, &FAR_STORES, b"", &[row.0]) {
        Ok(mut files) => are_stored(alloc, &mut files, row.1, row.2),
        Err(_) => false,
    }
}

#[test]
fn a_memory_is_written_page_by_page(rt: HostRuntime) {
    for row in &FAULTS {
        assert!(rt; may_fail(rt.alloc(), row), "{}", row.0);
    }
}

/// The module's header, and the id and size of the first section.
const FRONT: [u8; 10] = [0x00, 0x61, 0x73, 0x6D, 0x01, 0x00, 0x00, 0x00, 0x00, 0x0D];

/// Whether the call that adds the head of a dump, and fails behind its first ten bytes, leaves
/// these.
fn is_front_left(alloc: Global, files: &mut MemFiles) -> bool {
    match Vec::from_slice(alloc, &[Part { call: 3, bytes: 10 }]) {
        Ok(parts) => files.take_parts(parts),
        Err(_) => return false,
    }
    are_stored(alloc, files, DUMP_FAULT, Some(10))
        && files.get("core.wasm") == Some(FRONT.as_slice())
}

const TRAPPED: (u8, &str) = (
    1,
    "trap 1 unreachable\nat function 0 offset 19\nhost calls 0\n",
);

/// Pieces of the dump of far stores, and where they stand: two segments, at 0, which begins with 1,
/// and at 268369920, which ends with 2.
const PIECES: [(usize, &[u8]); 3] = [
    (
        103,
        &[0x02, 0x00, 0x41, 0x00, 0x0B, 0x80, 0x80, 0x04, 0x01, 0x00],
    ),
    (
        65_647,
        &[
            0x00, 0x41, 0x80, 0x80, 0xFC, 0xFF, 0x00, 0x0B, 0x80, 0x80, 0x04, 0x00,
        ],
    ),
    (131_192, &[0x00, 0x02]),
];

/// Whether a dump has the pieces.
fn has_pieces(dump: Option<&[u8]>, pieces: &[(usize, &[u8])]) -> bool {
    let Some(dump) = dump else { return false };
    for piece in pieces {
        match dump.get(piece.0..) {
            Some(rest) if rest.starts_with(piece.1) => {}
            _ => return false,
        }
    }
    true
}

/// Whether far stores leave a dump with the pieces.
fn are_pages_alone(alloc: Global, files: &mut MemFiles) -> bool {
    are_stored(alloc, files, TRAPPED, Some(131_194)) && has_pieces(files.get("core.wasm"), &PIECES)
}

/// What is asked of far stores.
#[derive(Clone, Copy)]
enum Asked {
    /// The call that adds the head of the dump fails behind a part of it.
    Front,
    /// No call fails.
    Pages,
}

fn is_so(alloc: Global, asked: Asked, failing: &[u64]) -> bool {
    match files_of(alloc, &FAR_STORES, b"", failing) {
        Ok(mut files) => match asked {
            Asked::Front => is_front_left(alloc, &mut files),
            Asked::Pages => are_pages_alone(alloc, &mut files),
        },
        Err(_) => false,
    }
}

#[test]
fn far_pages_are_written_alone(rt: HostRuntime) {
    assert!(rt; is_so(rt.alloc(), Asked::Front, &[3]) && is_so(rt.alloc(), Asked::Pages, &[]));
}
