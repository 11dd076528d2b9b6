//! Dumps byte by byte. What is expected was put together by hand from the layout of the sections.

ghost use Rattle.std.specs.Prelude.{◌≤◌};
ghost use Rattle.dump_format.specs.Form.{pages_of};
ghost use Rattle.dump_format.specs.calls.Contained.{IsContained};

use crate::trap::TRAP;
use dump_format::{Dump, decode_dump};
use dump_write::{dump_bytes, write_dump};
use pm_outside::{MemFiles, WriteAnswer};
use std::alloc::{AllocError, Global};

/// What stands before the pages of a dump with the empty name, no frames, a memory of three pages,
/// of which two are used, and one i32 global of 5.
const BEFORE_PAGES: [u8; 101] = [
    0x00, 0x61, 0x73, 0x6D, 0x01, 0x00, 0x00, 0x00, 0x00, 0x07, 0x04, 0x63, 0x6F, 0x72, 0x65, 0x00,
    0x00, 0x00, 0x0F, 0x0B, 0x63, 0x6F, 0x72, 0x65, 0x6D, 0x6F, 0x64, 0x75, 0x6C, 0x65, 0x73, 0x01,
    0x00, 0x00, 0x00, 0x15, 0x0D, 0x63, 0x6F, 0x72, 0x65, 0x69, 0x6E, 0x73, 0x74, 0x61, 0x6E, 0x63,
    0x65, 0x73, 0x01, 0x00, 0x00, 0x01, 0x00, 0x01, 0x00, 0x00, 0x11, 0x09, 0x63, 0x6F, 0x72, 0x65,
    0x73, 0x74, 0x61, 0x63, 0x6B, 0x00, 0x04, 0x6D, 0x61, 0x69, 0x6E, 0x00, 0x05, 0x03, 0x01, 0x00,
    0x03, 0x06, 0x06, 0x01, 0x7F, 0x00, 0x41, 0x05, 0x0B, 0x0B, 0x91, 0x80, 0x08, 0x02, 0x00, 0x41,
    0x00, 0x0B, 0x80, 0x80, 0x04,
];

/// What stands before the second page: address 131072.
const BEFORE_LAST: [u8; 9] = [0x00, 0x41, 0x80, 0x80, 0x08, 0x0B, 0x80, 0x80, 0x04];

/// A page with one byte, and zeros in all other places.
fn page(alloc: Global, at: usize, byte: u8) -> Result<Vec<u8>, AllocError> {
    let mut page = Vec::new(alloc);
    for index in 0..65_536 {
        page.push(if index == at { byte } else { 0 })?;
    }
    Ok(page)
}

fn joined(alloc: Global, pieces: &[&[u8]]) -> Result<Vec<u8>, AllocError> {
    let mut bytes = Vec::new(alloc);
    for piece in pieces {
        bytes.extend_from_slice(piece)?;
    }
    Ok(bytes)
}

/// The canonical bytes of a dump.
fn canonical(alloc: Global, bytes: &[u8]) -> Option<Vec<u8>> {
    match decode_dump(alloc, bytes) {
        Ok(dump) => dump_bytes(alloc, &dump).ok(),
        Err(_) => None,
    }
}

fn becomes(alloc: Global, bytes: &[u8], wanted: &[u8]) -> bool {
    match canonical(alloc, bytes) {
        Some(found) => found.as_slice() == wanted,
        None => false,
    }
}

/// Whether a file of these pieces, read as a dump, has these canonical bytes.
fn is_rewritten(alloc: Global, pieces: &[&[u8]], wanted: &[u8]) -> bool {
    match joined(alloc, pieces) {
        Ok(bytes) => becomes(alloc, &bytes, wanted),
        Err(_) => false,
    }
}

fn is_kept(alloc: Global, trap: &[u8; 100]) -> bool {
    is_rewritten(alloc, &[trap.as_slice()], trap.as_slice())
}

#[test]
fn a_trap_is_written(rt: HostRuntime) {
    assert!(rt; is_kept(rt.alloc(), &TRAP));
}

/// Whether the trap is what becomes of itself with the instance 3 and the offset 85 80 80 00, so
/// that the section of frames is three bytes longer.
fn is_shortened(alloc: Global, trap: &[u8; 100]) -> bool {
    let long = [0x22, 0x09];
    let frame = [0x00, 0x03, 0x00, 0x85, 0x80, 0x80, 0x00];
    is_rewritten(
        alloc,
        &[&trap[..68], &long, &trap[70..86], &frame, &trap[90..]],
        trap.as_slice(),
    )
}

#[test]
fn another_instance_and_long_numbers_are_not_kept(rt: HostRuntime) {
    assert!(rt; is_shortened(rt.alloc(), &TRAP));
}

/// Adds a segment of a page with one byte, behind what stands before its bytes.
fn add_page(
    alloc: Global,
    bytes: &mut Vec<u8>,
    before: &[u8],
    at: usize,
    byte: u8,
) -> Result<(), AllocError> {
    bytes.extend_from_slice(before)?;
    bytes.extend_from_slice(&page(alloc, at, byte)?)?;
    Ok(())
}

/// A dump of three whole pages, of which the one between is zero.
fn three_pages(alloc: Global) -> Result<Vec<u8>, AllocError> {
    let first = [0x00, 0x41, 0x00, 0x0B, 0x80, 0x80, 0x04];
    let between = [0x00, 0x41, 0x80, 0x80, 0x04, 0x0B, 0x80, 0x80, 0x04];
    let mut bytes = BEFORE_PAGES[..89].to_vec(alloc)?;
    bytes.extend_from_slice(&[0x0B, 0x9A, 0x80, 0x0C, 0x03])?;
    add_page(alloc, &mut bytes, &first, 16, 1)?;
    add_page(alloc, &mut bytes, &between, 16, 0)?;
    add_page(alloc, &mut bytes, &BEFORE_LAST, 65_535, 2)?;
    Ok(bytes)
}

/// Whether a piece stands at an offset.
fn has_at(bytes: &[u8], at: usize, piece: &[u8]) -> bool {
    match bytes.get(at..) {
        Some(rest) => rest.starts_with(piece),
        None => false,
    }
}

fn are_whole(bytes: &[u8]) -> bool {
    has_at(bytes, 0, &BEFORE_PAGES)
        && has_at(bytes, 116, &[0, 1, 0])
        && has_at(bytes, 65_637, &BEFORE_LAST)
        && has_at(bytes, 131_180, &[0, 2])
}

/// Whether so many bytes are left of three pages, and all where the failing call is behind the six
/// that there are.
fn is_left(answer: WriteAnswer, left: &[u8], failing: u64, length: usize) -> bool {
    if failing < 6 {
        matches!(answer, WriteAnswer::Failed) && left.len() == length
    } else {
        matches!(answer, WriteAnswer::Done) && left.len() == length && are_whole(left)
    }
}

/// Whether so many bytes are written of a dump, where the call of `Files` with that number fails.
fn is_written_of(alloc: Global, dump: &Dump, failing: u64, length: usize) -> bool
    requires pages { pages_of dump.now.memory ≤ 4096 }
    requires contained { IsContained dump.now }
{
    match Vec::from_slice(alloc, &[failing]) {
        Ok(failing_calls) => {
            let mut files = MemFiles::new(alloc, failing_calls);
            let answer = write_dump(alloc, dump, &mut files, "core.wasm");
            is_left(
                answer,
                files.get("core.wasm").unwrap_or(&[]),
                failing,
                length,
            )
        }
        Err(_) => false,
    }
}

fn is_written(alloc: Global, bytes: &[u8], failing: u64, length: usize) -> bool {
    match decode_dump(alloc, bytes) {
        Ok(dump) => is_written_of(alloc, &dump, failing, length),
        Err(_) => false,
    }
}

/// The length of the file after each call: create, the head, and then each page behind its own
/// head.
const LENGTHS: [usize; 7] = [0, 0, 94, 101, 65_637, 65_646, 131_182];

fn are_written(alloc: Global, bytes: &[u8]) -> bool {
    for (failing, length) in LENGTHS.iter().enumerate() {
        if !is_written(alloc, bytes, failing as u64, *length) {
            return false;
        }
    }
    true
}

#[test]
fn pages_are_written_one_by_one(rt: HostRuntime) {
    let are_written = match three_pages(rt.alloc()) {
        Ok(bytes) => are_written(rt.alloc(), &bytes),
        Err(_) => false,
    };
    assert!(rt; are_written);
}

/// The instance has a memory now, so its section is one byte longer.
fn is_one_page(bytes: &[u8]) -> bool {
    let data = [
        0x0B, 0x88, 0x80, 0x04, 0x01, 0x00, 0x41, 0x00, 0x0B, 0x80, 0x80, 0x04, 0x01, 0x00,
    ];
    bytes.len() == 106 + 12 + 65_536
        && has_at(bytes, 106, &data)
        && has_at(bytes, 134, &[0xFF, 0x03, 0x00])
}

fn becomes_one_page(alloc: Global, bytes: &[u8]) -> bool {
    match canonical(alloc, bytes) {
        Some(found) => is_one_page(&found),
        None => false,
    }
}

/// Whether a trap with a memory of one page, in which segments lay 1 at 0, then 2 3 at 16, then FF
/// at 16, is written with that page.
fn are_laid(alloc: Global) -> bool {
    let segments = [
        0x05, 0x03, 0x01, 0x00, 0x01, 0x0B, 0x14, 0x03, 0x00, 0x41, 0x00, 0x0B, 0x01, 0x01, 0x00,
        0x41, 0x10, 0x0B, 0x02, 0x02, 0x03, 0x00, 0x41, 0x10, 0x0B, 0x01, 0xFF,
    ];
    match joined(alloc, &[&TRAP, &segments]) {
        Ok(bytes) => becomes_one_page(alloc, &bytes),
        Err(_) => false,
    }
}

#[test]
fn segments_become_pages(rt: HostRuntime) {
    assert!(rt; are_laid(rt.alloc()));
}
