//! Each public call once: what no clause says is that memory suffices, and what the system does.

use causes::NoMemory;
use pm_outside::{
    FileError, Files, HostFiles, HostOut, MemFiles, MemSink, Part, PutAnswer, ReadAnswer, Sink,
    WriteAnswer, read_file,
};
use std::alloc::{AllocError, Global};
use std::io::{self, ErrorKind, Write};
use std::test::Fail;

/// Files whose calls with these numbers fail, each behind a part of its piece.
fn failing(alloc: Global, calls: &[u64], parts: &[Part]) -> Result<MemFiles, AllocError> {
    let mut files = MemFiles::new(alloc, Vec::from_slice(alloc, calls)?);
    files.take_parts(Vec::from_slice(alloc, parts)?);
    Ok(files)
}

/// Whether a file can be made of two pieces.
fn writes_two<F: Files>(files: &mut F, name: &str) -> bool {
    matches!(files.create(name), WriteAnswer::Done)
        && matches!(files.append(name, b"ab"), WriteAnswer::Done)
        && matches!(files.append(name, b"cde"), WriteAnswer::Done)
}

/// Whether two bytes of a file are read so, over zeros.
fn reads<F: Files>(files: &mut F, name: &str, at: u64, row: (ReadAnswer, [u8; 2])) -> bool {
    let mut into = [0u8; 2];
    files.read_at(name, at, &mut into) == row.0 && into == row.1
}

fn holds(files: &MemFiles, name: &str, bytes: &[u8]) -> bool {
    match files.get(name) {
        Some(held) => held == bytes,
        None => false,
    }
}

/// A file, an offset, and what is read there.
const READS: [(&str, u64, (ReadAnswer, [u8; 2])); 4] = [
    ("a", 0, (ReadAnswer::Got(2), [1, 2])),
    ("a", 2, (ReadAnswer::Got(1), [3, 0])),
    ("a", 3, (ReadAnswer::End, [0, 0])),
    ("b", 0, (ReadAnswer::Missing, [0, 0])),
];

fn are_read(files: &mut MemFiles, rows: &[(&str, u64, (ReadAnswer, [u8; 2]))]) -> bool {
    for row in rows {
        if !reads(files, row.0, row.1, row.2) {
            return false;
        }
    }
    true
}

/// Reads of one byte at most, and a call that fails.
fn is_limited(files: &mut MemFiles) -> bool {
    files.limit_reads(1);
    reads(files, "a", 0, (ReadAnswer::Got(1), [1, 0]))
        && matches!(files.create("b"), WriteAnswer::Failed)
        && files.get("b").is_none()
}

/// A file is written anew where it is made again.
fn is_written_anew(files: &mut MemFiles) -> bool {
    writes_two(files, "b")
        && writes_two(files, "b")
        && holds(files, "b", b"abcde")
        && holds(files, "a", &[1, 2, 3])
}

fn are_kept(alloc: Global) -> bool {
    match failing(alloc, &[5], &[]) {
        Ok(mut files) => {
            files.add("a", &[1, 2, 3]).is_ok()
                && are_read(&mut files, &READS)
                && is_limited(&mut files)
                && is_written_anew(&mut files)
        }
        Err(_) => false,
    }
}

#[test]
fn files_in_memory(rt: HostRuntime) {
    assert!(rt; are_kept(rt.alloc()));
}

/// A piece that is put, and the answer.
type Put = (&'static [u8], PutAnswer);

fn puts<S: Sink>(out: &mut S, rows: &[Put]) -> bool {
    for row in rows {
        if out.put(row.0) != row.1 {
            return false;
        }
    }
    true
}

/// The calls that fail, each behind a part of its piece, the pieces, and what is written.
type Output = (
    &'static [u64],
    &'static [Part],
    &'static [Put],
    &'static [u8],
);

/// With a part each failing put takes it: two bytes, none, and all of a piece that is shorter.
const OUTPUTS: [Output; 2] = [
    (
        &[1],
        &[],
        &[
            (b"ab", PutAnswer::Done),
            (b"cd", PutAnswer::Failed { written: 0 }),
            (b"ef", PutAnswer::Done),
        ],
        b"abef",
    ),
    (
        &[0, 1, 2],
        &[Part { call: 0, bytes: 2 }, Part { call: 2, bytes: 9 }],
        &[
            (b"abc", PutAnswer::Failed { written: 2 }),
            (b"def", PutAnswer::Failed { written: 0 }),
            (b"ghi", PutAnswer::Failed { written: 3 }),
            (b"jkl", PutAnswer::Done),
        ],
        b"abghijkl",
    ),
];

fn output(alloc: Global, row: &Output) -> Result<MemSink, AllocError> {
    let mut out = MemSink::new(alloc, Vec::from_slice(alloc, row.0)?);
    out.take_parts(Vec::from_slice(alloc, row.1)?);
    Ok(out)
}

fn is_put(alloc: Global, row: &Output) -> bool {
    match output(alloc, row) {
        Ok(mut out) => puts(&mut out, row.2) && out.bytes() == row.3,
        Err(_) => false,
    }
}

#[test]
fn outputs_in_memory(rt: HostRuntime) {
    for row in &OUTPUTS {
        assert!(rt; is_put(rt.alloc(), row));
    }
}

/// The same of appends.
const PARTS_APPENDED: [(&[u8], WriteAnswer); 4] = [
    (b"abc", WriteAnswer::Failed),
    (b"def", WriteAnswer::Failed),
    (b"ghi", WriteAnswer::Failed),
    (b"jkl", WriteAnswer::Done),
];

fn appends(files: &mut MemFiles, rows: &[(&[u8], WriteAnswer)]) -> bool {
    for row in rows {
        if files.append("a", row.0) != row.1 {
            return false;
        }
    }
    true
}

fn are_appended(alloc: Global) -> bool {
    let parts = [Part { call: 1, bytes: 2 }, Part { call: 3, bytes: 9 }];
    match failing(alloc, &[1, 2, 3], &parts) {
        Ok(mut files) => {
            files.create("a") == WriteAnswer::Done
                && appends(&mut files, &PARTS_APPENDED)
                && holds(&files, "a", b"abghijkl")
        }
        Err(_) => false,
    }
}

#[test]
fn failing_appends_take_a_part(rt: HostRuntime) {
    assert!(rt; are_appended(rt.alloc()));
}

/// The name of a file.
const NAME: &str = "pm_outside.test";

/// Files with one of `size` bytes, of which each read gives at most so many, and whose call with
/// that number fails.
fn sized(alloc: Global, size: usize, most: usize, fails: u64) -> Result<MemFiles, NoMemory> {
    let bytes: Vec<u8> = vec![in alloc; 7u8; size]?;
    let mut files = failing(alloc, &[fails], &[])?;
    files.add(NAME, &bytes)?;
    files.limit_reads(most.max(1));
    Ok(files)
}

/// The size of a file, the most bytes of a read, and the limit.
const SIZES: [(usize, usize, usize); 8] = [
    (0, 9, 0),
    (3, 9, 3),
    (3, 1, 3),
    (3, 9, 2),
    (3, 1, 2),
    (65_536, 100_000, 65_536),
    (200_000, 100_000, 200_000),
    (200_000, 70_000, 199_999),
];

/// Whether a file is read whole, which has so many bytes, or refused for this error.
fn comes_to<F: Files>(
    alloc: Global,
    files: &mut F,
    limit: usize,
    wanted: Result<usize, FileError>,
) -> bool {
    match read_file(alloc, files, NAME, limit) {
        Ok(bytes) => wanted == Ok(bytes.len()),
        Err(error) => wanted == Err(error),
    }
}

/// Whether a file is read whole within the limit, and refused above it.
fn is_read_within(alloc: Global, row: (usize, usize, usize)) -> bool {
    let (size, most, limit) = row;
    let wanted = if size <= limit {
        Ok(size)
    } else {
        Err(FileError::TooLong)
    };
    match sized(alloc, size, most, u64::MAX) {
        Ok(mut files) => comes_to(alloc, &mut files, limit, wanted),
        Err(_) => false,
    }
}

/// A file of a million bytes is refused by the sixth read of one byte, where five are the limit:
/// the next call is the one that fails.
fn is_refused_early(alloc: Global) -> bool {
    match sized(alloc, 1_000_000, 1, 6) {
        Ok(mut files) => {
            comes_to(alloc, &mut files, 5, Err(FileError::TooLong))
                && reads(&mut files, NAME, 0, (ReadAnswer::Failed, [0, 0]))
        }
        Err(_) => false,
    }
}

/// A file is not there, and the next call fails.
fn fails_behind_missing(alloc: Global) -> bool {
    match failing(alloc, &[1], &[]) {
        Ok(mut files) => {
            comes_to(alloc, &mut files, 9, Err(FileError::Missing))
                && comes_to(alloc, &mut files, 9, Err(FileError::Failed))
        }
        Err(_) => false,
    }
}

#[test]
fn files_read_whole(rt: HostRuntime) {
    for row in &SIZES {
        assert!(rt; is_read_within(rt.alloc(), *row));
    }
    assert!(rt; fails_behind_missing(rt.alloc()) && is_refused_early(rt.alloc()));
}

fn is_whole<F: Files>(alloc: Global, files: &mut F) -> bool {
    match read_file(alloc, files, NAME, 9) {
        Ok(bytes) => bytes.as_slice() == b"abcde".as_slice(),
        Err(_) => false,
    }
}

/// Whether a file that is not there can be made, and is read then.
fn is_made<F: Files>(alloc: Global, files: &mut F) -> bool {
    comes_to(alloc, files, 9, Err(FileError::Missing))
        && writes_two(files, NAME)
        && is_whole(alloc, files)
        && comes_to(alloc, files, 4, Err(FileError::TooLong))
        && reads(files, NAME, 3, (ReadAnswer::Got(2), *b"de"))
        && reads(files, NAME, 5, (ReadAnswer::End, [0, 0]))
        && files.create("no/such/folder") == WriteAnswer::Failed
}

#[test]
fn real_files(rt: HostRuntime) -> Result<(), Fail> {
    let mut files = HostFiles::new(rt.alloc(), rt.clone()?);
    assert!(rt; is_made(rt.alloc(), &mut files));
    std::fs::remove_file(&rt, NAME)?;
    Ok(())
}

/// A writer that takes two bytes a call, is interrupted once, and fails when it has been called
/// five times.
#[derive(Drop)]
struct Narrow {
    taken: Vec<u8>,
    calls: u32,
}

impl Write for Narrow {
    fn write(&mut self, bytes: &[u8]) -> io::Result<usize> {
        self.calls = self.calls.saturating_add(1);
        if self.calls == 2 {
            return Err(io::Error::from(ErrorKind::Interrupted));
        }
        if self.calls > 5 {
            return Err(io::Error::from(ErrorKind::BrokenPipe));
        }
        let count = bytes.len().min(2);
        self.taken.extend_from_slice(&bytes[..count])?;
        Ok(count)
    }

    fn flush(&mut self) -> io::Result<()> {
        Ok(())
    }
}

const NARROW: [Put; 2] = [
    (b"abc", PutAnswer::Done),
    (b"defghi", PutAnswer::Failed { written: 4 }),
];

fn is_narrow(alloc: Global) -> bool {
    let mut narrow = Narrow {
        taken: Vec::new(alloc),
        calls: 0,
    };
    puts(&mut HostOut::new(&mut narrow), &NARROW)
        && narrow.taken.as_slice() == b"abcdefg".as_slice()
}

const WRITTEN: [Put; 1] = [(b"written\n", PutAnswer::Done)];

#[test]
fn outputs_of_the_system(rt: HostRuntime) {
    assert!(rt; is_narrow(rt.alloc()));
    assert!(rt; puts(&mut HostOut::new(io::writer(&rt)), &WRITTEN));
}
