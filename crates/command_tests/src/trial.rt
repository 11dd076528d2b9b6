//! Commands over files in memory.

use host_set::DeviceSet;
use pm_cli::post_mortem;
use pm_outside::{MemFiles, MemSink};
use std::alloc::{AllocError, Global};
use std::test::Fail;

pub const USAGE: &str = "usage: check, run, instrument, show, debug, selftest, replay or cover\n";

/// Words, the pieces of a file named `d`, the calls on files and on the output that fail, the
/// status, and the text.
pub type Row<'a> = (
    &'a [&'a str],
    &'a [&'a [u8]],
    (&'a [u64], &'a [u64]),
    u8,
    &'a str,
);

fn list_of(alloc: Global, words: &[&str]) -> Result<Vec<String>, AllocError> {
    let mut list = Vec::new(alloc);
    for word in words {
        list.push(String::from_str(alloc, word)?)?;
    }
    Ok(list)
}

fn joined(alloc: Global, pieces: &[&[u8]]) -> Result<Vec<u8>, AllocError> {
    let mut bytes = Vec::new(alloc);
    for piece in pieces {
        bytes.extend_from_slice(piece)?;
    }
    Ok(bytes)
}

fn files_of(alloc: Global, pieces: &[&[u8]], fails: &[u64]) -> Result<MemFiles, Fail> {
    let bytes = joined(alloc, pieces)?;
    let mut files = MemFiles::new(alloc, Vec::from_slice(alloc, fails)?);
    files.add("d", &bytes)?;
    Ok(files)
}

/// The status of a command without devices.
pub fn status_of(alloc: Global, words: &[String], files: &mut MemFiles, out: &mut MemSink) -> u8 {
    let mut devices = DeviceSet::new(alloc);
    post_mortem(alloc, words, files, out, &mut devices).code()
}

fn is_answered(alloc: Global, row: &Row<'_>) -> Result<bool, Fail> {
    let words = list_of(alloc, row.0)?;
    let mut files = files_of(alloc, row.1, row.2.0)?;
    let mut out = MemSink::new(alloc, Vec::from_slice(alloc, row.2.1)?);
    let status = status_of(alloc, &words, &mut files, &mut out);
    Ok(status == row.3 && out.bytes() == row.4.as_bytes())
}

/// The number of the first row that is answered otherwise, or how many rows there are.
pub fn first_wrong(alloc: Global, rows: &[Row<'_>]) -> Result<usize, Fail> {
    for (i, row) in rows.iter().enumerate() {
        if !is_answered(alloc, row)? {
            return Ok(i);
        }
    }
    Ok(rows.len())
}
