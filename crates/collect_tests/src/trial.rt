//! Commands over files in memory.

use causes::NoMemory;
use host_set::DeviceSet;
use pm_cli::post_mortem;
use pm_outside::{MemFiles, MemSink, Part};
use pm_text::read_decimal;
use std::alloc::{AllocError, Global};

/// Two pieces of a line, each with what stands between its words.
type Pieces<'a> = [(&'a str, char); 2];

fn words_of(alloc: Global, pieces: Pieces<'_>) -> Result<Vec<String>, AllocError> {
    let mut words = Vec::new(alloc);
    for (piece, space) in pieces {
        for word in piece.split(space) {
            words.push(String::from_str(alloc, word)?)?;
        }
    }
    Ok(words)
}

/// The status of a command without devices.
fn status(alloc: Global, words: &[String], files: &mut MemFiles, out: &mut MemSink) -> u8 {
    let mut devices = DeviceSet::new(alloc);
    post_mortem(alloc, words, files, out, &mut devices).code()
}

/// Whether the words of a line get this status, and a text that begins so, and ends there where it
/// has to be whole.
fn gets(
    alloc: Global,
    pieces: Pieces<'_>,
    files: &mut MemFiles,
    wanted: (u8, &str),
    is_whole: bool,
) -> bool {
    let Ok(words) = words_of(alloc, pieces) else {
        return false;
    };
    let mut out = MemSink::new(alloc, Vec::new(alloc));
    let code = status(alloc, &words, files, &mut out);
    let text = out.bytes();
    code == wanted.0
        && text.starts_with(wanted.1.as_bytes())
        && !(is_whole && text.len() != wanted.1.len())
}

/// Whether the words of a line get this status and text.
pub fn answers(alloc: Global, pieces: [&str; 2], files: &mut MemFiles, wanted: (u8, &str)) -> bool {
    let [front, rest] = pieces;
    gets(alloc, [(front, ' '), (rest, ' ')], files, wanted, true)
}

/// Whether the words of a line, and behind them a last one, get this status and text.
pub fn answers_with(
    alloc: Global,
    line: &str,
    last: &str,
    files: &mut MemFiles,
    wanted: (u8, &str),
) -> bool {
    gets(alloc, [(line, ' '), (last, '\n')], files, wanted, true)
}

/// Whether `instrument` rewrites the module in `m` into `i`.
pub fn is_rewritten(alloc: Global, files: &mut MemFiles) -> bool {
    let line = [("instrument", ' '), ("m i", ' ')];
    gets(alloc, line, files, (0, "instrumented weight "), false)
}

/// The number between this front and the end of a line.
fn number_behind(text: &[u8], front: &str) -> Option<u64> {
    let line = str::from_utf8(text).ok()?;
    read_decimal(line.strip_prefix(front)?.strip_suffix('\n')?)
}

/// The number at the end of the text that words behind `selftest` get, with status 0 and this
/// front.
pub fn number_told(alloc: Global, line: &str, files: &mut MemFiles, front: &str) -> Option<u64> {
    let words = words_of(alloc, [("selftest", ' '), (line, ' ')]).ok()?;
    let mut out = MemSink::new(alloc, Vec::new(alloc));
    match status(alloc, &words, files, &mut out) {
        0 => number_behind(out.bytes(), front),
        _ => None,
    }
}

/// How many bytes there are.
pub fn length(bytes: Option<&[u8]>) -> Option<usize> {
    match bytes {
        Some(bytes) => Some(bytes.len()),
        None => None,
    }
}

/// Files with these bytes in `m` and `r`.
pub fn files_of(alloc: Global, source: &[u8], replies: &[u8]) -> Result<MemFiles, NoMemory> {
    let mut files = MemFiles::new(alloc, Vec::new(alloc));
    files.add("m", source)?;
    files.add("r", replies)?;
    Ok(files)
}

/// A module in `m`, replies in `r`, words, the status and the text.
pub type Row<'a> = (&'a [u8], &'a str, &'a str, u8, &'a str);

/// Whether a row holds, with this piece in front of its words.
fn holds(alloc: Global, front: &str, row: &Row<'_>) -> bool {
    match files_of(alloc, row.0, row.1.as_bytes()) {
        Ok(mut files) => answers(alloc, [front, row.2], &mut files, (row.3, row.4)),
        Err(_) => false,
    }
}

/// The number of the first row that does not hold with this piece in front of its words, if there
/// is one.
pub fn first_wrong(alloc: Global, front: &str, rows: &[Row<'_>]) -> Option<usize> {
    for (number, row) in rows.iter().enumerate() {
        if !holds(alloc, front, row) {
            return Some(number);
        }
    }
    None
}

/// Files with a module in `m`. The call with that number fails, and takes ten bytes if it can.
fn failing(alloc: Global, source: &[u8], call: u64) -> Result<MemFiles, NoMemory> {
    let mut files = MemFiles::new(alloc, Vec::from_slice(alloc, &[call])?);
    files.take_parts(Vec::from_slice(alloc, &[Part { call, bytes: 10 }])?);
    files.add("m", source)?;
    Ok(files)
}

/// The call of `Files` that fails, the text, and how many bytes of two files are there.
pub type Fault<'a> = (u64, &'a str, Option<usize>, Option<usize>);

/// Whether a call fails so.
fn may_fail(
    alloc: Global,
    source: &[u8],
    pieces: [&str; 2],
    names: [&str; 2],
    row: &Fault<'_>,
) -> bool {
    match failing(alloc, source, row.0) {
        Ok(mut files) => {
            answers(alloc, pieces, &mut files, (4, row.1))
                && length(files.get(names[0])) == row.2
                && length(files.get(names[1])) == row.3
        }
        Err(_) => false,
    }
}

/// The number of the first call that fails otherwise, if there is one.
pub fn first_wrong_fault(
    alloc: Global,
    source: &[u8],
    pieces: [&str; 2],
    names: [&str; 2],
    rows: &[Fault<'_>],
) -> Option<usize> {
    for (number, row) in rows.iter().enumerate() {
        if !may_fail(alloc, source, pieces, names, row) {
            return Some(number);
        }
    }
    None
}
