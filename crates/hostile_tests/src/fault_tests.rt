//! Each call of the files, and the one of the output, fails in turn: before it takes a byte of its
//! piece, behind the first one, and behind all. Lengths of dumps were added up by hand from their
//! sections.

use crate::trial::{answers, files_of, status_alone, words_of};
use causes::NoMemory;
use pm_outside::{MemFiles, MemSink, Part};
use std::alloc::{AllocError, Global};
use test_modules::{DIVISION, DIVISION_DUMP, READING, SOURCE};

/// What a call of `Files` does with its file.
#[derive(Clone, Copy)]
enum Act {
    Read,
    Create,
    /// Adds a piece, until the file holds so many bytes in all.
    Fill(usize),
}

/// A call of `Files`: its file and what it does.
type Call = (&'static str, Act);

/// Until a file is whole.
const WHOLE: Act = Act::Fill(usize::MAX);

/// How many bytes of its piece a failing call takes, all of a shorter one.
const PARTS: [usize; 3] = [0, 1, usize::MAX];

/// A module in `m` and replies in `r`, lines that are answered before, with their statuses, and
/// then a line, its status, and its calls in order. It writes no file that is there before.
struct Row {
    source: &'static [u8],
    replies: &'static str,
    before: &'static [(&'static str, u8)],
    line: &'static str,
    status: u8,
    calls: &'static [Call],
}

const DIVIDING: [Row; 4] = [
    Row {
        source: &DIVISION,
        replies: "",
        before: &[],
        line: "run;m;div;i32:7;i32:0",
        status: 1,
        calls: &[
            ("m", Act::Read),
            ("m", Act::Read),
            ("core.wasm", Act::Create),
            ("core.wasm", WHOLE),
        ],
    },
    Row {
        source: &DIVISION,
        replies: "",
        before: &[],
        line: "instrument;m;i",
        status: 0,
        calls: &[
            ("m", Act::Read),
            ("m", Act::Read),
            ("i", Act::Create),
            ("i", WHOLE),
        ],
    },
    Row {
        source: &DIVISION,
        replies: "",
        before: &[("instrument;m;i", 0)],
        line: "run;i;div;i32:7;i32:0;--collect;--dump;c",
        status: 1,
        calls: &[
            ("i", Act::Read),
            ("i", Act::Read),
            ("c", Act::Create),
            ("c", WHOLE),
        ],
    },
    Row {
        source: &DIVISION,
        replies: "",
        before: &[("instrument;m;i", 0)],
        line: "instrument;i;j",
        status: 14,
        calls: &[("i", Act::Read), ("i", Act::Read)],
    },
];

/// A dump with one page of memory: its head, the head of the page's segment, and the page.
const SERVED: [Row; 2] = [
    Row {
        source: &READING,
        replies: "i32:9 16=01020304",
        before: &[],
        line: "run;m;f;--replies;r",
        status: 1,
        calls: &[
            ("m", Act::Read),
            ("m", Act::Read),
            ("r", Act::Read),
            ("r", Act::Read),
            ("core.wasm", Act::Create),
            ("core.wasm", Act::Fill(105)),
            ("core.wasm", Act::Fill(112)),
            ("core.wasm", Act::Fill(65_648)),
        ],
    },
    Row {
        source: &READING,
        replies: "i32:9 16=01020304",
        before: &[("instrument;m;i", 0)],
        line: "run;i;f;--replies;r;--collect",
        status: 1,
        calls: &[
            ("i", Act::Read),
            ("i", Act::Read),
            ("r", Act::Read),
            ("r", Act::Read),
            ("core.wasm", Act::Create),
            ("core.wasm", Act::Fill(105)),
            ("core.wasm", Act::Fill(112)),
            ("core.wasm", Act::Fill(65_648)),
        ],
    },
];

/// A file is read by pieces of 65,536 bytes, and once more at its end.
const DEBUGGED: [Row; 2] = [
    Row {
        source: &SOURCE,
        replies: "",
        before: &[],
        line: "run;m;f;i32:65536",
        status: 1,
        calls: &[
            ("m", Act::Read),
            ("m", Act::Read),
            ("core.wasm", Act::Create),
            ("core.wasm", Act::Fill(126)),
            ("core.wasm", Act::Fill(133)),
            ("core.wasm", Act::Fill(65_669)),
        ],
    },
    Row {
        source: &SOURCE,
        replies: "",
        before: &[("run;m;f;i32:65536", 1)],
        line: "debug;m;core.wasm;bt;vars;print s.b[1];print *p",
        status: 0,
        calls: &[
            ("m", Act::Read),
            ("m", Act::Read),
            ("core.wasm", Act::Read),
            ("core.wasm", Act::Read),
            ("core.wasm", Act::Read),
        ],
    },
];

const TESTED: [Row; 1] = [Row {
    source: &DIVISION,
    replies: "",
    before: &[],
    line: "selftest;3",
    status: 0,
    calls: &[
        ("selftest.wasm", Act::Create),
        ("selftest.wasm", WHOLE),
        ("selftest.inst.wasm", Act::Create),
        ("selftest.inst.wasm", WHOLE),
    ],
}];

/// The length of a file that was not there, behind these calls, of which the last one fails behind
/// a part of its piece; nothing where it is not made.
fn length_left(calls: &[Call], part: usize, name: &str) -> Option<usize> {
    let mut length = None;
    for (index, (file, act)) in calls.iter().enumerate() {
        let fails = index + 1 == calls.len();
        if *file == name {
            length = length_behind(*act, length, fails, part);
        }
    }
    length
}

/// The length behind one call.
fn length_behind(act: Act, held: Option<usize>, fails: bool, part: usize) -> Option<usize> {
    match (act, fails) {
        (Act::Create, false) => Some(0),
        (Act::Fill(until), false) => Some(until),
        (Act::Fill(until), true) => Some(held?.saturating_add(part).min(until)),
        (Act::Create, true) | (Act::Read, _) => held,
    }
}

/// Whether a file holds the front of another one, of so many bytes or all of it, or, without a
/// length, is not there.
fn is_front(got: Option<&[u8]>, whole: Option<&[u8]>, length: Option<usize>) -> bool {
    match (got, whole, length) {
        (None, _, None) => true,
        (Some(got), Some(whole), Some(length)) => Some(got) == whole.get(..length.min(whole.len())),
        _ => false,
    }
}

/// Whether behind these calls, of which the last one fails behind a part of its piece, each file
/// that the row reads is as it was, and each that it writes holds what these calls wrote.
fn are_left(files: &MemFiles, done: &MemFiles, row: &Row, calls: &[Call], part: usize) -> bool {
    for (name, act) in row.calls {
        let is_left = match act {
            Act::Read => files.get(name) == done.get(name),
            Act::Create | Act::Fill(_) => is_front(
                files.get(name),
                done.get(name),
                length_left(calls, part, name),
            ),
        };
        if !is_left {
            return false;
        }
    }
    true
}

/// Whether a text says that this file failed.
fn blames(text: &[u8], file: &str) -> bool {
    let Ok(text) = str::from_utf8(text) else {
        return false;
    };
    match text.strip_prefix("file fault: \"") {
        Some(rest) => rest.strip_suffix("\"\n") == Some(file),
        None => false,
    }
}

/// The files that the row reads, as they are in others. Of the calls one fails, behind a part of
/// its piece.
fn failing_files(
    alloc: Global,
    done: &MemFiles,
    row: &Row,
    failing: Part,
) -> Result<MemFiles, NoMemory> {
    let mut files = MemFiles::new(alloc, Vec::from_slice(alloc, &[failing.call])?);
    files.take_parts(Vec::from_slice(alloc, &[failing])?);
    for (name, act) in row.calls {
        if let (Act::Read, Some(bytes)) = (act, done.get(name)) {
            files.add(name, bytes)?;
        }
    }
    Ok(files)
}

/// Whether the last one of these calls fails, behind a part of its piece, and that is answered.
fn is_fault(
    alloc: Global,
    words: &[String],
    done: &MemFiles,
    row: &Row,
    calls: &[Call],
    part: usize,
) -> bool {
    let Some((last, front)) = calls.split_last() else {
        return false;
    };
    let failing = Part {
        call: front.len() as u64,
        bytes: part,
    };
    let Ok(mut files) = failing_files(alloc, done, row, failing) else {
        return false;
    };
    let mut out = MemSink::new(alloc, Vec::new(alloc));
    status_alone(alloc, words, &mut files, &mut out) == 4
        && blames(out.bytes(), last.0)
        && are_left(&files, done, row, calls, part)
}

/// Whether each call of the files may fail.
fn files_may_fail(alloc: Global, words: &[String], done: &MemFiles, row: &Row) -> bool {
    for made in 1..row.calls.len() + 1 {
        for part in &PARTS {
            if !is_fault(alloc, words, done, row, &row.calls[..made], *part) {
                return false;
            }
        }
    }
    true
}

/// An output whose call fails behind a part of its piece.
fn failing_output(alloc: Global, part: usize) -> Result<MemSink, AllocError> {
    let mut out = MemSink::new(alloc, Vec::from_slice(alloc, &[0])?);
    out.take_parts(Vec::from_slice(
        alloc,
        &[Part {
            call: 0,
            bytes: part,
        }],
    )?);
    Ok(out)
}

/// Whether these words get this status over the files that the row reads, of which no call of the
/// row fails, and write what they write there.
fn is_done(
    alloc: Global,
    words: &[String],
    done: &MemFiles,
    row: &Row,
    out: &mut MemSink,
    status: u8,
) -> bool {
    // The call behind the last one fails, if there is one.
    let failing = Part {
        call: row.calls.len() as u64,
        bytes: 0,
    };
    let Ok(mut files) = failing_files(alloc, done, row, failing) else {
        return false;
    };
    status_alone(alloc, words, &mut files, out) == status
        && are_left(&files, done, row, row.calls, usize::MAX)
}

/// Whether the output fails behind this part of its piece, and then has that front of the text.
fn output_is_cut(
    alloc: Global,
    words: &[String],
    done: &MemFiles,
    row: &Row,
    text: &[u8],
    part: usize,
) -> bool {
    match failing_output(alloc, part) {
        Ok(mut out) => {
            is_done(alloc, words, done, row, &mut out, 4)
                && is_front(Some(out.bytes()), Some(text), Some(part))
        }
        Err(_) => false,
    }
}

/// Whether the output may fail behind each part.
fn output_may_fail(
    alloc: Global,
    words: &[String],
    done: &MemFiles,
    row: &Row,
    text: &[u8],
) -> bool {
    for part in &PARTS {
        if !output_is_cut(alloc, words, done, row, text, *part) {
            return false;
        }
    }
    true
}

/// The status of a line.
fn status_of(alloc: Global, line: &str, files: &mut MemFiles) -> Option<u8> {
    match words_of(alloc, line) {
        Ok(words) => {
            let mut out = MemSink::new(alloc, Vec::new(alloc));
            Some(status_alone(alloc, &words, files, &mut out))
        }
        Err(_) => None,
    }
}

/// Whether the lines before have their statuses.
fn is_prepared(alloc: Global, files: &mut MemFiles, row: &Row) -> bool {
    for before in row.before {
        if status_of(alloc, before.0, files) != Some(before.1) {
            return false;
        }
    }
    true
}

/// Whether the line is done once more, with the same text, and each call may fail.
fn is_repeated(alloc: Global, words: &[String], done: &MemFiles, row: &Row, text: &[u8]) -> bool {
    let mut out = MemSink::new(alloc, Vec::new(alloc));
    is_done(alloc, words, done, row, &mut out, row.status)
        && out.bytes() == text
        && files_may_fail(alloc, words, done, row)
        && output_may_fail(alloc, words, done, row, text)
}

/// Whether a row holds of files and of its words.
fn holds_of(alloc: Global, words: &[String], files: &mut MemFiles, row: &Row) -> bool {
    let mut whole = MemSink::new(alloc, Vec::new(alloc));
    is_prepared(alloc, files, row)
        && status_alone(alloc, words, files, &mut whole) == row.status
        && is_repeated(alloc, words, files, row, whole.bytes())
}

fn holds_in(alloc: Global, files: &mut MemFiles, row: &Row) -> bool {
    match words_of(alloc, row.line) {
        Ok(words) => holds_of(alloc, &words, files, row),
        Err(_) => false,
    }
}

/// Whether a row holds.
fn holds(alloc: Global, row: &Row) -> bool {
    match files_of(alloc, row.source, row.replies) {
        Ok(mut files) => holds_in(alloc, &mut files, row),
        Err(_) => false,
    }
}

/// The number of the first row that does not hold, if there is one.
fn first_wrong(alloc: Global, rows: &[Row]) -> Option<usize> {
    for (i, row) in rows.iter().enumerate() {
        if !holds(alloc, row) {
            return Some(i);
        }
    }
    None
}

#[test]
fn each_call_may_fail(rt: HostRuntime) {
    assert_eq!(rt; first_wrong(rt.alloc(), &DIVIDING), None);
    assert_eq!(rt; first_wrong(rt.alloc(), &SERVED), None);
    assert_eq!(rt; first_wrong(rt.alloc(), &DEBUGGED), None);
    assert_eq!(rt; first_wrong(rt.alloc(), &TESTED), None);
}

const TRAPPED: &str = "trap 2 integer divide by zero\nat function 0 offset 5\nhost calls 0\n";

const DUMP: &[u8] = &DIVISION_DUMP;

/// Whether the dump of a division, of whose module each read gives one byte, has these bytes.
fn is_read_by_bytes(alloc: Global) -> bool {
    match files_of(alloc, &DIVISION, "") {
        Ok(mut files) => {
            files.limit_reads(1);
            answers(alloc, "run;m;div;i32:7;i32:0", &mut files, (1, TRAPPED))
                && files.get("core.wasm") == Some(DUMP)
        }
        Err(_) => false,
    }
}

#[test]
fn a_file_is_read_byte_by_byte(rt: HostRuntime) {
    assert!(rt; is_read_by_bytes(rt.alloc()));
}
