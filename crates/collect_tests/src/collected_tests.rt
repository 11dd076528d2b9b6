//! Modules that `instrument` wrote, under `run --collect`. What is wanted was worked out by hand
//! from Core 4.4 and 4.5.

use crate::trial::{answers, files_of, is_rewritten};
use pm_outside::MemFiles;
use std::alloc::Global;
use test_modules::*;

/// A module, replies, the words behind the file of `run`, the status and the text.
struct Row {
    source: &'static [u8],
    replies: &'static str,
    line: &'static str,
    status: u8,
    text: &'static str,
}

const NUMBERS: [Row; 6] = [
    Row {
        source: &DIVISION,
        replies: "",
        line: "div i32:7 i32:0",
        status: 1,
        text: "trap 2 integer divide by zero\nat function 0 offset 5\nhost calls 0\n",
    },
    Row {
        source: &DIVISION,
        replies: "",
        line: "div i32:-2147483648 i32:-1",
        status: 1,
        text: "trap 3 integer overflow\nat function 0 offset 5\nhost calls 0\n",
    },
    Row {
        source: &REMAINDER,
        replies: "",
        line: "div i32:-2147483648 i32:-1",
        status: 0,
        text: "finished i32:0\nhost calls 0\n",
    },
    Row {
        source: &NARROW_8,
        replies: "",
        line: "f i32:255",
        status: 0,
        text: "finished i32:-1\nhost calls 0\n",
    },
    Row {
        source: &NARROW_16,
        replies: "",
        line: "f i32:32768",
        status: 0,
        text: "finished i32:-32768\nhost calls 0\n",
    },
    Row {
        source: &WIDE,
        replies: "",
        line: "f i64:-1",
        status: 1,
        text: "trap 1 unreachable\nat function 0 offset 3\nhost calls 0\n",
    },
];

const MEMORIES: [Row; 10] = [
    Row {
        source: &LOADING,
        replies: "",
        line: "f i32:65532",
        status: 0,
        text: "finished i32:0\nhost calls 0\n",
    },
    Row {
        source: &LOADING,
        replies: "",
        line: "f i32:65533",
        status: 1,
        text: "trap 4 out of bounds memory access\nat function 0 offset 3\nhost calls 0\n",
    },
    Row {
        source: &FAR_LOADING,
        replies: "",
        line: "f i32:-1",
        status: 1,
        text: "trap 4 out of bounds memory access\nat function 0 offset 3\nhost calls 0\n",
    },
    Row {
        source: &FAR_LOADING,
        replies: "",
        line: "f i32:0",
        status: 1,
        text: "trap 4 out of bounds memory access\nat function 0 offset 3\nhost calls 0\n",
    },
    Row {
        source: &GROWING,
        replies: "",
        line: "f i32:4095",
        status: 0,
        text: "finished i32:1\nhost calls 0\n",
    },
    Row {
        source: &FILLING,
        replies: "",
        line: "f i32:65532",
        status: 0,
        text: "finished i32:117901063\nhost calls 0\n",
    },
    Row {
        source: &FILLING,
        replies: "",
        line: "f i32:65533",
        status: 1,
        text: "trap 4 out of bounds memory access\nat function 0 offset 7\nhost calls 0\n",
    },
    Row {
        source: &FILLING_NONE,
        replies: "",
        line: "f i32:65536",
        status: 0,
        text: "finished i32:0\nhost calls 0\n",
    },
    Row {
        source: &FILLING_NONE,
        replies: "",
        line: "f i32:65537",
        status: 1,
        text: "trap 4 out of bounds memory access\nat function 0 offset 7\nhost calls 0\n",
    },
    Row {
        source: &COPYING,
        replies: "",
        line: "f i32:0",
        status: 0,
        text: "finished i32:67305985\nhost calls 0\n",
    },
];

const CONTROL: [Row; 15] = [
    Row {
        source: &NESTED,
        replies: "",
        line: "f",
        status: 1,
        text: "trap 1 unreachable\nat function 0 offset 13\nhost calls 0\n",
    },
    Row {
        source: &TABLE_BRANCH,
        replies: "",
        line: "f i32:0",
        status: 1,
        text: "trap 1 unreachable\nat function 0 offset 27\nhost calls 0\n",
    },
    Row {
        source: &TABLE_BRANCH,
        replies: "",
        line: "f i32:1",
        status: 1,
        text: "trap 1 unreachable\nat function 0 offset 27\nhost calls 0\n",
    },
    Row {
        source: &TABLE_BRANCH,
        replies: "",
        line: "f i32:5",
        status: 1,
        text: "trap 1 unreachable\nat function 0 offset 27\nhost calls 0\n",
    },
    Row {
        source: &TABLE_SUM,
        replies: "",
        line: "f i32:0",
        status: 0,
        text: "finished i32:67\nhost calls 0\n",
    },
    Row {
        source: &TABLE_SUM,
        replies: "",
        line: "f i32:1",
        status: 0,
        text: "finished i32:37\nhost calls 0\n",
    },
    Row {
        source: &TABLE_SUM,
        replies: "",
        line: "f i32:5",
        status: 0,
        text: "finished i32:17\nhost calls 0\n",
    },
    Row {
        source: &INDIRECT,
        replies: "",
        line: "f i32:0",
        status: 0,
        text: "finished i32:42\nhost calls 0\n",
    },
    Row {
        source: &INDIRECT,
        replies: "",
        line: "f i32:5",
        status: 1,
        text: "trap 5 undefined element\nat function 1 offset 3\nhost calls 0\n",
    },
    Row {
        source: &INDIRECT,
        replies: "",
        line: "f i32:2",
        status: 1,
        text: "trap 6 uninitialized element\nat function 1 offset 3\nhost calls 0\n",
    },
    Row {
        source: &INDIRECT,
        replies: "",
        line: "f i32:1",
        status: 1,
        text: "trap 7 indirect call type mismatch\nat function 1 offset 3\nhost calls 0\n",
    },
    Row {
        source: &INDIRECT_LONG,
        replies: "",
        line: "f i32:0",
        status: 0,
        text: "finished i32:42\nhost calls 0\n",
    },
    Row {
        source: &INDIRECT_LONG,
        replies: "",
        line: "f i32:5",
        status: 1,
        text: "trap 5 undefined element\nat function 1 offset 3\nhost calls 0\n",
    },
    Row {
        source: &INDIRECT_LONG,
        replies: "",
        line: "f i32:2",
        status: 1,
        text: "trap 6 uninitialized element\nat function 1 offset 3\nhost calls 0\n",
    },
    Row {
        source: &INDIRECT_LONG,
        replies: "",
        line: "f i32:1",
        status: 1,
        text: "trap 7 indirect call type mismatch\nat function 1 offset 3\nhost calls 0\n",
    },
];

const CALLS: [Row; 9] = [
    Row {
        source: &RECURSIVE,
        replies: "",
        line: "--depth 3 f i32:2",
        status: 1,
        text: "trap 5 undefined element\nat function 0 offset 8\nhost calls 0\n",
    },
    Row {
        source: &STARTING,
        replies: "",
        line: "f",
        status: 1,
        text: "trap 1 unreachable\nat function 0 offset 1\nhost calls 0\n",
    },
    Row {
        source: &GLOBAL,
        replies: "",
        line: "f",
        status: 1,
        text: "trap 1 unreachable\nat function 0 offset 1\nhost calls 0\n",
    },
    Row {
        source: &EMPTY,
        replies: "",
        line: "main",
        status: 8,
        text: "not started: export \"main\"\n",
    },
    Row {
        source: &DIVISION,
        replies: "",
        line: "div i32:8",
        status: 8,
        text: "not started: arguments\n",
    },
    Row {
        source: &READING,
        replies: "i32:9 16=01020304",
        line: "--replies r f",
        status: 1,
        text: "trap 1 unreachable\nat function 1 offset 5\nhost calls 1\n",
    },
    Row {
        source: &READING,
        replies: "",
        line: "--replies r f",
        status: 9,
        text: "host stopped: no reply for call 0\n",
    },
    Row {
        source: &READING,
        replies: "i64:9",
        line: "--replies r f",
        status: 9,
        text: "host stopped: reply 0 does not fit\n",
    },
    Row {
        source: &READING,
        replies: "",
        line: "f",
        status: 8,
        text: "not started: import 0\n",
    },
];

const LISTS: [Row; 2] = [
    Row {
        source: &DIVISION,
        replies: "",
        line: "div i32:7 i32:0 + div i32:8 i32:2",
        status: 1,
        text: "trap 2 integer divide by zero\nat function 0 offset 5\nhost calls 0\nfinished i32:4\nhost calls 0\n",
    },
    Row {
        source: &COUNTING,
        replies: "",
        line: "f + f",
        status: 1,
        text: "trap 1 unreachable\nat function 0 offset 8\nhost calls 0\ntrap 1 unreachable\n\
               at function 0 offset 8\nhost calls 0\n",
    },
];

/// Whether two files hold the same, or neither is there.
fn are_equal(files: &MemFiles, first: &str, second: &str) -> bool {
    files.get(first) == files.get(second)
}

/// Whether the module in `m` runs so, and, rewritten, runs so again and hands over what the first
/// run wrote.
fn is_collected(alloc: Global, files: &mut MemFiles, row: &Row) -> bool {
    let wanted = (row.status, row.text);
    answers(alloc, ["run m --dump a", row.line], files, wanted)
        && is_rewritten(alloc, files)
        && answers(alloc, ["run i --collect --dump b", row.line], files, wanted)
        && are_equal(files, "a", "b")
        && are_equal(files, "a.1", "b.1")
        && files.get("a").is_some() == (row.status == 1)
}

/// Whether the row holds.
fn holds(alloc: Global, row: &Row) -> bool {
    match files_of(alloc, row.source, row.replies.as_bytes()) {
        Ok(mut files) => is_collected(alloc, &mut files, row),
        Err(_) => false,
    }
}

/// The number of the first row that does not hold, if there is one.
fn first_wrong(alloc: Global, rows: &[Row]) -> Option<usize> {
    for (number, row) in rows.iter().enumerate() {
        if !holds(alloc, row) {
            return Some(number);
        }
    }
    None
}

#[test]
fn invocations_are_collected(rt: HostRuntime) {
    assert_eq!(rt; first_wrong(rt.alloc(), &NUMBERS), None);
    assert_eq!(rt; first_wrong(rt.alloc(), &MEMORIES), None);
    assert_eq!(rt; first_wrong(rt.alloc(), &CONTROL), None);
    assert_eq!(rt; first_wrong(rt.alloc(), &CALLS), None);
    assert_eq!(rt; first_wrong(rt.alloc(), &LISTS), None);
}
