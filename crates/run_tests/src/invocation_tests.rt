//! `run` over files in memory. What is wanted was worked out by hand from Core 4.4 and 4.5.

use crate::trial::{are_answered, files_of};
use pm_outside::MemFiles;
use std::alloc::Global;
use test_modules::*;

/// A module in the file `m`, replies in the file `r`, the words behind `run m`, the status and the
/// text, and what `show core.wasm` prints then: nothing where no dump is written.
struct Row {
    source: &'static [u8],
    line: &'static str,
    replies: &'static str,
    status: u8,
    text: &'static str,
    shown: &'static str,
}

const NUMBERS: [Row; 6] = [
    Row {
        source: &DIVISION,
        line: "div i32:7 i32:0",
        replies: "",
        status: 1,
        text: "trap 2 integer divide by zero\nat function 0 offset 5\nhost calls 0\n",
        shown: "dump \"module\" frames 1\n#0 instance 0 function 0 offset 5 locals i32:7 i32:0 operands i32:7 i32:0\n",
    },
    Row {
        source: &DIVISION,
        line: "div i32:-2147483648 i32:-1",
        replies: "",
        status: 1,
        text: "trap 3 integer overflow\nat function 0 offset 5\nhost calls 0\n",
        shown: "dump \"module\" frames 1\n\
                #0 instance 0 function 0 offset 5 locals i32:-2147483648 i32:-1 operands \
                i32:-2147483648 i32:-1\n",
    },
    Row {
        source: &REMAINDER,
        line: "div i32:-2147483648 i32:-1",
        replies: "",
        status: 0,
        text: "finished i32:0\nhost calls 0\n",
        shown: "",
    },
    Row {
        source: &NARROW_8,
        line: "f i32:255",
        replies: "",
        status: 0,
        text: "finished i32:-1\nhost calls 0\n",
        shown: "",
    },
    Row {
        source: &NARROW_16,
        line: "f i32:32768",
        replies: "",
        status: 0,
        text: "finished i32:-32768\nhost calls 0\n",
        shown: "",
    },
    Row {
        source: &DIVISION,
        line: "--name= div i32:7 i32:0",
        replies: "",
        status: 1,
        text: "trap 2 integer divide by zero\nat function 0 offset 5\nhost calls 0\n",
        shown: "dump \"\" frames 1\n#0 instance 0 function 0 offset 5 locals i32:7 i32:0 operands i32:7 i32:0\n",
    },
];

const MEMORIES: [Row; 11] = [
    Row {
        source: &LOADING,
        line: "f i32:65532",
        replies: "",
        status: 0,
        text: "finished i32:0\nhost calls 0\n",
        shown: "",
    },
    Row {
        source: &LOADING,
        line: "f i32:65533",
        replies: "",
        status: 1,
        text: "trap 4 out of bounds memory access\nat function 0 offset 3\nhost calls 0\n",
        shown: "dump \"module\" frames 1\n\
                #0 instance 0 function 0 offset 3 locals i32:65533 operands i32:65533\nmemory 1\n",
    },
    Row {
        source: &FAR_LOADING,
        line: "f i32:-1",
        replies: "",
        status: 1,
        text: "trap 4 out of bounds memory access\nat function 0 offset 3\nhost calls 0\n",
        shown: "dump \"module\" frames 1\n#0 instance 0 function 0 offset 3 locals i32:-1 operands i32:-1\nmemory 1\n",
    },
    Row {
        source: &FAR_LOADING,
        line: "f i32:0",
        replies: "",
        status: 1,
        text: "trap 4 out of bounds memory access\nat function 0 offset 3\nhost calls 0\n",
        shown: "dump \"module\" frames 1\n#0 instance 0 function 0 offset 3 locals i32:0 operands i32:0\nmemory 1\n",
    },
    Row {
        source: &GROWING,
        line: "f i32:4095",
        replies: "",
        status: 0,
        text: "finished i32:1\nhost calls 0\n",
        shown: "",
    },
    Row {
        source: &GROWING,
        line: "f i32:4096",
        replies: "",
        status: 0,
        text: "finished i32:-1\nhost calls 0\n",
        shown: "",
    },
    Row {
        source: &FILLING,
        line: "f i32:65532",
        replies: "",
        status: 0,
        text: "finished i32:117901063\nhost calls 0\n",
        shown: "",
    },
    Row {
        source: &FILLING,
        line: "f i32:65533",
        replies: "",
        status: 1,
        text: "trap 4 out of bounds memory access\nat function 0 offset 7\nhost calls 0\n",
        shown: "dump \"module\" frames 1\n\
                #0 instance 0 function 0 offset 7 locals i32:65533 operands i32:65533 i32:7 i32:4\n\
                memory 1\n",
    },
    Row {
        source: &FILLING_NONE,
        line: "f i32:65536",
        replies: "",
        status: 0,
        text: "finished i32:0\nhost calls 0\n",
        shown: "",
    },
    Row {
        source: &FILLING_NONE,
        line: "f i32:65537",
        replies: "",
        status: 1,
        text: "trap 4 out of bounds memory access\nat function 0 offset 7\nhost calls 0\n",
        shown: "dump \"module\" frames 1\n\
                #0 instance 0 function 0 offset 7 locals i32:65537 operands i32:65537 i32:7 i32:0\n\
                memory 1\n",
    },
    Row {
        source: &COPYING,
        line: "f i32:0",
        replies: "",
        status: 0,
        text: "finished i32:67305985\nhost calls 0\n",
        shown: "",
    },
];

const CONTROL: [Row; 12] = [
    Row {
        source: &NESTED,
        line: "f",
        replies: "",
        status: 1,
        text: "trap 1 unreachable\nat function 0 offset 13\nhost calls 0\n",
        shown: "dump \"module\" frames 1\n#0 instance 0 function 0 offset 13 locals - operands i32:1 i32:2 i32:3\n",
    },
    Row {
        source: &TABLE_BRANCH,
        line: "f i32:0",
        replies: "",
        status: 1,
        text: "trap 1 unreachable\nat function 0 offset 27\nhost calls 0\n",
        shown: "dump \"module\" frames 1\n#0 instance 0 function 0 offset 27 locals i32:0 operands i32:10 i32:57\n",
    },
    Row {
        source: &TABLE_BRANCH,
        line: "f i32:1",
        replies: "",
        status: 1,
        text: "trap 1 unreachable\nat function 0 offset 27\nhost calls 0\n",
        shown: "dump \"module\" frames 1\n#0 instance 0 function 0 offset 27 locals i32:1 operands i32:10 i32:27\n",
    },
    Row {
        source: &TABLE_BRANCH,
        line: "f i32:5",
        replies: "",
        status: 1,
        text: "trap 1 unreachable\nat function 0 offset 27\nhost calls 0\n",
        shown: "dump \"module\" frames 1\n#0 instance 0 function 0 offset 27 locals i32:5 operands i32:10 i32:7\n",
    },
    Row {
        source: &INDIRECT,
        line: "f i32:0",
        replies: "",
        status: 0,
        text: "finished i32:42\nhost calls 0\n",
        shown: "",
    },
    Row {
        source: &INDIRECT,
        line: "f i32:5",
        replies: "",
        status: 1,
        text: "trap 5 undefined element\nat function 1 offset 3\nhost calls 0\n",
        shown: "dump \"module\" frames 1\n#0 instance 0 function 1 offset 3 locals i32:5 operands i32:5\n",
    },
    Row {
        source: &INDIRECT,
        line: "f i32:2",
        replies: "",
        status: 1,
        text: "trap 6 uninitialized element\nat function 1 offset 3\nhost calls 0\n",
        shown: "dump \"module\" frames 1\n#0 instance 0 function 1 offset 3 locals i32:2 operands i32:2\n",
    },
    Row {
        source: &INDIRECT,
        line: "f i32:1",
        replies: "",
        status: 1,
        text: "trap 7 indirect call type mismatch\nat function 1 offset 3\nhost calls 0\n",
        shown: "dump \"module\" frames 1\n#0 instance 0 function 1 offset 3 locals i32:1 operands i32:1\n",
    },
    Row {
        source: &INDIRECT_LONG,
        line: "f i32:0",
        replies: "",
        status: 0,
        text: "finished i32:42\nhost calls 0\n",
        shown: "",
    },
    Row {
        source: &INDIRECT_LONG,
        line: "f i32:5",
        replies: "",
        status: 1,
        text: "trap 5 undefined element\nat function 1 offset 3\nhost calls 0\n",
        shown: "dump \"module\" frames 1\n#0 instance 0 function 1 offset 3 locals i32:5 operands i32:5\n",
    },
    Row {
        source: &INDIRECT_LONG,
        line: "f i32:2",
        replies: "",
        status: 1,
        text: "trap 6 uninitialized element\nat function 1 offset 3\nhost calls 0\n",
        shown: "dump \"module\" frames 1\n#0 instance 0 function 1 offset 3 locals i32:2 operands i32:2\n",
    },
    Row {
        source: &INDIRECT_LONG,
        line: "f i32:1",
        replies: "",
        status: 1,
        text: "trap 7 indirect call type mismatch\nat function 1 offset 3\nhost calls 0\n",
        shown: "dump \"module\" frames 1\n#0 instance 0 function 1 offset 3 locals i32:1 operands i32:1\n",
    },
];

const CALLS: [Row; 5] = [
    Row {
        source: &RECURSIVE,
        line: "--depth 3 f i32:2",
        replies: "",
        status: 1,
        text: "trap 5 undefined element\nat function 0 offset 8\nhost calls 0\n",
        shown: "dump \"module\" frames 3\n\
                #0 instance 0 function 0 offset 8 locals i32:0 operands i32:9\n\
                #1 instance 0 function 0 offset 17 locals i32:1 operands -\n\
                #2 instance 0 function 0 offset 17 locals i32:2 operands -\n",
    },
    Row {
        source: &RECURSIVE,
        line: "--depth 3 f i32:3",
        replies: "",
        status: 1,
        text: "trap 8 call stack exhausted\nat function 0 offset 17\nhost calls 0\n",
        shown: "dump \"module\" frames 3\n\
                #0 instance 0 function 0 offset 17 locals i32:1 operands i32:0\n\
                #1 instance 0 function 0 offset 17 locals i32:2 operands -\n\
                #2 instance 0 function 0 offset 17 locals i32:3 operands -\n",
    },
    Row {
        source: &STARTING,
        line: "f",
        replies: "",
        status: 1,
        text: "trap 1 unreachable\nat function 0 offset 1\nhost calls 0\n",
        shown: "dump \"module\" frames 1\n#0 instance 0 function 0 offset 1 locals - operands -\n",
    },
    Row {
        source: &GLOBAL,
        line: "f",
        replies: "",
        status: 1,
        text: "trap 1 unreachable\nat function 0 offset 1\nhost calls 0\n",
        shown: "dump \"module\" frames 1\n#0 instance 0 function 0 offset 1 locals - operands -\nglobal 0 i32:5\n",
    },
    Row {
        source: &FAR_STORES,
        line: "f",
        replies: "",
        status: 1,
        text: "trap 1 unreachable\nat function 0 offset 19\nhost calls 0\n",
        shown: "dump \"module\" frames 1\n#0 instance 0 function 0 offset 19 locals - operands -\nmemory 4096\n",
    },
];

const FUELS_AND_CAUSES: [Row; 8] = [
    Row {
        source: &DIVISION,
        line: "--fuel 4 div i32:8 i32:2",
        replies: "",
        status: 0,
        text: "finished i32:4\nhost calls 0\n",
        shown: "",
    },
    Row {
        source: &DIVISION,
        line: "--fuel 3 div i32:8 i32:2",
        replies: "",
        status: 10,
        text: "fuel spent\n",
        shown: "",
    },
    Row {
        source: &DIVISION,
        line: "--fuel=4x div i32:8 i32:2",
        replies: "",
        status: 2,
        text: "usage: check, run, instrument, show, debug, selftest, replay or cover\n",
        shown: "",
    },
    Row {
        source: &DIVISION,
        line: "--depth 10001 div i32:8 i32:2",
        replies: "",
        status: 2,
        text: "usage: check, run, instrument, show, debug, selftest, replay or cover\n",
        shown: "",
    },
    Row {
        source: &DIVISION,
        line: "--fuel 4 --fuel 4 div i32:8 i32:2",
        replies: "",
        status: 2,
        text: "usage: check, run, instrument, show, debug, selftest, replay or cover\n",
        shown: "",
    },
    Row {
        source: &DIVISION,
        line: "div i32:8",
        replies: "",
        status: 8,
        text: "not started: arguments\n",
        shown: "",
    },
    Row {
        source: &EMPTY,
        line: "main",
        replies: "",
        status: 8,
        text: "not started: export \"main\"\n",
        shown: "",
    },
    Row {
        source: &READING,
        line: "f",
        replies: "",
        status: 8,
        text: "not started: import 0\n",
        shown: "",
    },
];

const REPLIES: [Row; 4] = [
    Row {
        source: &READING,
        line: "--replies r f",
        replies: "i32:9 16=01020304",
        status: 1,
        text: "trap 1 unreachable\nat function 1 offset 5\nhost calls 1\n",
        shown: "dump \"module\" frames 1\n#0 instance 0 function 1 offset 5 locals - operands i32:9\nmemory 1\n",
    },
    Row {
        source: &READING,
        line: "--replies r f",
        replies: "",
        status: 9,
        text: "host stopped: no reply for call 0\n",
        shown: "",
    },
    Row {
        source: &READING,
        line: "--replies r f",
        replies: "i64:9",
        status: 9,
        text: "host stopped: reply 0 does not fit\n",
        shown: "",
    },
    Row {
        source: &READING,
        line: "--replies r f",
        replies: "i32:9 16=0",
        status: 17,
        text: "bad replies at line 1\n",
        shown: "",
    },
];

const LISTS: [Row; 4] = [
    Row {
        source: &DIVISION,
        line: "div i32:7 i32:0 + div i32:8 i32:2",
        replies: "",
        status: 1,
        text: "trap 2 integer divide by zero\nat function 0 offset 5\nhost calls 0\nfinished i32:4\nhost calls 0\n",
        shown: "dump \"module\" frames 1\n#0 instance 0 function 0 offset 5 locals i32:7 i32:0 operands i32:7 i32:0\n",
    },
    Row {
        source: &COUNTING,
        line: "f + f",
        replies: "",
        status: 1,
        text: "trap 1 unreachable\nat function 0 offset 8\nhost calls 0\ntrap 1 unreachable\n\
               at function 0 offset 8\nhost calls 0\n",
        shown: "dump \"module\" frames 1\n#0 instance 0 function 0 offset 8 locals - operands -\nglobal 0 i32:1\n",
    },
    Row {
        source: &RECURSIVE,
        line: "--depth 3 f i32:3 + f i32:2",
        replies: "",
        status: 1,
        text: "trap 8 call stack exhausted\nat function 0 offset 17\nhost calls 0\nnot invoked 1\n",
        shown: "dump \"module\" frames 3\n\
                #0 instance 0 function 0 offset 17 locals i32:1 operands i32:0\n\
                #1 instance 0 function 0 offset 17 locals i32:2 operands -\n\
                #2 instance 0 function 0 offset 17 locals i32:3 operands -\n",
    },
    Row {
        source: &RECURSIVE,
        line: "--depth 3 f i32:2 + f i32:3",
        replies: "",
        status: 1,
        text: "trap 5 undefined element\nat function 0 offset 8\nhost calls 0\n\
               trap 8 call stack exhausted\nat function 0 offset 17\nhost calls 0\n",
        shown: "dump \"module\" frames 3\n\
                #0 instance 0 function 0 offset 8 locals i32:0 operands i32:9\n\
                #1 instance 0 function 0 offset 17 locals i32:1 operands -\n\
                #2 instance 0 function 0 offset 17 locals i32:2 operands -\n",
    },
];

/// Whether `show` prints this of the dump, or, where it is nothing, there is none.
fn is_shown(alloc: Global, files: &mut MemFiles, text: &str) -> bool {
    if text.is_empty() {
        return files.get("core.wasm").is_none();
    }
    are_answered(alloc, ["show", "core.wasm"], files, (0, text))
}

/// Whether a row holds.
fn holds(alloc: Global, row: &Row) -> bool {
    match files_of(alloc, row.source, row.replies.as_bytes(), &[]) {
        Ok(mut files) => {
            are_answered(
                alloc,
                ["run m", row.line],
                &mut files,
                (row.status, row.text),
            ) && is_shown(alloc, &mut files, row.shown)
        }
        Err(_) => false,
    }
}

fn all_hold(alloc: Global, rows: &[Row]) -> bool {
    for row in rows {
        if !holds(alloc, row) {
            return false;
        }
    }
    true
}

#[test]
fn numbers_memories_and_control_run(rt: HostRuntime) {
    assert!(rt; all_hold(rt.alloc(), &NUMBERS));
    assert!(rt; all_hold(rt.alloc(), &MEMORIES));
    assert!(rt; all_hold(rt.alloc(), &CONTROL));
}

#[test]
fn calls_causes_replies_and_lists_run(rt: HostRuntime) {
    assert!(rt; all_hold(rt.alloc(), &CALLS));
    assert!(rt; all_hold(rt.alloc(), &FUELS_AND_CAUSES));
    assert!(rt; all_hold(rt.alloc(), &REPLIES));
    assert!(rt; all_hold(rt.alloc(), &LISTS));
}

const DUMP: &[u8] = &DIVISION_DUMP;

const DIVIDED: (u8, &str) = (
    1,
    "trap 2 integer divide by zero\nat function 0 offset 5\nhost calls 0\n",
);

/// Whether a division writes its dump, byte by byte, into the file that it is told.
fn is_dump_written(alloc: Global) -> bool {
    let line = ["run m", "--dump d div i32:7 i32:0"];
    match files_of(alloc, &DIVISION, b"", &[]) {
        Ok(mut files) => {
            are_answered(alloc, line, &mut files, DIVIDED)
                && files.get("d") == Some(DUMP)
                && files.get("core.wasm").is_none()
        }
        Err(_) => false,
    }
}

const COUNTED: (u8, &str) = (
    1,
    "trap 1 unreachable\nat function 0 offset 8\nhost calls 0\n\
     trap 1 unreachable\nat function 0 offset 8\nhost calls 0\n",
);

const SECOND: (u8, &str) = (
    0,
    "dump \"module\" frames 1\n#0 instance 0 function 0 offset 8 locals - operands -\nglobal 0 i32:2\n",
);

/// Whether each of two traps has a dump.
fn has_two_dumps(alloc: Global) -> bool {
    match files_of(alloc, &COUNTING, b"", &[]) {
        Ok(mut files) => {
            are_answered(alloc, ["run m", "f + f"], &mut files, COUNTED)
                && are_answered(alloc, ["show", "core.wasm.1"], &mut files, SECOND)
                && files.get("core.wasm.2").is_none()
        }
        Err(_) => false,
    }
}

#[test]
fn each_trap_has_a_dump(rt: HostRuntime) {
    assert!(rt; is_dump_written(rt.alloc()) && has_two_dumps(rt.alloc()));
}
