//! Texts of replays over files in memory.

use causes::NoMemory;
use pm_outside::MemFiles;
use pm_text::Text;
use replay_command::{ReplayWords, replay_file};
use std::alloc::Global;
use test_modules::{DIVISION, READING, RECURSIVE, STARTING, TABLE_BRANCH};
use wasm_syntax::{Value, Values};

/// A module, replies, an entry with arguments, how many steps and how many frames there may be,
/// commands between semicolons, the status, and the text.
type Row<'a> = (
    &'a [u8],
    &'a [u8],
    &'a str,
    &'a [Value],
    (u64, u32),
    &'a str,
    u8,
    &'a str,
);

fn words(alloc: Global, row: &Row<'_>, every: u64) -> Result<ReplayWords, NoMemory> {
    Ok(ReplayWords {
        source: Text::from_str(alloc, "m")?,
        log: Text::from_str(alloc, "log")?,
        entry: Text::from_str(alloc, row.2)?,
        args: Values::from_slice(alloc, row.3)?,
        fuel: row.4.0,
        depth: row.4.1,
        every,
        commands: Text::from_str(alloc, row.5)?,
    })
}

fn prints(
    alloc: Global,
    files: &mut MemFiles,
    words: &ReplayWords,
    status: u8,
    text: &str,
) -> bool {
    match replay_file(alloc, files, words) {
        Ok(outcome) => outcome.status.code() == status && outcome.text.as_str() == text,
        Err(_) => false,
    }
}

/// Whether this is printed where these files are there.
fn prints_of(
    alloc: Global,
    source: Option<&[u8]>,
    log: Option<&[u8]>,
    words: &ReplayWords,
    status: u8,
    text: &str,
) -> bool {
    let mut files = MemFiles::new(alloc, Vec::new(alloc));
    if let Some(bytes) = source
        && files.add("m", bytes).is_err()
    {
        return false;
    }
    if let Some(bytes) = log
        && files.add("log", bytes).is_err()
    {
        return false;
    }
    prints(alloc, &mut files, words, status, text)
}

fn is_printed_by(alloc: Global, row: &Row<'_>, every: u64) -> bool {
    match words(alloc, row, every) {
        Ok(words) => prints_of(alloc, Some(row.0), Some(row.1), &words, row.6, row.7),
        Err(_) => false,
    }
}

/// The text does not depend on how far checkpoints stand apart.
fn is_printed(alloc: Global, row: &Row<'_>) -> bool {
    is_printed_by(alloc, row, 1) && is_printed_by(alloc, row, 1_000)
}

/// The number of the first row that is not printed so.
fn first_wrong(alloc: Global, rows: &[Row<'_>]) -> Option<usize> {
    for (i, row) in rows.iter().enumerate() {
        if !is_printed(alloc, row) {
            return Some(i);
        }
    }
    None
}

const MOVES: [Row<'static>; 9] = [
    (
        &DIVISION,
        b"",
        "div",
        &[Value::I32(8), Value::I32(2)],
        (1_000, 100),
        "goto 2;operands;back;operands;goto 9",
        0,
        "step 2 of 4\noperand 0 i32:8\noperand 1 i32:2\nstep 1 of 4\noperand 0 i32:8\nstep 4 of 4 finished i32:4\n",
    ),
    (
        &DIVISION,
        b"",
        "div",
        &[Value::I32(7), Value::I32(0)],
        (1_000, 100),
        "until 0:5;goto 3;until 0:1",
        0,
        "step 2 of 3\nstep 3 of 3 trap 2 integer divide by zero\nnot reached\n",
    ),
    (
        &READING,
        b"i32:9 16=01020304\n",
        "f",
        &[],
        (1_000, 100),
        "goto 2;operands;x 16 4",
        0,
        "step 2 of 3\noperand 0 i32:9\n00000010: 01 02 03 04\n",
    ),
    (
        &READING,
        b"",
        "f",
        &[],
        (1_000, 100),
        "goto 9;operands;back;operands;;",
        0,
        "step 2 of 2 no reply\noperand 0 i32:16\nstep 1 of 2\noperand 0 i32:16\nbad command\nbad command\n",
    ),
    (
        &READING,
        b"i64:9",
        "f",
        &[],
        (1_000, 100),
        "goto 9;back;back;back;back",
        0,
        "step 2 of 2 bad reply\nstep 1 of 2\nstep 0 of 2\nstep 0 of 2\nstep 0 of 2\n",
    ),
    (
        &DIVISION,
        b"",
        "div",
        &[Value::I32(8), Value::I32(2)],
        (2, 100),
        "goto 9;goto 1",
        0,
        "step 2 of 2 fuel spent\nstep 1 of 2\n",
    ),
    (
        &DIVISION,
        b"",
        "div",
        &[Value::I32(8), Value::I32(2)],
        (0, 100),
        "goto 1",
        0,
        "step 0 of 0 fuel spent\n",
    ),
    (
        &RECURSIVE,
        b"",
        "f",
        &[Value::I32(1)],
        (1_000, 1),
        "goto 9",
        0,
        "step 8 of 8 trap 8 call stack exhausted\n",
    ),
    (
        &STARTING,
        b"",
        "f",
        &[],
        (1_000, 100),
        "frame 0;goto 1;frame 0",
        0,
        "#0 ? (function 0 offset 1)\nstep 1 of 1 trap 1 unreachable\n#0 ? (function 0 offset 1)\n",
    ),
];

const LOOKS: [Row<'static>; 5] = [
    (
        &DIVISION,
        b"",
        "div",
        &[Value::I32(8), Value::I32(2)],
        (1_000, 100),
        "goto 3;operands;frame 0;goto 4;operands;frame 0",
        0,
        "step 3 of 4\noperand 0 i32:4\n#0 ? (function 0 offset 6)\nstep 4 of 4 finished i32:4\n\
         no frame 0\nno frame 0\n",
    ),
    (
        &RECURSIVE,
        b"",
        "f",
        &[Value::I32(1)],
        (1_000, 100),
        "goto 3;operands;frame 0",
        0,
        "step 3 of 13\nno operands\n#0 ? (function 0 offset 11)\n",
    ),
    (
        &RECURSIVE,
        b"",
        "f",
        &[Value::I32(1)],
        (1_000, 100),
        "until 0:1;until 0:1;goto 13",
        0,
        "step 8 of 13\nnot reached\nstep 13 of 13 trap 5 undefined element\n",
    ),
    (
        &RECURSIVE,
        b"",
        "f",
        &[Value::I32(1)],
        (1_000, 100),
        "goto 8;frame 1;locals;until 9:9;locals;goto 9;locals",
        0,
        "step 8 of 13\n#1 ? (function 0 offset 17)\nlocal 0 i32:1\nnot reached\nlocal 0 i32:1\n\
         step 9 of 13\nlocal 0 i32:0\n",
    ),
    (
        &DIVISION,
        b"",
        "div",
        &[Value::I32(8), Value::I32(2)],
        (1_000, 100),
        "",
        0,
        "bad command\n",
    ),
];

/// Each step of the three ways that a branch by a table goes: the argument, the step, and the text
/// of `goto`, of the frame and of its operands.
const STEPS: [(u32, &str, &str); 39] = [
    (
        0,
        "goto 0;frame 0;operands",
        "step 0 of 14\n#0 ? (function 0 offset 1)\nno operands\n",
    ),
    (
        0,
        "goto 1;frame 0;operands",
        "step 1 of 14\n#0 ? (function 0 offset 3)\noperand 0 i32:10\n",
    ),
    (
        0,
        "goto 2;frame 0;operands",
        "step 2 of 14\n#0 ? (function 0 offset 5)\noperand 0 i32:10\n",
    ),
    (
        0,
        "goto 3;frame 0;operands",
        "step 3 of 14\n#0 ? (function 0 offset 7)\noperand 0 i32:10\noperand 1 i32:20\n",
    ),
    (
        0,
        "goto 4;frame 0;operands",
        "step 4 of 14\n#0 ? (function 0 offset 9)\noperand 0 i32:10\noperand 1 i32:20\n",
    ),
    (
        0,
        "goto 5;frame 0;operands",
        "step 5 of 14\n#0 ? (function 0 offset 11)\noperand 0 i32:10\noperand 1 i32:20\noperand 2 i32:30\n",
    ),
    (
        0,
        "goto 6;frame 0;operands",
        "step 6 of 14\n#0 ? (function 0 offset 13)\noperand 0 i32:10\noperand 1 i32:20\noperand 2 i32:30\n",
    ),
    (
        0,
        "goto 7;frame 0;operands",
        "step 7 of 14\n#0 ? (function 0 offset 15)\noperand 0 i32:10\noperand 1 i32:20\n\
         operand 2 i32:30\noperand 3 i32:7\n",
    ),
    (
        0,
        "goto 8;frame 0;operands",
        "step 8 of 14\n#0 ? (function 0 offset 17)\noperand 0 i32:10\noperand 1 i32:20\n\
         operand 2 i32:30\noperand 3 i32:7\noperand 4 i32:0\n",
    ),
    (
        0,
        "goto 9;frame 0;operands",
        "step 9 of 14\n#0 ? (function 0 offset 23)\noperand 0 i32:10\noperand 1 i32:20\n\
         operand 2 i32:30\noperand 3 i32:7\n",
    ),
    (
        0,
        "goto 10;frame 0;operands",
        "step 10 of 14\n#0 ? (function 0 offset 24)\noperand 0 i32:10\noperand 1 i32:20\noperand 2 i32:37\n",
    ),
    (
        0,
        "goto 11;frame 0;operands",
        "step 11 of 14\n#0 ? (function 0 offset 25)\noperand 0 i32:10\noperand 1 i32:20\noperand 2 i32:37\n",
    ),
    (
        0,
        "goto 12;frame 0;operands",
        "step 12 of 14\n#0 ? (function 0 offset 26)\noperand 0 i32:10\noperand 1 i32:57\n",
    ),
    (
        0,
        "goto 13;frame 0;operands",
        "step 13 of 14\n#0 ? (function 0 offset 27)\noperand 0 i32:10\noperand 1 i32:57\n",
    ),
    (
        0,
        "goto 14;frame 0;operands",
        "step 14 of 14 trap 1 unreachable\n#0 ? (function 0 offset 27)\noperand 0 i32:10\noperand 1 i32:57\n",
    ),
    (
        1,
        "goto 0;frame 0;operands",
        "step 0 of 12\n#0 ? (function 0 offset 1)\nno operands\n",
    ),
    (
        1,
        "goto 1;frame 0;operands",
        "step 1 of 12\n#0 ? (function 0 offset 3)\noperand 0 i32:10\n",
    ),
    (
        1,
        "goto 2;frame 0;operands",
        "step 2 of 12\n#0 ? (function 0 offset 5)\noperand 0 i32:10\n",
    ),
    (
        1,
        "goto 3;frame 0;operands",
        "step 3 of 12\n#0 ? (function 0 offset 7)\noperand 0 i32:10\noperand 1 i32:20\n",
    ),
    (
        1,
        "goto 4;frame 0;operands",
        "step 4 of 12\n#0 ? (function 0 offset 9)\noperand 0 i32:10\noperand 1 i32:20\n",
    ),
    (
        1,
        "goto 5;frame 0;operands",
        "step 5 of 12\n#0 ? (function 0 offset 11)\noperand 0 i32:10\noperand 1 i32:20\noperand 2 i32:30\n",
    ),
    (
        1,
        "goto 6;frame 0;operands",
        "step 6 of 12\n#0 ? (function 0 offset 13)\noperand 0 i32:10\noperand 1 i32:20\noperand 2 i32:30\n",
    ),
    (
        1,
        "goto 7;frame 0;operands",
        "step 7 of 12\n#0 ? (function 0 offset 15)\noperand 0 i32:10\noperand 1 i32:20\n\
         operand 2 i32:30\noperand 3 i32:7\n",
    ),
    (
        1,
        "goto 8;frame 0;operands",
        "step 8 of 12\n#0 ? (function 0 offset 17)\noperand 0 i32:10\noperand 1 i32:20\n\
         operand 2 i32:30\noperand 3 i32:7\noperand 4 i32:1\n",
    ),
    (
        1,
        "goto 9;frame 0;operands",
        "step 9 of 12\n#0 ? (function 0 offset 25)\noperand 0 i32:10\noperand 1 i32:20\noperand 2 i32:7\n",
    ),
    (
        1,
        "goto 10;frame 0;operands",
        "step 10 of 12\n#0 ? (function 0 offset 26)\noperand 0 i32:10\noperand 1 i32:27\n",
    ),
    (
        1,
        "goto 11;frame 0;operands",
        "step 11 of 12\n#0 ? (function 0 offset 27)\noperand 0 i32:10\noperand 1 i32:27\n",
    ),
    (
        1,
        "goto 12;frame 0;operands",
        "step 12 of 12 trap 1 unreachable\n#0 ? (function 0 offset 27)\noperand 0 i32:10\noperand 1 i32:27\n",
    ),
    (
        5,
        "goto 0;frame 0;operands",
        "step 0 of 10\n#0 ? (function 0 offset 1)\nno operands\n",
    ),
    (
        5,
        "goto 1;frame 0;operands",
        "step 1 of 10\n#0 ? (function 0 offset 3)\noperand 0 i32:10\n",
    ),
    (
        5,
        "goto 2;frame 0;operands",
        "step 2 of 10\n#0 ? (function 0 offset 5)\noperand 0 i32:10\n",
    ),
    (
        5,
        "goto 3;frame 0;operands",
        "step 3 of 10\n#0 ? (function 0 offset 7)\noperand 0 i32:10\noperand 1 i32:20\n",
    ),
    (
        5,
        "goto 4;frame 0;operands",
        "step 4 of 10\n#0 ? (function 0 offset 9)\noperand 0 i32:10\noperand 1 i32:20\n",
    ),
    (
        5,
        "goto 5;frame 0;operands",
        "step 5 of 10\n#0 ? (function 0 offset 11)\noperand 0 i32:10\noperand 1 i32:20\noperand 2 i32:30\n",
    ),
    (
        5,
        "goto 6;frame 0;operands",
        "step 6 of 10\n#0 ? (function 0 offset 13)\noperand 0 i32:10\noperand 1 i32:20\noperand 2 i32:30\n",
    ),
    (
        5,
        "goto 7;frame 0;operands",
        "step 7 of 10\n#0 ? (function 0 offset 15)\noperand 0 i32:10\noperand 1 i32:20\n\
         operand 2 i32:30\noperand 3 i32:7\n",
    ),
    (
        5,
        "goto 8;frame 0;operands",
        "step 8 of 10\n#0 ? (function 0 offset 17)\noperand 0 i32:10\noperand 1 i32:20\n\
         operand 2 i32:30\noperand 3 i32:7\noperand 4 i32:5\n",
    ),
    (
        5,
        "goto 9;frame 0;operands",
        "step 9 of 10\n#0 ? (function 0 offset 27)\noperand 0 i32:10\noperand 1 i32:7\n",
    ),
    (
        5,
        "goto 10;frame 0;operands",
        "step 10 of 10 trap 1 unreachable\n#0 ? (function 0 offset 27)\noperand 0 i32:10\noperand 1 i32:7\n",
    ),
];

fn is_step(alloc: Global, argument: u32, commands: &str, text: &str) -> bool {
    let args = [Value::I32(argument)];
    let row = (
        TABLE_BRANCH.as_slice(),
        b"".as_slice(),
        "f",
        args.as_slice(),
        (1_000, 100),
        commands,
        0,
        text,
    );
    is_printed(alloc, &row)
}

/// The number of the first step that is not printed so.
fn first_wrong_step(alloc: Global) -> Option<usize> {
    for (i, step) in STEPS.iter().enumerate() {
        if !is_step(alloc, step.0, step.1, step.2) {
            return Some(i);
        }
    }
    None
}

#[test]
fn each_step_of_a_branch_is_printed(rt: HostRuntime) {
    assert_eq!(rt; first_wrong_step(rt.alloc()), None);
}

const REFUSALS: [Row<'static>; 4] = [
    (
        &DIVISION,
        b"",
        "mul",
        &[],
        (1_000, 100),
        "goto 0",
        8,
        "not started: export \"mul\"\n",
    ),
    (
        &DIVISION,
        b"",
        "div",
        &[Value::I32(8)],
        (1_000, 100),
        "goto 0",
        8,
        "not started: arguments\n",
    ),
    (
        &DIVISION,
        b"none\nnon",
        "div",
        &[Value::I32(8)],
        (1_000, 100),
        "goto 0",
        17,
        "bad replies at line 2\n",
    ),
    (
        b"\0asm",
        b"non",
        "div",
        &[],
        (1_000, 100),
        "",
        5,
        "malformed module at 4\n",
    ),
];

const TABLES: [&[Row<'static>]; 3] = [&MOVES, &LOOKS, &REFUSALS];

#[test]
fn moves_looks_and_refusals_are_printed(rt: HostRuntime) {
    for rows in TABLES {
        assert_eq!(rt; first_wrong(rt.alloc(), rows), None);
    }
}

/// Whether a file that is missing is told, where only these bytes of a module are there.
fn misses(alloc: Global, source: Option<&[u8]>, text: &str) -> bool {
    match words(alloc, &MOVES[0], 1) {
        Ok(words) => prints_of(alloc, source, None, &words, 3, text),
        Err(_) => false,
    }
}

#[test]
fn files_are_read_before_they_are_judged(rt: HostRuntime) {
    assert!(rt; misses(rt.alloc(), None, "no file: \"m\"\n"));
    assert!(rt; misses(rt.alloc(), Some(b"\0asm"), "no file: \"log\"\n"));
}
