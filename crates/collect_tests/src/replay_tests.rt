//! The command `replay`: moves between the steps of a run, and commands on the states that are
//! shown. What is wanted was worked out by hand.

use crate::trial::{Row, answers_with, files_of, first_wrong};
use std::alloc::Global;
use test_modules::{DIVISION, READING};

const REPLIES: &str = "i32:9 16=01020304\n";

/// A module, the words in front of the last one, which is the text of the commands, and what these
/// print.
type Moves = (&'static [u8], &'static str, &'static str, &'static str);

const MOVES: [Moves; 6] = [
    (
        &DIVISION,
        "replay m r div i32:8 i32:2 --do",
        "goto 2;operands;back;operands;goto 9",
        "step 2 of 4\noperand 0 i32:8\noperand 1 i32:2\nstep 1 of 4\noperand 0 i32:8\nstep 4 of 4 finished i32:4\n",
    ),
    (
        &DIVISION,
        "replay m r div i32:8 i32:2 --every 1 --do",
        "goto 2;operands;back;operands;goto 9",
        "step 2 of 4\noperand 0 i32:8\noperand 1 i32:2\nstep 1 of 4\noperand 0 i32:8\nstep 4 of 4 finished i32:4\n",
    ),
    (
        &DIVISION,
        "replay m r div i32:7 i32:0 --do",
        "until 0:5;goto 3;until 0:1",
        "step 2 of 3\nstep 3 of 3 trap 2 integer divide by zero\nnot reached\n",
    ),
    (
        &DIVISION,
        "replay m r div i32:8 i32:2 --fuel 1 --do",
        "goto 9;back;back;jump",
        "step 1 of 1 fuel spent\nstep 0 of 1\nstep 0 of 1\nbad command\n",
    ),
    (
        &READING,
        "replay m r f --do",
        "goto 2;operands;x 16 4",
        "step 2 of 3\noperand 0 i32:9\n00000010: 01 02 03 04\n",
    ),
    (
        &READING,
        "replay m r f --do",
        "goto 3;x 16 4;back;goto 1;x 16 4",
        "step 3 of 3 trap 1 unreachable\n00000010: 01 02 03 04\nstep 2 of 3\nstep 1 of 3\n00000010: 00 00 00 00\n",
    ),
];

fn is_replayed(alloc: Global, row: &Moves) -> bool {
    match files_of(alloc, row.0, REPLIES.as_bytes()) {
        Ok(mut files) => answers_with(alloc, row.1, row.2, &mut files, (0, row.3)),
        Err(_) => false,
    }
}

const ANSWERS: [Row<'static>; 8] = [
    (&READING, "", "m r f", 0, "step 0 of 2\n"),
    (
        &READING,
        REPLIES,
        "m r f --do=bt",
        0,
        "#0 ? (function 1 offset 1)\n",
    ),
    (&READING, "", "m r f --do goto", 0, "bad command\n"),
    (&READING, "i32", "m r f", 17, "bad replies at line 1\n"),
    (&READING, "", "m r f i32:1", 8, "not started: arguments\n"),
    (&READING, "", "m r g", 8, "not started: export \"g\"\n"),
    (&READING, "", "m s f", 3, "no file: \"s\"\n"),
    (&READING, "", "n r f", 3, "no file: \"n\"\n"),
];

/// The number of the first row that does not hold, if there is one.
fn first_wrong_moves(alloc: Global, rows: &[Moves]) -> Option<usize> {
    for (number, row) in rows.iter().enumerate() {
        if !is_replayed(alloc, row) {
            return Some(number);
        }
    }
    None
}

#[test]
fn moves_show_states(rt: HostRuntime) {
    assert_eq!(rt; first_wrong_moves(rt.alloc(), &MOVES), None);
}

#[test]
fn a_replay_is_refused_or_told(rt: HostRuntime) {
    assert_eq!(rt; first_wrong(rt.alloc(), "replay", &ANSWERS), None);
}
