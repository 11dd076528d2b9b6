//! The command `cover`: how many steps fell on each source line. The rows of the line program are
//! those that llvm-dwarfdump prints, and the steps of each line are the instructions between its
//! row and the next one.

use crate::trial::{Row, first_wrong};
use test_modules::{DIVISION, EMPTY, READING, SOURCE};

const ROWS: [Row<'static>; 10] = [
    (
        &SOURCE,
        "",
        "m f i32:65536",
        0,
        "trap 4 out of bounds memory access\nt.c:2 5\nt.c:3 3\nt.c:4 9\nt.c:5 2\nunplaced 0\nsteps 19\n",
    ),
    (
        &SOURCE,
        "",
        "m f i32:0",
        0,
        "finished i32:0\nt.c:2 5\nt.c:3 3\nt.c:4 9\nt.c:5 3\nunplaced 0\nsteps 20\n",
    ),
    (
        &SOURCE,
        "",
        "m f i32:0 --fuel 7",
        0,
        "fuel spent\nt.c:2 5\nt.c:3 2\nunplaced 0\nsteps 7\n",
    ),
    (
        &DIVISION,
        "",
        "m div i32:8 i32:2",
        0,
        "finished i32:4\nunplaced 4\nsteps 4\n",
    ),
    (
        &READING,
        "i32:9 16=01020304\n",
        "m f --replies r",
        0,
        "trap 1 unreachable\nunplaced 3\nsteps 3\n",
    ),
    (
        &READING,
        "",
        "m f --replies r",
        9,
        "host stopped: no reply for call 0\n",
    ),
    (&READING, "", "m f", 8, "not started: import 0\n"),
    (
        &READING,
        "i32",
        "m f --replies r",
        17,
        "bad replies at line 1\n",
    ),
    (&EMPTY, "", "m f", 8, "not started: export \"f\"\n"),
    (&EMPTY, "", "n f", 3, "no file: \"n\"\n"),
];

#[test]
fn steps_are_counted_by_lines(rt: HostRuntime) {
    assert_eq!(rt; first_wrong(rt.alloc(), "cover", &ROWS), None);
}
