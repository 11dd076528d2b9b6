//! Modules that call the collector by hand, under `run --collect`. What is wanted was worked out by
//! hand.

use crate::trial::{Row, answers, files_of, first_wrong};
use std::alloc::Global;
use test_modules::{FOREIGN, HANDING, STORING, STORING_HANDED};

// The words stand behind `run m`.
const ROWS: [Row<'static>; 12] = [
    (&HANDING, "", "--collect f", 0, "finished\nhost calls 0\n"),
    (&HANDING, "", "--collect g", 16, "torn calls at 0\n"),
    (&HANDING, "", "--collect j", 16, "torn calls at 0\n"),
    (&HANDING, "", "--collect k", 16, "torn calls at 1\n"),
    (
        &HANDING,
        "",
        "f --collect + g + f",
        16,
        "finished\nhost calls 0\ntorn calls at 0\n",
    ),
    (
        &HANDING,
        "",
        "--collect h",
        1,
        "trap 1 unreachable\nno dump collected\nhost calls 0\n",
    ),
    // Each invocation has a collector of its own.
    (
        &HANDING,
        "",
        "--collect i + f",
        1,
        "trap 3 integer overflow\nat function 0 offset 9\nhost calls 0\nfinished\nhost calls 0\n",
    ),
    (&HANDING, "", "--collect --fuel 50 l", 10, "fuel spent\n"),
    (&HANDING, "", "f", 8, "not started: import 0\n"),
    (&FOREIGN, "", "--collect f", 8, "not started: import 0\n"),
    (
        &FOREIGN,
        "",
        "--collect --replies r f",
        8,
        "not started: import 0\n",
    ),
    (
        &STORING_HANDED,
        "",
        "--collect run i32:8 i32:2",
        0,
        "finished i32:81\nhost calls 0\n",
    ),
];

#[test]
fn calls_by_hand_are_judged(rt: HostRuntime) {
    assert_eq!(rt; first_wrong(rt.alloc(), "run m", &ROWS), None);
}

const UNNUMBERED: &str = "trap 1 unreachable\nno dump collected\nhost calls 0\n\
    trap 3 integer overflow\nat function 0 offset 9\nhost calls 0\n";

/// Whether a trap without a dump is numbered like every other.
fn is_numbered(alloc: Global) -> bool {
    let line = ["run m", "--collect h + i"];
    match files_of(alloc, &HANDING, b"") {
        Ok(mut files) => {
            answers(alloc, line, &mut files, (1, UNNUMBERED))
                && files.get("core.wasm").is_none()
                && files.get("core.wasm.1").is_some()
        }
        Err(_) => false,
    }
}

const TRAPPED: (u8, &str) = (
    1,
    "trap 2 integer divide by zero\nat function 0 offset 5\nhost calls 0\n",
);

const RUN: [&str; 2] = ["run m --dump a", "run i32:7 i32:0"];

const COLLECTED: [&str; 2] = ["run r --collect --depth 1 --dump b", "run i32:7 i32:0"];

/// Whether the module in `r`, a rewriting by hand of that in `m`, hands over what `run` writes of
/// that. The wrapper and the two functions take three frames.
fn is_handed(alloc: Global) -> bool {
    match files_of(alloc, &STORING, &STORING_HANDED) {
        Ok(mut files) => {
            answers(alloc, RUN, &mut files, TRAPPED)
                && answers(alloc, COLLECTED, &mut files, TRAPPED)
                && files.get("a").is_some()
                && files.get("a") == files.get("b")
        }
        Err(_) => false,
    }
}

#[test]
fn dumps_are_numbered_and_handed_over(rt: HostRuntime) {
    assert!(rt; is_numbered(rt.alloc()) && is_handed(rt.alloc()));
}
