//! The command `selftest`, and both files that it writes under `run`. Modules and dumps were also
//! written by a program apart from this one, which told how many bytes they have, the sums of
//! these, and the code offset of the division.

use crate::trial::{Fault, answers, first_wrong_fault, length, number_told};
use host_set::DeviceSet;
use pm_outside::MemFiles;
use pm_text::Text;
use selftest_command::selftest_files;
use std::alloc::Global;
use test_modules::EMPTY;

/// How many functions there are, the line but for the number of steps, what `run` tells of the
/// trap, and the bytes of the first file.
struct Row {
    count: u32,
    told: &'static str,
    trap: &'static str,
    length: usize,
}

const ROWS: [Row; 4] = [
    Row {
        count: 1,
        told: "selftest 1 kind 2 frames 1 bytes 65660 sum 8245 steps ",
        trap: "trap 2 integer divide by zero\nat function 0 offset 125\nhost calls 0\n",
        length: 170,
    },
    Row {
        count: 2,
        told: "selftest 2 kind 2 frames 2 bytes 65676 sum 10161 steps ",
        trap: "trap 2 integer divide by zero\nat function 1 offset 125\nhost calls 0\n",
        length: 301,
    },
    Row {
        count: 3,
        told: "selftest 3 kind 2 frames 3 bytes 65691 sum 11653 steps ",
        trap: "trap 2 integer divide by zero\nat function 2 offset 126\nhost calls 0\n",
        length: 436,
    },
    Row {
        count: 200,
        told: "selftest 200 kind 2 frames 200 bytes 68913 sum 399194 steps ",
        trap: "trap 2 integer divide by zero\nat function 199 offset 126\nhost calls 0\n",
        length: 26_692,
    },
];

const MOST: Row = Row {
    count: 900,
    told: "selftest 900 kind 2 frames 900 bytes 80758 sum 1806308 steps ",
    trap: "trap 2 integer divide by zero\nat function 899 offset 126\nhost calls 0\n",
    length: 120_503,
};

/// A text of pieces with numbers between them.
fn text_of(alloc: Global, pieces: &[&str], numbers: &[u64]) -> Option<Text> {
    let mut text = Text::new(alloc);
    for (i, piece) in pieces.iter().enumerate() {
        text.push_str(piece).ok()?;
        if i < numbers.len() {
            text.push_decimal(i128::from(numbers[i])).ok()?;
        }
    }
    Some(text)
}

const FRONT: &str = "run selftest.inst.wasm --collect --dump b --fuel ";

/// Whether the second file gets this within so many steps.
fn runs_within(
    alloc: Global,
    files: &mut MemFiles,
    main: &str,
    steps: u64,
    wanted: (u8, &str),
) -> bool {
    match text_of(alloc, &[FRONT, ""], &[steps]) {
        Some(line) => answers(alloc, [line.as_str(), main], files, wanted),
        None => false,
    }
}

/// Whether `main` of the first file traps so, and so does that of the second one within so many
/// steps, but not within one less, and hands the same dump over.
fn runs(alloc: Global, files: &mut MemFiles, row: &Row, main: &str, steps: u64) -> bool {
    let trap = (1, row.trap);
    let less = steps.saturating_sub(1);
    answers(alloc, ["run selftest.wasm --dump a", main], files, trap)
        && runs_within(alloc, files, main, less, (10, "fuel spent\n"))
        && files.get("b").is_none()
        && runs_within(alloc, files, main, steps, trap)
        && files.get("a").is_some()
        && files.get("a") == files.get("b")
}

/// Whether a self-test with this number tells that, and the files that it writes run so.
fn tells(alloc: Global, row: &Row, count: &str, main: &str) -> bool {
    let mut files = MemFiles::new(alloc, Vec::new(alloc));
    match number_told(alloc, count, &mut files, row.told) {
        Some(steps) => {
            runs(alloc, &mut files, row, main, steps)
                && length(files.get("selftest.wasm")) == Some(row.length)
        }
        None => false,
    }
}

fn tests_itself(alloc: Global, row: &Row) -> bool {
    let count = u64::from(row.count);
    match text_of(alloc, &["", " main i32:", " i32:1"], &[count, count]) {
        Some(line) => match line.as_str().split_once(' ') {
            Some((count, main)) => tells(alloc, row, count, main),
            None => false,
        },
        None => false,
    }
}

/// Whether the call by itself, tells the same as the command.
fn is_called(alloc: Global) -> bool {
    let mut files = MemFiles::new(alloc, Vec::new(alloc));
    match selftest_files::<MemFiles, DeviceSet>(alloc, &mut files, 2) {
        Ok(outcome) => {
            outcome.status.code() == 0
                && outcome.text.as_bytes().starts_with(ROWS[1].told.as_bytes())
                && length(files.get("selftest.wasm")) == Some(ROWS[1].length)
                && files.get("selftest.inst.wasm").is_some()
        }
        Err(_) => false,
    }
}

/// The call of `Files` that fails, the file that is named, and how many bytes of each file are
/// there. Each file is made, and its bytes are added at once, of which ten are taken.
const FAULTS: [Fault<'static>; 4] = [
    (0, "file fault: \"selftest.wasm\"\n", None, None),
    (1, "file fault: \"selftest.wasm\"\n", Some(10), None),
    (2, "file fault: \"selftest.inst.wasm\"\n", Some(301), None),
    (
        3,
        "file fault: \"selftest.inst.wasm\"\n",
        Some(301),
        Some(10),
    ),
];

const NAMES: [&str; 2] = ["selftest.wasm", "selftest.inst.wasm"];

/// The number of the first row that does not hold, if there is one.
fn first_wrong(alloc: Global, rows: &[Row]) -> Option<usize> {
    for (number, row) in rows.iter().enumerate() {
        if !tests_itself(alloc, row) {
            return Some(number);
        }
    }
    None
}

#[test]
fn modules_test_themselves(rt: HostRuntime) {
    assert_eq!(rt; first_wrong(rt.alloc(), &ROWS), None);
}

#[test]
fn the_largest_module_tests_itself(rt: HostRuntime) {
    assert!(rt; tests_itself(rt.alloc(), &MOST));
}

#[test]
fn the_call_tells_what_the_command_does(rt: HostRuntime) {
    assert!(rt; is_called(rt.alloc()));
}

#[test]
fn a_failing_file_is_named(rt: HostRuntime) {
    let line = ["selftest", "2"];
    assert_eq!(rt;
        first_wrong_fault(rt.alloc(), &EMPTY, line, NAMES, &FAULTS),
        None
    );
}
