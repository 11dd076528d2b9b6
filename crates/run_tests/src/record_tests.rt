//! The record of a run, as a file.

ghost use Rattle.host_set.specs.Sets.{AreDistinct, names};

use crate::trial::{are_answered, are_served, files_of};
use host_devices::Counter;
use host_set::{DeviceSet, Devices};
use pm_outside::MemFiles;
use std::alloc::{AllocError, Global};
use test_modules::{HANDING, READING, TWICE_NEXT};

/// The words behind `run m`, replies in the file `r`, the status and the text, and what the file
/// `log` holds then, if it is there.
struct Row {
    line: &'static str,
    replies: &'static str,
    status: u8,
    text: &'static str,
    record: Option<&'static str>,
}

const TRAP: &str = "trap 1 unreachable\nat function 1 offset 5\nhost calls 1\n";

const ROWS: [Row; 8] = [
    Row {
        line: "--replies r --record log f",
        replies: "i32:9 16=01020304",
        status: 1,
        text: TRAP,
        record: Some("i32:9 16=01020304\n"),
    },
    Row {
        line: "--replies r --record log f + f",
        replies: "# two\ni32:4294967295 4=AB\ni32:2\ni32:3",
        status: 1,
        text: "trap 1 unreachable\nat function 1 offset 5\nhost calls 1\ntrap 1 unreachable\n\
               at function 1 offset 5\nhost calls 1\n",
        record: Some("i32:-1 4=ab\ni32:2\n"),
    },
    Row {
        line: "--replies r --record log f",
        replies: "",
        status: 9,
        text: "host stopped: no reply for call 0\n",
        record: Some(""),
    },
    Row {
        line: "--replies r --record log f + f",
        replies: "i32:1\ni64:9",
        status: 9,
        text: "trap 1 unreachable\nat function 1 offset 5\nhost calls 1\nhost stopped: reply 1 does not fit\n",
        record: Some("i32:1\n"),
    },
    Row {
        line: "--replies r --record log --fuel 0 f",
        replies: "i32:1",
        status: 10,
        text: "fuel spent\n",
        record: Some(""),
    },
    Row {
        line: "--replies r --record log f",
        replies: "i32:",
        status: 17,
        text: "bad replies at line 1\n",
        record: None,
    },
    Row {
        line: "--replies r --record log g",
        replies: "i32:1",
        status: 8,
        text: "not started: export \"g\"\n",
        record: None,
    },
    Row {
        line: "--record log --dump log f",
        replies: "",
        status: 2,
        text: "usage: check, run, instrument, show, debug, selftest, replay or cover\n",
        record: None,
    },
];

/// Whether a file holds this text, or is not there.
fn holds(files: &MemFiles, name: &str, text: Option<&str>) -> bool {
    match (files.get(name), text) {
        (Some(bytes), Some(text)) => bytes == text.as_bytes(),
        (None, None) => true,
        _ => false,
    }
}

/// Whether a module gets this, and leaves this record.
fn is_recorded(alloc: Global, source: &[u8], row: &Row) -> bool {
    match files_of(alloc, source, row.replies.as_bytes(), &[]) {
        Ok(mut files) => {
            are_answered(
                alloc,
                ["run m", row.line],
                &mut files,
                (row.status, row.text),
            ) && holds(&files, "log", row.record)
        }
        Err(_) => false,
    }
}

/// A run whose calls of the collector are torn.
const TORN: [Row; 1] = [Row {
    line: "--collect --record log g",
    replies: "",
    status: 16,
    text: "torn calls at 0\n",
    record: Some(""),
}];

fn are_recorded(alloc: Global, source: &[u8], rows: &[Row]) -> bool {
    for row in rows {
        if !is_recorded(alloc, source, row) {
            return false;
        }
    }
    true
}

#[test]
fn replies_that_fit_are_recorded(rt: HostRuntime) {
    assert!(rt; are_recorded(rt.alloc(), &READING, &ROWS));
    assert!(rt; are_recorded(rt.alloc(), &HANDING, &TORN));
}

const SERVED: (u8, &str) = (0, "finished i32:1\nhost calls 2\n");

/// Whether what devices reply to two calls is recorded, in place of the module.
fn is_served(alloc: Global, devices: &mut DeviceSet) -> bool
    requires { AreDistinct (names (⟦<DeviceSet as Devices>⟧.shown devices.old)) }
{
    match files_of(alloc, &TWICE_NEXT, b"", &[]) {
        Ok(mut files) => {
            are_served(
                alloc,
                ["run m", "--record m f"],
                &mut files,
                devices,
                SERVED,
            ) && holds(&files, "m", Some("i32:0\ni32:1\n"))
        }
        Err(_) => false,
    }
}

fn is_counter_recorded(alloc: Global) -> Result<bool, AllocError> {
    let mut devices = DeviceSet::new(alloc);
    match devices.attach(Box::new(alloc, Counter::new(alloc))?) {
        Ok(_) => Ok(is_served(alloc, &mut devices)),
        Err(_) => Ok(false),
    }
}

#[test]
fn replies_of_devices_are_recorded(rt: HostRuntime) {
    assert!(rt; is_counter_recorded(rt.alloc()) == Ok(true));
}

const DUMP_FAULT: &str = "file fault: \"core.wasm\"\n";

const RECORD_FAULT: &str = "file fault: \"log\"\n";

/// The call of `Files` that fails, the text, and whether a dump and a record are there then. The
/// module is read in two calls and the replies in two; then the dump is made by two, and the record
/// by two.
const FAULTS: [(u64, &str, bool, bool); 4] = [
    (4, DUMP_FAULT, false, false),
    (5, DUMP_FAULT, true, false),
    (6, RECORD_FAULT, true, false),
    (7, RECORD_FAULT, true, true),
];

/// Whether a call fails so.
fn may_fail(alloc: Global, row: &(u64, &str, bool, bool)) -> bool {
    match files_of(alloc, &READING, b"i32:9", &[row.0]) {
        Ok(mut files) => {
            are_answered(
                alloc,
                ["run m", "--replies r --record log f"],
                &mut files,
                (4, row.1),
            ) && files.get("core.wasm").is_some() == row.2
                && files.get("log").is_some() == row.3
        }
        Err(_) => false,
    }
}

#[test]
fn a_record_is_made_behind_the_dump(rt: HostRuntime) {
    for row in &FAULTS {
        assert!(rt; may_fail(rt.alloc(), row), "{}", row.0);
    }
}
