//! What commands are told by their words.

use crate::reading::{Wanted, is_read};
use std::alloc::Global;

/// A line, the command that it is read as, and the files that the command names.
const FILES: [(&str, &str, (&str, &str)); 12] = [
    ("show a", "show", ("a", "")),
    ("show -", "show", ("-", "")),
    ("show ", "show", ("", "")),
    ("show -- -a", "show", ("-a", "")),
    ("show a --", "show", ("a", "")),
    ("show -- --", "show", ("--", "")),
    ("check a", "check", ("a", "")),
    ("check -- -a", "check", ("-a", "")),
    ("instrument a b", "instrument", ("a", "b")),
    ("instrument a a", "instrument", ("a", "a")),
    ("instrument -- -a -b", "instrument", ("-a", "-b")),
    ("instrument a -- b", "instrument", ("a", "b")),
];

fn names<'a>(alloc: Global, line: &str, name: &'a str, files: (&'a str, &'a str)) -> bool {
    let command = Wanted {
        name,
        files: None,
        count: None,
    };
    let told = Wanted {
        name,
        files: Some(files),
        count: None,
    };
    is_read(alloc, line, &command) && is_read(alloc, line, &told)
}

#[test]
fn commands_name_files(rt: HostRuntime) {
    for (line, name, files) in FILES {
        assert!(rt; names(rt.alloc(), line, name, files), "{line}");
    }
}

/// A line, and the number of functions that it asks for, or nothing where it is no command.
const SELF_TESTS: [(&str, Option<u32>); 20] = [
    ("selftest 1", Some(1)),
    ("selftest 900", Some(900)),
    ("selftest 003", Some(3)),
    ("selftest 00000000000000000003", Some(3)),
    ("selftest -- 3", Some(3)),
    ("selftest 3 --", Some(3)),
    ("selftest", None),
    ("selftest ", None),
    ("selftest 0", None),
    ("selftest 901", None),
    ("selftest 000000000000000000003", None),
    ("selftest 4294967299", None),
    ("selftest +3", None),
    ("selftest -3", None),
    ("selftest -- -3", None),
    ("selftest 3a", None),
    ("selftest 0x3", None),
    ("selftest 3 4", None),
    ("selftest 3 --fuel=1", None),
    ("Selftest 3", None),
];

#[test]
fn self_tests_have_a_number(rt: HostRuntime) {
    for (line, count) in SELF_TESTS {
        let wanted = Wanted {
            name: "usage",
            files: None,
            count,
        };
        assert!(rt; is_read(rt.alloc(), line, &wanted), "{line}");
    }
}
