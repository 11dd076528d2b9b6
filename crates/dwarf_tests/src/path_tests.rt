//! Paths: texts that are paths, with their steps, and texts that are none.

use std::alloc::Global;
use var_path::{Step, parse_path};

// A step: `.` and `>` with a name, `*`, and `[` with a number.
type StepRow = (&'static str, &'static [u8], u32);

// A text, the variable, and its steps.
const PATHS: [(&str, &[u8], &[StepRow]); 8] = [
    ("x", b"x", &[]),
    ("_x9.y", b"_x9", &[(".", b"y", 0)]),
    ("s.b[1]", b"s", &[(".", b"b", 0), ("[", b"", 1)]),
    (
        "*(*p->q).r[007]",
        b"p",
        &[
            (">", b"q", 0),
            ("*", b"", 0),
            (".", b"r", 0),
            ("[", b"", 7),
            ("*", b"", 0),
        ],
    ),
    ("((**(x)))", b"x", &[("*", b"", 0), ("*", b"", 0)]),
    (
        "*a[2147483647]",
        b"a",
        &[("[", b"", 2147483647), ("*", b"", 0)],
    ),
    (
        "(*a)[0][1]",
        b"a",
        &[("*", b"", 0), ("[", b"", 0), ("[", b"", 1)],
    ),
    ("p->q->r", b"p", &[(">", b"q", 0), (">", b"r", 0)]),
];

const NONE: [&str; 22] = [
    "",
    "(x",
    "(x))",
    "x*",
    "x[2147483648]",
    "x[]",
    "x[1",
    "x]",
    "9x",
    ".x",
    "x.",
    "x.9",
    "x-y",
    "x->",
    "x - >y",
    " x",
    "x ",
    "x[-1]",
    "x[000000000000000000001]",
    "()",
    "*",
    "x(y)",
];

fn is_step(step: &Step<'_>, row: &StepRow) -> bool {
    match step {
        Step::Member(name) => row.0 == "." && name.as_slice() == row.1,
        Step::Arrow(name) => row.0 == ">" && name.as_slice() == row.1,
        Step::Index(index) => row.0 == "[" && *index == row.2,
        Step::Deref => row.0 == "*",
    }
}

fn are_steps(steps: &[Step<'_>], rows: &[StepRow]) -> bool {
    if steps.len() != rows.len() {
        return false;
    }
    for (step, row) in steps.iter().zip(rows) {
        if !is_step(step, row) {
            return false;
        }
    }
    true
}

/// The text is a path of a variable by these steps, or none where no variable is given.
fn is_path(alloc: Global, text: &str, name: Option<&[u8]>, rows: &[StepRow]) -> bool {
    match parse_path(alloc, text) {
        Ok(Some(path)) => {
            Some(path.name.as_slice()) == name && are_steps(path.steps.as_slice(), rows)
        }
        Ok(None) => name.is_none(),
        Err(_) => false,
    }
}

#[test]
fn texts_are_paths_or_none(rt: HostRuntime) {
    for (text, name, rows) in &PATHS {
        assert!(rt; is_path(rt.alloc(), text, Some(*name), rows));
    }
    for text in NONE {
        assert!(rt; is_path(rt.alloc(), text, None, &[]));
    }
}
