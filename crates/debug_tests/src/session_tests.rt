//! Commands on modules and dumps in files, with what is printed.

use crate::cases::{
    CALLS, CALLS_DUMP, CHAIN, CHAIN_DUMP, CONSTANT, DIVISION, DIVISION_DUMP, LOAD, PARTLY_DUMP,
};
use crate::sources::{
    CUT_DUMP, INLINED, NAMED, NO_FRAMES, OTHER_GLOBAL, OTHER_LOCAL, OTHER_OFFSET, SOURCE_DUMP,
    SOURCE5, UNLISTED_DUMP, UNPLACED, UNREADABLE,
};
use causes::NoMemory;
use debug_command::{DebugWords, debug_file};
use pm_outside::MemFiles;
use pm_text::{Text, Texts};
use std::alloc::Global;
use test_modules::SOURCE;

/// A module, a dump, commands between semicolons, the status, and the text.
type Row<'a> = (&'a [u8], &'a [u8], &'a str, u8, &'a str);

fn commands(alloc: Global, line: &str) -> Result<Texts, NoMemory> {
    let mut commands = Texts::new(alloc);
    for command in line.split(';') {
        commands.push(Text::from_str(alloc, command)?)?;
    }
    Ok(commands)
}

fn words(alloc: Global, line: &str) -> Result<DebugWords, NoMemory> {
    let commands = commands(alloc, line)?;
    let source = Text::from_str(alloc, "m")?;
    let dump = Text::from_str(alloc, "d")?;
    Ok(DebugWords {
        source,
        dump,
        commands,
    })
}

/// The files of a module and of a dump, where the calls of these numbers fail.
fn files(alloc: Global, row: &Row<'_>, fails: &[u64]) -> Result<MemFiles, NoMemory> {
    let mut files = MemFiles::new(alloc, Vec::from_slice(alloc, fails)?);
    files.add("m", row.0)?;
    files.add("d", row.1)?;
    Ok(files)
}

fn is_answered(alloc: Global, files: &mut MemFiles, words: &DebugWords, row: &Row<'_>) -> bool {
    match debug_file(alloc, files, words) {
        Ok(outcome) => outcome.status.code() == row.3 && outcome.text.as_str() == row.4,
        Err(NoMemory) => false,
    }
}

fn holds_of(alloc: Global, words: &DebugWords, row: &Row<'_>, fails: &[u64]) -> bool {
    match files(alloc, row, fails) {
        Ok(mut files) => is_answered(alloc, &mut files, words, row),
        Err(NoMemory) => false,
    }
}

/// Whether the commands of a row are answered so.
fn holds(alloc: Global, row: &Row<'_>, fails: &[u64]) -> bool {
    match words(alloc, row.2) {
        Ok(words) => holds_of(alloc, &words, row, fails),
        Err(NoMemory) => false,
    }
}

const SESSIONS: [Row<'static>; 7] = [
    (
        &LOAD,
        &PARTLY_DUMP,
        "bt;locals;operands;x 16 2",
        0,
        "#0 ? (function 0 offset 3)\nlocal 0 <not recorded>\noperand 0 <not recorded>\n00000010: ff 03\n",
    ),
    (
        &DIVISION,
        &DIVISION_DUMP,
        "frame 1;jump;print q",
        0,
        "no frame 1\nbad command\nno variable q\n",
    ),
    (
        &NAMED,
        &DIVISION_DUMP,
        "bt;vars;globals;x 0 1",
        0,
        "#0 q (function 0 offset 5)\nno variables\nno globals\n<not recorded>\n",
    ),
    (
        &CHAIN,
        &CHAIN_DUMP,
        "bt;frame 2;locals;operands",
        0,
        "#0 ? (function 0 offset 1)\n#1 ? (function 1 offset 1)\n#2 ? (function 2 offset 1)\n\
         #2 ? (function 2 offset 1)\nno locals\nno operands\n",
    ),
    (
        &CALLS,
        &CALLS_DUMP,
        "operands;frame 1;locals;operands;frame 7;locals;frame 0;locals",
        0,
        "operand 0 i32:9\n#1 ? (function 0 offset 17)\nlocal 0 i32:1\nno operands\nno frame 7\n\
         local 0 i32:1\n#0 ? (function 0 offset 8)\nlocal 0 i32:0\n",
    ),
    (
        &SOURCE,
        &NO_FRAMES,
        "bt;frame 0;locals;operands;vars;print q;print q.;globals;x 0 1",
        0,
        "no frame 0\nno frame 0\nno frame 0\nno frame 0\nno frame 0\nbad command\n\
         global 0 <not recorded>\n<not recorded>\n",
    ),
    (
        &SOURCE,
        &UNLISTED_DUMP,
        "globals;x 1000 1;print p;print x",
        0,
        "global 0 <not recorded>\n<not recorded>\np = <not recorded>\nx = <not recorded>\n",
    ),
];

const REFUSED: [Row<'static>; 5] = [
    (&DIVISION, &OTHER_OFFSET, "bt", 12, "mismatch 5 frame 0\n"),
    (&DIVISION, &OTHER_LOCAL, "bt", 12, "mismatch 6 frame 0\n"),
    (
        &DIVISION,
        &CUT_DUMP,
        "bt",
        11,
        "bad dump: malformed at 68\n",
    ),
    (&CONSTANT, &OTHER_GLOBAL, "bt", 12, "mismatch 3 global 0\n"),
    (&LOAD, &NO_FRAMES, "bt;locals", 0, "no frame 0\n"),
];

const BAD: [Row<'static>; 2] = [
    (
        &SOURCE,
        &SOURCE_DUMP,
        ";bt ; bt;frame;frame x;frame -1;frame 0 0;locals 0;print;print a b;print 1;x;x 0;x 0 0",
        0,
        "bad command\nbad command\nbad command\nbad command\nbad command\nbad command\n\
         bad command\nbad command\nbad command\nbad command\nbad command\nbad command\n\
         bad command\nbad command\n",
    ),
    (
        &SOURCE,
        &SOURCE_DUMP,
        "x 0 4097;x 0 1 1;x  0 1;x 0x0 1;print q.;print (q;BT;frame 0000000000000000000000",
        0,
        "bad command\nbad command\nbad command\nbad command\nbad command\nbad command\nbad command\nbad command\n",
    ),
];

const SOURCES: [Row<'static>; 6] = [
    (
        &SOURCE,
        &SOURCE_DUMP,
        "bt;vars;print s.b[1];print *p",
        0,
        "#0 f (function 0 offset 43) at t.c:5\np = 0x00010000\nx = 7\n\
         s = {a = 3, b = {0, 66 'B', 0, 0}}\ns.b[1] = 66 'B'\n*p = <outside memory>\n",
    ),
    (
        &SOURCE5,
        &SOURCE_DUMP,
        "bt;vars;print s.b[1];print *p",
        0,
        "#0 f (function 0 offset 43) at t.c:5\np = 0x00010000\nx = 7\n\
         s = {a = 3, b = {0, 66 'B', 0, 0}}\ns.b[1] = 66 'B'\n*p = <outside memory>\n",
    ),
    (
        &SOURCE,
        &SOURCE_DUMP,
        "locals;operands;globals;x 1000 17;x 65535 1;x 65535 2",
        0,
        "local 0 i32:65536\nlocal 1 i32:0\nlocal 2 i32:992\noperand 0 i32:65536\nglobal 0 i32:992\n\
         000003e8: 00 00 01 00 07 00 00 00 03 00 00 00 00 42 00 00\n000003f8: 00\n0000ffff: 00\n\
         <outside memory>\n",
    ),
    (
        &INLINED,
        &SOURCE_DUMP,
        "frame 0",
        0,
        "#0 inlined h at t.c:5\n#0 inlined g at inc/u.h:9\n#0 f (function 0 offset 43) at t.c:21\n",
    ),
    (
        &UNPLACED,
        &SOURCE_DUMP,
        "bt",
        0,
        "#0 inlined h at t.c:5\n#0 inlined g\n#0 f (function 0 offset 43) at t.c:21\n",
    ),
    (
        &UNREADABLE,
        &SOURCE_DUMP,
        "bt;vars",
        0,
        "unreadable .debug_info at 0\nunreadable .debug_line at 0\n#0 f (function 0 offset 43)\n\
         unreadable .debug_info at 0\nunreadable .debug_line at 0\np = 0x00010000\nx = 7\n\
         s = {a = 3, b = {0, 66 'B', 0, 0}}\n",
    ),
];

/// A module without its last byte.
const CUT_MODULE: [u8; 40] = [
    0x00, 0x61, 0x73, 0x6d, 0x01, 0x00, 0x00, 0x00, 0x01, 0x07, 0x01, 0x60, 0x02, 0x7f, 0x7f, 0x01,
    0x7f, 0x03, 0x02, 0x01, 0x00, 0x07, 0x07, 0x01, 0x03, 0x64, 0x69, 0x76, 0x00, 0x00, 0x0a, 0x09,
    0x01, 0x07, 0x00, 0x20, 0x00, 0x20, 0x01, 0x6d,
];

/// A function that adds two i64s, but has two i32s.
const INVALID_MODULE: [u8; 41] = [
    0x00, 0x61, 0x73, 0x6d, 0x01, 0x00, 0x00, 0x00, 0x01, 0x07, 0x01, 0x60, 0x02, 0x7f, 0x7f, 0x01,
    0x7f, 0x03, 0x02, 0x01, 0x00, 0x07, 0x07, 0x01, 0x03, 0x64, 0x69, 0x76, 0x00, 0x00, 0x0a, 0x09,
    0x01, 0x07, 0x00, 0x20, 0x00, 0x20, 0x01, 0x7c, 0x0b,
];

/// A module is judged before the dump, and a dump is read before it is matched.
const ORDER: [Row<'static>; 4] = [
    (&CUT_MODULE, &CUT_DUMP, "bt", 5, "malformed module at 31\n"),
    (
        &INVALID_MODULE,
        &CUT_DUMP,
        "bt",
        7,
        "invalid: function 0 offset 5\n",
    ),
    (
        &CONSTANT,
        &CUT_DUMP,
        "bt",
        11,
        "bad dump: malformed at 68\n",
    ),
    (&CONSTANT, &DIVISION_DUMP, "bt", 12, "mismatch 5 frame 0\n"),
];

/// What is answered where the call of each number fails. Each file is read in two calls, the module
/// first.
const FAULTS: [Row<'static>; 5] = [
    (&DIVISION, &DIVISION_DUMP, "bt", 4, "file fault: \"m\"\n"),
    (&DIVISION, &DIVISION_DUMP, "bt", 4, "file fault: \"m\"\n"),
    (&DIVISION, &DIVISION_DUMP, "bt", 4, "file fault: \"d\"\n"),
    (&DIVISION, &DIVISION_DUMP, "bt", 4, "file fault: \"d\"\n"),
    (
        &DIVISION,
        &DIVISION_DUMP,
        "bt",
        0,
        "#0 ? (function 0 offset 5)\n",
    ),
];

/// The number of the first row that does not hold, if there is one.
fn first_wrong(alloc: Global, rows: &[Row<'_>]) -> Option<usize> {
    for (number, row) in rows.iter().enumerate() {
        if !holds(alloc, row, &[]) {
            return Some(number);
        }
    }
    None
}

/// The number of the first row that does not hold where the call of that number fails, if there is
/// one.
fn first_wrong_fault(alloc: Global, rows: &[Row<'_>]) -> Option<usize> {
    for (number, row) in rows.iter().enumerate() {
        if !holds(alloc, row, &[number as u64]) {
            return Some(number);
        }
    }
    None
}

#[test]
fn sessions(rt: HostRuntime) {
    assert_eq!(rt; first_wrong(rt.alloc(), &SESSIONS), None);
}

#[test]
fn refused_dumps(rt: HostRuntime) {
    assert_eq!(rt; first_wrong(rt.alloc(), &REFUSED), None);
}

#[test]
fn bad_commands(rt: HostRuntime) {
    assert_eq!(rt; first_wrong(rt.alloc(), &BAD), None);
}

#[test]
fn sources(rt: HostRuntime) {
    assert_eq!(rt; first_wrong(rt.alloc(), &SOURCES), None);
}

#[test]
fn order_of_refusals(rt: HostRuntime) {
    assert_eq!(rt; first_wrong(rt.alloc(), &ORDER), None);
}

#[test]
fn faults_of_files(rt: HostRuntime) {
    assert_eq!(rt; first_wrong_fault(rt.alloc(), &FAULTS), None);
}
