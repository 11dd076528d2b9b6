//! The steps of recorded runs.

use crate::tests::{Covered, STRAIGHT, TO_THE_END, UP_TO_A_TRAP, WITHOUT_LINES, covers};
use host_replies::read_replies;
use machine_basics::TrapKind;
use replay::{Recorded, Replayer, RunEnd};
use std::alloc::Global;
use test_modules::{DIVISION, READING, RECURSIVE, TABLE_BRANCH};
use wasm_decode::decode;
use wasm_machine::{End, Instance};
use wasm_syntax::{Reply, Value};
use wasm_validate::{Validated, validate};

/// The start function sets a global to 5 in three steps, and `f` adds its parameter to that in
/// five.
const STARTED: [u8; 61] = [
    0x00, 0x61, 0x73, 0x6d, 0x01, 0x00, 0x00, 0x00, 0x01, 0x08, 0x02, 0x60, 0x01, 0x7f, 0x00, 0x60,
    0x00, 0x00, 0x03, 0x03, 0x02, 0x01, 0x00, 0x06, 0x06, 0x01, 0x7f, 0x01, 0x41, 0x00, 0x0b, 0x07,
    0x05, 0x01, 0x01, 0x66, 0x00, 0x01, 0x08, 0x01, 0x00, 0x0a, 0x12, 0x02, 0x06, 0x00, 0x41, 0x05,
    0x24, 0x00, 0x0b, 0x09, 0x00, 0x20, 0x00, 0x23, 0x00, 0x6a, 0x24, 0x00, 0x0b,
];

/// What is run, and for how many steps.
struct Case {
    module: &'static [u8],
    entry: &'static str,
    args: &'static [Value],
    log: &'static [u8],
    fuel: u64,
}

/// What is asked of a valid module, and of a replay of it.
enum Asked {
    /// Whether a run has these counts of lines.
    Covers(&'static Covered),
    /// Its last step, and how it ended there.
    Ending,
    /// A number for all its states, one behind the other, from the last one back.
    States,
    /// Whether each step of a division shows what it should.
    Divides,
    /// Whether places are found behind the step, and no others.
    Finds,
    /// Whether the word at 16 is written in the second step, and is there behind it.
    Writes,
    /// Whether the global is set by the start function, and then by the entry.
    Sets,
    /// How many checkpoints are kept.
    Checkpoints,
}

/// A number, and an end where one was asked for; or nothing.
type Told = Option<(u64, Option<End>)>;

fn held(holds: bool) -> Told {
    Some((u64::from(holds), None))
}

const HELD: Told = Some((1, None));

fn goes(replayer: &mut Replayer<'_>, step: u64, wanted: u64) -> bool {
    match replayer.goto(step) {
        Ok(shown) => shown == wanted && replayer.step() == wanted,
        Err(_) => false,
    }
}

fn finds(replayer: &mut Replayer<'_>, function: u32, offset: u32, step: Option<u64>) -> bool {
    let before = replayer.step();
    match replayer.until(function, offset) {
        Ok(true) => step == Some(replayer.step()),
        Ok(false) => step.is_none() && replayer.step() == before,
        Err(_) => false,
    }
}

/// The word at 16, where there is one.
fn word_in(state: &Instance<'_>) -> Option<u64> {
    match state.memory() {
        Some(memory) => memory.load(16, 4),
        None => None,
    }
}

fn global_in(state: &Instance<'_>) -> Option<Value> {
    state.globals().get(0).copied()
}

fn first_of(values: &[Value]) -> Option<Value> {
    values.get(0).copied()
}

fn last_of(values: &[Value]) -> Option<Value> {
    values.last().copied()
}

/// Whether the innermost frame is at an offset, with this operand lowest and this one topmost.
fn shows(
    replayer: &Replayer<'_>,
    offset: u32,
    lowest: Option<Value>,
    topmost: Option<Value>,
) -> bool {
    let state = replayer.state();
    if state.frame_count() == 0 {
        return false;
    }
    let frame = state.frame(0);
    frame.offset == offset
        && first_of(frame.operands) == lowest
        && last_of(frame.operands) == topmost
}

fn end_of(outcome: &RunEnd) -> Option<End> {
    match outcome {
        RunEnd::Finished { value } => Some(End::Finished { value: *value }),
        RunEnd::Trapped { kind } => Some(End::Trapped { kind: *kind }),
        RunEnd::NoReply => Some(End::NoReply),
        RunEnd::BadReply { .. } => Some(End::BadReply),
        RunEnd::FuelSpent => Some(End::FuelSpent),
        RunEnd::DeviceFault { .. } | RunEnd::NoMemory => None,
    }
}

// ---- what is asked

/// A number that differs, in all likelihood, where one of the numbers does.
fn mixed(number: u64, more: u64) -> u64 {
    number.rotate_left(7).wrapping_mul(0x9E37_79B9_7F4A_7C15) ^ more
}

fn mixed_values(number: u64, values: &[Value]) -> u64 {
    let mut number = mixed(number, values.len() as u64);
    for value in values {
        number = match *value {
            Value::I32(bits) => mixed(number, u64::from(bits)),
            Value::I64(bits) => mixed(mixed(number, 1), bits),
        };
    }
    number
}

/// A number for the frames of an instance, its globals and its word at 16.
fn state_number(number: u64, state: &Instance<'_>) -> u64 {
    let count = state.frame_count();
    let mut number = mixed(number, count as u64);
    for index in 0..count {
        if index < state.frame_count() {
            let frame = state.frame(index);
            number = mixed(
                mixed(number, u64::from(frame.function)),
                u64::from(frame.offset),
            );
            number = mixed_values(mixed_values(number, frame.locals), frame.operands);
        }
    }
    let number = mixed_values(number, state.globals());
    mixed(number, word_in(state).unwrap_or(1))
}

fn states(replayer: &mut Replayer<'_>, every: u64) -> Told {
    let end = replayer.end();
    let most = every.max(end / 8);
    let mut number = end;
    for step in 0..=end {
        let step = end.saturating_sub(step);
        if !goes(replayer, step, step) || replayer.state().since_copy() > most {
            return None;
        }
        number = state_number(number, replayer.state());
    }
    Some((number, None))
}

fn divides(replayer: &mut Replayer<'_>) -> bool {
    let eight = Some(Value::I32(8));
    shows(replayer, 1, None, None)
        && goes(replayer, 2, 2)
        && shows(replayer, 5, eight, Some(Value::I32(2)))
        && goes(replayer, 1, 1)
        && shows(replayer, 3, eight, eight)
        && goes(replayer, 9, 4)
        && replayer.state().frame_count() == 0
}

fn finds_places(replayer: &mut Replayer<'_>) -> bool {
    finds(replayer, 0, 5, Some(2))
        && finds(replayer, 0, 5, Some(3))
        && finds(replayer, 0, 1, None)
        && goes(replayer, 0, 0)
        && finds(replayer, 0, 1, None)
        && finds(replayer, 1, 5, None)
}

fn writes(replayer: &mut Replayer<'_>) -> bool {
    let word = Some(0x0403_0201);
    let nine = Some(Value::I32(9));
    goes(replayer, 3, 3)
        && word_in(replayer.state()) == word
        && goes(replayer, 1, 1)
        && word_in(replayer.state()) == Some(0)
        && goes(replayer, 2, 2)
        && word_in(replayer.state()) == word
        && shows(replayer, 5, nine, nine)
}

fn sets(replayer: &mut Replayer<'_>) -> bool {
    let five = Some(Value::I32(5));
    goes(replayer, 9, 8)
        && global_in(replayer.state()) == Some(Value::I32(12))
        && goes(replayer, 1, 1)
        && global_in(replayer.state()) == Some(Value::I32(0))
        && shows(replayer, 3, five, five)
        && goes(replayer, 2, 2)
        && global_in(replayer.state()) == five
        && goes(replayer, 5, 5)
        && shows(replayer, 5, Some(Value::I32(7)), five)
}

fn answer(replayer: &mut Replayer<'_>, asked: &Asked, every: u64) -> Told {
    match asked {
        Asked::Covers(_) => None,
        Asked::Ending => Some((replayer.end(), end_of(replayer.outcome()))),
        Asked::States => states(replayer, every),
        Asked::Divides => held(divides(replayer)),
        Asked::Finds => held(finds_places(replayer)),
        Asked::Writes => held(writes(replayer)),
        Asked::Sets => held(sets(replayer)),
        Asked::Checkpoints => Some((replayer.checkpoints(), None)),
    }
}

// ---- replays: each large value is made in one function

fn valid(alloc: Global, bytes: &[u8]) -> Option<Validated> {
    match decode(alloc, bytes) {
        Ok(m) => validate(alloc, m).ok(),
        Err(_) => None,
    }
}

fn ask_replay(
    alloc: Global,
    source: &Validated,
    case: &Case,
    every: u64,
    replies: &[Reply],
    asked: &Asked,
) -> Told {
    if every == 0 {
        return None;
    }
    let recorded = Recorded {
        source,
        entry: case.entry,
        args: case.args,
        replies,
        depth: 100,
        fuel: case.fuel,
    };
    match Replayer::new(alloc, recorded, every) {
        Ok(mut replayer) => answer(&mut replayer, asked, every),
        Err(_) => None,
    }
}

fn ask_log(alloc: Global, source: &Validated, case: &Case, every: u64, asked: &Asked) -> Told {
    match read_replies(alloc, case.log) {
        Ok(replies) => ask_replay(alloc, source, case, every, replies.as_slice(), asked),
        Err(_) => None,
    }
}

fn ask_source(alloc: Global, source: &Validated, case: &Case, every: u64, asked: &Asked) -> Told {
    match asked {
        Asked::Covers(row) => held(covers(alloc, source, row)),
        _ => ask_log(alloc, source, case, every, asked),
    }
}

fn ask(alloc: Global, case: &Case, every: u64, asked: &Asked) -> Told {
    match valid(alloc, case.module) {
        Some(source) => ask_source(alloc, &source, case, every, asked),
        None => None,
    }
}

/// What is told where the first checkpoints are one step apart and where they are 1,000 steps
/// apart, if it is the same.
fn ask_both(alloc: Global, case: &Case, asked: &Asked) -> Told {
    let near = ask(alloc, case, 1, asked);
    let far = ask(alloc, case, 1_000, asked);
    if near == far { near } else { None }
}

// ---- cases

const EIGHT_BY_TWO: [Value; 2] = [Value::I32(8), Value::I32(2)];

const BY_ZERO: [Value; 2] = [Value::I32(7), Value::I32(0)];

const QUARTER: Case = Case {
    module: &DIVISION,
    entry: "div",
    args: &EIGHT_BY_TWO,
    log: b"",
    fuel: 9,
};

const CUT_QUARTER: Case = Case {
    module: &DIVISION,
    entry: "div",
    args: &EIGHT_BY_TWO,
    log: b"",
    fuel: 2,
};

const DIVIDED_BY_ZERO: Case = Case {
    module: &DIVISION,
    entry: "div",
    args: &BY_ZERO,
    log: b"",
    fuel: 9,
};

const LACKING: Case = Case {
    module: &READING,
    entry: "f",
    args: &[],
    log: b"",
    fuel: 100_000,
};

const MISFIT: Case = Case {
    module: &READING,
    entry: "f",
    args: &[],
    log: b"i64:9\n",
    fuel: 100_000,
};

/// The reply writes four bytes.
const WRITING: Case = Case {
    module: &READING,
    entry: "f",
    args: &[],
    log: b"i32:9 16=01020304\n",
    fuel: 100_000,
};

const STARTED_BY_SEVEN: Case = Case {
    module: &STARTED,
    entry: "f",
    args: &[Value::I32(7)],
    log: b"",
    fuel: 100_000,
};

const STARTED_BY_FIVE: Case = Case {
    module: &STARTED,
    entry: "f",
    args: &[Value::I32(5)],
    log: b"",
    fuel: 100_000,
};

const BRANCHED: Case = Case {
    module: &TABLE_BRANCH,
    entry: "f",
    args: &[Value::I32(5)],
    log: b"",
    fuel: 100_000,
};

const DEEP: Case = Case {
    module: &RECURSIVE,
    entry: "f",
    args: &[Value::I32(30)],
    log: b"",
    fuel: 100_000,
};

const LESS_DEEP: Case = Case {
    module: &RECURSIVE,
    entry: "f",
    args: &[Value::I32(4)],
    log: b"",
    fuel: 100_000,
};

const LEAST_DEEP: Case = Case {
    module: &RECURSIVE,
    entry: "f",
    args: &[Value::I32(1)],
    log: b"",
    fuel: 100_000,
};

const LINES: Case = Case {
    module: &STRAIGHT,
    entry: "f",
    args: &[],
    log: b"",
    fuel: 0,
};

/// What is run, what is asked, and what is told.
type Row = (&'static Case, Asked, Told);

const ROWS: [Row; 13] = [
    // Runs end with results.
    (
        &STARTED_BY_SEVEN,
        Asked::Ending,
        Some((8, Some(End::Finished { value: None }))),
    ),
    (
        &QUARTER,
        Asked::Ending,
        Some((
            4,
            Some(End::Finished {
                value: Some(Value::I32(4)),
            }),
        )),
    ),
    // Runs end otherwise.
    (
        &DIVIDED_BY_ZERO,
        Asked::Ending,
        Some((
            3,
            Some(End::Trapped {
                kind: TrapKind::DivideByZero,
            }),
        )),
    ),
    (&LACKING, Asked::Ending, Some((2, Some(End::NoReply)))),
    (&MISFIT, Asked::Ending, Some((2, Some(End::BadReply)))),
    (&CUT_QUARTER, Asked::Ending, Some((2, Some(End::FuelSpent)))),
    // A division goes to each step, places are found behind the step, replies write again, and a
    // start function is run again.
    (&QUARTER, Asked::Divides, HELD),
    (&DIVIDED_BY_ZERO, Asked::Finds, HELD),
    (&WRITING, Asked::Writes, HELD),
    (&STARTED_BY_SEVEN, Asked::Sets, HELD),
    // A run is covered to its end, up to a trap, and without lines.
    (&LINES, Asked::Covers(&TO_THE_END), HELD),
    (&LINES, Asked::Covers(&UP_TO_A_TRAP), HELD),
    (&LINES, Asked::Covers(&WITHOUT_LINES), HELD),
];

fn is_told(alloc: Global, row: &Row) -> bool {
    ask_both(alloc, row.0, &row.1) == row.2
}

/// The number of the first row that is not told so.
fn first_wrong(alloc: Global) -> Option<usize> {
    for (i, row) in ROWS.iter().enumerate() {
        if !is_told(alloc, row) {
            return Some(i);
        }
    }
    None
}

#[test]
fn runs_are_replayed(rt: HostRuntime) {
    assert_eq!(rt; first_wrong(rt.alloc()), None);
}

const STATES: [&Case; 5] = [
    &DIVIDED_BY_ZERO,
    &BRANCHED,
    &DEEP,
    &WRITING,
    &STARTED_BY_FIVE,
];

#[test]
fn states_do_not_depend_on_checkpoints(rt: HostRuntime) {
    for case in STATES {
        assert!(rt; ask_both(rt.alloc(), case, &Asked::States).is_some());
    }
}

/// A recursion, how far apart the first checkpoints are, and how many are kept. One of depth n makes
/// 8 n + 5 steps. From 16 steps on there are 16 checkpoints one step apart at first, of which one
/// goes for each that is added. Behind 37 steps, three gaps are wide, so that one more goes; behind
/// 245, none is.
const KEPT: [(&Case, u64, u64); 4] = [
    (&LEAST_DEEP, 1, 13),
    (&LESS_DEEP, 1, 15),
    (&DEEP, 1, 16),
    (&DEEP, 1_000, 1),
];

#[test]
fn at_most_sixteen_checkpoints_stay(rt: HostRuntime) {
    for (case, every, count) in KEPT {
        assert!(rt; ask(rt.alloc(), case, every, &Asked::Checkpoints) == Some((count, None)));
    }
}
