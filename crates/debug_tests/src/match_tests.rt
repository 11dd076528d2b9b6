//! Dumps against modules: each row changes some bytes of a dump, and tells the first test that
//! fails then.

use crate::cases::{
    CALLS, CALLS_DUMP, CHAIN, CHAIN_DUMP, CONSTANT, CONSTANT_DUMP, DIVISION, DIVISION_DUMP, GROUPS,
    GROUPS_DUMP, INDIRECT, INDIRECT_DUMP, LOAD, MEMORY, MEMORY_DUMP, PARTLY_DUMP, SHOWN_DUMP,
    TABLE, TABLE_DUMP, valid,
};
use dump_format::decode_dump;
use dump_match::{Mismatch, matches, matches_state};
use std::alloc::Global;
use wasm_validate::Validated;

/// A byte of a dump, by its place and its new value.
type Change = (usize, u8);

/// A module, a dump, what is changed of it, and the first test that fails.
type Row<'a> = (&'a [u8], &'a [u8], &'a [Change], Option<Mismatch>);

const INNERMOST: u32 = 0;

const CALLER: u32 = 1;

fn changed(alloc: Global, dump: &[u8], changes: &[Change]) -> Option<Vec<u8>> {
    let mut bytes = Vec::from_slice(alloc, dump).ok()?;
    for (at, byte) in changes {
        *bytes.get_mut(*at)? = *byte;
    }
    Some(bytes)
}

/// Whether a dump is judged as one of a trap, or as one of some state.
#[derive(Clone, Copy)]
enum Judge {
    Trap,
    State,
}

fn is_judged(
    alloc: Global,
    m: &Validated,
    dump: &[u8],
    judge: Judge,
    wanted: Option<Mismatch>,
) -> bool {
    match decode_dump(alloc, dump) {
        Ok(dump) => match judge {
            Judge::Trap => matches(alloc, m, &dump).err() == wanted,
            Judge::State => matches_state(alloc, m, &dump).err() == wanted,
        },
        Err(_) => false,
    }
}

fn holds_of(alloc: Global, m: &Validated, judge: Judge, row: &Row<'_>) -> bool {
    match changed(alloc, row.1, row.2) {
        Some(dump) => is_judged(alloc, m, dump.as_slice(), judge, row.3),
        None => false,
    }
}

fn holds(alloc: Global, judge: Judge, row: &Row<'_>) -> bool {
    match valid(alloc, row.0) {
        Some(m) => holds_of(alloc, &m, judge, row),
        None => false,
    }
}

const WHOLE: [Row<'static>; 16] = [
    (&DIVISION, &DIVISION_DUMP, &[], None),
    (
        &DIVISION,
        &DIVISION_DUMP,
        &[(52, 1)],
        Some(Mismatch::Instance),
    ),
    (
        &DIVISION,
        &DIVISION_DUMP,
        &[(75, 1)],
        Some(Mismatch::Instance),
    ),
    (&LOAD, &PARTLY_DUMP, &[], None),
    (&MEMORY, &MEMORY_DUMP, &[], None),
    (&MEMORY, &MEMORY_DUMP, &[(54, 1)], Some(Mismatch::Instance)),
    (&MEMORY, &MEMORY_DUMP, &[(56, 1)], Some(Mismatch::Instance)),
    (&MEMORY, &MEMORY_DUMP, &[(90, 1)], Some(Mismatch::Memory)),
    (&MEMORY, &MEMORY_DUMP, &[(90, 4)], None),
    (&MEMORY, &MEMORY_DUMP, &[(90, 5)], Some(Mismatch::Memory)),
    (&MEMORY, &MEMORY_DUMP, &[(97, 9)], None),
    (&CONSTANT, &MEMORY_DUMP, &[], Some(Mismatch::Memory)),
    (&CONSTANT, &CONSTANT_DUMP, &[], None),
    (
        &CONSTANT,
        &CONSTANT_DUMP,
        &[(87, 6)],
        Some(Mismatch::Global { index: 0 }),
    ),
    (
        &MEMORY,
        &CONSTANT_DUMP,
        &[(84, 0x7e), (86, 0x42)],
        Some(Mismatch::Global { index: 0 }),
    ),
    (
        &DIVISION,
        &CONSTANT_DUMP,
        &[],
        Some(Mismatch::Global { index: 0 }),
    ),
];

const FRAMES: [Row<'static>; 26] = [
    (
        &DIVISION,
        &DIVISION_DUMP,
        &[(76, 1)],
        Some(Mismatch::Function { frame: INNERMOST }),
    ),
    (
        &DIVISION,
        &DIVISION_DUMP,
        &[(77, 4)],
        Some(Mismatch::Offset { frame: INNERMOST }),
    ),
    (
        &DIVISION,
        &DIVISION_DUMP,
        &[(77, 6)],
        Some(Mismatch::Offset { frame: INNERMOST }),
    ),
    (
        &DIVISION,
        &DIVISION_DUMP,
        &[(79, 0x7e)],
        Some(Mismatch::Locals { frame: INNERMOST }),
    ),
    (
        &DIVISION,
        &DIVISION_DUMP,
        &[(84, 0x7e)],
        Some(Mismatch::Operands { frame: INNERMOST }),
    ),
    (
        &DIVISION,
        &DIVISION_DUMP,
        &[(77, 3)],
        Some(Mismatch::Operands { frame: INNERMOST }),
    ),
    (&TABLE, &TABLE_DUMP, &[], None),
    (
        &TABLE,
        &TABLE_DUMP,
        &[(77, 28)],
        Some(Mismatch::Offset { frame: INNERMOST }),
    ),
    (&GROUPS, &GROUPS_DUMP, &[], None),
    (
        &GROUPS,
        &GROUPS_DUMP,
        &[(79, 0x7f)],
        Some(Mismatch::Locals { frame: INNERMOST }),
    ),
    (
        &GROUPS,
        &GROUPS_DUMP,
        &[(83, 0x7e)],
        Some(Mismatch::Locals { frame: INNERMOST }),
    ),
    (
        &GROUPS,
        &GROUPS_DUMP,
        &[(85, 0x7f)],
        Some(Mismatch::Locals { frame: INNERMOST }),
    ),
    (&CALLS, &CALLS_DUMP, &[], None),
    (&CALLS, &CALLS_DUMP, &[(77, 17)], None),
    (
        &CALLS,
        &CALLS_DUMP,
        &[(77, 16)],
        Some(Mismatch::Operands { frame: INNERMOST }),
    ),
    (
        &CALLS,
        &CALLS_DUMP,
        &[(87, 11)],
        Some(Mismatch::Offset { frame: CALLER }),
    ),
    (
        &CALLS,
        &CALLS_DUMP,
        &[(89, 0x7e)],
        Some(Mismatch::Locals { frame: CALLER }),
    ),
    (
        &CALLS,
        &CALLS_DUMP,
        &[(87, 16)],
        Some(Mismatch::NotACall { frame: CALLER }),
    ),
    (
        &CALLS,
        &CALLS_DUMP,
        &[(87, 8)],
        Some(Mismatch::Callee { frame: CALLER }),
    ),
    (
        &CALLS,
        &SHOWN_DUMP,
        &[],
        Some(Mismatch::Operands { frame: CALLER }),
    ),
    (
        &CALLS,
        &SHOWN_DUMP,
        &[(87, 16)],
        Some(Mismatch::NotACall { frame: CALLER }),
    ),
    (
        &CALLS,
        &SHOWN_DUMP,
        &[(87, 14)],
        Some(Mismatch::Operands { frame: CALLER }),
    ),
    (&CHAIN, &CHAIN_DUMP, &[], None),
    (
        &CHAIN,
        &CHAIN_DUMP,
        &[(82, 2)],
        Some(Mismatch::Callee { frame: CALLER }),
    ),
    (&INDIRECT, &INDIRECT_DUMP, &[], None),
    (
        &INDIRECT,
        &INDIRECT_DUMP,
        &[(76, 2)],
        Some(Mismatch::Callee { frame: CALLER }),
    ),
];

/// The innermost frame may stand at an `else` or `end`, with any operands; the others may not.
const STATES: [Row<'static>; 8] = [
    (&DIVISION, &DIVISION_DUMP, &[], None),
    (&DIVISION, &DIVISION_DUMP, &[(77, 6)], None),
    (&DIVISION, &DIVISION_DUMP, &[(77, 6), (84, 0x7e)], None),
    (
        &DIVISION,
        &DIVISION_DUMP,
        &[(77, 6), (79, 0x7e)],
        Some(Mismatch::Locals { frame: INNERMOST }),
    ),
    (
        &DIVISION,
        &DIVISION_DUMP,
        &[(77, 4)],
        Some(Mismatch::Offset { frame: INNERMOST }),
    ),
    (
        &DIVISION,
        &DIVISION_DUMP,
        &[(77, 3)],
        Some(Mismatch::Operands { frame: INNERMOST }),
    ),
    (&CALLS, &CALLS_DUMP, &[(77, 11)], None),
    (
        &CALLS,
        &CALLS_DUMP,
        &[(87, 11)],
        Some(Mismatch::Offset { frame: CALLER }),
    ),
];

/// The number of the first row that does not hold, if there is one.
fn first_wrong(alloc: Global, judge: Judge, rows: &[Row<'_>]) -> Option<usize> {
    for (number, row) in rows.iter().enumerate() {
        if !holds(alloc, judge, row) {
            return Some(number);
        }
    }
    None
}

/// Whether a dump has so many frames.
fn has_frames(alloc: Global, dump: &[u8], count: usize) -> bool {
    match decode_dump(alloc, dump) {
        Ok(dump) => dump.frames.len() == count,
        Err(_) => false,
    }
}

#[test]
fn instances_memories_and_globals(rt: HostRuntime) {
    assert_eq!(rt; first_wrong(rt.alloc(), Judge::Trap, &WHOLE), None);
}

#[test]
fn frames(rt: HostRuntime) {
    assert_eq!(rt; first_wrong(rt.alloc(), Judge::Trap, &FRAMES), None);
    assert!(rt; has_frames(rt.alloc(), &DIVISION_DUMP, 1));
}

#[test]
fn states(rt: HostRuntime) {
    assert_eq!(rt; first_wrong(rt.alloc(), Judge::State, &STATES), None);
}
