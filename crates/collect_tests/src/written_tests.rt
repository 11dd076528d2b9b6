//! What `instrument` says of modules and what it writes. Weights are sums of parts by hand.

use crate::trial::{Fault, answers, files_of, first_wrong_fault, is_rewritten};
use std::alloc::Global;
use test_modules::{DIVISION, EMPTY, NESTED, TAKEN_NAME};
use wasm_decode::decode;
use wasm_syntax::{Basic, Body, Instr, Jump, Module};

/// A module, its weight as it is told, and what `check` counts in its rewriting.
type Row = (&'static [u8], &'static str, &'static str);

const WEIGHTS: [Row; 2] = [
    (
        &EMPTY,
        "instrumented weight 576\n",
        "valid types 4 imports 3 functions 0 exports 0 custom 0\n",
    ),
    (
        &DIVISION,
        "instrumented weight 2104\n",
        "valid types 5 imports 3 functions 2 exports 1 custom 0\n",
    ),
];

/// Whether a module is rewritten so, and not a second time.
fn weighs(alloc: Global, row: &Row) -> bool {
    let wanted = (14, "collision: import 0\n");
    match files_of(alloc, row.0, b"") {
        Ok(mut files) => {
            answers(alloc, ["instrument m", "i"], &mut files, (0, row.1))
                && answers(alloc, ["check", "i"], &mut files, (0, row.2))
                && answers(alloc, ["instrument i", "j"], &mut files, wanted)
                && files.get("j").is_none()
        }
        Err(_) => false,
    }
}

/// Whether the name of the memory is taken.
fn is_refused(alloc: Global) -> bool {
    let wanted = (14, "collision: export 0\n");
    match files_of(alloc, &TAKEN_NAME, b"") {
        Ok(mut files) => {
            answers(alloc, ["instrument m", "i"], &mut files, wanted) && files.get("i").is_none()
        }
        Err(_) => false,
    }
}

/// The call of `Files` that fails, the file that is named, and how many bytes of the written file
/// are there. The module is read in two calls; then the file is made, and its bytes are added at
/// once, of which ten are taken.
const FAULTS: [Fault<'static>; 4] = [
    (0, "file fault: \"m\"\n", None, None),
    (1, "file fault: \"m\"\n", None, None),
    (2, "file fault: \"i\"\n", None, None),
    (3, "file fault: \"i\"\n", Some(10), None),
];

/// The number of the first row that does not hold, if there is one.
fn first_wrong(alloc: Global, rows: &[Row]) -> Option<usize> {
    for (number, row) in rows.iter().enumerate() {
        if !weighs(alloc, row) {
            return Some(number);
        }
    }
    None
}

#[test]
fn weights_are_told(rt: HostRuntime) {
    assert_eq!(rt; first_wrong(rt.alloc(), &WEIGHTS), None);
}

#[test]
fn the_name_of_the_memory_is_taken(rt: HostRuntime) {
    assert!(rt; is_refused(rt.alloc()));
}

#[test]
fn a_failing_file_is_named(rt: HostRuntime) {
    let line = ["instrument m", "i"];
    assert_eq!(rt;
        first_wrong_fault(rt.alloc(), &DIVISION, line, ["i", "j"], &FAULTS),
        None
    );
}

/// Whether a local is one of eight slots, in a body without locals of its own. Behind four of type
/// i32 stand a result, a kind and an offset, and then four of type i64.
fn is_slot(local: u32) -> bool {
    local < 4 || (local >= 7 && local < 11)
}

/// Whether a body without locals of its own sets none of eight slots in front of its first call.
fn keeps_slots(body: &Body) -> bool {
    for op in body.ops.as_slice() {
        match op.code {
            Instr::Jump(Jump::Call(_)) => return true,
            Instr::Basic(Basic::LocalSet(local) | Basic::LocalTee(local)) => {
                if is_slot(local) {
                    return false;
                }
            }
            _ => {}
        }
    }
    false
}

/// Whether the first function of a module is so.
fn first_keeps_slots(module: &Module) -> bool {
    match module.parts().bodies.get(0) {
        Some(body) => keeps_slots(body),
        None => false,
    }
}

fn is_kept(alloc: Global, bytes: Option<&[u8]>) -> bool {
    let Some(bytes) = bytes else { return false };
    match decode(alloc, bytes) {
        Ok(module) => first_keeps_slots(&module),
        Err(_) => false,
    }
}

fn constants_are_not_stored(alloc: Global) -> bool {
    match files_of(alloc, &NESTED, b"") {
        Ok(mut files) => is_rewritten(alloc, &mut files) && is_kept(alloc, files.get("i")),
        Err(_) => false,
    }
}

// The operands of the nested blocks are constants, which are handed over as they are.
#[test]
fn no_operand_is_stored_in_front_of_the_first_call(rt: HostRuntime) {
    assert!(rt; constants_are_not_stored(rt.alloc()));
}
