//! Bodies, each with its first wrong instruction by Core 3.3, worked out by hand. The validator of
//! wabt 1.0.32 finds the same places, but that it tells the missing result of an empty body where
//! the body begins.

use std::alloc::{AllocError, Global};
use std::test::Fail;
use wasm_decode::decode;
use wasm_syntax::Place;
use wasm_validate::{ValidateFault, validate};

/// The magic and the version.
const HEADER: [u8; 8] = [0x00, 0x61, 0x73, 0x6D, 0x01, 0x00, 0x00, 0x00];

/// Three types: of no parameters, of an i32 and an i64 with a result of i32, and of an i64 without
/// a result.
const NO_RESULT: [u8; 16] = [
    0x01, 0x0E, 0x03, 0x60, 0x00, 0x00, 0x60, 0x02, 0x7F, 0x7E, 0x01, 0x7F, 0x60, 0x01, 0x7E, 0x00,
];

/// The same, and the third type has a result of i32.
const NARROW_RESULT: [u8; 17] = [
    0x01, 0x0F, 0x03, 0x60, 0x00, 0x00, 0x60, 0x02, 0x7F, 0x7E, 0x01, 0x7F, 0x60, 0x01, 0x7E, 0x01,
    0x7F,
];

/// And of i64.
const WIDE_RESULT: [u8; 17] = [
    0x01, 0x0F, 0x03, 0x60, 0x00, 0x00, 0x60, 0x02, 0x7F, 0x7E, 0x01, 0x7F, 0x60, 0x01, 0x7E, 0x01,
    0x7E,
];

/// A function of each type; a table; a memory; a mutable global of i32, and one of i64 that is not.
const SECTIONS: [u8; 30] = [
    0x03, 0x04, 0x03, 0x00, 0x01, 0x02, 0x04, 0x04, 0x01, 0x70, 0x00, 0x01, 0x05, 0x03, 0x01, 0x00,
    0x01, 0x06, 0x0B, 0x02, 0x7F, 0x01, 0x41, 0x00, 0x0B, 0x7E, 0x00, 0x42, 0x00, 0x0B,
];

/// The bodies of the first two functions, of which the second one is `unreachable`.
const FRONT_BODIES: [u8; 7] = [0x02, 0x00, 0x0B, 0x03, 0x00, 0x00, 0x0B];

/// The locals of the third: two of i64, none of i32, and one of i32.
const LOCALS: [u8; 7] = [0x03, 0x02, 0x7E, 0x00, 0x7F, 0x01, 0x7F];

/// A body of the third function: what it is, the types of the module, its instructions, and the
/// code offset of the first wrong one, where there is one.
type Case = (&'static str, &'static [u8], &'static [u8], Option<u32>);

const CASES: [Case; 69] = [
    ("empty body", &NO_RESULT, &[0x0B], None),
    ("result given", &NARROW_RESULT, &[0x41, 0x01, 0x0B], None),
    ("result missing", &NARROW_RESULT, &[0x0B], Some(7)),
    ("operand left", &NO_RESULT, &[0x41, 0x01, 0x0B], Some(9)),
    ("wrong result", &NARROW_RESULT, &[0x42, 0x01, 0x0B], Some(9)),
    ("parameter", &NARROW_RESULT, &[0x20, 0x00, 0x0B], Some(9)),
    (
        "local behind an empty group",
        &NARROW_RESULT,
        &[0x20, 0x03, 0x0B],
        None,
    ),
    (
        "local of the first group",
        &NARROW_RESULT,
        &[0x20, 0x02, 0x0B],
        Some(9),
    ),
    ("no such local", &NO_RESULT, &[0x20, 0x04, 0x0B], Some(7)),
    ("set", &NO_RESULT, &[0x41, 0x01, 0x21, 0x03, 0x0B], None),
    (
        "set other",
        &NO_RESULT,
        &[0x41, 0x01, 0x21, 0x01, 0x0B],
        Some(9),
    ),
    ("tee", &NARROW_RESULT, &[0x41, 0x01, 0x22, 0x03, 0x0B], None),
    (
        "tee other",
        &NO_RESULT,
        &[0x42, 0x01, 0x22, 0x03, 0x1A, 0x0B],
        Some(9),
    ),
    (
        "select two types",
        &NO_RESULT,
        &[0x41, 0x01, 0x42, 0x01, 0x41, 0x01, 0x1B, 0x1A, 0x0B],
        Some(13),
    ),
    (
        "select",
        &WIDE_RESULT,
        &[0x42, 0x01, 0x42, 0x01, 0x41, 0x01, 0x1B, 0x0B],
        None,
    ),
    (
        "select other",
        &NO_RESULT,
        &[0x42, 0x01, 0x42, 0x01, 0x42, 0x01, 0x1B, 0x1A, 0x0B],
        Some(13),
    ),
    ("drop nothing", &NO_RESULT, &[0x1A, 0x0B], Some(7)),
    (
        "set immutable",
        &NO_RESULT,
        &[0x42, 0x01, 0x24, 0x01, 0x0B],
        Some(9),
    ),
    (
        "set mutable",
        &NO_RESULT,
        &[0x41, 0x01, 0x24, 0x00, 0x0B],
        None,
    ),
    ("get global", &WIDE_RESULT, &[0x23, 0x01, 0x0B], None),
    (
        "no such global",
        &NO_RESULT,
        &[0x23, 0x02, 0x1A, 0x0B],
        Some(7),
    ),
    (
        "alignment above",
        &NO_RESULT,
        &[0x41, 0x01, 0x28, 0x03, 0x00, 0x1A, 0x0B],
        Some(9),
    ),
    (
        "alignment",
        &NARROW_RESULT,
        &[0x41, 0x01, 0x28, 0x02, 0x00, 0x0B],
        None,
    ),
    (
        "load8 align 1",
        &NO_RESULT,
        &[0x41, 0x01, 0x2D, 0x01, 0x00, 0x1A, 0x0B],
        Some(9),
    ),
    (
        "load32 of i64 align 2",
        &WIDE_RESULT,
        &[0x41, 0x01, 0x35, 0x02, 0x00, 0x0B],
        None,
    ),
    (
        "store",
        &NO_RESULT,
        &[0x41, 0x01, 0x42, 0x01, 0x37, 0x03, 0x00, 0x0B],
        None,
    ),
    (
        "store other",
        &NO_RESULT,
        &[0x41, 0x01, 0x42, 0x01, 0x36, 0x02, 0x00, 0x0B],
        Some(11),
    ),
    (
        "memory size and grow",
        &NARROW_RESULT,
        &[0x3F, 0x00, 0x40, 0x00, 0x0B],
        None,
    ),
    (
        "copy",
        &NO_RESULT,
        &[
            0x41, 0x01, 0x41, 0x01, 0x41, 0x01, 0xFC, 0x0A, 0x00, 0x00, 0x0B,
        ],
        None,
    ),
    (
        "fill other",
        &NO_RESULT,
        &[0x41, 0x01, 0x42, 0x01, 0x41, 0x01, 0xFC, 0x0B, 0x00, 0x0B],
        Some(13),
    ),
    ("eqz", &NARROW_RESULT, &[0x42, 0x01, 0x50, 0x0B], None),
    (
        "clz of i32",
        &NO_RESULT,
        &[0x41, 0x01, 0x79, 0x1A, 0x0B],
        Some(9),
    ),
    (
        "compare",
        &NARROW_RESULT,
        &[0x41, 0x01, 0x41, 0x01, 0x48, 0x0B],
        None,
    ),
    ("wrap", &NARROW_RESULT, &[0x42, 0x01, 0xA7, 0x0B], None),
    (
        "extend of i64",
        &NO_RESULT,
        &[0x42, 0x01, 0xAC, 0x1A, 0x0B],
        Some(9),
    ),
    (
        "extend8 of i64",
        &WIDE_RESULT,
        &[0x42, 0x01, 0xC2, 0x0B],
        None,
    ),
    (
        "extend8 other",
        &NO_RESULT,
        &[0x41, 0x01, 0xC2, 0x1A, 0x0B],
        Some(9),
    ),
    (
        "add of i64 on i32",
        &NARROW_RESULT,
        &[0x41, 0x01, 0x41, 0x01, 0x7C, 0x0B],
        Some(11),
    ),
    (
        "block sees no outer operand",
        &NO_RESULT,
        &[0x41, 0x01, 0x02, 0x40, 0x1A, 0x0B, 0x0B],
        Some(11),
    ),
    (
        "block gives",
        &NARROW_RESULT,
        &[0x02, 0x7F, 0x41, 0x01, 0x0B, 0x0B],
        None,
    ),
    (
        "block leaves",
        &NO_RESULT,
        &[0x02, 0x40, 0x41, 0x01, 0x0B, 0x0B],
        Some(11),
    ),
    (
        "if needs condition",
        &NO_RESULT,
        &[0x04, 0x40, 0x0B, 0x0B],
        Some(7),
    ),
    (
        "if without else gives",
        &NO_RESULT,
        &[0x41, 0x01, 0x04, 0x7F, 0x41, 0x01, 0x0B, 0x1A, 0x0B],
        Some(13),
    ),
    (
        "if with else",
        &NARROW_RESULT,
        &[
            0x41, 0x01, 0x04, 0x7F, 0x41, 0x01, 0x05, 0x41, 0x01, 0x0B, 0x0B,
        ],
        None,
    ),
    (
        "first arm other",
        &NO_RESULT,
        &[
            0x41, 0x01, 0x04, 0x7F, 0x42, 0x01, 0x05, 0x41, 0x01, 0x0B, 0x1A, 0x0B,
        ],
        Some(13),
    ),
    (
        "second arm other",
        &NO_RESULT,
        &[
            0x41, 0x01, 0x04, 0x7F, 0x41, 0x01, 0x05, 0x42, 0x01, 0x0B, 0x1A, 0x0B,
        ],
        Some(16),
    ),
    (
        "branch takes result",
        &NARROW_RESULT,
        &[0x02, 0x7F, 0x41, 0x01, 0x0C, 0x00, 0x0B, 0x0B],
        None,
    ),
    (
        "branch without result",
        &NO_RESULT,
        &[0x02, 0x7F, 0x0C, 0x00, 0x0B, 0x1A, 0x0B],
        Some(9),
    ),
    (
        "branch to a loop takes nothing",
        &NARROW_RESULT,
        &[0x03, 0x7F, 0x0C, 0x00, 0x0B, 0x0B],
        None,
    ),
    (
        "branch out of range",
        &NO_RESULT,
        &[0x0C, 0x01, 0x0B],
        Some(7),
    ),
    (
        "branch to the body",
        &NARROW_RESULT,
        &[0x41, 0x01, 0x0C, 0x00, 0x0B],
        None,
    ),
    (
        "br_if keeps",
        &NARROW_RESULT,
        &[0x02, 0x7F, 0x41, 0x01, 0x41, 0x01, 0x0D, 0x00, 0x0B, 0x0B],
        None,
    ),
    (
        "br_if other",
        &NO_RESULT,
        &[
            0x02, 0x7F, 0x42, 0x01, 0x41, 0x01, 0x0D, 0x00, 0x0B, 0x1A, 0x0B,
        ],
        Some(13),
    ),
    (
        "br_table one label other",
        &NO_RESULT,
        &[
            0x02, 0x7F, 0x41, 0x01, 0x41, 0x01, 0x0E, 0x01, 0x01, 0x00, 0x0B, 0x1A, 0x0B,
        ],
        Some(13),
    ),
    (
        "br_table",
        &NARROW_RESULT,
        &[
            0x02, 0x7F, 0x41, 0x01, 0x41, 0x01, 0x0E, 0x02, 0x00, 0x01, 0x00, 0x0B, 0x0B,
        ],
        None,
    ),
    (
        "br_table in dead code: labels differ",
        &NO_RESULT,
        &[0x02, 0x7F, 0x00, 0x0E, 0x01, 0x01, 0x00, 0x0B, 0x1A, 0x0B],
        Some(10),
    ),
    ("return", &NARROW_RESULT, &[0x41, 0x01, 0x0F, 0x0B], None),
    ("return nothing", &NARROW_RESULT, &[0x0F, 0x0B], Some(7)),
    ("dead add", &NO_RESULT, &[0x00, 0x6A, 0x1A, 0x0B], None),
    (
        "dead i64 below",
        &NO_RESULT,
        &[0x00, 0x42, 0x01, 0x41, 0x01, 0x6A, 0x1A, 0x0B],
        Some(12),
    ),
    (
        "a block in dead code gives nothing",
        &NO_RESULT,
        &[0x00, 0x02, 0x7F, 0x0B, 0x1A, 0x0B],
        Some(10),
    ),
    (
        "dead end leaves operand",
        &NO_RESULT,
        &[0x00, 0x41, 0x01, 0x0B],
        Some(10),
    ),
    (
        "dead else",
        &NO_RESULT,
        &[0x41, 0x01, 0x04, 0x40, 0x00, 0x05, 0x1A, 0x0B, 0x0B],
        Some(13),
    ),
    (
        "call",
        &NARROW_RESULT,
        &[0x41, 0x01, 0x42, 0x01, 0x10, 0x01, 0x0B],
        None,
    ),
    (
        "call other order",
        &NO_RESULT,
        &[0x42, 0x01, 0x41, 0x01, 0x10, 0x01, 0x1A, 0x0B],
        Some(11),
    ),
    (
        "call no such function",
        &NO_RESULT,
        &[0x10, 0x03, 0x0B],
        Some(7),
    ),
    (
        "call_indirect",
        &NARROW_RESULT,
        &[0x41, 0x01, 0x42, 0x01, 0x41, 0x01, 0x11, 0x01, 0x00, 0x0B],
        None,
    ),
    (
        "call_indirect no such type",
        &NO_RESULT,
        &[
            0x41, 0x01, 0x42, 0x01, 0x41, 0x01, 0x11, 0x03, 0x00, 0x1A, 0x0B,
        ],
        Some(13),
    ),
    (
        "call_indirect without index",
        &NO_RESULT,
        &[0x41, 0x01, 0x42, 0x01, 0x11, 0x01, 0x00, 0x1A, 0x0B],
        Some(11),
    ),
];

/// The size of some bytes and so many more, where it is below 128: one byte.
fn size_with(more: u8, bytes: &[u8]) -> u8 {
    ((bytes.len() % 0x100) as u8).wrapping_add(more)
}

/// A module whose third function has this body.
fn module_with(alloc: Global, types: &[u8], code: &[u8]) -> Result<Vec<u8>, AllocError> {
    let mut bytes = Vec::from_slice(alloc, &HEADER)?;
    bytes.extend_from_slice(types)?;
    bytes.extend_from_slice(&SECTIONS)?;
    bytes.extend_from_slice(&[0x0A, size_with(16, code), 3])?;
    bytes.extend_from_slice(&FRONT_BODIES)?;
    bytes.push(size_with(7, code))?;
    bytes.extend_from_slice(&LOCALS)?;
    bytes.extend_from_slice(code)?;
    Ok(bytes)
}

/// Whether the third function is wrong first at this offset, or the module is valid where there is
/// none.
fn is_wrong_at(alloc: Global, bytes: &[u8], wrong: Option<u32>) -> bool {
    let module = match decode(alloc, bytes) {
        Ok(module) => module,
        Err(_) => return false,
    };
    match validate(alloc, module) {
        Ok(_) => wrong.is_none(),
        Err(
            ValidateFault::Invalid {
                place: Place::Function { index: 2, offset },
            },
        ) => wrong == Some(offset),
        Err(_) => false,
    }
}

fn is_judged(alloc: Global, case: &Case) -> Result<bool, AllocError> {
    let bytes = module_with(alloc, case.1, case.2)?;
    Ok(is_wrong_at(alloc, &bytes, case.3))
}

#[test]
fn the_first_wrong_instruction_is_found(rt: HostRuntime) -> Result<(), Fail> {
    for case in &CASES {
        assert!(rt; is_judged(rt.alloc(), case)?, "{}", case.0);
    }
    Ok(())
}
