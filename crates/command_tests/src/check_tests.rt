//! `check` over files in memory. The places of invalid modules are worked out by hand from Core 3.3
//! and 3.4; wabt's wasm-validate, with multi-value and reference types disabled, refuses the same
//! modules.

use crate::trial::{Row, first_wrong};
use std::alloc::{AllocError, Global};
use std::test::Fail;

/// The magic and the version.
const HEADER: [u8; 8] = [0x00, 0x61, 0x73, 0x6D, 0x01, 0x00, 0x00, 0x00];

/// A module that exports a function which divides its two parameters, up to its code section.
const DIVISION: [u8; 30] = [
    0x00, 0x61, 0x73, 0x6D, 0x01, 0x00, 0x00, 0x00, 0x01, 0x07, 0x01, 0x60, 0x02, 0x7F, 0x7F, 0x01,
    0x7F, 0x03, 0x02, 0x01, 0x00, 0x07, 0x07, 0x01, 0x03, 0x64, 0x69, 0x76, 0x00, 0x00,
];

/// Its code section up to the second operand, and what follows: the division, and an addition of
/// i64.
const DIVISION_CODE: [u8; 7] = [0x0A, 0x09, 0x01, 0x07, 0x00, 0x20, 0x00];

const DIVIDING: [u8; 3] = [0x20, 0x01, 0x6D];

const ADDING_WIDE: [u8; 4] = [0x20, 0x01, 0x7C, 0x0B];

const END: [u8; 1] = [0x0B];

/// A code section with a float constant, for the type of the division.
const FLOAT_CODE: [u8; 15] = [
    0x0A, 0x0D, 0x01, 0x0B, 0x00, 0x00, 0x43, 0x00, 0x00, 0x00, 0x00, 0x1A, 0x20, 0x00, 0x0B,
];

/// The type of functions without parameters and results; one function of it; its empty body.
const NOTHING: [u8; 6] = [0x01, 0x04, 0x01, 0x60, 0x00, 0x00];

const ONE_FUNCTION: [u8; 4] = [0x03, 0x02, 0x01, 0x00];

const EMPTY_BODY: [u8; 6] = [0x0A, 0x04, 0x01, 0x02, 0x00, 0x0B];

/// An import of a function of the first type, named `a.b`.
const IMPORT: [u8; 9] = [0x02, 0x07, 0x01, 0x01, 0x61, 0x01, 0x62, 0x00, 0x00];

/// A body that adds without operands.
const ADDING_BODY: [u8; 7] = [0x0A, 0x05, 0x01, 0x03, 0x00, 0x6A, 0x0B];

/// A function section without functions, whose numbers are as long as they may be, or set bits that
/// they have not.
const LONG_NUMBERS: [u8; 11] = [
    0x03, 0x85, 0x80, 0x80, 0x80, 0x00, 0x80, 0x80, 0x80, 0x80, 0x00,
];

const UNUSED_BITS: [u8; 11] = [
    0x03, 0x85, 0x80, 0x80, 0x80, 0x00, 0x80, 0x80, 0x80, 0x80, 0x10,
];

const CUSTOM: [u8; 5] = [0x00, 0x03, 0x01, 0x78, 0xFF];

const MEMORY_IMPORT: [u8; 10] = [0x02, 0x08, 0x01, 0x01, 0x61, 0x01, 0x62, 0x02, 0x00, 0x01];

/// A memory of 4,097 pages.
const MANY_PAGES: [u8; 6] = [0x05, 0x04, 0x01, 0x00, 0x81, 0x20];

const TWO_RESULTS: [u8; 8] = [0x01, 0x06, 0x01, 0x60, 0x00, 0x02, 0x7F, 0x7F];

/// An import and a function of type 5, which is not there.
const WRONG_IMPORT: [u8; 9] = [0x02, 0x07, 0x01, 0x01, 0x61, 0x01, 0x62, 0x00, 0x05];

const WRONG_FUNCTION: [u8; 4] = [0x03, 0x02, 0x01, 0x05];

const TWO_TABLES: [u8; 9] = [0x04, 0x07, 0x02, 0x70, 0x00, 0x01, 0x70, 0x00, 0x01];

/// A memory of at least three pages and at most two.
const NARROW_MEMORY: [u8; 6] = [0x05, 0x04, 0x01, 0x01, 0x03, 0x02];

/// An i32 that begins as an i64.
const WRONG_GLOBAL: [u8; 8] = [0x06, 0x06, 0x01, 0x7F, 0x00, 0x42, 0x00, 0x0B];

/// Two exports of one name.
const TWICE: [u8; 11] = [
    0x07, 0x09, 0x02, 0x01, 0x66, 0x00, 0x00, 0x01, 0x66, 0x00, 0x00,
];

const START: [u8; 3] = [0x08, 0x01, 0x00];

const RESULT: [u8; 7] = [0x01, 0x05, 0x01, 0x60, 0x00, 0x01, 0x7F];

const ELEMENT: [u8; 8] = [0x09, 0x06, 0x01, 0x00, 0x41, 0x00, 0x0B, 0x00];

const SEGMENT: [u8; 8] = [0x0B, 0x06, 0x01, 0x00, 0x41, 0x00, 0x0B, 0x00];

const EMPTY_LINE: &str = "valid types 0 imports 0 functions 0 exports 0 custom 0\n";

const CHECK: &[&str] = &["check", "d"];

const NONE: (&[u64], &[u64]) = (&[], &[]);

const VALID: [Row<'static>; 4] = [
    (CHECK, &[&HEADER], NONE, 0, EMPTY_LINE),
    (
        CHECK,
        &[&DIVISION, &DIVISION_CODE, &DIVIDING, &END],
        NONE,
        0,
        "valid types 1 imports 0 functions 1 exports 1 custom 0\n",
    ),
    (CHECK, &[&HEADER, &LONG_NUMBERS], NONE, 0, EMPTY_LINE),
    (
        CHECK,
        &[
            &HEADER,
            &NOTHING,
            &IMPORT,
            &CUSTOM,
            &ONE_FUNCTION,
            &EMPTY_BODY,
            &CUSTOM,
        ],
        NONE,
        0,
        "valid types 1 imports 1 functions 1 exports 0 custom 2\n",
    ),
];

#[test]
fn modules_are_counted(rt: HostRuntime) -> Result<(), Fail> {
    assert_eq!(rt; first_wrong(rt.alloc(), &VALID)?, VALID.len());
    Ok(())
}

const REFUSED: [Row<'static>; 7] = [
    (CHECK, &[&DIVISION, &FLOAT_CODE], NONE, 6, "float at 36\n"),
    (
        CHECK,
        &[&DIVISION, &DIVISION_CODE, &DIVIDING],
        NONE,
        5,
        "malformed module at 31\n",
    ),
    (
        CHECK,
        &[&HEADER, &UNUSED_BITS],
        NONE,
        5,
        "malformed module at 14\n",
    ),
    (
        CHECK,
        &[&HEADER, &MEMORY_IMPORT],
        NONE,
        6,
        "import 0 is not a function\n",
    ),
    (
        CHECK,
        &[&HEADER, &MANY_PAGES],
        NONE,
        13,
        "limit: memory 4097 over 4096\n",
    ),
    (&["check", "x.wasm"], &[], NONE, 3, "no file: \"x.wasm\"\n"),
    (
        &["check", "x.wasm"],
        &[],
        (&[0], &[]),
        4,
        "file fault: \"x.wasm\"\n",
    ),
];

#[test]
fn other_bytes_are_refused(rt: HostRuntime) -> Result<(), Fail> {
    assert_eq!(rt; first_wrong(rt.alloc(), &REFUSED)?, REFUSED.len());
    Ok(())
}

const PLACES: [Row<'static>; 13] = [
    (
        CHECK,
        &[&HEADER, &TWO_RESULTS],
        NONE,
        7,
        "invalid: type 0\n",
    ),
    (
        CHECK,
        &[&HEADER, &NOTHING, &WRONG_IMPORT],
        NONE,
        7,
        "invalid: import 0\n",
    ),
    (
        CHECK,
        &[&HEADER, &NOTHING, &IMPORT, &WRONG_FUNCTION, &EMPTY_BODY],
        NONE,
        7,
        "invalid: declaration 1\n",
    ),
    (
        CHECK,
        &[&HEADER, &TWO_TABLES],
        NONE,
        7,
        "invalid: table 1\n",
    ),
    (
        CHECK,
        &[&HEADER, &NARROW_MEMORY],
        NONE,
        7,
        "invalid: memory 0\n",
    ),
    (
        CHECK,
        &[&HEADER, &WRONG_GLOBAL],
        NONE,
        7,
        "invalid: global 0\n",
    ),
    (
        CHECK,
        &[&HEADER, &NOTHING, &ONE_FUNCTION, &TWICE, &EMPTY_BODY],
        NONE,
        7,
        "invalid: export 1\n",
    ),
    (
        CHECK,
        &[&HEADER, &RESULT, &ONE_FUNCTION, &START, &EMPTY_BODY],
        NONE,
        7,
        "invalid: start\n",
    ),
    (CHECK, &[&HEADER, &ELEMENT], NONE, 7, "invalid: element 0\n"),
    (CHECK, &[&HEADER, &SEGMENT], NONE, 7, "invalid: data 0\n"),
    (
        CHECK,
        &[&HEADER, &ELEMENT, &SEGMENT],
        NONE,
        7,
        "invalid: element 0\n",
    ),
    (
        CHECK,
        &[&HEADER, &NOTHING, &IMPORT, &ONE_FUNCTION, &ADDING_BODY],
        NONE,
        7,
        "invalid: function 1 offset 1\n",
    ),
    (
        CHECK,
        &[&DIVISION, &DIVISION_CODE, &ADDING_WIDE],
        NONE,
        7,
        "invalid: function 0 offset 5\n",
    ),
];

#[test]
fn places_are_named(rt: HostRuntime) -> Result<(), Fail> {
    assert_eq!(rt; first_wrong(rt.alloc(), &PLACES)?, PLACES.len());
    Ok(())
}

/// A function that pushes so many constants and drops them, where the sizes of its code section and
/// of its body are spelled so.
fn tall(alloc: Global, sizes: [u8; 5], count: usize) -> Result<Vec<u8>, AllocError> {
    let mut bytes = Vec::from_slice(alloc, &[0x0A])?;
    bytes.extend_from_slice(&sizes)?;
    bytes.push(0x00)?;
    for _ in 0..count {
        bytes.extend_from_slice(&[0x41, 0x00])?;
    }
    for _ in 0..count {
        bytes.push(0x1A)?;
    }
    bytes.push(0x0B)?;
    Ok(bytes)
}

/// Whether `check` of a module with such a function is answered so.
fn is_answered(alloc: Global, function: &[u8], status: u8, text: &str) -> Result<bool, Fail> {
    let pieces: [&[u8]; 4] = [&HEADER, &NOTHING, &ONE_FUNCTION, function];
    let wrong = first_wrong(alloc, &[(CHECK, &pieces, NONE, status, text)])?;
    Ok(wrong == 1)
}

#[test]
fn tall_functions_are_refused(rt: HostRuntime) -> Result<(), Fail> {
    let most = tall(rt.alloc(), [0x85, 0x60, 0x01, 0x82, 0x60], 4_096)?;
    let valid = "valid types 1 imports 0 functions 1 exports 0 custom 0\n";
    assert!(rt; is_answered(rt.alloc(), &most, 0, valid)?);
    let more = tall(rt.alloc(), [0x88, 0x60, 0x01, 0x85, 0x60], 4_097)?;
    let limit = "limit: height 4097 over 4096\n";
    assert!(rt; is_answered(rt.alloc(), &more, 13, limit)?);
    Ok(())
}
