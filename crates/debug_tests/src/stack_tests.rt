//! What validation tells of instructions: their numbers, and the operands before each.

ghost use Rattle.wasm_validate.specs.Heights.{HasOp, HeightIs};

use crate::cases::valid;
use std::alloc::Global;
use wasm_syntax::ValType::{self, I32, I64};
use wasm_validate::Validated;

/// Function 0 is imported, 2 has but an `unreachable`; the instructions of 1, each at its offset:
///
/// | 1 `i64.const 5` | 3 `local.get 0` | 5 `if (result i64)` | 7 `i64.const 1` | 9 `else` |
/// | 10 `block (result i64)` | 12 `i64.const 7` | 14 `local.get 0` | 16 `br_if 0` | 18 `br 0` |
/// | 20 `i64.add` | 21 `end` | 22 `end` | 23 `i64.add` | 24 `end` |
const BRANCHES: [u8; 66] = [
    0x00, 0x61, 0x73, 0x6d, 0x01, 0x00, 0x00, 0x00, 0x01, 0x09, 0x02, 0x60, 0x00, 0x00, 0x60, 0x01,
    0x7f, 0x01, 0x7e, 0x02, 0x07, 0x01, 0x01, 0x61, 0x01, 0x62, 0x00, 0x00, 0x03, 0x03, 0x02, 0x01,
    0x00, 0x0a, 0x1f, 0x02, 0x19, 0x00, 0x42, 0x05, 0x20, 0x00, 0x04, 0x7e, 0x42, 0x01, 0x05, 0x02,
    0x7e, 0x42, 0x07, 0x20, 0x00, 0x0d, 0x00, 0x0c, 0x00, 0x7c, 0x0b, 0x0b, 0x7c, 0x0b, 0x03, 0x00,
    0x00, 0x0b,
];

/// Functions, code offsets, and the number of the instruction there.
const NUMBERS: [(u32, u32, Option<u32>); 14] = [
    (1, 1, Some(0)),
    (1, 5, Some(2)),
    (1, 10, Some(5)),
    (1, 20, Some(10)),
    (1, 23, Some(13)),
    (2, 1, Some(0)),
    (1, 0, None),
    (1, 2, None),
    (1, 9, None),
    (1, 21, None),
    (1, 24, None),
    (1, 25, None),
    (0, 1, None),
    (3, 1, None),
];

/// Code offsets in function 1, and the operand types there, bottom first, or None in dead code.
const TYPES: [(u32, Option<&'static [ValType]>); 11] = [
    (1, Some(&[])),
    (3, Some(&[I64])),
    (5, Some(&[I64, I32])),
    (7, Some(&[I64])),
    (10, Some(&[I64])),
    (12, Some(&[I64])),
    (14, Some(&[I64, I64])),
    (16, Some(&[I64, I64, I32])),
    (18, Some(&[I64, I64])),
    (20, None),
    (23, Some(&[I64, I64])),
];

/// The heights before the instructions of function 1, `else` and `end` too.
const HEIGHTS: [u32; 15] = [0, 1, 2, 1, 2, 1, 1, 2, 3, 2, 0, 0, 2, 2, 1];

fn has_operands(m: &Validated, func: u32, op: u32, height: u32, types: &[ValType]) -> bool
    requires there { HasOp m.now func op }
    requires height { HeightIs (Some height) m.now func op }
{
    if types.len() != height as usize {
        return false;
    }
    for i in 0..height {
        if m.operand(func, op, i) != types[i as usize] {
            return false;
        }
    }
    true
}

fn has_types(m: &Validated, func: u32, op: u32, types: Option<&[ValType]>) -> bool
    requires { HasOp m.now func op }
{
    match (m.height(func, op), types) {
        (Some(height), Some(types)) => has_operands(m, func, op, height, types),
        (None, None) => true,
        _ => false,
    }
}

fn stands(m: &Validated, at: u32, types: Option<&[ValType]>) -> bool {
    match m.op_at(1, at) {
        Some(op) => has_types(m, 1, op, types),
        None => false,
    }
}

fn have_types(m: &Validated, rows: &[(u32, Option<&[ValType]>)]) -> bool {
    for row in rows {
        if !stands(m, row.0, row.1) {
            return false;
        }
    }
    true
}

fn have_numbers(m: &Validated, rows: &[(u32, u32, Option<u32>)]) -> bool {
    for row in rows {
        if m.op_at(row.0, row.1) != row.2 {
            return false;
        }
    }
    true
}

fn has_heights(m: &Validated) -> bool {
    match m.heights().as_slice() {
        [one, two] => one.as_slice() == HEIGHTS.as_slice() && two.as_slice() == [0, 0].as_slice(),
        _ => false,
    }
}

fn are_told(alloc: Global) -> bool {
    match valid(alloc, &BRANCHES) {
        Some(m) => have_numbers(&m, &NUMBERS) && have_types(&m, &TYPES) && has_heights(&m),
        None => false,
    }
}

#[test]
fn instructions_have_numbers_operands_and_heights(rt: HostRuntime) {
    assert!(rt; are_told(rt.alloc()));
}
