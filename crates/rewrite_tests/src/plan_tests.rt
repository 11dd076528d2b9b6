//! The added locals of two functions, counted by hand.

use crate::modules::{Asked, DIV, is_so};
use causes::NoMemory;
use operand_spill::{SlotPlan, plan};
use std::alloc::Global;
use wasm_syntax::{ValType, Value};
use wasm_validate::Validated;

/// Three blocks, one in the other, each behind a constant; the innermost traps.
const NESTED: [u8; 51] = [
    0x00, 0x61, 0x73, 0x6d, 0x01, 0x00, 0x00, 0x00, 0x01, 0x05, 0x01, 0x60, 0x00, 0x01, 0x7f, 0x03,
    0x02, 0x01, 0x00, 0x07, 0x05, 0x01, 0x01, 0x66, 0x00, 0x00, 0x0a, 0x17, 0x01, 0x15, 0x00, 0x41,
    0x01, 0x02, 0x7f, 0x41, 0x02, 0x02, 0x7f, 0x41, 0x03, 0x02, 0x7f, 0x00, 0x0b, 0x6a, 0x0b, 0x6a,
    0x0b, 0x6a, 0x0b,
];

// Before each instruction of the nested blocks, the constant at the bottom and the one above it.
const KNOWN: [(u32, Option<Value>, Option<Value>); 8] = [
    (0, None, None),
    (1, Some(Value::I32(1)), None),
    (4, Some(Value::I32(1)), Some(Value::I32(2))),
    (6, Some(Value::I32(1)), Some(Value::I32(2))),
    (7, None, None),
    (9, Some(Value::I32(1)), Some(Value::I32(2))),
    (11, Some(Value::I32(1)), None),
    (13, None, None),
];

/// The plan of the first function, whose first instruction is at offset 1.
fn first_plan(alloc: Global, source: &Validated) -> Result<Option<SlotPlan>, NoMemory> {
    match source.op_at(0, 1) {
        Some(_op) => {
            let first = plan(alloc, source, 0)?;
            Ok(Some(first))
        }
        None => Ok(None),
    }
}

/// How many locals are added, those of the results, those of a kind and an offset, and that of the
/// length of the memory.
fn has_numbers(plan: &SlotPlan, expected: [u32; 6]) -> bool {
    let found = [
        plan.locals(),
        plan.result(ValType::I32),
        plan.result(ValType::I64),
        plan.kind(),
        plan.offset(),
        plan.length(),
    ];
    found == expected
}

fn has_slots(plan: &SlotPlan) -> bool {
    if plan.heights() != 2 || plan.types() != [ValType::I32, ValType::I32].as_slice() {
        return false;
    }
    plan.slot(ValType::I32, 0) == 2 && plan.slot(ValType::I64, 1) == 8
}

fn is_known(
    alloc: Global,
    source: &Validated,
    plan: &SlotPlan,
    place: (u32, u32),
    value: Option<Value>,
) -> bool {
    match source.op_at(0, 1) {
        Some(_op) => match plan.known(alloc, source, 0, place.0, place.1) {
            Ok(found) => found == value,
            Err(_) => false,
        },
        None => false,
    }
}

/// Whether the constants that are known in the first function are these.
fn knows(alloc: Global, source: &Validated, plan: &SlotPlan) -> bool {
    KNOWN.iter().all(|(op, lowest, second)| {
        is_known(alloc, source, plan, (*op, 0), *lowest)
            && is_known(alloc, source, plan, (*op, 1), *second)
    })
}

/// Whether the nested blocks have their added locals and constants, or the division its locals.
pub fn is_planned(alloc: Global, source: &Validated, nested: bool) -> bool {
    match first_plan(alloc, source) {
        Ok(Some(plan)) => {
            if nested {
                knows(alloc, source, &plan) && has_numbers(&plan, [13, 4, 11, 5, 6, 12])
            } else {
                has_numbers(&plan, [9, 4, 9, 5, 6, 10]) && has_slots(&plan)
            }
        }
        _ => false,
    }
}

#[test]
fn added_locals_stand_behind_the_own(rt: HostRuntime) {
    assert!(rt; is_so(rt.alloc(), &DIV, &Asked::Division));
    assert!(rt; is_so(rt.alloc(), &NESTED, &Asked::Nested));
}
