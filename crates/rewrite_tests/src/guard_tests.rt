//! Verdicts of guards, and kinds of traps, which are run on constants.

ghost use Rattle.std.specs.Prelude.{◌≤◌, length};

use crate::code_tests::places_of;
use crate::modules::{Asked, DIV, is_so};
use guard_insert::{guard, guard_unreachable, kind};
use machine_basics::{Globals, Performed, Shared, perform};
use pm_text::{Items, Stack};
use rewrite_code::{CodeWriter, FunctionContext, OperandPlace, OperandPlaces};
use std::alloc::Global;
use wasm_syntax::{Basic, Binary, Body, Instr, Op, ValType, Value};

/// The dividend, the divisor, and the kind with which `i32.div_s` traps on them, or 0: 3 where the
/// quotient is past the range, 2 where the divisor is zero.
const DIVISIONS: [(u32, u32, u32); 5] = [
    (0x8000_0000, 0xFFFF_FFFF, 3),
    (1, 0, 2),
    (0x8000_0000, 0, 2),
    (7, 2, 0),
    (1, 1, 0),
];

fn is_done(code: &Instr, values: &mut Stack<Value>, shared: &mut Shared) -> bool {
    match code {
        Instr::Basic(instruction) => {
            matches!(perform(instruction, 0, values, shared), Performed::Done)
        }
        _ => true,
    }
}

fn all_are_done(ops: &[Op], values: &mut Stack<Value>, shared: &mut Shared) -> bool {
    for op in ops {
        if !is_done(&op.code, values, shared) {
            return false;
        }
    }
    true
}

fn only_value(values: &Stack<Value>) -> Option<Value> {
    if values.len() != 1 {
        return None;
    }
    values.peek(0)
}

fn run(alloc: Global, ops: &[Op], shared: &mut Shared) -> Option<Value> {
    let mut values = Stack::new(alloc);
    if all_are_done(ops, &mut values, shared) {
        only_value(&values)
    } else {
        None
    }
}

/// What straight code leaves on an empty stack, where it is one value.
fn verdict(alloc: Global, body: &Body) -> Option<Value> {
    let mut shared = Shared {
        globals: Globals::from_vec(Vec::new(alloc)),
        memory: None,
    };
    run(alloc, body.ops.as_slice(), &mut shared)
}

fn verdict_of(alloc: Global, writer: CodeWriter) -> Option<Value> {
    match writer.finish(Items::new(alloc)) {
        Ok(body) => verdict(alloc, &body),
        Err(_) => None,
    }
}

const DIVISION: Basic = Basic::Binary(ValType::I32, Binary::DivS);

/// What the guard of a division leaves, or the code beside it, which tells the kind.
fn left_by(
    alloc: Global,
    context: &FunctionContext<'_, '_>,
    places: &OperandPlaces,
    beside: bool,
) -> Option<Value>
    requires { length places.now ≤ context.now.slots }
{
    let mut writer = CodeWriter::new(alloc);
    let written = if beside {
        kind(context, &mut writer, &DIVISION, places).is_ok()
    } else {
        guard(context, &mut writer, &DIVISION, places).is_ok()
    };
    let left = verdict_of(alloc, writer);
    if written { left } else { None }
}

/// Whether the guard finds a trap where there is one, and then the kind is this.
fn leaves(
    alloc: Global,
    context: &FunctionContext<'_, '_>,
    places: &OperandPlaces,
    expected: u32,
) -> bool
    requires { 4 ≤ context.now.slots }
{
    if places.len() > 4 {
        return false;
    }
    let found = left_by(alloc, context, places, false);
    if expected == 0 {
        return found == Some(Value::I32(0));
    }
    let left = left_by(alloc, context, places, true);
    found == Some(Value::I32(1)) && left == Some(Value::I32(expected))
}

fn row_leaves(alloc: Global, context: &FunctionContext<'_, '_>, row: &(u32, u32, u32)) -> bool
    requires { 4 ≤ context.now.slots }
{
    let operands = [
        OperandPlace::Known(Value::I32(row.0)),
        OperandPlace::Known(Value::I32(row.1)),
    ];
    match places_of(alloc, &operands) {
        Ok(places) => leaves(alloc, context, &places, row.2),
        Err(_) => false,
    }
}

/// Whether guards and kinds of all divisions are right.
pub fn all_leave(alloc: Global, context: &FunctionContext<'_, '_>) -> bool
    requires { 4 ≤ context.now.slots }
{
    for row in &DIVISIONS {
        if !row_leaves(alloc, context, row) {
            return false;
        }
    }
    true
}

/// Those of the division.
pub const PARAMETERS: [ValType; 2] = [ValType::I32, ValType::I32];

fn unreachable_is_guarded(alloc: Global) -> bool {
    let mut writer = CodeWriter::new(alloc);
    let written = guard_unreachable(&mut writer).is_ok();
    verdict_of(alloc, writer) == Some(Value::I32(1)) && written
}

#[test]
fn a_guard_finds_a_trap_and_its_kind(rt: HostRuntime) {
    assert!(rt; is_so(rt.alloc(), &DIV, &Asked::Guards));
    assert!(rt; unreachable_is_guarded(rt.alloc()));
}
