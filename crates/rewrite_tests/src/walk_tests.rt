//! Places of operands and open labels by hand, through blocks, an `else` and dead code.

use causes::NoMemory;
use operand_spill::{Label, Walk, end_of_list, takes};
use rewrite_code::{OperandPlace, OperandPlaces};
use std::alloc::Global;
use wasm_syntax::{Basic, Binary, Instr, Jump, Load, Op, Store, ValType, Value};

const ONE: OperandPlace = OperandPlace::Known(Value::I32(1));

const FIVE: OperandPlace = OperandPlace::Known(Value::I64(5));

const NARROW: OperandPlace = OperandPlace::Spilled(ValType::I32);

const WIDE: OperandPlace = OperandPlace::Spilled(ValType::I64);

fn are(places: &OperandPlaces, expected: &[OperandPlace]) -> bool {
    places.as_slice() == expected
}

fn push_constant(walk: &mut Walk, value: Value) -> Result<(), NoMemory> {
    walk.perform_basic(Basic::Const(value), 0, Some(OperandPlace::Known(value)))
}

// A constant, an i64, and a constant that the `if` takes.
fn push_three(walk: &mut Walk) -> Result<(), NoMemory> {
    push_constant(walk, Value::I32(1))?;
    walk.perform(0, Some(ValType::I64))?;
    push_constant(walk, Value::I64(5))
}

fn take_condition(walk: &mut Walk) -> bool {
    let before = are(walk.places(), &[ONE, WIDE, FIVE]);
    before && walk.pop() == Some(FIVE)
}

// The first arm takes both others.
fn take_two(walk: &mut Walk) -> Result<bool, NoMemory> {
    walk.open(Label::Block(Some(ValType::I32)))?;
    let inside = are(walk.places(), &[ONE, WIDE]) && walk.below() == 2;
    walk.perform(2, None)?;
    Ok(inside && are(walk.places(), &[]))
}

// An `if` over a constant and an i64, both of which its first arm takes.
fn first_arm(walk: &mut Walk) -> Result<bool, NoMemory> {
    push_three(walk)?;
    let condition = take_condition(walk);
    let inside = take_two(walk)?;
    Ok(condition && inside)
}

// The second arm takes one.
fn second_arm(walk: &mut Walk) -> Result<bool, NoMemory> {
    walk.alternate()?;
    let before = are(walk.places(), &[ONE, WIDE]);
    walk.perform(1, Some(ValType::I32))?;
    Ok(before && are(walk.places(), &[ONE, NARROW]))
}

fn both_arms(walk: &mut Walk) -> Result<bool, NoMemory> {
    let first = first_arm(walk)?;
    let second = second_arm(walk)?;
    walk.close()?;
    Ok(first && second && are(walk.places(), &[ONE, WIDE, NARROW]))
}

fn arms(alloc: Global) -> Result<bool, NoMemory> {
    let mut walk = Walk::new(alloc, Some(ValType::I32));
    both_arms(&mut walk)
}

const NARROW_COPY: OperandPlace = OperandPlace::Copied(ValType::I32, 1);

const WIDE_COPY: OperandPlace = OperandPlace::Copied(ValType::I64, 2);

fn push_copies(walk: &mut Walk) -> Result<bool, NoMemory> {
    walk.perform_basic(Basic::LocalGet(1), 0, Some(NARROW_COPY))?;
    walk.perform_basic(Basic::LocalGet(2), 0, Some(WIDE_COPY))?;
    Ok(are(walk.places(), &[NARROW_COPY, WIDE_COPY]))
}

fn write_one(walk: &mut Walk) -> Result<bool, NoMemory> {
    walk.perform(0, Some(ValType::I32))?;
    walk.perform_basic(Basic::LocalSet(1), 1, None)?;
    Ok(are(walk.places(), &[NARROW, WIDE_COPY]))
}

fn copies_end(walk: &mut Walk) -> Result<bool, NoMemory> {
    let both = push_copies(walk)?;
    let written = write_one(walk)?;
    walk.open(Label::Loop(None))?;
    Ok(both && written && are(walk.places(), &[NARROW, WIDE]))
}

// A copy of each of two locals; one is written, and then a block begins.
fn copies(alloc: Global) -> Result<bool, NoMemory> {
    let mut walk = Walk::new(alloc, None);
    copies_end(&mut walk)
}

fn is_at(walk: &Walk, label: Label, depth: usize) -> bool {
    walk.innermost() == label && walk.depth() == depth
}

const BODY: Label = Label::Body(Some(ValType::I32));

const INNER: Label = Label::Loop(Some(ValType::I64));

fn labels_in(walk: &mut Walk) -> Result<bool, NoMemory> {
    let alone = is_at(walk, BODY, 1);
    walk.open(INNER)?;
    let two = is_at(walk, INNER, 2);
    walk.close()?;
    Ok(alone && two && is_at(walk, BODY, 1) && are(walk.places(), &[WIDE]))
}

fn labels(alloc: Global) -> Result<bool, NoMemory> {
    let mut walk = Walk::new(alloc, Some(ValType::I32));
    labels_in(&mut walk)
}

const fn op(code: Instr) -> Op {
    Op {
        at: 0,
        len: 1,
        code,
    }
}

// An `if` with `else` in a loop in a block in dead code, and the end of the body.
const DEAD: [Instr; 9] = [
    Instr::Jump(Jump::Return),
    Instr::Block(None),
    Instr::Loop(None),
    Instr::If(None),
    Instr::Else,
    Instr::End,
    Instr::End,
    Instr::End,
    Instr::End,
];

fn ends_with_its_list() -> bool {
    let ops = DEAD.map(op);
    let ends = [(0, 8), (2, 7), (3, 6), (4, 4), (5, 5)];
    ends.iter()
        .all(|(from, end)| end_of_list(&ops, *from) == *end)
}

fn take_their_operands() -> bool {
    let counts = [
        (Basic::Const(Value::I32(0)), 0),
        (Basic::LocalTee(0), 1),
        (Basic::Load(Load::Full(ValType::I32), 0, 0), 1),
        (Basic::Store(Store::Full(ValType::I32), 0, 0), 2),
        (Basic::Binary(ValType::I32, Binary::Add), 2),
        (Basic::Select, 3),
    ];
    counts.iter().all(|(code, count)| takes(*code) == *count)
}

#[test]
fn places_and_labels_come_back(rt: HostRuntime) {
    let alloc = rt.alloc();
    assert!(rt; copies(alloc) == Ok(true));
    assert!(rt; arms(alloc) == Ok(true) && labels(alloc) == Ok(true));
    assert!(rt; INNER.end_gives() == Some(ValType::I64));
    assert!(rt; ends_with_its_list() && take_their_operands());
}
