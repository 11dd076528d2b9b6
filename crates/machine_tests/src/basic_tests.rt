//! What another interpreter answers (V8, by Node.js 20), instruction by instruction.

use causes::NoMemory;
use linear_memory::Memory;
use machine_basics::{Globals, Performed, Shared, TrapKind, perform};
use pm_text::Stack;
use std::alloc::Global;
use wasm_syntax::{
    Basic, Binary, Compare, Convert, Load, Narrow32, Narrow64, Sign, Store, Unary, ValType, Value,
};

/// An instruction, its operands, the deepest first, and its result or the cause of its trap.
type Row<'a> = (Basic, &'a [Value], Result<Option<Value>, TrapKind>);

/// A stack of these values, the last one on top.
fn stack_of(alloc: Global, values: &[Value]) -> Result<Stack<Value>, NoMemory> {
    let mut stack = Stack::new(alloc);
    for value in values {
        stack.push(*value)?;
    }
    Ok(stack)
}

/// Two globals, which are 7 and 8, and a memory of one page, which may have two.
fn shared(alloc: Global) -> Result<Shared, NoMemory> {
    let memory = Memory::new(alloc, 1, 2)?;
    let globals = Vec::from_slice(alloc, &[Value::I32(7), Value::I64(8)])?;
    Ok(Shared {
        globals: Globals::from_vec(globals),
        memory: Some(memory),
    })
}

/// Whether an instruction comes to what its row says. After a trap the operands are still there.
fn is_wanted(performed: Performed, values: &Stack<Value>, row: &Row<'_>) -> bool {
    let (_, operands, wanted) = row;
    match (performed, wanted) {
        (Performed::Done, Ok(value)) => *value == values.peek(0) && values.len() <= 1,
        (Performed::Trap(kind), Err(cause)) => kind == *cause && values.as_slice() == *operands,
        _ => false,
    }
}

fn holds(alloc: Global, shared: &mut Shared, row: &Row<'_>) -> bool {
    match stack_of(alloc, row.1) {
        Ok(mut values) => {
            let performed = perform(&row.0, 0, &mut values, shared);
            is_wanted(performed, &values, row)
        }
        Err(_) => false,
    }
}

/// The number of the first row that does not hold behind those before it, if there is one.
fn first_wrong(alloc: Global, shared: &mut Shared, rows: &[Row<'_>]) -> Option<usize> {
    for (i, row) in rows.iter().enumerate() {
        if !holds(alloc, shared, row) {
            return Some(i);
        }
    }
    None
}

/// The same on new globals and a new memory. It is 0 where the host gives no memory.
fn first_wrong_anew(alloc: Global, rows: &[Row<'_>]) -> Option<usize> {
    match shared(alloc) {
        Ok(mut shared) => first_wrong(alloc, &mut shared, rows),
        Err(_) => Some(0),
    }
}

const NUMBERS: [Row; 41] = [
    (
        Basic::Eqz(ValType::I32),
        &[Value::I32(0)],
        Ok(Some(Value::I32(1))),
    ),
    (
        Basic::Eqz(ValType::I32),
        &[Value::I32(0x8000_0000)],
        Ok(Some(Value::I32(0))),
    ),
    (
        Basic::Eqz(ValType::I64),
        &[Value::I64(0)],
        Ok(Some(Value::I32(1))),
    ),
    (
        Basic::Eqz(ValType::I64),
        &[Value::I64(0x0001_0000_0000)],
        Ok(Some(Value::I32(0))),
    ),
    (
        Basic::Unary(ValType::I32, Unary::Clz),
        &[Value::I32(32768)],
        Ok(Some(Value::I32(16))),
    ),
    (
        Basic::Unary(ValType::I64, Unary::Clz),
        &[Value::I64(32768)],
        Ok(Some(Value::I64(48))),
    ),
    (
        Basic::Unary(ValType::I32, Unary::Ctz),
        &[Value::I32(0)],
        Ok(Some(Value::I32(32))),
    ),
    (
        Basic::Unary(ValType::I64, Unary::Popcnt),
        &[Value::I64(0xAAAA_AAAA_5555_5555)],
        Ok(Some(Value::I64(32))),
    ),
    (
        Basic::Compare(ValType::I32, Compare::LtS),
        &[Value::I32(1), Value::I32(0x8000_0000)],
        Ok(Some(Value::I32(0))),
    ),
    (
        Basic::Compare(ValType::I32, Compare::LtU),
        &[Value::I32(1), Value::I32(0x8000_0000)],
        Ok(Some(Value::I32(1))),
    ),
    (
        Basic::Compare(ValType::I64, Compare::GeS),
        &[Value::I64(0x8000_0000_0000_0000), Value::I64(1)],
        Ok(Some(Value::I32(0))),
    ),
    (
        Basic::Compare(ValType::I64, Compare::GeU),
        &[Value::I64(0x8000_0000_0000_0000), Value::I64(1)],
        Ok(Some(Value::I32(1))),
    ),
    (
        Basic::Compare(ValType::I32, Compare::LeS),
        &[Value::I32(7), Value::I32(7)],
        Ok(Some(Value::I32(1))),
    ),
    (
        Basic::Compare(ValType::I64, Compare::Ne),
        &[Value::I64(5), Value::I64(6)],
        Ok(Some(Value::I32(1))),
    ),
    (
        Basic::Binary(ValType::I32, Binary::Sub),
        &[Value::I32(3), Value::I32(10)],
        Ok(Some(Value::I32(0xFFFF_FFF9))),
    ),
    (
        Basic::Binary(ValType::I64, Binary::Sub),
        &[Value::I64(3), Value::I64(10)],
        Ok(Some(Value::I64(0xFFFF_FFFF_FFFF_FFF9))),
    ),
    (
        Basic::Binary(ValType::I32, Binary::DivS),
        &[Value::I32(0x8000_0000), Value::I32(0xFFFF_FFFF)],
        Err(TrapKind::Overflow),
    ),
    (
        Basic::Binary(ValType::I32, Binary::RemS),
        &[Value::I32(0x8000_0000), Value::I32(0xFFFF_FFFF)],
        Ok(Some(Value::I32(0))),
    ),
    (
        Basic::Binary(ValType::I64, Binary::DivS),
        &[
            Value::I64(0x8000_0000_0000_0000),
            Value::I64(0xFFFF_FFFF_FFFF_FFFF),
        ],
        Err(TrapKind::Overflow),
    ),
    (
        Basic::Binary(ValType::I64, Binary::RemU),
        &[Value::I64(7), Value::I64(0)],
        Err(TrapKind::DivideByZero),
    ),
    (
        Basic::Binary(ValType::I32, Binary::DivU),
        &[Value::I32(7), Value::I32(0)],
        Err(TrapKind::DivideByZero),
    ),
    (
        Basic::Binary(ValType::I32, Binary::DivS),
        &[Value::I32(0xFFFF_FFF9), Value::I32(2)],
        Ok(Some(Value::I32(0xFFFF_FFFD))),
    ),
    (
        Basic::Binary(ValType::I32, Binary::Shl),
        &[Value::I32(1), Value::I32(33)],
        Ok(Some(Value::I32(2))),
    ),
    (
        Basic::Binary(ValType::I32, Binary::Shl),
        &[Value::I32(33), Value::I32(1)],
        Ok(Some(Value::I32(66))),
    ),
    (
        Basic::Binary(ValType::I64, Binary::ShrS),
        &[Value::I64(0x8000_0000_0000_0000), Value::I64(63)],
        Ok(Some(Value::I64(0xFFFF_FFFF_FFFF_FFFF))),
    ),
    (
        Basic::Binary(ValType::I32, Binary::Rotl),
        &[Value::I32(0xABCD_9876), Value::I32(1)],
        Ok(Some(Value::I32(0x579B_30ED))),
    ),
    (
        Basic::Binary(ValType::I64, Binary::Rotr),
        &[Value::I64(1), Value::I64(1)],
        Ok(Some(Value::I64(0x8000_0000_0000_0000))),
    ),
    (
        Basic::Binary(ValType::I32, Binary::Mul),
        &[Value::I32(0x0123_4567), Value::I32(0x7654_3210)],
        Ok(Some(Value::I32(0x358E_7470))),
    ),
    (
        Basic::Convert(Convert::Wrap),
        &[Value::I64(0xFFFF_FFFF_8000_0000)],
        Ok(Some(Value::I32(0x8000_0000))),
    ),
    (
        Basic::Convert(Convert::ExtendS),
        &[Value::I32(0x8000_0000)],
        Ok(Some(Value::I64(0xFFFF_FFFF_8000_0000))),
    ),
    (
        Basic::Convert(Convert::ExtendU),
        &[Value::I32(0x8000_0000)],
        Ok(Some(Value::I64(0x8000_0000))),
    ),
    (
        Basic::Extend32(Narrow32::Eight),
        &[Value::I32(383)],
        Ok(Some(Value::I32(127))),
    ),
    (
        Basic::Extend32(Narrow32::Eight),
        &[Value::I32(128)],
        Ok(Some(Value::I32(0xFFFF_FF80))),
    ),
    (
        Basic::Extend32(Narrow32::Sixteen),
        &[Value::I32(32768)],
        Ok(Some(Value::I32(0xFFFF_8000))),
    ),
    (
        Basic::Extend64(Narrow64::Eight),
        &[Value::I64(384)],
        Ok(Some(Value::I64(0xFFFF_FFFF_FFFF_FF80))),
    ),
    (
        Basic::Extend64(Narrow64::Sixteen),
        &[Value::I64(0x0001_8000)],
        Ok(Some(Value::I64(0xFFFF_FFFF_FFFF_8000))),
    ),
    (
        Basic::Extend64(Narrow64::ThirtyTwo),
        &[Value::I64(0x8000_0000)],
        Ok(Some(Value::I64(0xFFFF_FFFF_8000_0000))),
    ),
    (
        Basic::Select,
        &[Value::I32(11), Value::I32(22), Value::I32(0)],
        Ok(Some(Value::I32(22))),
    ),
    (
        Basic::Select,
        &[Value::I32(11), Value::I32(22), Value::I32(0x8000_0000)],
        Ok(Some(Value::I32(11))),
    ),
    (
        Basic::Select,
        &[Value::I64(1), Value::I64(2), Value::I32(1)],
        Ok(Some(Value::I64(1))),
    ),
    (Basic::Drop, &[Value::I32(9)], Ok(None)),
];

/// One after another on the memory.
const MEMORY: [Row; 57] = [
    (Basic::MemorySize, &[], Ok(Some(Value::I32(1)))),
    (
        Basic::Store(Store::Full(ValType::I32), 0, 0),
        &[Value::I32(0), Value::I32(0x8483_8281)],
        Ok(None),
    ),
    (
        Basic::Store(Store::Full(ValType::I64), 0, 0),
        &[Value::I32(4), Value::I64(0x1122_3344_5566_77F8)],
        Ok(None),
    ),
    (
        Basic::Load(Load::Full(ValType::I32), 0, 0),
        &[Value::I32(0)],
        Ok(Some(Value::I32(0x8483_8281))),
    ),
    (
        Basic::Load(Load::Full(ValType::I64), 0, 3),
        &[Value::I32(1)],
        Ok(Some(Value::I64(0x1122_3344_5566_77F8))),
    ),
    (
        Basic::Load(Load::Part32(Narrow32::Eight, Sign::Signed), 0, 0),
        &[Value::I32(0)],
        Ok(Some(Value::I32(0xFFFF_FF81))),
    ),
    (
        Basic::Load(Load::Part32(Narrow32::Eight, Sign::Unsigned), 0, 0),
        &[Value::I32(0)],
        Ok(Some(Value::I32(129))),
    ),
    (
        Basic::Load(Load::Part32(Narrow32::Sixteen, Sign::Signed), 0, 0),
        &[Value::I32(1)],
        Ok(Some(Value::I32(0xFFFF_8382))),
    ),
    (
        Basic::Load(Load::Part32(Narrow32::Sixteen, Sign::Unsigned), 0, 1),
        &[Value::I32(0)],
        Ok(Some(Value::I32(33666))),
    ),
    (
        Basic::Load(Load::Part64(Narrow64::Eight, Sign::Signed), 0, 0),
        &[Value::I32(4)],
        Ok(Some(Value::I64(0xFFFF_FFFF_FFFF_FFF8))),
    ),
    (
        Basic::Load(Load::Part64(Narrow64::Eight, Sign::Unsigned), 0, 0),
        &[Value::I32(4)],
        Ok(Some(Value::I64(248))),
    ),
    (
        Basic::Load(Load::Part64(Narrow64::Sixteen, Sign::Signed), 0, 0),
        &[Value::I32(2)],
        Ok(Some(Value::I64(0xFFFF_FFFF_FFFF_8483))),
    ),
    (
        Basic::Load(Load::Part64(Narrow64::Sixteen, Sign::Unsigned), 0, 0),
        &[Value::I32(2)],
        Ok(Some(Value::I64(33923))),
    ),
    (
        Basic::Load(Load::Part64(Narrow64::ThirtyTwo, Sign::Signed), 0, 0),
        &[Value::I32(0)],
        Ok(Some(Value::I64(0xFFFF_FFFF_8483_8281))),
    ),
    (
        Basic::Load(Load::Part64(Narrow64::ThirtyTwo, Sign::Unsigned), 0, 0),
        &[Value::I32(0)],
        Ok(Some(Value::I64(0x8483_8281))),
    ),
    (
        Basic::Load(Load::Full(ValType::I32), 0, 0),
        &[Value::I32(65532)],
        Ok(Some(Value::I32(0))),
    ),
    (
        Basic::Load(Load::Full(ValType::I32), 0, 0),
        &[Value::I32(65533)],
        Err(TrapKind::OutOfBounds),
    ),
    (
        Basic::Load(Load::Full(ValType::I64), 0, 1),
        &[Value::I32(65528)],
        Err(TrapKind::OutOfBounds),
    ),
    (
        Basic::Load(Load::Part32(Narrow32::Eight, Sign::Signed), 0, 0),
        &[Value::I32(65535)],
        Ok(Some(Value::I32(0))),
    ),
    (
        Basic::Load(Load::Part32(Narrow32::Eight, Sign::Signed), 0, 1),
        &[Value::I32(65535)],
        Err(TrapKind::OutOfBounds),
    ),
    (
        Basic::Load(Load::Part64(Narrow64::Sixteen, Sign::Unsigned), 0, 0),
        &[Value::I32(65535)],
        Err(TrapKind::OutOfBounds),
    ),
    (
        Basic::Load(
            Load::Part32(Narrow32::Eight, Sign::Unsigned),
            0,
            0xFFFF_FFFF,
        ),
        &[Value::I32(1)],
        Err(TrapKind::OutOfBounds),
    ),
    (
        Basic::Load(Load::Full(ValType::I32), 0, 1),
        &[Value::I32(0xFFFF_FFFF)],
        Err(TrapKind::OutOfBounds),
    ),
    (
        Basic::Store(Store::Part32(Narrow32::Eight), 0, 1),
        &[Value::I32(0xFFFF_FFFF), Value::I32(5)],
        Err(TrapKind::OutOfBounds),
    ),
    (
        Basic::Store(Store::Full(ValType::I32), 0, 0),
        &[Value::I32(65533), Value::I32(0x0102_0304)],
        Err(TrapKind::OutOfBounds),
    ),
    (
        Basic::Load(Load::Part32(Narrow32::Eight, Sign::Unsigned), 0, 0),
        &[Value::I32(65533)],
        Ok(Some(Value::I32(0))),
    ),
    (
        Basic::Store(Store::Part32(Narrow32::Eight), 0, 0),
        &[Value::I32(65535), Value::I32(427)],
        Ok(None),
    ),
    (
        Basic::Load(Load::Part32(Narrow32::Sixteen, Sign::Unsigned), 0, 0),
        &[Value::I32(65534)],
        Ok(Some(Value::I32(43776))),
    ),
    (
        Basic::Store(Store::Part64(Narrow64::Sixteen), 0, 0),
        &[Value::I32(100), Value::I64(0x1122_3344_5566_7788)],
        Ok(None),
    ),
    (
        Basic::Load(Load::Full(ValType::I64), 0, 0),
        &[Value::I32(100)],
        Ok(Some(Value::I64(30600))),
    ),
    (
        Basic::Store(Store::Part64(Narrow64::ThirtyTwo), 0, 2),
        &[Value::I32(100), Value::I64(0x1122_3344_99AA_BBCC)],
        Ok(None),
    ),
    (
        Basic::Load(Load::Full(ValType::I64), 0, 0),
        &[Value::I32(100)],
        Ok(Some(Value::I64(0x99AA_BBCC_7788))),
    ),
    (
        Basic::Store(Store::Part64(Narrow64::Eight), 0, 0),
        &[Value::I32(107), Value::I64(255)],
        Ok(None),
    ),
    (
        Basic::Store(Store::Part32(Narrow32::Sixteen), 0, 0),
        &[Value::I32(108), Value::I32(0x1234_5678)],
        Ok(None),
    ),
    (
        Basic::Load(Load::Full(ValType::I64), 0, 0),
        &[Value::I32(104)],
        Ok(Some(Value::I64(0x5678_FF00_99AA))),
    ),
    (
        Basic::MemoryFill,
        &[Value::I32(200), Value::I32(423), Value::I32(3)],
        Ok(None),
    ),
    (
        Basic::Load(Load::Full(ValType::I64), 0, 0),
        &[Value::I32(199)],
        Ok(Some(Value::I64(0xA7A7_A700))),
    ),
    (
        Basic::MemoryCopy,
        &[Value::I32(201), Value::I32(200), Value::I32(4)],
        Ok(None),
    ),
    (
        Basic::Load(Load::Full(ValType::I64), 0, 0),
        &[Value::I32(199)],
        Ok(Some(Value::I64(0x00A7_A7A7_A700))),
    ),
    (
        Basic::MemoryFill,
        &[Value::I32(65533), Value::I32(1), Value::I32(4)],
        Err(TrapKind::OutOfBounds),
    ),
    (
        Basic::MemoryFill,
        &[Value::I32(0x0001_0000), Value::I32(1), Value::I32(0)],
        Ok(None),
    ),
    (
        Basic::MemoryFill,
        &[Value::I32(0x0001_0001), Value::I32(1), Value::I32(0)],
        Err(TrapKind::OutOfBounds),
    ),
    (
        Basic::MemoryCopy,
        &[Value::I32(0), Value::I32(65533), Value::I32(4)],
        Err(TrapKind::OutOfBounds),
    ),
    (
        Basic::MemoryCopy,
        &[Value::I32(65533), Value::I32(0), Value::I32(4)],
        Err(TrapKind::OutOfBounds),
    ),
    (
        Basic::MemoryCopy,
        &[
            Value::I32(0x0001_0000),
            Value::I32(0x0001_0000),
            Value::I32(0),
        ],
        Ok(None),
    ),
    (
        Basic::MemoryCopy,
        &[Value::I32(0), Value::I32(0x0001_0001), Value::I32(0)],
        Err(TrapKind::OutOfBounds),
    ),
    (
        Basic::Load(Load::Full(ValType::I32), 0, 0),
        &[Value::I32(65532)],
        Ok(Some(Value::I32(0xAB00_0000))),
    ),
    (
        Basic::MemoryGrow,
        &[Value::I32(2)],
        Ok(Some(Value::I32(0xFFFF_FFFF))),
    ),
    (Basic::MemoryGrow, &[Value::I32(0)], Ok(Some(Value::I32(1)))),
    (Basic::MemoryGrow, &[Value::I32(1)], Ok(Some(Value::I32(1)))),
    (
        Basic::MemoryGrow,
        &[Value::I32(0xFFFF_FFFF)],
        Ok(Some(Value::I32(0xFFFF_FFFF))),
    ),
    (Basic::MemorySize, &[], Ok(Some(Value::I32(2)))),
    (
        Basic::Load(Load::Full(ValType::I32), 0, 0),
        &[Value::I32(65534)],
        Ok(Some(Value::I32(43776))),
    ),
    (
        Basic::Load(Load::Full(ValType::I32), 0, 0),
        &[Value::I32(0x0001_FFFC)],
        Ok(Some(Value::I32(0))),
    ),
    (
        Basic::Load(Load::Full(ValType::I32), 0, 0),
        &[Value::I32(0x0001_FFFD)],
        Err(TrapKind::OutOfBounds),
    ),
    (
        Basic::Store(Store::Full(ValType::I32), 0, 0),
        &[Value::I32(65534), Value::I32(0xDEAD_BEEF)],
        Ok(None),
    ),
    (
        Basic::Load(Load::Full(ValType::I64), 0, 0),
        &[Value::I32(65532)],
        Ok(Some(Value::I64(0xDEAD_BEEF_0000))),
    ),
];

/// Two locals over a value of the frame below, by hand from Core 4.4.3, and how all values stand
/// behind these instructions.
const LOCALS: [Value; 3] = [Value::I32(99), Value::I32(1), Value::I64(2)];

const MOVES: [Basic; 9] = [
    Basic::LocalGet(1),
    Basic::GlobalGet(0),
    Basic::LocalTee(0),
    Basic::GlobalGet(1),
    Basic::LocalSet(1),
    Basic::GlobalSet(0),
    Basic::GlobalSet(1),
    Basic::Const(Value::I64(5)),
    Basic::Nop,
];

const MOVED: &[Value] = &[Value::I32(99), Value::I32(7), Value::I64(8), Value::I64(5)];

const MOVED_GLOBALS: &[Value] = &[Value::I32(7), Value::I64(2)];

/// Whether each instruction is performed, on a frame whose locals stand over one value.
fn all_done(values: &mut Stack<Value>, shared: &mut Shared, instructions: &[Basic]) -> bool {
    for instruction in instructions {
        if perform(instruction, 1, values, shared) != Performed::Done {
            return false;
        }
    }
    true
}

fn is_moved(values: &mut Stack<Value>, shared: &mut Shared) -> bool {
    all_done(values, shared, &MOVES)
        && values.as_slice() == MOVED
        && shared.globals.as_slice() == MOVED_GLOBALS
}

fn moves(alloc: Global, shared: &mut Shared) -> bool {
    match stack_of(alloc, &LOCALS) {
        Ok(mut values) => is_moved(&mut values, shared),
        Err(_) => false,
    }
}

fn moves_anew(alloc: Global) -> bool {
    match shared(alloc) {
        Ok(mut shared) => moves(alloc, &mut shared),
        Err(_) => false,
    }
}

#[test]
fn instructions(rt: HostRuntime) {
    assert_eq!(rt; first_wrong_anew(rt.alloc(), &NUMBERS), None);
    assert_eq!(rt; first_wrong_anew(rt.alloc(), &MEMORY), None);
    assert!(rt; moves_anew(rt.alloc()));
}

const ONE_TO_FIVE: [Value; 5] = [
    Value::I32(1),
    Value::I32(2),
    Value::I32(3),
    Value::I32(4),
    Value::I32(5),
];

const CHANGED: &[Value] = &[Value::I32(1), Value::I32(8), Value::I32(3), Value::I32(7)];

/// Whether a stack of 1 to 5 is written over and looked at by places.
fn is_changed(stack: &mut Stack<Value>) -> bool {
    stack.discard(1);
    stack.set_top(Value::I32(7));
    stack.set_at(1, 0, Value::I32(8));
    stack.as_slice() == CHANGED
        && stack.at(1, 1) == Some(Value::I32(3))
        && stack.at(1, 3).is_none()
        && stack.peek(3) == Some(Value::I32(1))
        && stack.peek(4).is_none()
}

/// Whether it keeps its two lowest elements then, and the upper one is taken.
fn is_cut(stack: &mut Stack<Value>) -> bool {
    stack.keep(2);
    stack.pop() == Some(Value::I32(8)) && stack.len() == 1
}

fn is_written_over(alloc: Global) -> bool {
    match stack_of(alloc, &ONE_TO_FIVE) {
        Ok(mut stack) => is_changed(&mut stack) && is_cut(&mut stack),
        Err(_) => false,
    }
}

#[test]
fn stack(rt: HostRuntime) {
    assert!(rt; is_written_over(rt.alloc()));
}
