//! Instructions byte by byte. The bytes of instructions are those that wat2wasm of WABT 1.0.32
//! writes; offsets of refusals were worked out by hand.

ghost use Rattle.std.specs.Prelude.{[]};
ghost use Rattle.wasm_format.specs.Encoding.{IsInside};

use causes::NoMemory;
use int_ops::{Binary, Compare, Narrow32, Narrow64, Unary};
use pm_text::Items;
use std::alloc::Global;
use std::test::Fail;
use wasm_bytes::{ItemFault, Reader};
use wasm_format::{Code, read_code, read_instr, write_instr};
use wasm_syntax::{Basic, Convert, Instr, Jump, Labels, Load, Sign, Store, ValType, Value};

/// Whether these bytes are written for the instruction.
fn is_written(alloc: Global, code: &Instr, bytes: &[u8]) -> bool
    requires { IsInside [] code.now }
{
    let targets: Labels = Items::new(alloc);
    let mut out = Vec::new(alloc);
    write_instr(&mut out, code, &targets).is_ok() && out.as_slice() == bytes
}

/// Whether both are the same instruction, or none.
fn are_same(read: Option<Instr>, wanted: Option<Instr>) -> bool {
    match (read, wanted) {
        (Some(a), Some(b)) => a.is_same(&b),
        (None, None) => true,
        _ => false,
    }
}

/// Whether these bytes are read as this, and to their end.
fn is_read(alloc: Global, bytes: &[u8], code: Option<Instr>) -> bool {
    match read_instr(alloc, bytes, 0, bytes.len()) {
        Ok(read) => are_same(read.code, code) && read.next == bytes.len(),
        Err(_) => false,
    }
}

/// Whether these bytes are written for the instruction, and it is read from them.
fn is_spelled(alloc: Global, code: Instr, bytes: &[u8]) -> bool
    requires { IsInside [] code }
{
    is_written(alloc, &code, bytes) && is_read(alloc, bytes, Some(code))
}

fn is_basic(alloc: Global, basic: Basic, bytes: &[u8]) -> bool {
    is_spelled(alloc, Instr::Basic(basic), bytes)
}

/// The operator of both types, by its opcodes.
fn is_operator(alloc: Global, i32_basic: Basic, i64_basic: Basic, opcodes: (u8, u8)) -> bool {
    is_basic(alloc, i32_basic, &[opcodes.0]) && is_basic(alloc, i64_basic, &[opcodes.1])
}

const COMPARISONS: [(Compare, u8, u8); 10] = [
    (Compare::Eq, 0x46, 0x51),
    (Compare::Ne, 0x47, 0x52),
    (Compare::LtS, 0x48, 0x53),
    (Compare::LtU, 0x49, 0x54),
    (Compare::GtS, 0x4a, 0x55),
    (Compare::GtU, 0x4b, 0x56),
    (Compare::LeS, 0x4c, 0x57),
    (Compare::LeU, 0x4d, 0x58),
    (Compare::GeS, 0x4e, 0x59),
    (Compare::GeU, 0x4f, 0x5a),
];

fn is_comparison(alloc: Global, row: &(Compare, u8, u8)) -> bool {
    let (op, narrow, wide) = *row;
    let both = (
        Basic::Compare(ValType::I32, op),
        Basic::Compare(ValType::I64, op),
    );
    is_operator(alloc, both.0, both.1, (narrow, wide))
}

const UNARIES: [(Unary, u8, u8); 3] = [
    (Unary::Clz, 0x67, 0x79),
    (Unary::Ctz, 0x68, 0x7a),
    (Unary::Popcnt, 0x69, 0x7b),
];

const BINARIES: [(Binary, u8, u8); 15] = [
    (Binary::Add, 0x6a, 0x7c),
    (Binary::Sub, 0x6b, 0x7d),
    (Binary::Mul, 0x6c, 0x7e),
    (Binary::DivS, 0x6d, 0x7f),
    (Binary::DivU, 0x6e, 0x80),
    (Binary::RemS, 0x6f, 0x81),
    (Binary::RemU, 0x70, 0x82),
    (Binary::And, 0x71, 0x83),
    (Binary::Or, 0x72, 0x84),
    (Binary::Xor, 0x73, 0x85),
    (Binary::Shl, 0x74, 0x86),
    (Binary::ShrS, 0x75, 0x87),
    (Binary::ShrU, 0x76, 0x88),
    (Binary::Rotl, 0x77, 0x89),
    (Binary::Rotr, 0x78, 0x8a),
];

fn is_unary(alloc: Global, row: &(Unary, u8, u8)) -> bool {
    let (op, narrow, wide) = *row;
    let both = (
        Basic::Unary(ValType::I32, op),
        Basic::Unary(ValType::I64, op),
    );
    is_operator(alloc, both.0, both.1, (narrow, wide))
}

fn is_binary(alloc: Global, row: &(Binary, u8, u8)) -> bool {
    let (op, narrow, wide) = *row;
    let both = (
        Basic::Binary(ValType::I32, op),
        Basic::Binary(ValType::I64, op),
    );
    is_operator(alloc, both.0, both.1, (narrow, wide))
}

/// Opcodes alone, and those with immediates.
const BASICS: [(Basic, &'static [u8]); 45] = [
    (Basic::Eqz(ValType::I32), &[0x45]),
    (Basic::Eqz(ValType::I64), &[0x50]),
    (Basic::Convert(Convert::Wrap), &[0xa7]),
    (Basic::Convert(Convert::ExtendS), &[0xac]),
    (Basic::Convert(Convert::ExtendU), &[0xad]),
    (Basic::Extend32(Narrow32::Eight), &[0xc0]),
    (Basic::Extend32(Narrow32::Sixteen), &[0xc1]),
    (Basic::Extend64(Narrow64::Eight), &[0xc2]),
    (Basic::Extend64(Narrow64::Sixteen), &[0xc3]),
    (Basic::Extend64(Narrow64::ThirtyTwo), &[0xc4]),
    (Basic::Nop, &[0x01]),
    (Basic::Drop, &[0x1a]),
    (Basic::Select, &[0x1b]),
    (Basic::LocalGet(300), &[0x20, 0xac, 0x02]),
    (Basic::LocalSet(1), &[0x21, 0x01]),
    (Basic::LocalTee(127), &[0x22, 0x7f]),
    (Basic::GlobalGet(128), &[0x23, 0x80, 0x01]),
    (Basic::GlobalSet(0), &[0x24, 0x00]),
    (Basic::MemorySize, &[0x3f, 0x00]),
    (Basic::MemoryGrow, &[0x40, 0x00]),
    (Basic::MemoryCopy, &[0xfc, 0x0a, 0x00, 0x00]),
    (Basic::MemoryFill, &[0xfc, 0x0b, 0x00]),
    (Basic::Const(Value::I32(0xffff_ffff)), &[0x41, 0x7f]),
    (Basic::Const(Value::I32(624_485)), &[0x41, 0xe5, 0x8e, 0x26]),
    (
        Basic::Const(Value::I64(0xffff_ffff_fffe_1dc0)),
        &[0x42, 0xc0, 0xbb, 0x78],
    ),
    (Basic::Const(Value::I64(64)), &[0x42, 0xc0, 0x00]),
    (
        Basic::Load(Load::Full(ValType::I32), 2, 1),
        &[0x28, 0x02, 0x01],
    ),
    (
        Basic::Load(Load::Full(ValType::I64), 3, 4),
        &[0x29, 0x03, 0x04],
    ),
    (
        Basic::Load(Load::Part32(Narrow32::Eight, Sign::Signed), 0, 13),
        &[0x2c, 0x00, 0x0d],
    ),
    (
        Basic::Load(Load::Part32(Narrow32::Eight, Sign::Unsigned), 0, 40),
        &[0x2d, 0x00, 0x28],
    ),
    (
        Basic::Load(Load::Part32(Narrow32::Sixteen, Sign::Signed), 1, 121),
        &[0x2e, 0x01, 0x79],
    ),
    (
        Basic::Load(Load::Part32(Narrow32::Sixteen, Sign::Unsigned), 1, 364),
        &[0x2f, 0x01, 0xec, 0x02],
    ),
    (
        Basic::Load(Load::Part64(Narrow64::Eight, Sign::Signed), 0, 1093),
        &[0x30, 0x00, 0xc5, 0x08],
    ),
    (
        Basic::Load(Load::Part64(Narrow64::Eight, Sign::Unsigned), 0, 3280),
        &[0x31, 0x00, 0xd0, 0x19],
    ),
    (
        Basic::Load(Load::Part64(Narrow64::Sixteen, Sign::Signed), 1, 9841),
        &[0x32, 0x01, 0xf1, 0x4c],
    ),
    (
        Basic::Load(Load::Part64(Narrow64::Sixteen, Sign::Unsigned), 1, 29524),
        &[0x33, 0x01, 0xd4, 0xe6, 0x01],
    ),
    (
        Basic::Load(Load::Part64(Narrow64::ThirtyTwo, Sign::Signed), 2, 88573),
        &[0x34, 0x02, 0xfd, 0xb3, 0x05],
    ),
    (
        Basic::Load(Load::Part64(Narrow64::ThirtyTwo, Sign::Unsigned), 2, 265720),
        &[0x35, 0x02, 0xf8, 0x9b, 0x10],
    ),
    (
        Basic::Store(Store::Full(ValType::I32), 2, 1),
        &[0x36, 0x02, 0x01],
    ),
    (
        Basic::Store(Store::Full(ValType::I64), 3, 7),
        &[0x37, 0x03, 0x07],
    ),
    (
        Basic::Store(Store::Part32(Narrow32::Eight), 0, 37),
        &[0x3a, 0x00, 0x25],
    ),
    (
        Basic::Store(Store::Part32(Narrow32::Sixteen), 1, 187),
        &[0x3b, 0x01, 0xbb, 0x01],
    ),
    (
        Basic::Store(Store::Part64(Narrow64::Eight), 0, 937),
        &[0x3c, 0x00, 0xa9, 0x07],
    ),
    (
        Basic::Store(Store::Part64(Narrow64::Sixteen), 1, 4687),
        &[0x3d, 0x01, 0xcf, 0x24],
    ),
    (
        Basic::Store(Store::Part64(Narrow64::ThirtyTwo), 2, 23437),
        &[0x3e, 0x02, 0x8d, 0xb7, 0x01],
    ),
];

/// The number of the first row that does not hold, as for the tables below.
fn first_wrong_comparison(alloc: Global) -> Option<usize> {
    for (i, row) in COMPARISONS.iter().enumerate() {
        if !is_comparison(alloc, row) {
            return Some(i);
        }
    }
    None
}

fn first_wrong_unary(alloc: Global) -> Option<usize> {
    for (i, row) in UNARIES.iter().enumerate() {
        if !is_unary(alloc, row) {
            return Some(i);
        }
    }
    None
}

fn first_wrong_binary(alloc: Global) -> Option<usize> {
    for (i, row) in BINARIES.iter().enumerate() {
        if !is_binary(alloc, row) {
            return Some(i);
        }
    }
    None
}

fn first_wrong_basic(alloc: Global) -> Option<usize> {
    for (i, row) in BASICS.iter().enumerate() {
        if !is_basic(alloc, row.0, row.1) {
            return Some(i);
        }
    }
    None
}

#[test]
fn basic_instructions(rt: HostRuntime) {
    assert_eq!(rt; first_wrong_comparison(rt.alloc()), None);
    assert_eq!(rt; first_wrong_unary(rt.alloc()), None);
    assert_eq!(rt; first_wrong_binary(rt.alloc()), None);
    assert_eq!(rt; first_wrong_basic(rt.alloc()), None);
}

fn are_blocks(alloc: Global) -> bool {
    is_spelled(alloc, Instr::Block(None), &[0x02, 0x40])
        && is_spelled(alloc, Instr::Loop(Some(ValType::I32)), &[0x03, 0x7f])
        && is_spelled(alloc, Instr::If(Some(ValType::I64)), &[0x04, 0x7e])
        && is_spelled(alloc, Instr::Else, &[0x05])
        && is_spelled(alloc, Instr::End, &[0x0b])
}

fn are_jumps(alloc: Global) -> bool {
    is_spelled(alloc, Instr::Jump(Jump::Unreachable), &[0x00])
        && is_spelled(alloc, Instr::Jump(Jump::Br(200)), &[0x0c, 0xc8, 0x01])
        && is_spelled(alloc, Instr::Jump(Jump::BrIf(1)), &[0x0d, 0x01])
        && is_spelled(alloc, Instr::Jump(Jump::Return), &[0x0f])
}

fn are_calls(alloc: Global) -> bool {
    is_spelled(alloc, Instr::Jump(Jump::Call(129)), &[0x10, 0x81, 0x01])
        && is_spelled(
            alloc,
            Instr::Jump(Jump::CallIndirect(0)),
            &[0x11, 0x00, 0x00],
        )
}

#[test]
fn control_instructions(rt: HostRuntime) {
    assert!(rt; are_blocks(rt.alloc()) && are_jumps(rt.alloc()) && are_calls(rt.alloc()));
}

/// `br_table 1 300 0 7`.
const BR_TABLE: [u8; 7] = [0x0e, 0x03, 0x01, 0xac, 0x02, 0x00, 0x07];

/// Whether this `br_table` is read behind two targets, and its own are added to them.
fn adds_targets(alloc: Global, bytes: &[u8]) -> Result<bool, NoMemory> {
    let mut targets: Labels = Items::from_slice(alloc, &[9, 8])?;
    let found = match read_code(&mut targets, &mut Reader::new(bytes)) {
        Ok(Code::Known(Instr::Jump(Jump::BrTable(2, 3, 7)))) => true,
        _ => false,
    };
    Ok(found && targets.as_slice() == [9, 8, 1, 300, 0].as_slice())
}

#[test]
fn targets_are_added(rt: HostRuntime) -> Result<(), Fail> {
    assert!(rt; adds_targets(rt.alloc(), &BR_TABLE)?);
    Ok(())
}

/// Whether this `br_table` is read alone.
fn is_table(alloc: Global, bytes: &[u8]) -> bool {
    match read_instr(alloc, bytes, 0, bytes.len()) {
        Ok(read) => {
            matches!(read.code, Some(Instr::Jump(Jump::BrTable(0, 3, 7))))
                && read.targets.as_slice() == [1, 300, 0].as_slice()
        }
        Err(_) => false,
    }
}

#[test]
fn a_br_table_alone(rt: HostRuntime) {
    assert!(rt; is_table(rt.alloc(), &BR_TABLE));
}

#[test]
fn a_br_table_is_written(rt: HostRuntime) -> Result<(), Fail> {
    let mut out = Vec::new(rt.alloc());
    let targets: Labels = Items::from_slice(rt.alloc(), &[9, 8, 1, 300, 0])?;
    write_instr(&mut out, &Instr::Jump(Jump::BrTable(2, 3, 7)), &targets)?;
    assert!(rt; out.as_slice() == BR_TABLE.as_slice());
    Ok(())
}

const LONG: [(&'static [u8], Instr); 4] = [
    (
        &[0x20, 0x85, 0x80, 0x80, 0x80, 0x00],
        Instr::Basic(Basic::LocalGet(5)),
    ),
    // as linkers write the number of the table
    (
        &[0x11, 0x02, 0x80, 0x80, 0x80, 0x80, 0x00],
        Instr::Jump(Jump::CallIndirect(2)),
    ),
    (
        &[0xfc, 0x8a, 0x00, 0x00, 0x00],
        Instr::Basic(Basic::MemoryCopy),
    ),
    (
        &[0x41, 0xff, 0x7f],
        Instr::Basic(Basic::Const(Value::I32(0xffff_ffff))),
    ),
];

#[test]
fn long_numbers(rt: HostRuntime) {
    let alloc = rt.alloc();
    let wrong = LONG
        .iter()
        .position(|(bytes, code)| !is_read(alloc, bytes, Some(*code)));
    assert_eq!(rt; wrong, None);
}

/// An opcode of a float at 1, and a float as the type of a block at 3.
const TWO_FLOATS: [u8; 4] = [0x01, 0x92, 0x02, 0x7d];

/// Whether a float is met at a place in what is read from another one on.
fn is_float(alloc: Global, bytes: &[u8], from: usize, place: usize) -> bool {
    if from > bytes.len() {
        return false;
    }
    let mut targets: Labels = Items::new(alloc);
    let found = read_code(&mut targets, &mut Reader::starting_at(bytes, from));
    matches!(found, Ok(Code::Float { at }) if at == place)
}

const FLOATS: [&'static [u8]; 7] = [
    &[0x2a, 0x02, 0x80, 0x01],
    &[0x39, 0x03, 0x00],
    &[0x43, 0x00, 0x00, 0x80, 0x3f],
    &[0x44, 0x00, 0x00, 0x00, 0x00, 0x00, 0x00, 0xf0, 0x3f],
    &[0x5b],
    &[0xbf],
    &[0x04, 0x7c],
];

#[test]
fn floats(rt: HostRuntime) {
    let alloc = rt.alloc();
    let places = is_float(alloc, &TWO_FLOATS, 1, 1) && is_float(alloc, &TWO_FLOATS, 2, 3);
    assert!(rt; places);
    let wrong = FLOATS.iter().position(|bytes| !is_read(alloc, bytes, None));
    assert_eq!(rt; wrong, None);
}

const REFUSED: [(&'static [u8], usize); 27] = [
    // no opcode
    (&[], 0),
    (&[0x06], 0),
    (&[0x1c], 0),
    (&[0xc5], 0),
    (&[0xfd, 0x00], 0),
    // an index that is cut, or past 32 bits
    (&[0x20], 1),
    (&[0x10, 0x80], 1),
    (&[0x0c, 0x80, 0x80, 0x80, 0x80, 0x10], 1),
    (&[0x41, 0xff, 0xff, 0xff, 0xff, 0x4f], 1),
    // an access
    (&[0x28, 0x02], 2),
    (&[0x2a, 0x02], 2),
    // block types: none, a number in two bytes, a type index
    (&[0x02], 1),
    (&[0x02, 0xc0, 0x7f], 1),
    (&[0x03, 0x00], 1),
    (&[0x04, 0x70], 1),
    // a target, a default
    (&[0x0e, 0x02, 0x00], 3),
    (&[0x0e, 0x01, 0x00], 3),
    // the number of a table
    (&[0x11, 0x00], 2),
    (&[0x11, 0x00, 0x01], 2),
    // zero bytes
    (&[0x3f, 0x01], 1),
    (&[0xfc, 0x0a, 0x00], 3),
    (&[0xfc, 0x0a, 0x00, 0x01], 3),
    (&[0xfc, 0x0b, 0x01], 2),
    // the number behind FC
    (&[0xfc, 0x09, 0x00], 1),
    (&[0xfc, 0x0c, 0x00, 0x00], 1),
    // the bytes of a float are one run
    (&[0x43, 0x00, 0x00, 0x00], 1),
    (&[0x44, 0x00, 0x00, 0x00, 0x00, 0x00, 0x00, 0x00], 1),
];

/// Whether what is read up to an end is refused at this place.
fn is_refused(alloc: Global, bytes: &[u8], from: usize, end: usize, at: usize) -> bool {
    if from > end || end > bytes.len() {
        return false;
    }
    matches!(read_instr(alloc, bytes, from, end), Err(ItemFault::At(o)) if o == at)
}

#[test]
fn refusals_name_the_place(rt: HostRuntime) {
    let alloc = rt.alloc();
    let wrong = REFUSED.iter().position(|(bytes, at)| !is_refused(
        alloc,
        bytes,
        0,
        bytes.len(),
        *at,
    ));
    assert_eq!(rt; wrong, None);
    // the end comes first
    assert!(rt; is_refused(alloc, &[0x01, 0x20, 0x05], 1, 2, 2));
}
