//! Pieces of rewritten bodies, written out by hand from the definitions, for a function of an i32
//! and an i64 that gives an i32, with four heights.

ghost use Rattle.std.specs.Prelude.{◌≡◌, ◌≤◌, ◌<◌, [], length};
ghost use Rattle.std.specs.Bool.{OnTrue};
ghost use Rattle.wasm_syntax.specs.Module.{function_types};

use crate::code_tests::{is_written, places_of};
use crate::exit_tests::around;
use crate::modules::{Asked, is_so};
use causes::NoMemory;
use guard_insert::guarded;
use index_map::IndexMap;
use rewrite_code::{CodeWriter, FunctionContext, Offsets, OperandPlace, OperandPlaces, drops};
use std::alloc::Global;
use unwind_rewrite::{
    Site, TypeNumbers, branch_table, call_function, call_through_table, close_block, helper,
    open_block, trap, wrapper,
};
use wasm_syntax::{
    Basic, Binary, Compare, Convert, FuncType, Instr, Jump, ModuleParts, ValType, Value,
};

/// Function 0 is imported; function 1 calls through a table, and is exported. Both have type 0.
/// There are a global and a memory.
const MODULE: [u8; 71] = [
    0x00, 0x61, 0x73, 0x6d, 0x01, 0x00, 0x00, 0x00, 0x01, 0x07, 0x01, 0x60, 0x02, 0x7f, 0x7e, 0x01,
    0x7f, 0x02, 0x07, 0x01, 0x01, 0x61, 0x01, 0x62, 0x00, 0x00, 0x03, 0x02, 0x01, 0x00, 0x04, 0x04,
    0x01, 0x70, 0x00, 0x02, 0x05, 0x03, 0x01, 0x00, 0x01, 0x06, 0x06, 0x01, 0x7f, 0x01, 0x41, 0x00,
    0x0b, 0x07, 0x05, 0x01, 0x01, 0x66, 0x00, 0x01, 0x0a, 0x0d, 0x01, 0x0b, 0x00, 0x20, 0x00, 0x20,
    0x01, 0x20, 0x00, 0x11, 0x00, 0x00, 0x0b,
];

const EQUAL: Instr = Instr::Basic(Basic::Compare(ValType::I64, Compare::Eq));

// Operands go to the stack and to slots, stay there besides, and go to the collector; a signed
// division is guarded; and copies of one local, or of any, go to their slots.
const MOVES: [Instr; 44] = [
    Instr::Basic(Basic::Const(Value::I64(7))),
    Instr::Basic(Basic::LocalGet(11)),
    Instr::Basic(Basic::LocalSet(11)),
    Instr::Basic(Basic::LocalTee(11)),
    Instr::Basic(Basic::LocalGet(3)),
    Instr::Basic(Basic::LocalGet(11)),
    Instr::Jump(Jump::Call(2)),
    Instr::Basic(Basic::Const(Value::I64(7))),
    Instr::Basic(Basic::Const(Value::I64(0x8000_0000_0000_0000))),
    EQUAL,
    Instr::Basic(Basic::LocalGet(11)),
    Instr::Basic(Basic::Const(Value::I64(0xFFFF_FFFF_FFFF_FFFF))),
    EQUAL,
    Instr::Basic(Basic::Binary(ValType::I32, Binary::And)),
    Instr::Basic(Basic::LocalGet(11)),
    Instr::Basic(Basic::Eqz(ValType::I64)),
    Instr::Basic(Basic::Binary(ValType::I32, Binary::Or)),
    Instr::If(None),
    Instr::Basic(Basic::Const(Value::I32(2))),
    Instr::Basic(Basic::Const(Value::I32(3))),
    Instr::Basic(Basic::LocalGet(11)),
    Instr::Basic(Basic::Eqz(ValType::I64)),
    Instr::Basic(Basic::Select),
    Instr::Basic(Basic::LocalSet(7)),
    Instr::Basic(Basic::Const(Value::I32(5))),
    Instr::Basic(Basic::LocalSet(8)),
    Instr::Basic(Basic::LocalGet(2)),
    Instr::Jump(Jump::Call(1)),
    Instr::Basic(Basic::Const(Value::I64(7))),
    Instr::Jump(Jump::Call(2)),
    Instr::Basic(Basic::LocalGet(11)),
    Instr::Jump(Jump::Call(2)),
    Instr::Jump(Jump::Br(2)),
    Instr::End,
    Instr::Basic(Basic::LocalGet(0)),
    Instr::Basic(Basic::LocalSet(2)),
    Instr::Basic(Basic::LocalGet(0)),
    Instr::Basic(Basic::LocalSet(2)),
    Instr::Basic(Basic::LocalGet(1)),
    Instr::Basic(Basic::LocalSet(11)),
    Instr::Basic(Basic::LocalGet(1)),
    Instr::Basic(Basic::Drop),
    Instr::Basic(Basic::Drop),
    Instr::End,
];

// A block over copies of locals, a table, and `unreachable` over an i32 and an i64.
const BRANCHES: [Instr; 24] = [
    Instr::Basic(Basic::LocalGet(0)),
    Instr::Basic(Basic::LocalSet(2)),
    Instr::Basic(Basic::LocalGet(1)),
    Instr::Basic(Basic::LocalSet(11)),
    Instr::Basic(Basic::LocalGet(0)),
    Instr::Basic(Basic::LocalSet(5)),
    Instr::Block(Some(ValType::I64)),
    Instr::End,
    Instr::Basic(Basic::LocalTee(12)),
    Instr::Jump(Jump::BrTable(0, 2, 1)),
    Instr::Basic(Basic::Const(Value::I32(1))),
    Instr::If(None),
    Instr::Basic(Basic::Const(Value::I32(1))),
    Instr::Basic(Basic::LocalSet(7)),
    Instr::Basic(Basic::Const(Value::I32(3))),
    Instr::Basic(Basic::LocalSet(8)),
    Instr::Basic(Basic::LocalGet(2)),
    Instr::Jump(Jump::Call(1)),
    Instr::Basic(Basic::LocalGet(10)),
    Instr::Jump(Jump::Call(2)),
    Instr::Jump(Jump::Br(2)),
    Instr::End,
    Instr::Jump(Jump::Unreachable),
    Instr::End,
];

// A call through the table with an operand left, of the function that the module defines, and of
// the imported one. Behind the first and the last one the memory may be longer, and behind each one
// what tells its length is read into a local.
const CALLS: [Instr; 68] = [
    Instr::Basic(Basic::LocalGet(5)),
    Instr::Jump(Jump::Call(6)),
    Instr::Basic(Basic::LocalSet(7)),
    Instr::Basic(Basic::LocalGet(7)),
    Instr::Basic(Basic::Eqz(ValType::I32)),
    Instr::If(None),
    Instr::Basic(Basic::LocalGet(3)),
    Instr::Basic(Basic::Const(Value::I64(7))),
    Instr::Basic(Basic::LocalGet(5)),
    Instr::Jump(Jump::CallIndirect(0)),
    Instr::Basic(Basic::LocalSet(3)),
    Instr::End,
    Instr::Basic(Basic::LocalGet(7)),
    Instr::Basic(Basic::GlobalGet(1)),
    Instr::Basic(Basic::Binary(ValType::I32, Binary::Or)),
    Instr::If(None),
    Instr::Basic(Basic::Const(Value::I32(9))),
    Instr::Basic(Basic::LocalSet(8)),
    Instr::Basic(Basic::LocalGet(9)),
    Instr::Jump(Jump::Call(2)),
    Instr::Basic(Basic::LocalGet(7)),
    Instr::If(None),
    Instr::Basic(Basic::LocalGet(3)),
    Instr::Jump(Jump::Call(1)),
    Instr::Basic(Basic::Const(Value::I64(7))),
    Instr::Jump(Jump::Call(2)),
    Instr::Basic(Basic::LocalGet(5)),
    Instr::Jump(Jump::Call(1)),
    Instr::End,
    Instr::Jump(Jump::Br(2)),
    Instr::End,
    Instr::Basic(Basic::Drop),
    Instr::Basic(Basic::Drop),
    Instr::Basic(Basic::Drop),
    Instr::Basic(Basic::MemorySize),
    Instr::Basic(Basic::Convert(Convert::ExtendU)),
    Instr::Basic(Basic::Const(Value::I64(16))),
    Instr::Basic(Basic::Binary(ValType::I64, Binary::Shl)),
    Instr::Basic(Basic::Const(Value::I64(4))),
    Instr::Basic(Basic::Binary(ValType::I64, Binary::Sub)),
    Instr::Basic(Basic::GlobalSet(2)),
    Instr::Basic(Basic::GlobalGet(2)),
    Instr::Basic(Basic::LocalSet(14)),
    Instr::Basic(Basic::LocalGet(3)),
    Instr::Jump(Jump::Call(4)),
    Instr::Basic(Basic::LocalTee(2)),
    Instr::Basic(Basic::GlobalGet(1)),
    Instr::If(None),
    Instr::Basic(Basic::Const(Value::I32(0))),
    Instr::Basic(Basic::LocalSet(7)),
    Instr::Basic(Basic::Const(Value::I32(12))),
    Instr::Basic(Basic::LocalSet(8)),
    Instr::Jump(Jump::Br(2)),
    Instr::End,
    Instr::Basic(Basic::GlobalGet(2)),
    Instr::Basic(Basic::LocalSet(14)),
    Instr::Jump(Jump::Call(0)),
    Instr::Basic(Basic::LocalTee(2)),
    Instr::Basic(Basic::MemorySize),
    Instr::Basic(Basic::Convert(Convert::ExtendU)),
    Instr::Basic(Basic::Const(Value::I64(16))),
    Instr::Basic(Basic::Binary(ValType::I64, Binary::Shl)),
    Instr::Basic(Basic::Const(Value::I64(4))),
    Instr::Basic(Basic::Binary(ValType::I64, Binary::Sub)),
    Instr::Basic(Basic::GlobalSet(2)),
    Instr::Basic(Basic::GlobalGet(2)),
    Instr::Basic(Basic::LocalSet(14)),
    Instr::End,
];

// The ends of a body without nodes, a wrapper, and a helper of a table with an empty entry and one
// of the right type.
const ENDS: [Instr; 64] = [
    Instr::Basic(Basic::GlobalGet(2)),
    Instr::Basic(Basic::LocalSet(14)),
    Instr::Block(None),
    Instr::Block(Some(ValType::I32)),
    Instr::End,
    Instr::Jump(Jump::Return),
    Instr::End,
    Instr::Basic(Basic::LocalGet(0)),
    Instr::Jump(Jump::Call(1)),
    Instr::Basic(Basic::LocalGet(1)),
    Instr::Jump(Jump::Call(2)),
    Instr::Basic(Basic::LocalGet(7)),
    Instr::Basic(Basic::Const(Value::I32(1))),
    Instr::Basic(Basic::LocalGet(8)),
    Instr::Basic(Basic::Const(Value::I32(2))),
    Instr::Jump(Jump::Call(3)),
    Instr::Basic(Basic::Const(Value::I32(1))),
    Instr::Basic(Basic::GlobalSet(1)),
    Instr::Basic(Basic::Const(Value::I32(0))),
    Instr::Jump(Jump::Return),
    Instr::Basic(Basic::Const(Value::I32(0))),
    Instr::Basic(Basic::GlobalSet(1)),
    Instr::Basic(Basic::MemorySize),
    Instr::Basic(Basic::Convert(Convert::ExtendU)),
    Instr::Basic(Basic::Const(Value::I64(16))),
    Instr::Basic(Basic::Binary(ValType::I64, Binary::Shl)),
    Instr::Basic(Basic::Const(Value::I64(4))),
    Instr::Basic(Basic::Binary(ValType::I64, Binary::Sub)),
    Instr::Basic(Basic::GlobalSet(2)),
    Instr::Basic(Basic::LocalGet(0)),
    Instr::Basic(Basic::LocalGet(1)),
    Instr::Jump(Jump::Call(4)),
    Instr::Basic(Basic::GlobalGet(1)),
    Instr::If(None),
    Instr::Basic(Basic::GlobalGet(0)),
    Instr::Jump(Jump::Call(1)),
    Instr::Basic(Basic::Const(Value::I32(255))),
    Instr::Basic(Basic::Const(Value::I32(0))),
    Instr::Basic(Basic::Const(Value::I32(0))),
    Instr::Basic(Basic::Const(Value::I32(1))),
    Instr::Jump(Jump::Call(3)),
    Instr::Basic(Basic::Const(Value::I32(0))),
    Instr::Basic(Basic::GlobalSet(1)),
    Instr::Jump(Jump::Unreachable),
    Instr::End,
    Instr::Block(None),
    Instr::Block(None),
    Instr::Block(None),
    Instr::Block(None),
    Instr::Basic(Basic::LocalGet(0)),
    Instr::Jump(Jump::BrTable(0, 2, 1)),
    Instr::End,
    Instr::Basic(Basic::Const(Value::I32(0))),
    Instr::Jump(Jump::Return),
    Instr::End,
    Instr::Basic(Basic::Const(Value::I32(5))),
    Instr::Jump(Jump::Return),
    Instr::End,
    Instr::Basic(Basic::Const(Value::I32(6))),
    Instr::Jump(Jump::Return),
    Instr::End,
    Instr::Basic(Basic::Const(Value::I32(7))),
    Instr::Jump(Jump::Return),
    Instr::End,
];

// An i32, a constant and an i64.
const THREE: [OperandPlace; 3] = [
    OperandPlace::Spilled(ValType::I32),
    OperandPlace::Known(Value::I64(7)),
    OperandPlace::Spilled(ValType::I64),
];

// A copy of the i32, a constant, a copy of the i64, and one of the i32.
const COPIES: [OperandPlace; 4] = [
    OperandPlace::Copied(ValType::I32, 0),
    OperandPlace::Known(Value::I64(7)),
    OperandPlace::Copied(ValType::I64, 1),
    OperandPlace::Copied(ValType::I32, 0),
];

// An i32 and an i64.
const TWO: [OperandPlace; 2] = [
    OperandPlace::Spilled(ValType::I32),
    OperandPlace::Spilled(ValType::I64),
];

// An i64, an i32, a constant and the index of an entry.
const FOUR: [OperandPlace; 4] = [
    OperandPlace::Spilled(ValType::I64),
    OperandPlace::Spilled(ValType::I32),
    OperandPlace::Known(Value::I64(7)),
    OperandPlace::Spilled(ValType::I32),
];

fn moves_top(
    context: &FunctionContext<'_, '_>,
    writer: &mut CodeWriter,
    places: &OperandPlaces,
) -> Result<(), NoMemory>
    requires room { length places.now ≤ context.now.slots }
    requires heights { 4 ≤ context.now.slots }
{
    context.load(writer, 2, places)?;
    context.store(writer, Some(ValType::I64), 2)?;
    context.keep(writer, false, Some(OperandPlace::Spilled(ValType::I64)), 2)
}

fn moves_back(
    context: &FunctionContext<'_, '_>,
    writer: &mut CodeWriter,
    places: &OperandPlaces,
) -> Result<(), NoMemory>
    requires room { length places.now ≤ context.now.slots }
    requires heights { 4 ≤ context.now.slots }
{
    context.reload(writer, Some(ValType::I32), 1)?;
    context.hand_top(writer, 1, places)
}

const DIVISION: Basic = Basic::Binary(ValType::I64, Binary::DivS);

fn moves(
    context: &FunctionContext<'_, '_>,
    writer: &mut CodeWriter,
    places: &OperandPlaces,
) -> Result<(), NoMemory>
    requires room { length places.now ≤ context.now.slots }
    requires heights { 4 ≤ context.now.slots }
{
    moves_top(context, writer, places)?;
    moves_back(context, writer, places)?;
    guarded(context, writer, 1, places, 5, &DIVISION)
}

fn spills_copies(
    context: &FunctionContext<'_, '_>,
    writer: &mut CodeWriter,
    copies: &OperandPlaces,
) -> Result<(), NoMemory>
    requires { length copies.now ≤ context.now.slots }
{
    context.spill(writer, Some(0), 1, copies)?;
    context.spill(writer, None, 1, copies)
}

// What becomes of copies.
fn spills(
    context: &FunctionContext<'_, '_>,
    writer: &mut CodeWriter,
    copies: &OperandPlaces,
) -> Result<(), NoMemory>
    requires room { length copies.now ≤ context.now.slots }
    requires heights { 4 ≤ context.now.slots }
{
    spills_copies(context, writer, copies)?;
    context.fetch(writer, OperandPlace::Copied(ValType::I64, 1), 2)?;
    drops(writer, 2)
}

fn blocks(
    context: &FunctionContext<'_, '_>,
    writer: &mut CodeWriter,
    copies: &OperandPlaces,
) -> Result<(), NoMemory>
    requires room { length copies.now ≤ context.now.slots }
    requires heights { 4 ≤ context.now.slots }
{
    open_block(context, writer, Some(ValType::I64), copies)?;
    close_block(context, writer, false, Some(ValType::I64), 3)
}

fn branches(
    context: &FunctionContext<'_, '_>,
    writer: &mut CodeWriter,
    targets: &[u32],
    places: &OperandPlaces,
) -> Result<(), NoMemory>
    requires { length places.now ≤ context.now.slots }
{
    branch_table(writer, targets, 1)?;
    let site = Site {
        labels: 1,
        places,
        offset: 3,
        passing: false,
    };
    trap(context, writer, &site)
}

// A call behind one that took so many operands and gave an i32.
fn call_behind(
    context: &FunctionContext<'_, '_>,
    writer: &mut CodeWriter,
    places: &mut OperandPlaces,
    taken: usize,
    offset: u32,
    function: u32,
    ftype: &FuncType,
) -> Result<(), NoMemory>
    requires there { function < length (function_types context.now.source) }
    requires heights { 4 ≤ context.now.slots }
{
    places.discard(taken);
    places.push(OperandPlace::Spilled(ValType::I32))?;
    if places.len() <= 4 {
        let site = Site {
            labels: 1,
            places,
            offset,
            passing: false,
        };
        call_function(context, writer, &site, function, ftype)
    } else {
        Ok(())
    }
}

fn call_entry(
    context: &FunctionContext<'_, '_>,
    writer: &mut CodeWriter,
    places: &OperandPlaces,
    ftype: &FuncType,
) -> Result<(), NoMemory>
    requires { length places.now ≤ context.now.slots }
{
    let numbers = TypeNumbers {
        index: 0,
        helper: 6,
    };
    let site = Site {
        labels: 1,
        places,
        offset: 9,
        passing: false,
    };
    call_through_table(context, writer, &site, numbers, ftype)
}

fn calls(
    context: &FunctionContext<'_, '_>,
    writer: &mut CodeWriter,
    places: &mut OperandPlaces,
    ftype: &FuncType,
) -> Result<(), NoMemory>
    requires there { 1 < length (function_types context.now.source) }
    requires room { length places.old ≤ context.now.slots }
    requires heights { 4 ≤ context.now.slots }
{
    call_entry(context, writer, places, ftype)?;
    call_behind(context, writer, places, 3, 12, 1, ftype)?;
    call_behind(context, writer, places, 2, 15, 0, ftype)
}

fn wraps(map: &IndexMap<'_>, writer: &mut CodeWriter, entries: &[u32]) -> Result<(), NoMemory>
    requires { 1 < length (function_types map.now) }
{
    wrapper(map, writer, map.source().globals.as_slice(), 1, 2)?;
    helper(writer, entries)
}

fn ends(context: &FunctionContext<'_, '_>, writer: &mut CodeWriter) -> Result<(), NoMemory>
    requires there { 1 < length (function_types context.now.source) }
    requires none { context.now.landings ≡ [] }
{
    around(context, writer)?;
    wraps(context.map(), writer, &[2, 0])
}

fn has_moved(alloc: Global, context: &FunctionContext<'_, '_>, writer: &mut CodeWriter) -> bool
    requires { 4 ≤ context.now.slots }
{
    match places_of(alloc, &THREE) {
        Ok(places) => places.len() <= 4 && moves(context, writer, &places).is_ok(),
        Err(_) => false,
    }
}

fn has_spilled(alloc: Global, context: &FunctionContext<'_, '_>, writer: &mut CodeWriter) -> bool
    requires { 4 ≤ context.now.slots }
{
    match places_of(alloc, &COPIES) {
        Ok(copies) => copies.len() <= 4 && spills(context, writer, &copies).is_ok(),
        Err(_) => false,
    }
}

fn writes_moves(alloc: Global, context: &FunctionContext<'_, '_>) -> bool
    requires { 4 ≤ context.now.slots }
{
    let mut writer = CodeWriter::new(alloc);
    let moved = has_moved(alloc, context, &mut writer);
    let spilled = has_spilled(alloc, context, &mut writer);
    is_written(alloc, writer, &MOVES) && moved && spilled
}

fn has_blocks(alloc: Global, context: &FunctionContext<'_, '_>, writer: &mut CodeWriter) -> bool
    requires { 4 ≤ context.now.slots }
{
    match places_of(alloc, &COPIES) {
        Ok(copies) => copies.len() <= 4 && blocks(context, writer, &copies).is_ok(),
        Err(_) => false,
    }
}

fn has_branched(alloc: Global, context: &FunctionContext<'_, '_>, writer: &mut CodeWriter) -> bool
    requires { 4 ≤ context.now.slots }
{
    match places_of(alloc, &TWO) {
        Ok(places) => places.len() <= 4 && branches(context, writer, &[0, 1], &places).is_ok(),
        Err(_) => false,
    }
}

fn writes_branches(alloc: Global, context: &FunctionContext<'_, '_>) -> bool
    requires { 4 ≤ context.now.slots }
{
    let mut writer = CodeWriter::new(alloc);
    let opened = has_blocks(alloc, context, &mut writer);
    let branched = has_branched(alloc, context, &mut writer);
    is_written(alloc, writer, &BRANCHES) && opened && branched
}

fn has_called(
    alloc: Global,
    context: &FunctionContext<'_, '_>,
    writer: &mut CodeWriter,
    ftype: &FuncType,
) -> bool
    requires there { 1 < length (function_types context.now.source) }
    requires heights { 4 ≤ context.now.slots }
{
    match places_of(alloc, &FOUR) {
        Ok(mut places) => places.len() <= 4 && calls(context, writer, &mut places, ftype).is_ok(),
        Err(_) => false,
    }
}

fn writes_calls(alloc: Global, context: &FunctionContext<'_, '_>, ftype: &FuncType) -> bool
    requires there { 1 < length (function_types context.now.source) }
    requires heights { 4 ≤ context.now.slots }
{
    let mut writer = CodeWriter::new(alloc);
    let called = has_called(alloc, context, &mut writer, ftype);
    is_written(alloc, writer, &CALLS) && called
}

fn writes_ends(alloc: Global, context: &FunctionContext<'_, '_>) -> bool
    requires there { 1 < length (function_types context.now.source) }
    requires none { context.now.landings ≡ [] }
{
    let mut writer = CodeWriter::new(alloc);
    let ended = ends(context, &mut writer).is_ok();
    is_written(alloc, writer, &ENDS) && ended
}

/// Whether there are an import and a function.
pub fn has_two_functions(parts: &ModuleParts) -> bool
    ensures { OnTrue result (1 < length (function_types parts.now)) }
{
    if parts.imports.is_empty() || parts.functions.is_empty() {
        return false;
    }
    true
}

fn writes_functions(alloc: Global, context: &FunctionContext<'_, '_>, parts: &ModuleParts) -> bool
    requires heights { 4 ≤ context.now.slots }
    requires none { context.now.landings ≡ [] }
    requires same { parts.now ≡ context.now.source }
{
    let Some(ftype) = parts.types.get(0) else {
        return false;
    };
    if !has_two_functions(parts) {
        return false;
    }
    writes_ends(alloc, context) && writes_calls(alloc, context, ftype)
}

/// Whether all pieces are written.
pub fn writes_all(alloc: Global, context: &FunctionContext<'_, '_>) -> bool
    requires heights { 4 ≤ context.now.slots }
    requires none { context.now.landings ≡ [] }
{
    writes_moves(alloc, context)
        && writes_branches(alloc, context)
        && writes_functions(alloc, context, context.map().source())
}

/// Those of the function.
pub const LOCALS: [ValType; 2] = [ValType::I32, ValType::I64];

/// The division needs its guard.
pub fn five(alloc: Global) -> Result<Offsets, NoMemory> {
    let mut offsets = Offsets::new(alloc);
    offsets.note(5)?;
    Ok(offsets)
}

#[test]
fn pieces_are_written(rt: HostRuntime) {
    assert!(rt; is_so(rt.alloc(), &MODULE, &Asked::Pieces));
}
