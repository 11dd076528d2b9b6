//! Bodies that were written out by hand.

use causes::NoMemory;
use pm_text::Items;
use rewrite_code::{CodeWriter, OperandPlace, OperandPlaces};
use std::alloc::Global;
use wasm_syntax::{Body, Instr, Jump, LocalGroup, Op, ValType};

fn is_op(op: &Op, at: usize, code: &Instr) -> bool {
    op.at as usize == at && op.len == 0 && op.code.is_same(code)
}

// Each instruction at the offset of its number, with length 0.
fn is_code(body: &Body, expected: &[Instr]) -> bool {
    let ops = body.ops.as_slice();
    if ops.len() != expected.len() {
        return false;
    }
    for i in 0..ops.len() {
        if !is_op(&ops[i], i, &expected[i]) {
            return false;
        }
    }
    body.start == 0
}

/// Whether these instructions were written.
pub fn is_written(alloc: Global, writer: CodeWriter, expected: &[Instr]) -> bool {
    match writer.finish(Items::new(alloc)) {
        Ok(body) => is_code(&body, expected),
        Err(_) => false,
    }
}

/// Places of operands, the deepest first.
pub fn places_of(alloc: Global, items: &[OperandPlace]) -> Result<OperandPlaces, NoMemory> {
    let mut places = OperandPlaces::new(alloc);
    for item in items {
        places.push(*item)?;
    }
    Ok(places)
}

fn table(writer: &mut CodeWriter, targets: &[u32]) -> Result<(), NoMemory> {
    if writer.has_room(targets.len()) {
        writer.branch_table(targets, 1)
    } else {
        Err(NoMemory)
    }
}

fn arms(writer: &mut CodeWriter) -> Result<(), NoMemory> {
    writer.open_if(None)?;
    table(writer, &[0, 1])?;
    writer.alternate()?;
    table(writer, &[2])?;
    writer.close()
}

// Each other instruction of control.
fn branches(writer: &mut CodeWriter) -> Result<(), NoMemory> {
    writer.open_block(None)?;
    writer.open_loop(Some(ValType::I64))?;
    writer.branch_if(1)?;
    writer.close()?;
    writer.branch(0)?;
    writer.close()?;
    writer.call_indirect(4)?;
    writer.return_values()
}

const BRANCHES: [Instr; 14] = [
    Instr::If(None),
    Instr::Jump(Jump::BrTable(0, 2, 1)),
    Instr::Else,
    Instr::Jump(Jump::BrTable(2, 1, 1)),
    Instr::End,
    Instr::Block(None),
    Instr::Loop(Some(ValType::I64)),
    Instr::Jump(Jump::BrIf(1)),
    Instr::End,
    Instr::Jump(Jump::Br(0)),
    Instr::End,
    Instr::Jump(Jump::CallIndirect(4)),
    Instr::Jump(Jump::Return),
    Instr::End,
];

fn all_branches(writer: &mut CodeWriter) -> Result<(), NoMemory> {
    arms(writer)?;
    branches(writer)
}

const GROUP: [LocalGroup; 1] = [LocalGroup {
    count: 2,
    vtype: ValType::I64,
}];

fn has_branches(body: &Body) -> bool {
    is_code(body, &BRANCHES)
        && matches!(body.targets.as_slice(), [0, 1, 2])
        && body.groups.len() == 1
}

fn finishes(writer: CodeWriter, groups: Items<LocalGroup>) -> bool {
    match writer.finish(groups) {
        Ok(body) => has_branches(&body),
        Err(_) => false,
    }
}

fn writes_all(alloc: Global, groups: Items<LocalGroup>) -> bool {
    let mut writer = CodeWriter::new(alloc);
    let written = all_branches(&mut writer).is_ok();
    finishes(writer, groups) && written
}

fn branches_are_written(alloc: Global) -> bool {
    match Items::from_slice(alloc, &GROUP) {
        Ok(groups) => writes_all(alloc, groups),
        Err(_) => false,
    }
}

#[test]
fn writes_branches(rt: HostRuntime) {
    assert!(rt; branches_are_written(rt.alloc()));
}
