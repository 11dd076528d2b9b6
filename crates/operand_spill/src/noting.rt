//! The landings of a function: which lists of operands a guard, or the test behind a call, may have
//! to hand over.

ghost use Rattle.std.specs.Prelude.{◌≡◌, ◌<◌, ◌≤◌, ℕ, List, [], nat_lt, length, Some, IfOk, OnOk};
ghost use Rattle.wasm_syntax.specs.Module.{type_at};
ghost use Rattle.wasm_syntax.specs.Tree.{Tree, Writes, Call as CallOf, jump_of, item_of};
ghost use Rattle.rewrite_bodies.specs.Numbering.{import_count};
ghost use Rattle.rewrite_bodies.specs.calls.Slots.{Ctx};
ghost use Rattle.rewrite_bodies.specs.calls.Landings.{landings_from, landing_at, with_some};
ghost use Rattle.operand_spill.specs.inner.Noting.{noted, noted_call, noted_jump};

use crate::Walk;
use crate::places::advance;
use causes::NoMemory;
use rewrite_code::{Landings, Offsets, can_trap, part_of};
use std::alloc::Global;
use wasm_syntax::{Basic, FuncType, Instr, Jump, ModuleParts, Op, ValType, read_op};

/// The landing behind a call in this part of a function of this type, which may be an import.
fn note_type(
    found: &mut Landings,
    walk: &Walk,
    part: u32,
    imported: bool,
    ftype: &FuncType,
) -> Result<(), NoMemory>
    ensures { OnOk result (found.new
        ≡ noted_call part imported (Some ftype.now) walk.now.places found.old) }
{
    if imported {
        Ok(())
    } else {
        found.note_call(part, walk.places(), ftype.params.len())
    }
}

/// Whether a function is an import.
fn is_imported(source: &ModuleParts, function: u32) -> bool
    ensures { result ≡ nat_lt function (import_count source.now) }
{
    (function as usize) < source.imports.len()
}

/// The landing behind a call in this part.
fn note_call(
    found: &mut Landings,
    walk: &Walk,
    source: &ModuleParts,
    part: u32,
    function: u32,
) -> Result<(), NoMemory>
    ensures { OnOk result (found.new ≡ noted_call part (nat_lt function (import_count source.now))
        (type_at source.now function) walk.now.places found.old) }
{
    let imported = is_imported(source, function);
    match source.type_of(function as usize) {
        Some(ftype) => note_type(found, walk, part, imported, ftype),
        None => Ok(()),
    }
}

/// The landing behind a jump in this part, if it has one.
fn note_jump(
    found: &mut Landings,
    walk: &Walk,
    source: &ModuleParts,
    part: u32,
    code: Jump,
) -> Result<(), NoMemory>
    ensures { (C : Ctx) (targets : List ℕ) → C.source ≡ source.now → OnOk result
        (found.new ≡ noted_jump C part (jump_of targets code) walk.now.places found.old) }
{
    match code {
        Jump::Call(function) => note_call(found, walk, source, part, function),
        Jump::Unreachable => Ok(()),
        Jump::Br(_) => Ok(()),
        Jump::BrIf(_) => Ok(()),
        Jump::BrTable(_, _, _) => Ok(()),
        Jump::Return => Ok(()),
        Jump::CallIndirect(_) => Ok(()),
    }
}

/// The landing of an instruction at an offset, if it has one, and needs a guard.
fn note_guard(
    found: &mut Landings,
    walk: &Walk,
    locals: &[ValType],
    exposed: &Offsets,
    offset: u32,
    instruction: Basic,
) -> Result<(), NoMemory>
    ensures { (C : Ctx) → C.locals ≡ locals.now → C.exposed ≡ exposed.now
        → OnOk result (found.new
        ≡ with_some (landing_at C offset instruction walk.now.places) found.old) }
{
    if can_trap(&instruction) && exposed.contains(offset) {
        found.note_guard(part_of(locals, offset), &instruction, walk.places())
    } else {
        Ok(())
    }
}

/// The landing of a live instruction, if it has one.
fn note(
    found: &mut Landings,
    walk: &Walk,
    locals: &[ValType],
    source: &ModuleParts,
    exposed: &Offsets,
    op: Op,
) -> Result<(), NoMemory>
    ensures { (C : Ctx) (targets : List ℕ) → C.locals ≡ locals.now → C.source ≡ source.now
        → C.exposed ≡ exposed.now → OnOk result (found.new
        ≡ noted C (Some walk.now.places) op.at (item_of targets op.code) found.old) }
{
    match op.code {
        Instr::Basic(instruction) => note_guard(found, walk, locals, exposed, op.at, instruction),
        Instr::Jump(code) => note_jump(found, walk, source, part_of(locals, op.at), code),
        Instr::Block(_) => Ok(()),
        Instr::Loop(_) => Ok(()),
        Instr::If(_) => Ok(()),
        Instr::Else => Ok(()),
        Instr::End => Ok(()),
    }
}

/// The landings of a body in a function with these locals, where these instructions need a guard.
pub fn landings(
    alloc: Global,
    locals: &[ValType],
    source: &ModuleParts,
    ops: &[Op],
    exposed: &Offsets,
) -> Result<Landings, NoMemory>
    ensures { (C : Ctx) (targets : List ℕ) (tree : Tree) → C.locals ≡ locals.now
        → C.source ≡ source.now → C.exposed ≡ exposed.now → Writes targets ops.now tree
        → IfOk result (λ found. found ≡ landings_from C [] tree.nodes []) }
{
    let mut found = Landings::new(alloc);
    let mut walk = Walk::new(alloc, None);
    let mut pc = 0;
    while pc < ops.len() {
        let op = read_op(ops, pc);
        note(&mut found, &walk, locals, source, exposed, op)?;
        pc = advance(&mut walk, locals, source, ops, pc)?;
    }
    Ok(found)
}
