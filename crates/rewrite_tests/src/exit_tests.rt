//! Locals that are worked out where a frame is left, found in a body and written out by hand.

ghost use Rattle.std.specs.Prelude.{◌≡◌, []};

use crate::code_tests::is_written;
use crate::modules::{Asked, is_so};
use causes::NoMemory;
use operand_spill::{derivations, exposed};
use pm_text::Items;
use rewrite_code::{CodeWriter, Derivation, FunctionContext, Offsets};
use std::alloc::Global;
use unwind_rewrite::{close_body, open_body};
use wasm_syntax::{Basic, Binary, Instr, Jump, ModuleParts, ValType, Value};

/// A function of six locals, two of which are set between two divisions. Behind them, local 2 is
/// the first one less the second one (byte 41), local 3 is that and the first one by `xor` (byte
/// 48), and local 4 is that and the second one by `or`.
const DERIVED: [u8; 64] = [
    0x00, 0x61, 0x73, 0x6d, 0x01, 0x00, 0x00, 0x00, 0x01, 0x05, 0x01, 0x60, 0x00, 0x01, 0x7f, 0x03,
    0x02, 0x01, 0x00, 0x0a, 0x2b, 0x01, 0x29, 0x01, 0x06, 0x7f, 0x41, 0x01, 0x41, 0x02, 0x6e, 0x21,
    0x00, 0x41, 0x07, 0x21, 0x01, 0x20, 0x00, 0x20, 0x01, 0x6b, 0x21, 0x02, 0x20, 0x02, 0x20, 0x00,
    0x73, 0x21, 0x03, 0x20, 0x03, 0x20, 0x01, 0x72, 0x21, 0x04, 0x20, 0x04, 0x20, 0x01, 0x6e, 0x0b,
];

// Around no nodes: the length of the memory is read, for a division has a guard. Behind the exit
// block locals 2 and 3 are worked out, a third of the locals and no more, and then all six are
// handed over.
const EXIT: [Instr; 37] = [
    Instr::Basic(Basic::GlobalGet(1)),
    Instr::Basic(Basic::LocalSet(18)),
    Instr::Block(None),
    Instr::Block(Some(ValType::I32)),
    Instr::End,
    Instr::Jump(Jump::Return),
    Instr::End,
    Instr::Basic(Basic::LocalGet(0)),
    Instr::Basic(Basic::LocalGet(1)),
    Instr::Basic(Basic::Binary(ValType::I32, Binary::Sub)),
    Instr::Basic(Basic::LocalSet(2)),
    Instr::Basic(Basic::LocalGet(2)),
    Instr::Basic(Basic::LocalGet(0)),
    Instr::Basic(Basic::Binary(ValType::I32, Binary::Xor)),
    Instr::Basic(Basic::LocalSet(3)),
    Instr::Basic(Basic::LocalGet(0)),
    Instr::Jump(Jump::Call(0)),
    Instr::Basic(Basic::LocalGet(1)),
    Instr::Jump(Jump::Call(0)),
    Instr::Basic(Basic::LocalGet(2)),
    Instr::Jump(Jump::Call(0)),
    Instr::Basic(Basic::LocalGet(3)),
    Instr::Jump(Jump::Call(0)),
    Instr::Basic(Basic::LocalGet(4)),
    Instr::Jump(Jump::Call(0)),
    Instr::Basic(Basic::LocalGet(5)),
    Instr::Jump(Jump::Call(0)),
    Instr::Basic(Basic::LocalGet(11)),
    Instr::Basic(Basic::Const(Value::I32(0))),
    Instr::Basic(Basic::LocalGet(12)),
    Instr::Basic(Basic::Const(Value::I32(6))),
    Instr::Jump(Jump::Call(2)),
    Instr::Basic(Basic::Const(Value::I32(1))),
    Instr::Basic(Basic::GlobalSet(0)),
    Instr::Basic(Basic::Const(Value::I32(0))),
    Instr::Jump(Jump::Return),
    Instr::End,
];

/// All that stands around the nodes of a body without landings.
pub fn around(context: &FunctionContext<'_, '_>, writer: &mut CodeWriter) -> Result<(), NoMemory>
    requires none { context.now.landings ≡ [] }
{
    open_body(context, writer)?;
    close_body(context, writer)
}

/// Those of the function.
pub const LOCALS: [ValType; 6] = [ValType::I32; 6];

/// Which instructions of the first function need a guard.
pub fn guards(alloc: Global, parts: &ModuleParts) -> Result<Offsets, NoMemory> {
    match parts.bodies.get(0) {
        Some(body) => exposed(alloc, parts, body.ops.as_slice()),
        None => Ok(Offsets::new(alloc)),
    }
}

/// Which locals of the first function are worked out, where these instructions need a guard.
pub fn found(
    alloc: Global,
    parts: &ModuleParts,
    guarded: &Offsets,
) -> Result<Items<Derivation>, NoMemory> {
    match parts.bodies.get(0) {
        Some(body) => derivations(alloc, parts, 0, &LOCALS, body.ops.as_slice(), guarded),
        None => Ok(Items::new(alloc)),
    }
}

/// Whether that is written around no nodes.
pub fn has_exit(alloc: Global, context: &FunctionContext<'_, '_>) -> bool
    requires none { context.now.landings ≡ [] }
{
    let mut writer = CodeWriter::new(alloc);
    let written = around(context, &mut writer).is_ok();
    is_written(alloc, writer, &EXIT) && written
}

fn counts(alloc: Global, parts: &ModuleParts, guarded: &Offsets, expected: usize) -> bool {
    match found(alloc, parts, guarded) {
        Ok(derived) => derived.len() == expected,
        Err(_) => false,
    }
}

/// Whether so many locals of the first function are worked out.
pub fn counts_of(alloc: Global, parts: &ModuleParts, expected: usize) -> bool {
    match guards(alloc, parts) {
        Ok(guarded) => counts(alloc, parts, &guarded, expected),
        Err(_) => false,
    }
}

/// With `div_s` at a byte.
fn divided(at: usize) -> [u8; 64] {
    let mut bytes = DERIVED;
    if at < 64 {
        bytes[at] = 0x6d;
    }
    bytes
}

// A local that is given by a division is not worked out, nor is one of which an operand was written
// before the frame could be left.
#[test]
fn locals_are_worked_out_at_the_exit(rt: HostRuntime) {
    let alloc = rt.alloc();
    assert!(rt; is_so(alloc, &DERIVED, &Asked::Exit));
    assert!(rt; is_so(alloc, &DERIVED, &Asked::Derived(2)));
    // with `div_s` in place of `xor`, and of the subtraction
    assert!(rt; is_so(alloc, &divided(48), &Asked::Derived(1)));
    assert!(rt; is_so(alloc, &divided(41), &Asked::Derived(0)));
}
