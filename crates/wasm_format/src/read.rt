//! Reading an instruction.

ghost use Rattle.std.specs.Prelude.{ℕ, ◌≡◌, ◌≢◌, ◌+◌, ◌^◌, ◌<◌, ◌≤◌, length, take, OnOk};
ghost use Rattle.wasm_bytes.specs.declared.faults.ItemFault.TheVariants.{At};
ghost use Rattle.wasm_bytes.specs.Place.{Moves, Stays};
ghost use Rattle.wasm_bytes.specs.calls.Answers.{Reads, Gives, with_state};
ghost use Rattle.wasm_format.specs.Reading.{made, opcode_item, more_targets, labels_code, code_item, beside, instr_at};
ghost use Rattle.wasm_format.specs.Reading.{Answers};
ghost use Rattle.wasm_format.specs.calls.Meaning.{IsInstrAt, BreaksAt, Exactly};
ghost use Rattle.wasm_format.specs.declared.code.ReadInstr.{ReadInstr};

use crate::code::{Code, ReadInstr};
use crate::control::read_control;
use crate::memory::{read_bulk, read_load, read_size_or_constant, read_store};
use crate::numeric::read_numeric;
use crate::variable::{read_parametric, read_variable};
use pm_text::Items;
use std::alloc::Global;
use wasm_bytes::{ItemFault, Malformed, Reader};
use wasm_syntax::{Instr, Jump, Labels};

/// An instruction that is no `br_table`, behind its opcode, which stood at that offset.
#[tactic(auto, unfolding(crate::specs::Table::form_of))]
fn read_plain(opcode: u8, at: usize, reader: &mut Reader<'_>) -> Result<Code, Malformed>
    requires { opcode ≢ 0x0e }
    ensures item { (base : ℕ) → Reads (made result) reader.new
        (opcode_item base at opcode reader.old) }
    ensures stays { OnOk result (Stays reader.old reader.new) }
{
    match opcode {
        0x00..=0x11 => read_control(opcode, at, reader),
        0x12..=0x1b => read_parametric(opcode, at, reader),
        0x1c..=0x24 => read_variable(opcode, at, reader),
        0x25..=0x35 => read_load(opcode, at, reader),
        0x36..=0x3e => read_store(opcode, at, reader),
        0x3f..=0x44 => read_size_or_constant(opcode, at, reader),
        0x45..=0xc4 => Ok(read_numeric(opcode, at)),
        0xfc => read_bulk(reader),
        _ => Err(Malformed { at }),
    }
}

/// Targets of a `br_table`, which are added to those before them.
fn read_targets(count: u32, targets: &mut Labels, reader: &mut Reader<'_>) -> Result<(), ItemFault>
    ensures item { Gives (with_state targets.new result) reader.new
        (more_targets targets.old count reader.old) }
    ensures stays { OnOk result (Stays reader.old reader.new) }
    ensures counted { OnOk result (length targets.new ≡ length targets.old + count) }
    ensures bounded { OnOk result (count + reader.old.at ≤ reader.new.at) }
{
    'targets: for _ in 0..count {
        targets.push(reader.u32()?)?;
    }
    Ok(())
}

/// A `br_table`, behind its opcode: its targets, which are added to those before them, and its
/// default.
#[tactic(auto, unfolding(wasm_bytes::specs::Reading::vector_item))]
fn read_labels(targets: &mut Labels, reader: &mut Reader<'_>) -> Result<Code, ItemFault>
    requires { length targets.old < 2 ^ 32 }
    ensures item { Gives (beside targets.new result) reader.new
        (labels_code targets.old reader.old) }
    ensures stays { OnOk result (Stays reader.old reader.new) }
    ensures bounded { OnOk result
        (length targets.new + reader.old.at ≤ length targets.old + reader.new.at) }
{
    let first = targets.len() as u32;
    let count = reader.u32()?;
    read_targets(count, targets, reader)?;
    let default = reader.u32()?;
    Ok(Code::Known(Instr::Jump(Jump::BrTable(first, count, default))))
}

/// The instruction at the place of a reader (Core 5.4). The targets of a `br_table` are added to
/// those of its body before it, and each of them takes a byte or more.
pub fn read_code(targets: &mut Labels, reader: &mut Reader<'_>) -> Result<Code, ItemFault>
    requires { length targets.old < 2 ^ 32 }
    ensures item { Gives (beside targets.new result) reader.new (code_item targets.old reader.old) }
    ensures moves { OnOk result (Moves reader.old reader.new) }
    ensures bounded { OnOk result
        (length targets.new + reader.old.at ≤ length targets.old + reader.new.at) }
{
    let at = reader.at();
    let opcode = reader.byte()?;
    if opcode == 0x0e {
        return read_labels(targets, reader);
    }
    Ok(read_plain(opcode, at, reader)?)
}

/// The instruction at an offset of a block, which is all bytes of the input up to the block's end.
fn instr_in(alloc: Global, block: &[u8], at: usize) -> Result<ReadInstr, ItemFault>
    requires { at ≤ length block.now }
    ensures { Answers result (instr_at block.now at) }
{
    let mut reader = Reader::starting_at(block, at);
    let mut targets = Items::new(alloc);
    let code = read_code(&mut targets, &mut reader)?;
    Ok(ReadInstr {
        code: code.known(),
        targets,
        next: reader.at(),
    })
}

/// The instruction at an offset, which ends at or before another one (Core 5.4).
///
/// # Errors
///
/// The offset of the first item without a reading, or want of memory.
pub fn read_instr(
    alloc: Global,
    bytes: &[u8],
    at: usize,
    end: usize,
) -> Result<ReadInstr, ItemFault>
    requires { (at ≤ end) × (end ≤ length bytes.now) }
    ensures exact { Answers result (instr_at (take end bytes.now) at) }
    ensures found { (x : ReadInstr) → Exactly result (Ok x) (IsInstrAt (take end bytes.now) at x) }
    ensures broken { (o : ℕ) → Exactly result (Err (At o)) (BreaksAt (take end bytes.now) at o) }
{
    instr_in(alloc, &bytes[..end], at)
}
