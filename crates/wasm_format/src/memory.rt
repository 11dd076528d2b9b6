//! Memory instructions and constants (Core 5.4.4, 5.4.5).

ghost use Rattle.std.specs.Prelude.{ℕ, ◌≡◌, OnOk, [], ◌∷◌};
ghost use Rattle.wasm_bytes.specs.Place.{Stays, Moves};
ghost use Rattle.wasm_bytes.specs.calls.Answers.{Reads};
ghost use Rattle.wasm_bytes.specs.Reading.{◌⊗◌, mapped, u32_item};
ghost use Rattle.wasm_format.specs.Table.{load_rows, store_rows, sizes_and_constants};
ghost use Rattle.wasm_format.specs.Reading.{access_item, float_access_item, bulk_item, row_item, made};

use crate::code::Code;
use int_ops::{Narrow32, Narrow64};
use wasm_bytes::{Malformed, Reader};
use wasm_syntax::{Basic, Instr, Load, Sign, Store, ValType, Value};

/// The exponent of an alignment, and an offset in bytes.
fn access(reader: &mut Reader<'_>) -> Result<(u32, u32), Malformed>
    ensures item { Reads result reader.new ((u32_item ⊗ u32_item) reader.old) }
    ensures moves { OnOk result (Moves reader.old reader.new) }
{
    let align = reader.u32()?;
    let offset = reader.u32()?;
    Ok((align, offset))
}

/// A load or a store of a float, whose opcode is at that offset.
fn float_access(at: usize, reader: &mut Reader<'_>) -> Result<Code, Malformed>
    ensures item { Reads (made result) reader.new (float_access_item at reader.old) }
    ensures stays { OnOk result (Stays reader.old reader.new) }
{
    access(reader)?;
    Ok(Code::Float { at })
}

fn load(load: Load, reader: &mut Reader<'_>) -> Result<Code, Malformed>
    ensures item { Reads (made result) reader.new
        (access_item (λ a o. Instr.Basic (Basic.Load load a o)) reader.old) }
    ensures stays { OnOk result (Stays reader.old reader.new) }
{
    let (align, offset) = access(reader)?;
    Ok(Code::Known(Instr::Basic(Basic::Load(load, align, offset))))
}

fn store(store: Store, reader: &mut Reader<'_>) -> Result<Code, Malformed>
    ensures item { Reads (made result) reader.new
        (access_item (λ a o. Instr.Basic (Basic.Store store a o)) reader.old) }
    ensures stays { OnOk result (Stays reader.old reader.new) }
{
    let (align, offset) = access(reader)?;
    Ok(Code::Known(Instr::Basic(Basic::Store(store, align, offset))))
}

/// A load, behind its opcode, which stood at that offset.
pub fn read_load(opcode: u8, at: usize, reader: &mut Reader<'_>) -> Result<Code, Malformed>
    ensures item { (base : ℕ) → Reads (made result) reader.new
        (row_item base at load_rows opcode reader.old) }
    ensures stays { OnOk result (Stays reader.old reader.new) }
{
    match opcode {
        0x28 => load(Load::Full(ValType::I32), reader),
        0x29 => load(Load::Full(ValType::I64), reader),
        0x2a | 0x2b => float_access(at, reader),
        0x2c => load(Load::Part32(Narrow32::Eight, Sign::Signed), reader),
        0x2d => load(Load::Part32(Narrow32::Eight, Sign::Unsigned), reader),
        0x2e => load(Load::Part32(Narrow32::Sixteen, Sign::Signed), reader),
        0x2f => load(Load::Part32(Narrow32::Sixteen, Sign::Unsigned), reader),
        0x30 => load(Load::Part64(Narrow64::Eight, Sign::Signed), reader),
        0x31 => load(Load::Part64(Narrow64::Eight, Sign::Unsigned), reader),
        0x32 => load(Load::Part64(Narrow64::Sixteen, Sign::Signed), reader),
        0x33 => load(Load::Part64(Narrow64::Sixteen, Sign::Unsigned), reader),
        0x34 => load(Load::Part64(Narrow64::ThirtyTwo, Sign::Signed), reader),
        0x35 => load(Load::Part64(Narrow64::ThirtyTwo, Sign::Unsigned), reader),
        _ => Err(Malformed { at }),
    }
}

/// A store, behind its opcode, which stood at that offset.
pub fn read_store(opcode: u8, at: usize, reader: &mut Reader<'_>) -> Result<Code, Malformed>
    ensures item { (base : ℕ) → Reads (made result) reader.new
        (row_item base at store_rows opcode reader.old) }
    ensures stays { OnOk result (Stays reader.old reader.new) }
{
    match opcode {
        0x36 => store(Store::Full(ValType::I32), reader),
        0x37 => store(Store::Full(ValType::I64), reader),
        0x38 | 0x39 => float_access(at, reader),
        0x3a => store(Store::Part32(Narrow32::Eight), reader),
        0x3b => store(Store::Part32(Narrow32::Sixteen), reader),
        0x3c => store(Store::Part64(Narrow64::Eight), reader),
        0x3d => store(Store::Part64(Narrow64::Sixteen), reader),
        0x3e => store(Store::Part64(Narrow64::ThirtyTwo), reader),
        _ => Err(Malformed { at }),
    }
}

/// The size of a memory or its growth, or a constant, behind its opcode, which stood at that
/// offset.
pub fn read_size_or_constant(
    opcode: u8,
    at: usize,
    reader: &mut Reader<'_>,
) -> Result<Code, Malformed>
    ensures item { (base : ℕ) → Reads (made result) reader.new
        (row_item base at sizes_and_constants opcode reader.old) }
    ensures stays { OnOk result (Stays reader.old reader.new) }
{
    let basic = match opcode {
        0x3f => {
            reader.bytes(&[0x00])?;
            Basic::MemorySize
        }
        0x40 => {
            reader.bytes(&[0x00])?;
            Basic::MemoryGrow
        }
        0x41 => Basic::Const(Value::I32(reader.s32()?.cast_unsigned())),
        0x42 => Basic::Const(Value::I64(reader.s64()?.cast_unsigned())),
        0x43 => {
            reader.run(4)?;
            return Ok(Code::Float { at });
        }
        0x44 => {
            reader.run(8)?;
            return Ok(Code::Float { at });
        }
        _ => return Err(Malformed { at }),
    };
    Ok(Code::Known(Instr::Basic(basic)))
}

/// A copy or a fill of memory, behind its first byte: a number that says which of them it is, and a
/// zero byte for each memory that it names.
#[tactic(auto, unfolding(crate::specs::Reading::bulk_item))]
pub fn read_bulk(reader: &mut Reader<'_>) -> Result<Code, Malformed>
    ensures item { Reads (made result) reader.new (bulk_item reader.old) }
    ensures stays { OnOk result (Stays reader.old reader.new) }
{
    let at = reader.at();
    let basic = match reader.u32()? {
        10 => {
            reader.bytes(&[0x00, 0x00])?;
            Basic::MemoryCopy
        }
        11 => {
            reader.bytes(&[0x00])?;
            Basic::MemoryFill
        }
        _ => return Err(Malformed { at }),
    };
    Ok(Code::Known(Instr::Basic(basic)))
}
