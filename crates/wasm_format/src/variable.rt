//! Parametric and variable instructions (Core 5.4.2, 5.4.3).

ghost use Rattle.std.specs.Prelude.{ℕ, ◌≡◌, OnOk};
ghost use Rattle.wasm_bytes.specs.Place.{Stays};
ghost use Rattle.wasm_bytes.specs.calls.Answers.{Reads};
ghost use Rattle.wasm_format.specs.Table.{parametric, variable};
ghost use Rattle.wasm_format.specs.Reading.{row_item, made};

use crate::code::Code;
use wasm_bytes::{Malformed, Reader};
use wasm_syntax::{Basic, Instr};

/// An instruction that takes values away, by its opcode.
pub fn read_parametric(opcode: u8, at: usize, reader: &mut Reader<'_>) -> Result<Code, Malformed>
    ensures item { (base : ℕ) → Reads (made result) reader.new
        (row_item base at parametric opcode reader.old) }
    ensures stays { OnOk result (Stays reader.old reader.new) }
{
    let _reader = reader;
    let basic = match opcode {
        0x1a => Basic::Drop,
        0x1b => Basic::Select,
        _ => return Err(Malformed { at }),
    };
    Ok(Code::Known(Instr::Basic(basic)))
}

/// An instruction on a local or a global, behind its opcode, which stood at that offset.
pub fn read_variable(opcode: u8, at: usize, reader: &mut Reader<'_>) -> Result<Code, Malformed>
    ensures item { (base : ℕ) → Reads (made result) reader.new
        (row_item base at variable opcode reader.old) }
    ensures stays { OnOk result (Stays reader.old reader.new) }
{
    let basic = match opcode {
        0x20 => Basic::LocalGet(reader.u32()?),
        0x21 => Basic::LocalSet(reader.u32()?),
        0x22 => Basic::LocalTee(reader.u32()?),
        0x23 => Basic::GlobalGet(reader.u32()?),
        0x24 => Basic::GlobalSet(reader.u32()?),
        _ => return Err(Malformed { at }),
    };
    Ok(Code::Known(Instr::Basic(basic)))
}
