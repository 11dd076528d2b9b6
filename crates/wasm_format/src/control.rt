//! Control instructions (Core 5.4.1).

ghost use Rattle.std.specs.Prelude.{ℕ, ◌≡◌, ◌≢◌, OnOk};
ghost use Rattle.wasm_bytes.specs.Place.{Stays, Moves};
ghost use Rattle.wasm_bytes.specs.calls.Answers.{Reads};
ghost use Rattle.wasm_format.specs.Table.{control};
ghost use Rattle.wasm_format.specs.Reading.{opening, block_type_item, indirect_item, row_item, made};

use crate::code::Code;
use wasm_bytes::{Malformed, Reader};
use wasm_syntax::{Basic, BlockKind, Instr, Jump, ValType};

/// What opens a block of that kind and type.
fn opening(kind: BlockKind, block_type: Option<ValType>) -> Instr
    ensures { result ≡ opening kind block_type }
{
    match kind {
        BlockKind::Plain => Instr::Block(block_type),
        BlockKind::Loop => Instr::Loop(block_type),
        BlockKind::Then => Instr::If(block_type),
    }
}

/// What opens a block, behind its opcode: one byte for its type (Core 5.3.2).
#[tactic(auto, unfolding(wasm_bytes::specs::Reading::byte_item, wasm_bytes::specs::Reading::one_of_item, wasm_bytes::specs::Reading::here_item, crate::specs::Reading::block_type_item))]
fn block(kind: BlockKind, reader: &mut Reader<'_>) -> Result<Code, Malformed>
    ensures item { Reads (made result) reader.new (block_type_item (opening kind) reader.old) }
    ensures stays { OnOk result (Stays reader.old reader.new) }
{
    let at = reader.at();
    match reader.byte()? {
        0x40 => Ok(Code::Known(opening(kind, None))),
        0x7f => Ok(Code::Known(opening(kind, Some(ValType::I32)))),
        0x7e => Ok(Code::Known(opening(kind, Some(ValType::I64)))),
        0x7d | 0x7c => Ok(Code::Float { at }),
        _ => Err(Malformed { at }),
    }
}

/// A call through the table, behind its opcode: the index of a type, and the number of the table.
fn indirect(reader: &mut Reader<'_>) -> Result<Code, Malformed>
    ensures item { Reads (made result) reader.new (indirect_item reader.old) }
    ensures stays { OnOk result (Stays reader.old reader.new) }
{
    let ftype = reader.u32()?;
    let at = reader.at();
    if reader.u32()? != 0 {
        return Err(Malformed { at });
    }
    Ok(Code::Known(Instr::Jump(Jump::CallIndirect(ftype))))
}

/// A control instruction that is no `br_table`, behind its opcode, which stood at that offset.
pub fn read_control(opcode: u8, at: usize, reader: &mut Reader<'_>) -> Result<Code, Malformed>
    requires { opcode ≢ 0x0e }
    ensures item { (base : ℕ) → Reads (made result) reader.new
        (row_item base at control opcode reader.old) }
    ensures stays { OnOk result (Stays reader.old reader.new) }
{
    let code = match opcode {
        0x00 => Instr::Jump(Jump::Unreachable),
        0x01 => Instr::Basic(Basic::Nop),
        0x02 => return block(BlockKind::Plain, reader),
        0x03 => return block(BlockKind::Loop, reader),
        0x04 => return block(BlockKind::Then, reader),
        0x05 => Instr::Else,
        0x0b => Instr::End,
        0x0c => Instr::Jump(Jump::Br(reader.u32()?)),
        0x0d => Instr::Jump(Jump::BrIf(reader.u32()?)),
        0x0f => Instr::Jump(Jump::Return),
        0x10 => Instr::Jump(Jump::Call(reader.u32()?)),
        0x11 => return indirect(reader),
        _ => return Err(Malformed { at }),
    };
    Ok(Code::Known(code))
}
