//! The opcodes of line programs (DWARF 4 sections 6.2.5 and 7.21).

ghost use Rattle.std.specs.Prelude.{OnOk};
ghost use Rattle.wasm_bytes.specs.Place.{Moves, Stays};
ghost use Rattle.wasm_bytes.specs.calls.Answers.{Reads};
ghost use Rattle.dwarf_bytes.specs.Format.{read, made, number, sized};
ghost use Rattle.dwarf_line.specs.Opcodes.{skipping, file_behind, extended, standard, opcode};
ghost use Rattle.dwarf_line.specs.declared.opcodes.Opcode.TheVariants.{Passed};

use crate::lines::LineFile;
use crate::parameters::Parameters;
use dwarf_bytes::{byte, number, open_long, text};
use wasm_bytes::{Malformed, Reader, Run};

/// An opcode with its operands.
#[derive(Drop)]
pub enum Opcode<'a> {
    /// The number counts from `opcode_base`.
    Special(u8),
    Copy,
    AdvancePc(u64),
    AdvanceLine(i64),
    SetFile(u64),
    SetColumn(u64),
    ConstAddPc,
    FixedAdvancePc(u16),
    EndSequence,
    SetAddress(u32),
    DefineFile(LineFile<'a>),
    /// One that changes no register that is used.
    Passed,
}

/// An opcode that is passed over, with so many operands.
#[tactic(auto, unfolding(dwarf_bytes::specs::Format::read))]
fn skip<'a>(count: u8, reader: &mut Reader<'_>) -> Result<Opcode<'a>, Malformed>
    ensures item { Reads result reader.new (read (skipping count (made Passed)) reader.old) }
    ensures stays { OnOk result (Stays reader.old reader.new) }
{
    for _ in 0..count {
        let _operand = reader.u64()?;
    }
    Ok(Opcode::Passed)
}

/// A file behind its name.
#[tactic(auto, unfolding(dwarf_bytes::specs::Format::read))]
pub fn file_behind<'a>(name: &'a [u8], reader: &mut Reader<'_>) -> Result<LineFile<'a>, Malformed>
    ensures item { Reads result reader.new (read (file_behind name.now made) reader.old) }
    ensures moves { OnOk result (Moves reader.old reader.new) }
{
    let directory = reader.u64()?;
    let _time = reader.u64()?;
    let _length = reader.u64()?;
    Ok(LineFile {
        name: Run::new(name),
        directory,
    })
}

/// An extended opcode in its block of so many bytes.
#[tactic(auto, unfolding(dwarf_bytes::specs::Format::read))]
fn in_extended<'a>(length: usize, reader: &mut Reader<'a>) -> Result<Opcode<'a>, Malformed>
    ensures item { Reads result reader.new (read (number 1 (extended length)) reader.old) }
{
    match byte(reader)? {
        1 => Ok(Opcode::EndSequence),
        2 => Ok(Opcode::SetAddress(number(reader, 4)? as u32)),
        3 => {
            let name = text(reader)?;
            Ok(Opcode::DefineFile(file_behind(name, reader)?))
        }
        4 => {
            let _discriminator = reader.u64()?;
            Ok(Opcode::Passed)
        }
        _ => {
            let _operands = reader.run(length.saturating_sub(1))?;
            Ok(Opcode::Passed)
        }
    }
}

/// An extended opcode behind its zero byte: a length, and as many bytes (DWARF 4 section 6.2.5.3).
#[tactic(auto, unfolding(dwarf_bytes::specs::Format::read))]
fn extended<'a>(reader: &mut Reader<'a>) -> Result<Opcode<'a>, Malformed>
    ensures item { Reads result reader.new
        (read (sized (λ length. number 1 (extended length))) reader.old) }
    ensures moves { OnOk result (Moves reader.old reader.new) }
{
    let mut inner = open_long(reader)?;
    let length = inner.left();
    let opcode = in_extended(length, &mut inner)?;
    inner.end()?;
    Ok(opcode)
}

/// A standard opcode behind its byte (DWARF 4 section 6.2.5.2).
#[tactic(auto, unfolding(dwarf_bytes::specs::Format::read))]
fn standard<'a>(
    parameters: &Parameters<'_>,
    opcode: u8,
    reader: &mut Reader<'a>,
) -> Result<Opcode<'a>, Malformed>
    ensures item { Reads result reader.new (read (standard parameters.now opcode) reader.old) }
    ensures stays { OnOk result (Stays reader.old reader.new) }
{
    match opcode {
        1 => Ok(Opcode::Copy),
        2 => Ok(Opcode::AdvancePc(reader.u64()?)),
        3 => Ok(Opcode::AdvanceLine(reader.s64()?)),
        4 => Ok(Opcode::SetFile(reader.u64()?)),
        5 => Ok(Opcode::SetColumn(reader.u64()?)),
        8 => Ok(Opcode::ConstAddPc),
        9 => Ok(Opcode::FixedAdvancePc(number(reader, 2)? as u16)),
        12 => {
            let _isa = reader.u64()?;
            Ok(Opcode::Passed)
        }
        0..=12 => Ok(Opcode::Passed),
        _ => skip(parameters.operand_count(opcode), reader),
    }
}

/// The next opcode of a line program.
#[tactic(auto, unfolding(dwarf_bytes::specs::Format::read))]
pub fn read_opcode<'a>(
    parameters: &Parameters<'_>,
    reader: &mut Reader<'a>,
) -> Result<Opcode<'a>, Malformed>
    ensures item { Reads result reader.new (read (opcode parameters.now) reader.old) }
    ensures moves { OnOk result (Moves reader.old reader.new) }
{
    let opcode = byte(reader)?;
    if opcode >= parameters.opcode_base() {
        Ok(Opcode::Special(opcode - parameters.opcode_base()))
    } else if opcode == 0 {
        extended(reader)
    } else {
        standard(parameters, opcode, reader)
    }
}
