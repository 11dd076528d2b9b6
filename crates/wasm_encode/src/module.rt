//! The encoding of a module.

ghost use Rattle.std.specs.Prelude.{◌≡◌, ◌++◌, ◌≤◌, length, OnOk, IfOk};
ghost use Rattle.wasm_syntax.specs.Module.{IsModule};
ghost use Rattle.wasm_syntax.specs.Sizes.{WithinLimits};
ghost use Rattle.wasm_encode.specs.Encoding.{encoding, declarations, front_sections};
ghost use Rattle.wasm_encode.specs.calls.Fits.{FitsDeclarations, FitsFront, FitsModule};
ghost use Rattle.wasm_encode.specs.calls.SameModule.{SpellsSame};

use crate::sections::{write_start_section, write_table_section, write_vector_section};
use causes::NoMemory;
use std::alloc::Global;
use wasm_syntax::{Module, ModuleParts};

/// `\0asm`, and version 1 (Core 5.5.15).
const HEADER: [u8; 8] = [0x00, 0x61, 0x73, 0x6D, 0x01, 0x00, 0x00, 0x00];

/// Appends types, imports, and the types of functions, tables and memories.
#[tactic(auto, unfolding(crate::specs::Encoding::declarations))]
fn write_declarations(alloc: Global, out: &mut Vec<u8>, m: &ModuleParts) -> Result<(), NoMemory>
    ensures exact { OnOk result (out.new.items ≡ out.old.items ++ declarations m.now) }
    ensures fits { OnOk result (FitsDeclarations m.now) }
{
    write_vector_section(alloc, out, 1, m.types.as_slice())?;
    write_vector_section(alloc, out, 2, m.imports.as_slice())?;
    write_vector_section(alloc, out, 3, m.functions.as_slice())?;
    write_table_section(alloc, out, m.tables.as_slice())?;
    write_vector_section(alloc, out, 5, m.memories.as_slice())
}

/// Appends the sections in front of the code.
#[tactic(auto, unfolding(crate::specs::Encoding::front_sections))]
fn write_front(alloc: Global, out: &mut Vec<u8>, m: &ModuleParts) -> Result<(), NoMemory>
    requires { IsModule m.now }
    ensures exact { OnOk result (out.new.items ≡ out.old.items ++ front_sections m.now) }
    ensures fits { OnOk result (FitsFront m.now) }
{
    write_declarations(alloc, out, m)?;
    write_vector_section(alloc, out, 6, m.globals.as_slice())?;
    write_vector_section(alloc, out, 7, m.exports.as_slice())?;
    write_start_section(alloc, out, m.start)?;
    write_vector_section(alloc, out, 9, m.elements.as_slice())
}

/// The sections in order, behind magic and version.
#[tactic(auto, unfolding(crate::specs::Encoding::encoding))]
fn encode_parts(alloc: Global, m: &ModuleParts) -> Result<Vec<u8>, NoMemory>
    requires { IsModule m.now }
    ensures exact { IfOk result (λ bytes. bytes.items ≡ encoding m.now) }
    ensures fits { OnOk result (FitsModule m.now) }
{
    let mut out = Vec::from_slice(alloc, &HEADER)?;
    write_front(alloc, &mut out, m)?;
    write_vector_section(alloc, &mut out, 10, m.bodies.as_slice())?;
    write_vector_section(alloc, &mut out, 11, m.segments.as_slice())?;
    Ok(out)
}

/// The shortest encoding of a module, without custom sections (Core 5.5). That of a module within
/// the limits of decoding spells a module with the same code.
pub fn encode(alloc: Global, module: &Module) -> Result<Vec<u8>, NoMemory>
    requires { length (encoding «module».now) ≤ 134_217_728 }
    ensures exact { IfOk result (λ bytes. bytes.items ≡ encoding «module».now) }
    ensures spelled { IfOk result
        (λ bytes. WithinLimits «module».now → SpellsSame «module».now bytes.items) }
{
    let bytes = encode_parts(alloc, module.parts())?;
    Ok(bytes)
}
