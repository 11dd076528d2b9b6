//! The entries of sections.

ghost use Rattle.wasm_syntax.specs.Module.{InOrder};
ghost use Rattle.std.specs.Prelude.{◌≡◌, ◌++◌, OnOk};
ghost use Rattle.wasm_encode.specs.Encoding.{type_byte, mutability_byte, kind_byte, value_type_bytes};
ghost use Rattle.wasm_encode.specs.Encoding.{function_type_bytes, limits_bytes, import_bytes, global_bytes};
ghost use Rattle.wasm_encode.specs.Encoding.{export_bytes, element_bytes, group_bytes, function_bytes, entry_bytes};
ghost use Rattle.wasm_encode.specs.Encoding.{segment_bytes};
ghost use Rattle.wasm_encode.specs.calls.Fits.{Fits32, FitsLimits, FitsExpression, FitsBody, FitsElement, FitsSegment};

use crate::expression::write_expression;
use crate::item::{Item, write_sized, write_vector};
use causes::NoMemory;
use std::alloc::Global;
use wasm_leb::write_u32;
use wasm_syntax::{
    Body, DataSeg, ElementSeg, Export, ExportKind, FuncType, Global as GlobalVariable, Import,
    Limits, LocalGroup, ValType,
};

/// Core 5.3.1.
#[tactic(auto, unfolding(crate::specs::Encoding::type_byte))]
fn type_byte(vtype: ValType) -> u8
    ensures { result ≡ type_byte vtype }
{
    match vtype {
        ValType::I32 => 0x7F,
        ValType::I64 => 0x7E,
    }
}

/// Core 5.3.7.
#[tactic(auto, unfolding(crate::specs::Encoding::mutability_byte))]
fn mutability_byte(mutable: bool) -> u8
    ensures { result ≡ mutability_byte mutable }
{
    if mutable { 0x01 } else { 0x00 }
}

/// Core 5.5.10.
#[tactic(auto, unfolding(crate::specs::Encoding::kind_byte))]
fn kind_byte(kind: ExportKind) -> u8
    ensures { result ≡ kind_byte kind }
{
    match kind {
        ExportKind::Function => 0x00,
        ExportKind::Table => 0x01,
        ExportKind::Memory => 0x02,
        ExportKind::Global => 0x03,
    }
}

/// Core 5.3.1.
impl Item for ValType {
    ghost bytes = { value_type_bytes };

    #[tactic(auto, unfolding(crate::specs::Encoding::value_type_bytes))]
    fn write(&self, _alloc: Global, out: &mut Vec<u8>) -> Result<(), NoMemory> {
        out.push(type_byte(*self))?;
        Ok(())
    }
}

/// Core 5.3.3.
impl Item for FuncType {
    ghost bytes = { function_type_bytes };

    #[tactic(auto, unfolding(crate::specs::Encoding::function_type_bytes))]
    fn write(&self, alloc: Global, out: &mut Vec<u8>) -> Result<(), NoMemory> {
        out.push(0x60)?;
        write_vector(alloc, out, self.params.as_slice())?;
        write_vector(alloc, out, self.results.as_slice())
    }
}

/// Core 5.3.4.
impl Item for Limits {
    ghost bytes = { limits_bytes };

    ghost fits = { FitsLimits };

    #[tactic(auto, unfolding(crate::specs::Encoding::limits_bytes))]
    fn write(&self, _alloc: Global, out: &mut Vec<u8>) -> Result<(), NoMemory> {
        match self.max {
            None => {
                out.push(0x00)?;
                write_u32(out, self.min)
            }
            Some(max) => {
                out.push(0x01)?;
                write_u32(out, self.min)?;
                write_u32(out, max)
            }
        }
    }
}

/// Core 5.5.5.
impl Item for Import {
    ghost bytes = { import_bytes };

    ghost fits = { λ i. Fits32 i.ftype };

    #[tactic(auto, unfolding(crate::specs::Encoding::import_bytes))]
    fn write(&self, _alloc: Global, out: &mut Vec<u8>) -> Result<(), NoMemory> {
        write_sized(out, self.module.as_bytes())?;
        write_sized(out, self.name.as_bytes())?;
        out.push(0x00)?;
        write_u32(out, self.ftype)
    }
}

/// Core 5.5.9.
impl Item for GlobalVariable {
    ghost bytes = { global_bytes };

    ghost complete = { λ g. InOrder g.init };

    ghost fits = { λ g. FitsExpression g.init };

    #[tactic(auto, unfolding(crate::specs::Encoding::global_bytes))]
    fn write(&self, _alloc: Global, out: &mut Vec<u8>) -> Result<(), NoMemory> {
        out.push(type_byte(self.vtype))?;
        out.push(mutability_byte(self.mutable))?;
        write_expression(out, &self.init)
    }
}

/// Core 5.5.10.
impl Item for Export {
    ghost bytes = { export_bytes };

    ghost fits = { λ e. Fits32 e.index };

    #[tactic(auto, unfolding(crate::specs::Encoding::export_bytes))]
    fn write(&self, _alloc: Global, out: &mut Vec<u8>) -> Result<(), NoMemory> {
        write_sized(out, self.name.as_bytes())?;
        out.push(kind_byte(self.kind))?;
        write_u32(out, self.index)
    }
}

/// Core 5.5.12.
impl Item for ElementSeg {
    ghost bytes = { element_bytes };

    ghost complete = { λ e. InOrder e.offset };

    ghost fits = { FitsElement };

    #[tactic(auto, unfolding(crate::specs::Encoding::element_bytes))]
    fn write(&self, alloc: Global, out: &mut Vec<u8>) -> Result<(), NoMemory> {
        write_u32(out, self.table)?;
        write_expression(out, &self.offset)?;
        write_vector(alloc, out, self.functions.as_slice())
    }
}

/// Core 5.5.13.
impl Item for LocalGroup {
    ghost bytes = { group_bytes };

    ghost fits = { λ g. Fits32 g.count };

    #[tactic(auto, unfolding(crate::specs::Encoding::group_bytes))]
    fn write(&self, alloc: Global, out: &mut Vec<u8>) -> Result<(), NoMemory> {
        write_u32(out, self.count)?;
        self.vtype.write(alloc, out)
    }
}

/// Appends the locals and the expression of a function.
#[tactic(auto, unfolding(crate::specs::Encoding::function_bytes))]
fn write_function(alloc: Global, out: &mut Vec<u8>, body: &Body) -> Result<(), NoMemory>
    requires { InOrder body.now }
    ensures exact { OnOk result (out.new.items ≡ out.old.items ++ function_bytes body.now) }
    ensures fits { OnOk result (FitsBody body.now) }
{
    write_vector(alloc, out, body.groups.as_slice())?;
    write_expression(out, body)
}

/// An entry of the code section, whose size goes before its contents (Core 5.5.13).
impl Item for Body {
    ghost bytes = { entry_bytes };

    ghost complete = { InOrder };

    ghost fits = { FitsBody };

    #[tactic(auto, unfolding(crate::specs::Encoding::entry_bytes))]
    fn write(&self, alloc: Global, out: &mut Vec<u8>) -> Result<(), NoMemory> {
        let mut contents = Vec::new(alloc);
        write_function(alloc, &mut contents, self)?;
        write_sized(out, contents.as_slice())
    }
}

/// Core 5.5.14.
impl Item for DataSeg {
    ghost bytes = { segment_bytes };

    ghost complete = { λ s. InOrder s.offset };

    ghost fits = { FitsSegment };

    #[tactic(auto, unfolding(crate::specs::Encoding::segment_bytes))]
    fn write(&self, _alloc: Global, out: &mut Vec<u8>) -> Result<(), NoMemory> {
        write_u32(out, self.memory)?;
        write_expression(out, &self.offset)?;
        write_sized(out, self.bytes.as_slice())
    }
}
