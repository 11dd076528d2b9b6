//! Types, imports, exports and locals (Core 5.3 and 5.5).

ghost use Rattle.std.specs.Prelude.{◌≡◌, ℕ, List, OnOk};
ghost use Rattle.wasm_bytes.specs.Reading.{choose};
ghost use Rattle.wasm_decode.specs.calls.Imports.{import_of, named};
ghost use Rattle.wasm_bytes.specs.Place.{Moves};
ghost use Rattle.wasm_bytes.specs.calls.Answers.{Reads, Gives};
ghost use Rattle.wasm_format.specs.Form.{valtype_item, functype_item, limits_item, table_item};
ghost use Rattle.wasm_format.specs.Form.{globaltype_item, import_item, import_behind, export_kind_item};
ghost use Rattle.wasm_format.specs.Form.{export_item, group_step};
ghost use Rattle.wasm_format.specs.Form.{locals_item};

use crate::input::Input;
use pm_text::{Items, Text};
use std::alloc::Global;
use wasm_bytes::{Gather, Item, ItemFault, Malformed, Noted, Noting, gather_count, noted_vector};
use wasm_format::{Imported, Locals};
use wasm_syntax::{Export, ExportKind, FuncType, Import, Limits, LocalGroup, ValType};

/// A value type (Core 5.3.1).
#[tactic(auto, unfolding(wasm_bytes::specs::Reading::byte_item, wasm_bytes::specs::Reading::one_of_item, wasm_format::specs::Form::valtype_item))]
pub fn value_type(input: &mut Input<'_>) -> Result<Noted<ValType>, Malformed>
    ensures item { Reads result input.new (valtype_item input.old) }
    ensures moves { OnOk result (Moves input.old input.new) }
{
    let at = input.at() as usize;
    match input.byte()? {
        0x7f => Ok(Noted {
            value: ValType::I32,
            float: None,
        }),
        0x7e => Ok(Noted {
            value: ValType::I64,
            float: None,
        }),
        0x7d | 0x7c => Ok(Noted {
            value: ValType::I32,
            float: Some(at),
        }),
        _ => Err(Malformed { at }),
    }
}

impl<'a> Noting<Input<'a>> for ValType {
    type Value = ValType;

    ghost item = { valtype_item };

    fn read(_alloc: Global, input: &mut Input<'a>) -> Result<Noted<ValType>, ItemFault> {
        Ok(value_type(input)?)
    }
}

/// A function type (Core 5.3.3).
impl<'a> Noting<Input<'a>> for FuncType {
    type Value = FuncType;

    ghost item = { functype_item };

    #[tactic(auto, unfolding(wasm_format::specs::Form::functype_item))]
    fn read(alloc: Global, input: &mut Input<'a>) -> Result<Noted<FuncType>, ItemFault> {
        input.fixed(0x60)?;
        let params = noted_vector::<_, ValType>(alloc, input)?;
        let results = noted_vector::<_, ValType>(alloc, input)?;
        Ok(Noted {
            value: FuncType {
                params: params.value,
                results: results.value,
            },
            float: params.float.or(results.float),
        })
    }
}

/// Limits (Core 5.3.4).
#[tactic(auto, unfolding(wasm_bytes::specs::Reading::choose, wasm_format::specs::Form::limits_item))]
fn limits(input: &mut Input<'_>) -> Result<Limits, Malformed>
    ensures item { Reads result input.new (limits_item input.old) }
    ensures moves { OnOk result (Moves input.old input.new) }
{
    let at = input.at() as usize;
    match input.byte()? {
        0x00 => {
            let min = input.u32()?;
            Ok(Limits { min, max: None })
        }
        0x01 => {
            let min = input.u32()?;
            let max = input.u32()?;
            Ok(Limits {
                min,
                max: Some(max),
            })
        }
        _ => Err(Malformed { at }),
    }
}

/// A table type (Core 5.3.6).
#[tactic(auto, unfolding(wasm_format::specs::Form::table_item))]
fn table(input: &mut Input<'_>) -> Result<Limits, Malformed>
    ensures item { Reads result input.new (table_item input.old) }
    ensures moves { OnOk result (Moves input.old input.new) }
{
    input.fixed(0x70)?;
    limits(input)
}

/// Types of memories (Core 5.3.5).
pub struct MemoryTypes;

impl<'a> Item<Input<'a>> for MemoryTypes {
    type Value = Limits;

    ghost item = { limits_item };

    fn read(_alloc: Global, input: &mut Input<'a>) -> Result<Limits, ItemFault> {
        Ok(limits(input)?)
    }
}

/// Types of tables (Core 5.3.6).
pub struct TableTypes;

impl<'a> Item<Input<'a>> for TableTypes {
    type Value = Limits;

    ghost item = { table_item };

    fn read(_alloc: Global, input: &mut Input<'a>) -> Result<Limits, ItemFault> {
        Ok(table(input)?)
    }
}

/// The type of a global, and whether it is variable (Core 5.3.7).
#[tactic(auto, unfolding(wasm_bytes::specs::Reading::byte_item, wasm_bytes::specs::Reading::one_of_item, wasm_format::specs::Form::mutability_item, wasm_format::specs::Form::globaltype_item))]
pub fn global_type(input: &mut Input<'_>) -> Result<(Noted<ValType>, bool), Malformed>
    ensures item { Reads result input.new (globaltype_item input.old) }
    ensures moves { OnOk result (Moves input.old input.new) }
{
    let vtype = value_type(input)?;
    let at = input.at() as usize;
    match input.byte()? {
        0x00 => Ok((vtype, false)),
        0x01 => Ok((vtype, true)),
        _ => Err(Malformed { at }),
    }
}

/// What an import says behind its names, of which only the type of a function is kept.
#[derive(Clone, Copy)]
pub enum ImportTail {
    Function(u32),
    Table,
    Memory,
    /// With the offset of its float type.
    Global(Option<usize>),
}

#[tactic(auto, unfolding(wasm_bytes::specs::Reading::choose))]
fn import_tail(input: &mut Input<'_>) -> Result<ImportTail, Malformed>
    ensures item { (names : List ℕ × List ℕ) → Reads (named names result) input.new
        (choose (import_behind names) input.old) }
    ensures moves { OnOk result (Moves input.old input.new) }
{
    let at = input.at() as usize;
    match input.byte()? {
        0x00 => Ok(ImportTail::Function(input.u32()?)),
        0x01 => {
            table(input)?;
            Ok(ImportTail::Table)
        }
        0x02 => {
            limits(input)?;
            Ok(ImportTail::Memory)
        }
        0x03 => {
            let (vtype, _) = global_type(input)?;
            Ok(ImportTail::Global(vtype.float))
        }
        _ => Err(Malformed { at }),
    }
}

fn import_of(from: Text, name: Text, tail: ImportTail) -> Noted<Imported>
    ensures { result ≡ import_of (from, name) tail }
{
    match tail {
        ImportTail::Function(ftype) => Noted {
            value: Imported::Function(Import {
                module: from,
                name,
                ftype,
            }),
            float: None,
        },
        ImportTail::Table => Noted {
            value: Imported::Table,
            float: None,
        },
        ImportTail::Memory => Noted {
            value: Imported::Memory,
            float: None,
        },
        ImportTail::Global(float) => Noted {
            value: Imported::Global,
            float,
        },
    }
}

/// An import (Core 5.5.5).
impl<'a> Noting<Input<'a>> for Imported {
    type Value = Imported;

    ghost item = { import_item };

    #[tactic(auto, unfolding(wasm_format::specs::Form::import_item))]
    fn read(alloc: Global, input: &mut Input<'a>) -> Result<Noted<Imported>, ItemFault> {
        let from = input.item::<Text>(alloc)?;
        let name = input.item::<Text>(alloc)?;
        let tail = import_tail(input)?;
        Ok(import_of(from, name, tail))
    }
}

#[tactic(auto, unfolding(wasm_bytes::specs::Reading::byte_item, wasm_bytes::specs::Reading::one_of_item, wasm_format::specs::Form::export_kind_item))]
fn export_kind(input: &mut Input<'_>) -> Result<ExportKind, Malformed>
    ensures item { Reads result input.new (export_kind_item input.old) }
    ensures moves { OnOk result (Moves input.old input.new) }
{
    let at = input.at() as usize;
    match input.byte()? {
        0x00 => Ok(ExportKind::Function),
        0x01 => Ok(ExportKind::Table),
        0x02 => Ok(ExportKind::Memory),
        0x03 => Ok(ExportKind::Global),
        _ => Err(Malformed { at }),
    }
}

/// Exports (Core 5.5.10).
pub struct ExportEntries;

impl<'a> Item<Input<'a>> for ExportEntries {
    type Value = Export;

    ghost item = { export_item };

    #[tactic(auto, unfolding(wasm_format::specs::Form::export_item))]
    fn read(alloc: Global, input: &mut Input<'a>) -> Result<Export, ItemFault> {
        let name = input.item::<Text>(alloc)?;
        let kind = export_kind(input)?;
        let index = input.u32()?;
        Ok(Export { name, kind, index })
    }
}

/// A group of locals (Core 5.5.13). A function has fewer than 2^32 of them.
impl<'a> Gather<Input<'a>> for Locals {
    ghost step = { group_step };

    #[tactic(auto, unfolding(wasm_format::specs::Form::group_step))]
    fn take(&mut self, _alloc: Global, input: &mut Input<'a>) -> Result<(), ItemFault> {
        let at = input.at() as usize;
        let count = input.u32()?;
        let Some(sum) = self.count.checked_add(count) else {
            return Err(ItemFault::At(at));
        };
        let vtype = value_type(input)?;
        self.groups.push(LocalGroup {
            count,
            vtype: vtype.value,
        })?;
        self.count = sum;
        self.float = self.float.or(vtype.float);
        Ok(())
    }
}

/// The locals of a function beside its parameters.
#[tactic(auto, unfolding(wasm_format::specs::Form::locals_item))]
pub fn locals(alloc: Global, input: &mut Input<'_>) -> Result<Locals, ItemFault>
    ensures item { Gives result input.new (locals_item input.old) }
    ensures moves { OnOk result (Moves input.old input.new) }
{
    let count = input.u32()?;
    let mut locals = Locals {
        groups: Items::new(alloc),
        count: 0,
        float: None,
    };
    gather_count(alloc, count, &mut locals, input)?;
    Ok(locals)
}
