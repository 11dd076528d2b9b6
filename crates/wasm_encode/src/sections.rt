//! Sections.

ghost use Rattle.std.specs.Prelude.{◌≡◌, ◌++◌, OnOk, IfSome};
ghost use Rattle.std.specs.List.{AllByRecursion};
ghost use Rattle.wasm_encode.specs.Encoding.{vector_bytes, section_bytes, vector_section, start_section, table_bytes};
ghost use Rattle.wasm_encode.specs.calls.Fits.{Fits32, FitsLimits};

use crate::item::{Item, write_len, write_sized, write_vector};
use causes::NoMemory;
use std::alloc::Global;
use wasm_leb::write_u32;
use wasm_syntax::Limits;

/// Appends a section with its size (Core 5.5.2).
fn write_section(out: &mut Vec<u8>, id: u8, contents: &[u8]) -> Result<(), NoMemory>
    ensures { OnOk result (out.new.items ≡ out.old.items ++ section_bytes id contents.now) }
{
    out.push(id)?;
    write_sized(out, contents)
}

/// Appends a section that is a vector, where that has elements.
pub fn write_vector_section<T: Item>(
    alloc: Global,
    out: &mut Vec<u8>,
    id: u8,
    items: &[T],
) -> Result<(), NoMemory>
    requires complete { AllByRecursion T.complete items.now }
    ensures exact { OnOk result (out.new.items
        ≡ out.old.items ++ vector_section id T.bytes items.now) }
    ensures fits { OnOk result (AllByRecursion T.fits items.now) }
{
    if items.is_empty() {
        return Ok(());
    }
    let mut contents = Vec::new(alloc);
    write_vector(alloc, &mut contents, items)?;
    write_section(out, id, contents.as_slice())
}

/// Appends a vector of table types (Core 5.3.6).
#[tactic(auto, unfolding(crate::specs::Encoding::table_bytes))]
fn write_tables(alloc: Global, out: &mut Vec<u8>, tables: &[Limits]) -> Result<(), NoMemory>
    ensures exact { OnOk result (out.new.items
        ≡ out.old.items ++ vector_bytes table_bytes tables.now) }
    ensures fits { OnOk result (AllByRecursion FitsLimits tables.now) }
{
    write_len(out, tables.len())?;
    for table in tables {
        out.push(0x70)?;
        table.write(alloc, out)?;
    }
    Ok(())
}

/// Appends the table section (Core 5.5.7), where there is a table.
pub fn write_table_section(
    alloc: Global,
    out: &mut Vec<u8>,
    tables: &[Limits],
) -> Result<(), NoMemory>
    ensures exact { OnOk result (out.new.items
        ≡ out.old.items ++ vector_section 4 table_bytes tables.now) }
    ensures fits { OnOk result (AllByRecursion FitsLimits tables.now) }
{
    if tables.is_empty() {
        return Ok(());
    }
    let mut contents = Vec::new(alloc);
    write_tables(alloc, &mut contents, tables)?;
    write_section(out, 4, contents.as_slice())
}

/// Appends the start section (Core 5.5.11), where there is a start function.
pub fn write_start_section(
    alloc: Global,
    out: &mut Vec<u8>,
    start: Option<u32>,
) -> Result<(), NoMemory>
    ensures exact { OnOk result (out.new.items ≡ out.old.items ++ start_section start) }
    ensures fits { OnOk result (IfSome start Fits32) }
{
    let Some(function) = start else {
        return Ok(());
    };
    let mut contents = Vec::new(alloc);
    write_u32(&mut contents, function)?;
    write_section(out, 8, contents.as_slice())
}
