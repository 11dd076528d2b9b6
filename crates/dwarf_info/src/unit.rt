//! Reading one unit (DWARF 4 section 7.5.1).

ghost use Rattle.std.specs.Prelude.{◌≡◌, ◌≤◌, ◌<◌, ◌^◌, [], length, OnOk, option_map, option_copied, unwrap_or};
ghost use Rattle.std.specs.List.{list_all};
ghost use Rattle.wasm_bytes.specs.Place.{Stays};
ghost use Rattle.wasm_bytes.specs.calls.Answers.{Gives, Reads, result_now};
ghost use Rattle.dwarf_bytes.specs.Items.{item_or_none, is_zero};
ghost use Rattle.dwarf_abbrev.specs.calls.Shared.{list_of};
ghost use Rattle.dwarf_info.specs.Sections.{greatest_section};
ghost use Rattle.dwarf_info.specs.Entries.{root_attributes};
ghost use Rattle.dwarf_info.specs.inner.Contexts.{IsIndex};
ghost use Rattle.dwarf_info.specs.calls.Keeping.{Keeps, rows_of};
ghost use Rattle.dwarf_info.specs.calls.Pairs.{KnowsAll};
ghost use Rattle.dwarf_info.specs.Units.{rooted_item, padding_item, body_item, whole_unit};

use crate::attributes::Attributes;
use crate::context::UnitContext;
use crate::entries::{read_entries, step};
use crate::entry::{Entries, Unit};
use crate::form::Shape;
use crate::growing::Growing;
use crate::known::KnownPairs;
use crate::prepared::PreparedSections;
use crate::tables::{Tables, select};
use crate::version::{UnitVersion, UnitVersions};
use dwarf_abbrev::SharedLists;
use dwarf_bytes::number;
use std::alloc::Global;
use wasm_bytes::{ItemFault, Malformed, Reader};

/// The attributes of the root, which comes first.
fn root<'e, 'a>(entries: &'e Entries<'a>) -> Option<&'e Attributes<'a>>
    ensures { unwrap_or (option_copied result) [] ≡ root_attributes entries.now }
{
    match entries.as_slice() {
        [root, ..] => Some(&root.attributes),
        [] => None,
    }
}

/// What the indices of a unit are looked up by: attributes of its root, which may stand behind the
/// first use.
fn read_index<'a, V: UnitVersion<'a>>(
    alloc: Global,
    sections: &PreparedSections<'a>,
    origin: u32,
    tables: &SharedLists<Shape>,
    table: u32,
    reader: &Reader<'a>,
) -> Result<V::Index, ItemFault>
    requires short { length reader.now.block ≤ greatest_section }
    ensures item { IsIndex V.version V.looked sections.now origin (list_of tables.now table) reader.now result }
{
    let context: UnitContext<'_, 'a, V::Index> = UnitContext {
        sections,
        origin,
        tables,
        table,
        index: None,
    };
    let mut growing: Growing<'a> = Growing::new(alloc);
    match step::<V>(alloc, &context, &mut growing, &mut reader.fork()) {
        Ok(()) => Ok(V::index(root(&growing.entries))),
        Err(fault) => Err(fault),
    }
}

/// The entries of a unit, by a table of abbreviations.
fn read_rooted<'a, V: UnitVersion<'a>>(
    alloc: Global,
    sections: &PreparedSections<'a>,
    origin: u32,
    tables: &SharedLists<Shape>,
    table: u32,
    reader: &mut Reader<'a>,
) -> Result<Entries<'a>, ItemFault>
    requires short { length reader.old.block ≤ greatest_section }
    ensures item { Gives result reader.new
        (rooted_item sections.now V.version origin (list_of tables.now table) reader.old) }
    ensures stays { OnOk result (Stays reader.old reader.new) }
{
    match read_index::<V>(alloc, sections, origin, tables, table, reader) {
        Ok(index) => {
            let context: UnitContext<'_, 'a, V::Index> = UnitContext {
                sections,
                origin,
                tables,
                table,
                index: Some(index),
            };
            read_entries::<V>(alloc, &context, reader)
        }
        Err(fault) => Err(fault),
    }
}

/// What stands behind the version of a unit.
pub fn read_body<'a, V: UnitVersion<'a>>(
    alloc: Global,
    sections: &PreparedSections<'a>,
    pairs: &KnownPairs,
    tables: &mut Tables,
    origin: u32,
    version: u32,
    reader: &mut Reader<'a>,
) -> Result<Unit<'a>, ItemFault>
    requires knows { KnowsAll V.pair sections.now pairs.now }
    requires kept { Keeps (rows_of V.pair) sections.now tables.old }
    requires short { length reader.old.block ≤ greatest_section }
    ensures item { Gives result reader.new
        (body_item sections.now origin version V.version reader.old) }
    ensures stays { OnOk result (Stays reader.old reader.new) }
    ensures kept { Keeps (rows_of V.pair) sections.now tables.new }
{
    let offset = V::header(reader)?;
    match select::<V>(alloc, sections, pairs, tables, offset)? {
        Some(table) => {
            let lists = &tables.lists;
            match read_rooted::<V>(alloc, sections, origin, lists, table, reader) {
                Ok(entries) => Ok(Unit {
                    at: origin,
                    version,
                    entries,
                }),
                Err(fault) => Err(fault),
            }
        }
        None => Err(ItemFault::At(reader.at())),
    }
}

fn are_zeros(bytes: &[u8]) -> bool
    ensures { result ≡ list_all is_zero bytes.now }
{
    bytes.iter().all(|byte| *byte == 0)
}

/// Bytes of zero up to the end.
#[tactic(auto, unfolding(crate::specs::Units::padding_item, wasm_bytes::specs::Reading::rest_item))]
fn read_padding<'a>(reader: &mut Reader<'a>) -> Result<&'a [u8], Malformed>
    ensures item { Reads (result_now result) reader.new (padding_item reader.old) }
    ensures stays { OnOk result (Stays reader.old reader.new) }
{
    let at = reader.at();
    let rest = reader.rest();
    if are_zeros(rest) {
        Ok(rest)
    } else {
        Err(Malformed { at })
    }
}

/// All of a unit, whose length stands at that offset.
#[tactic(auto, unfolding(crate::specs::Units::whole_unit, crate::specs::Units::unit_item))]
pub fn read_whole<'a, W: UnitVersions<'a>>(
    alloc: Global,
    sections: &PreparedSections<'a>,
    versions: &mut W,
    origin: u32,
    reader: &mut Reader<'a>,
) -> Result<Unit<'a>, ItemFault>
    requires ready { W.is_ready sections.now versions.old }
    requires short { length reader.old.block ≤ greatest_section }
    ensures item { Gives result reader.new (whole_unit sections.now W.versions origin reader.old) }
    ensures ready { W.is_ready sections.now versions.new }
{
    let version = number(reader, 2)?;
    match versions.read_body(alloc, sections, origin, version as u32, reader) {
        Ok(unit) => match read_padding(reader) {
            Ok(_) => Ok(unit),
            Err(fault) => Err(ItemFault::At(fault.at)),
        },
        Err(fault) => Err(fault),
    }
}
