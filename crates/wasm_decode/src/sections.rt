//! The sections of a module (Core 5.5.2 to 5.5.15).

ghost use Rattle.std.specs.Prelude.{◌≡◌, ◌≤◌, ◌<◌, ◌^◌, length, OnOk};
ghost use Rattle.wasm_bytes.specs.Place.{Moves, Stays};
ghost use Rattle.wasm_bytes.specs.Reading.{mapped, u32_item, vector_item, bytes_item, steps_to_end, whole};
ghost use Rattle.wasm_bytes.specs.calls.Answers.{Gives, GivesWhole, with_state};
ghost use Rattle.wasm_bytes.specs.Notes.{noted_vector_item};
ghost use Rattle.wasm_format.specs.Form.{functype_item, limits_item, table_item, import_item, export_item};
ghost use Rattle.wasm_format.specs.Sections.{global_item, element_item, segment_item, bodies_item, with_types};
ghost use Rattle.wasm_format.specs.Sections.{with_imports, with_functions, with_tables, with_memories, with_globals};
ghost use Rattle.wasm_format.specs.Sections.{with_exports, with_start, with_elements, with_bodies, with_segments};
ghost use Rattle.wasm_format.specs.Sections.{contents_item, custom_item, section_step, no_sections, module_item};
ghost use Rattle.wasm_bytes.specs.Tables.{header};

use crate::bodies::bodies;
use crate::form::{ExportEntries, MemoryTypes, TableTypes};
use crate::input::Input;
use pm_text::{Items, Text};
use std::alloc::Global;
use wasm_bytes::{Item, ItemFault, noted_vector};
use wasm_format::{Imported, SpelledModule};
use wasm_syntax::{Custom, DataSeg, ElementSeg, FuncType, Global as GlobalPart, ModuleParts};

/// The magic and the version (Core 5.5.15).
const HEADER: [u8; 8] = [0x00, 0x61, 0x73, 0x6d, 0x01, 0x00, 0x00, 0x00];

fn types(alloc: Global, spelled: &mut SpelledModule, input: &mut Input<'_>) -> Result<(), ItemFault>
    ensures item { Gives (with_state spelled.new result) input.new
        (mapped (with_types spelled.old) (noted_vector_item functype_item) input.old) }
    ensures kept { OnOk result (spelled.new.parts.plain_bytes ≡ spelled.old.parts.plain_bytes) }
{
    let types = noted_vector::<_, FuncType>(alloc, input)?;
    spelled.parts.types = types.value;
    spelled.float = spelled.float.or(types.float);
    spelled.last = 1;
    Ok(())
}

fn imports(
    alloc: Global,
    spelled: &mut SpelledModule,
    input: &mut Input<'_>,
) -> Result<(), ItemFault>
    ensures item { Gives (with_state spelled.new result) input.new
        (mapped (with_imports spelled.old) (noted_vector_item import_item) input.old) }
    ensures kept { OnOk result (spelled.new.parts.plain_bytes ≡ spelled.old.parts.plain_bytes) }
{
    let imports = noted_vector::<_, Imported>(alloc, input)?;
    spelled.imports = imports.value;
    spelled.float = spelled.float.or(imports.float);
    spelled.last = 2;
    Ok(())
}

fn functions(
    alloc: Global,
    spelled: &mut SpelledModule,
    input: &mut Input<'_>,
) -> Result<(), ItemFault>
    ensures item { Gives (with_state spelled.new result) input.new
        (mapped (with_functions spelled.old) (vector_item u32_item) input.old) }
    ensures kept { OnOk result (spelled.new.parts.plain_bytes ≡ spelled.old.parts.plain_bytes) }
{
    spelled.parts.functions = input.item::<Items<u32>>(alloc)?;
    spelled.last = 3;
    Ok(())
}

fn tables(
    alloc: Global,
    spelled: &mut SpelledModule,
    input: &mut Input<'_>,
) -> Result<(), ItemFault>
    ensures item { Gives (with_state spelled.new result) input.new
        (mapped (with_tables spelled.old) (vector_item table_item) input.old) }
    ensures kept { OnOk result (spelled.new.parts.plain_bytes ≡ spelled.old.parts.plain_bytes) }
{
    spelled.parts.tables = Items::<TableTypes>::read(alloc, input)?;
    spelled.last = 4;
    Ok(())
}

fn memories(
    alloc: Global,
    spelled: &mut SpelledModule,
    input: &mut Input<'_>,
) -> Result<(), ItemFault>
    ensures item { Gives (with_state spelled.new result) input.new
        (mapped (with_memories spelled.old) (vector_item limits_item) input.old) }
    ensures kept { OnOk result (spelled.new.parts.plain_bytes ≡ spelled.old.parts.plain_bytes) }
{
    spelled.parts.memories = Items::<MemoryTypes>::read(alloc, input)?;
    spelled.last = 5;
    Ok(())
}

fn globals(
    alloc: Global,
    spelled: &mut SpelledModule,
    input: &mut Input<'_>,
) -> Result<(), ItemFault>
    ensures item { Gives (with_state spelled.new result) input.new
        (mapped (with_globals spelled.old) (noted_vector_item global_item) input.old) }
    ensures kept { OnOk result (spelled.new.parts.plain_bytes ≡ spelled.old.parts.plain_bytes) }
{
    let globals = noted_vector::<_, GlobalPart>(alloc, input)?;
    spelled.parts.globals = globals.value;
    spelled.float = spelled.float.or(globals.float);
    spelled.last = 6;
    Ok(())
}

fn exports(
    alloc: Global,
    spelled: &mut SpelledModule,
    input: &mut Input<'_>,
) -> Result<(), ItemFault>
    ensures item { Gives (with_state spelled.new result) input.new
        (mapped (with_exports spelled.old) (vector_item export_item) input.old) }
    ensures kept { OnOk result (spelled.new.parts.plain_bytes ≡ spelled.old.parts.plain_bytes) }
{
    spelled.parts.exports = Items::<ExportEntries>::read(alloc, input)?;
    spelled.last = 7;
    Ok(())
}

fn start(alloc: Global, spelled: &mut SpelledModule, input: &mut Input<'_>) -> Result<(), ItemFault>
    ensures item { Gives (with_state spelled.new result) input.new
        (mapped (with_start spelled.old) (u32_item) input.old) }
    ensures kept { OnOk result (spelled.new.parts.plain_bytes ≡ spelled.old.parts.plain_bytes) }
{
    let _alloc = alloc;
    spelled.parts.start = Some(input.u32()?);
    spelled.last = 8;
    Ok(())
}

fn elements(
    alloc: Global,
    spelled: &mut SpelledModule,
    input: &mut Input<'_>,
) -> Result<(), ItemFault>
    ensures item { Gives (with_state spelled.new result) input.new
        (mapped (with_elements spelled.old) (noted_vector_item element_item) input.old) }
    ensures kept { OnOk result (spelled.new.parts.plain_bytes ≡ spelled.old.parts.plain_bytes) }
{
    let elements = noted_vector::<_, ElementSeg>(alloc, input)?;
    spelled.parts.elements = elements.value;
    spelled.float = spelled.float.or(elements.float);
    spelled.last = 9;
    Ok(())
}

fn code(alloc: Global, spelled: &mut SpelledModule, input: &mut Input<'_>) -> Result<(), ItemFault>
    ensures item { Gives (with_state spelled.new result) input.new
        (mapped (with_bodies spelled.old) (bodies_item (length spelled.old.parts.functions))
        input.old) }
    ensures kept { OnOk result (spelled.new.parts.plain_bytes ≡ spelled.old.parts.plain_bytes) }
{
    let bodies = bodies(alloc, spelled.parts.functions.len(), input)?;
    spelled.parts.bodies = bodies.value;
    spelled.float = spelled.float.or(bodies.float);
    spelled.last = 10;
    Ok(())
}

fn segments(
    alloc: Global,
    spelled: &mut SpelledModule,
    input: &mut Input<'_>,
) -> Result<(), ItemFault>
    ensures item { Gives (with_state spelled.new result) input.new
        (mapped (with_segments spelled.old) (noted_vector_item segment_item) input.old) }
    ensures kept { OnOk result (spelled.new.parts.plain_bytes ≡ spelled.old.parts.plain_bytes) }
{
    let segments = noted_vector::<_, DataSeg>(alloc, input)?;
    spelled.parts.segments = segments.value;
    spelled.float = spelled.float.or(segments.float);
    spelled.last = 11;
    Ok(())
}

/// The contents of a section of this id, from 1 to 11.
#[tactic(auto, unfolding(wasm_format::specs::Sections::contents_item))]
fn contents(
    alloc: Global,
    id: u8,
    spelled: &mut SpelledModule,
    input: &mut Input<'_>,
) -> Result<(), ItemFault>
    ensures item { Gives (with_state spelled.new result) input.new
        (contents_item spelled.old id input.old) }
    ensures kept { OnOk result (spelled.new.parts.plain_bytes ≡ spelled.old.parts.plain_bytes) }
{
    match id {
        1 => types(alloc, spelled, input),
        2 => imports(alloc, spelled, input),
        3 => functions(alloc, spelled, input),
        4 => tables(alloc, spelled, input),
        5 => memories(alloc, spelled, input),
        6 => globals(alloc, spelled, input),
        7 => exports(alloc, spelled, input),
        8 => start(alloc, spelled, input),
        9 => elements(alloc, spelled, input),
        10 => code(alloc, spelled, input),
        _ => segments(alloc, spelled, input),
    }
}

/// The contents of a custom section (Core 5.5.3).
#[tactic(auto, unfolding(wasm_bytes::specs::Reading::rest_item, wasm_format::specs::Sections::custom_item))]
fn custom(
    alloc: Global,
    spelled: &mut SpelledModule,
    input: &mut Input<'_>,
) -> Result<(), ItemFault>
    ensures item { Gives (with_state spelled.new result) input.new
        (custom_item spelled.old input.old) }
    ensures kept { OnOk result (spelled.new.parts.plain_bytes ≡ spelled.old.parts.plain_bytes) }
{
    let name = input.item::<Text>(alloc)?;
    let at = input.at();
    let len = input.rest().len() as u32;
    spelled.parts.customs.push(Custom { name, at, len })?;
    Ok(())
}

/// A section. The sections before it that are no custom sections are not longer than the input up
/// to it.
#[tactic(auto, unfolding(wasm_bytes::specs::Reading::choose, wasm_format::specs::Sections::section_step))]
fn section(
    alloc: Global,
    spelled: &mut SpelledModule,
    input: &mut Input<'_>,
) -> Result<(), ItemFault>
    requires { spelled.old.parts.plain_bytes ≤ input.old.at }
    ensures item { Gives (with_state spelled.new result) input.new
        (section_step spelled.old input.old) }
    ensures moves { OnOk result (Moves input.old input.new) }
    ensures counted { OnOk result (spelled.new.parts.plain_bytes ≤ input.new.at) }
{
    let from = input.at();
    let id = input.byte()?;
    if id == 0 {
        let mut inner = input.open()?;
        custom(alloc, spelled, &mut inner)?;
        inner.end()?;
        return Ok(());
    }
    if spelled.last >= id || id > 11 {
        return Err(ItemFault::At(from as usize));
    }
    let mut inner = input.open()?;
    contents(alloc, id, spelled, &mut inner)?;
    inner.end()?;
    spelled.parts.plain_bytes += input.at() - from;
    Ok(())
}

fn sections(
    alloc: Global,
    spelled: &mut SpelledModule,
    input: &mut Input<'_>,
) -> Result<(), ItemFault>
    requires { spelled.old.parts.plain_bytes ≤ input.old.at }
    ensures item { Gives (with_state spelled.new result) input.new
        (steps_to_end section_step spelled.old input.old) }
    ensures stays { OnOk result (Stays input.old input.new) }
{
    'sections: while input.left() > 0 {
        section(alloc, spelled, input)?;
    }
    Ok(())
}

/// No section was read.
#[tactic(auto, unfolding(wasm_format::specs::Sections::no_parts, wasm_format::specs::Sections::no_sections))]
fn no_sections(alloc: Global) -> SpelledModule
    ensures is { result ≡ no_sections }
    ensures counted { result.parts.plain_bytes ≡ 8 }
{
    SpelledModule {
        last: 0,
        float: None,
        imports: Items::new(alloc),
        parts: ModuleParts {
            types: Items::new(alloc),
            imports: Items::new(alloc),
            functions: Items::new(alloc),
            tables: Items::new(alloc),
            memories: Items::new(alloc),
            globals: Items::new(alloc),
            exports: Items::new(alloc),
            start: None,
            elements: Items::new(alloc),
            segments: Items::new(alloc),
            bodies: Items::new(alloc),
            customs: Items::new(alloc),
            plain_bytes: 8,
        },
    }
}

fn header(input: &mut Input<'_>) -> Result<(), ItemFault>
    ensures item { Gives result input.new (bytes_item header input.old) }
    ensures behind { OnOk result ((8 ≤ input.new.at) × (input.new.block ≡ input.old.block)) }
{
    input.bytes(&HEADER)?;
    Ok(())
}

/// Reads a whole module into one without sections, which its caller drops, at one place, where this
/// fails. A body is due for each of the module's functions.
#[tactic(auto, unfolding(wasm_format::specs::Sections::sections_item, wasm_format::specs::Sections::module_item))]
fn read_whole(alloc: Global, spelled: &mut SpelledModule, bytes: &[u8]) -> Result<(), ItemFault>
    requires small { length bytes.now < 2 ^ 32 }
    requires empty { spelled.old ≡ no_sections }
    requires counted { spelled.old.parts.plain_bytes ≡ 8 }
    ensures { GivesWhole (with_state spelled.new result) (whole module_item bytes.now) }
{
    let mut input = Input::new(bytes);
    header(&mut input)?;
    sections(alloc, spelled, &mut input)?;
    if spelled.parts.bodies.len() != spelled.parts.functions.len() {
        return Err(ItemFault::At(input.at() as usize));
    }
    input.end()?;
    Ok(())
}

/// All sections of a module. A body is due for each of its functions.
pub fn spelled(alloc: Global, bytes: &[u8]) -> Result<SpelledModule, ItemFault>
    requires { length bytes.now < 2 ^ 32 }
    ensures { GivesWhole result (whole module_item bytes.now) }
{
    let mut spelled = no_sections(alloc);
    match read_whole(alloc, &mut spelled, bytes) {
        Ok(()) => Ok(spelled),
        Err(fault) => {
            drop(spelled);
            Err(fault)
        }
    }
}
