//! The places of a module in their order, up to the bodies of functions.

ghost use Rattle.std.specs.Prelude.{◌<◌, ◌+◌, ◌^◌, length, IfOk};
ghost use Rattle.wasm_syntax.specs.Sizes.{ShortLists};
ghost use Rattle.wasm_validate.specs.inner.Places.{SoFar, UpTo};

use crate::exports::bad_export;
use crate::first::first_bad;
use crate::parts::{first_bad_limits, is_start_fine};
use causes::NoMemory;
use std::alloc::Global;
use wasm_syntax::{ModuleParts, Place};

/// The first place that is not fine up to the memories.
#[tactic(auto, using(crate::proofs::Order::first_type, crate::proofs::Order::first_import, crate::proofs::Order::first_declaration, crate::proofs::Order::first_table, crate::proofs::Order::first_memory, crate::proofs::Order::early_fine))]
fn bad_early(m: &ModuleParts) -> Option<Place>
    requires short { ShortLists m.now }
    ensures { SoFar m.now 5 result }
{
    match first_bad(m, &m.types) {
        Some(i) => return Some(Place::TypeAt(i)),
        None => {}
    }
    match first_bad(m, &m.imports) {
        Some(i) => return Some(Place::ImportAt(i)),
        None => {}
    }
    match first_bad(m, &m.functions) {
        Some(i) => return Some(Place::Declaration((m.imports.len() + i as usize) as u32)),
        None => {}
    }
    match first_bad_limits(&m.tables, 4_294_967_296) {
        Some(i) => return Some(Place::TableAt(i)),
        None => {}
    }
    match first_bad_limits(&m.memories, 65_536) {
        Some(i) => Some(Place::MemoryAt(i)),
        None => None,
    }
}

/// The first place that is not fine from the start function on, up to the data segments.
#[tactic(auto, using(crate::proofs::Order::start_bad, crate::proofs::Order::first_element, crate::proofs::Order::first_segment, crate::proofs::Order::late_fine))]
fn bad_late(m: &ModuleParts) -> Option<Place>
    requires short { ShortLists m.now }
    requires others { UpTo m.now 7 0 }
    ensures { SoFar m.now 10 result }
{
    if !is_start_fine(m) {
        return Some(Place::Start);
    }
    match first_bad(m, &m.elements) {
        Some(i) => return Some(Place::ElementAt(i)),
        None => {}
    }
    match first_bad(m, &m.segments) {
        Some(i) => Some(Place::DataAt(i)),
        None => None,
    }
}

/// The first place that is not fine, before the bodies of functions.
#[tactic(auto, using(crate::proofs::Order::globals_bad, crate::proofs::Order::first_export, crate::proofs::Order::middle_fine))]
pub fn bad_part(alloc: Global, m: &ModuleParts) -> Result<Option<Place>, NoMemory>
    requires short { ShortLists m.now }
    ensures { IfOk result (λ place. SoFar m.now 10 place) }
{
    match bad_early(m) {
        Some(place) => return Ok(Some(place)),
        None => {}
    }
    match first_bad(m, &m.globals) {
        Some(i) => return Ok(Some(Place::GlobalAt(i))),
        None => {}
    }
    let found = bad_export(alloc, m)?;
    match found {
        Some(i) => return Ok(Some(Place::ExportAt(i))),
        None => {}
    }
    Ok(bad_late(m))
}
