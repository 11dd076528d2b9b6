//! The globals that a dump records.

ghost use Rattle.std.specs.Prelude.{◌≡◌, filter_map, IfOk};
ghost use Rattle.debugger.specs.Recorded as definitions;

use causes::NoMemory;
use dump_format::{Dump, Instance};
use pm_text::Items;
use std::alloc::Global;
use wasm_syntax::{Seen, Value};

fn listed(globals: &[Value], index: u32) -> Option<Seen>
    ensures { result ≡ definitions.listed globals.now index }
{
    match globals.get(index as usize) {
        Some(value) => Some(value.shown()),
        None => None,
    }
}

/// The globals of these indices.
fn all_listed(alloc: Global, globals: &[Value], indices: &[u32]) -> Result<Items<Seen>, NoMemory>
    ensures { IfOk result (λ seens. seens
        ≡ filter_map (definitions.listed globals.now) indices.now) }
{
    let mut seens = Items::new(alloc);
    for index in indices {
        if let Some(seen) = listed(globals, *index) {
            seens.push(seen)?;
        }
    }
    Ok(seens)
}

fn globals_in(
    alloc: Global,
    globals: &[Value],
    instances: &[Instance],
) -> Result<Items<Seen>, NoMemory>
    ensures { IfOk result (λ seens. seens ≡ definitions.globals_in globals.now instances.now) }
{
    match instances.first() {
        Some(one) => all_listed(alloc, globals, one.globals.as_slice()),
        None => Ok(Items::new(alloc)),
    }
}

/// The globals that the instance of a dump lists, in the order of its list.
#[tactic(auto, unfolding(crate::specs::Recorded::recorded_globals))]
pub fn recorded_globals(alloc: Global, dump: &Dump<'_>) -> Result<Items<Seen>, NoMemory>
    ensures { IfOk result (λ seens. seens ≡ definitions.recorded_globals dump.now) }
{
    globals_in(alloc, dump.globals.as_slice(), dump.instances.as_slice())
}
