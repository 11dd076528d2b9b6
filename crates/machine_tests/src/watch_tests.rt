//! Watched invocations, counted by instruction.

ghost use Rattle.std.specs.Prelude.{◌≡◌};

use crate::asking::{Question, holds};
use crate::modules::{ROUND, STRAIGHT};
use host_set::ScriptHosts;
use machine_steps::Tally;
use std::alloc::Global;
use wasm_machine::Instance;
use wasm_syntax::{Import, ModuleParts, Value};
use wasm_validate::Validated;

/// A module with one function, its argument, the steps that it may make, and how many it makes at
/// each of its instructions.
pub type Row<'a> = (&'a [u8], u32, u32, &'a [u64]);

const ROWS: [Row<'static>; 5] = [
    (&STRAIGHT, 0, 1000, &[1; 20]),
    // The last but one instruction traps.
    (
        &STRAIGHT,
        65536,
        1000,
        &[1, 1, 1, 1, 1, 1, 1, 1, 1, 1, 1, 1, 1, 1, 1, 1, 1, 1, 1, 0],
    ),
    // No step is counted behind the fuel.
    (&ROUND, 0, 2, &[1, 1, 0, 0, 0]),
    (&ROUND, 0, 1000, &[1, 1, 1, 1, 1]),
    (&ROUND, 7, 1000, &[334, 333, 333, 0, 0]),
];

/// Invokes the function of a new instance with at most eight frames.
fn watch(
    alloc: Global,
    instance: &mut Instance<'_>,
    imports: &[Import],
    row: &Row<'_>,
    tally: &mut Tally,
)
    requires { imports.now ≡ instance.old.module_.imports }
{
    if instance.ready() && instance.steps() == 0 {
        let mut hosts = ScriptHosts::new(alloc, imports, &[], 0);
        let args = [Value::I32(row.1)];
        let _ = instance.invoke_watched("f", &args, 8, u64::from(row.2), &mut hosts, tally);
    }
}

/// Counts the steps of a new instance's first invocation.
fn count(alloc: Global, source: &Validated, row: &Row<'_>, tally: &mut Tally) {
    let imports = source.module().parts().imports.as_slice();
    if let Ok(mut instance) = Instance::new(alloc, source) {
        watch(alloc, &mut instance, imports, row, tally);
    }
}

/// Whether a row holds of its module.
pub fn counts(alloc: Global, source: &Validated, row: &Row<'_>) -> bool {
    match Tally::new(alloc, source.module().parts()) {
        Ok(mut tally) => {
            count(alloc, source, row, &mut tally);
            tally.of_function(0) == row.3 && tally.elsewhere() == 0
        }
        Err(_) => false,
    }
}

#[test]
fn each_step_is_counted_where_it_is_made(rt: HostRuntime) {
    for (i, row) in ROWS.iter().enumerate() {
        assert!(rt; holds(rt.alloc(), row.0, &Question::Counts(row)), "{i}");
    }
}
