//! The start of instances of decoded modules, and the causes why entries are not invoked.

ghost use Rattle.std.specs.Prelude.{[], None};
ghost use Rattle.host_set.specs.Sets.{AreDistinct, names};

use crate::asking::{Question, holds};
use crate::modules::{BOTH_OUT, DATA_OUT, FILLED, READING};
use host_set::{DeviceSet, Devices, Hosts};
use std::alloc::Global;
use wasm_machine::{EntryFault, StartFault, Started, entry_fault, start};
use wasm_syntax::Value;
use wasm_validate::Validated;

/// The four bytes of the memory from a place on, the lowest first.
fn word_at(instance: &Started, at: u64) -> Option<u64> {
    match &instance.shared.memory {
        Some(memory) => memory.load(at, 4),
        None => None,
    }
}

fn is_filled(instance: &Started) -> bool {
    instance.shared.globals.as_slice() == [Value::I32(1)].as_slice()
        && instance.table.as_slice() == [Some(0), Some(1), Some(0), None].as_slice()
        && word_at(instance, 65_532) == Some(0x6361_0000)
}

/// Whether a start is refused with this fault, or is that of [`FILLED`] where there is none.
fn is_wanted(answer: &Result<Started, StartFault>, fault: Option<StartFault>) -> bool {
    match answer {
        Ok(instance) => fault.is_none() && is_filled(instance),
        Err(found) => fault == Some(*found),
    }
}

/// The same of the start of a module.
pub fn starts(alloc: Global, source: &Validated, fault: Option<StartFault>) -> bool {
    is_wanted(&start(alloc, source.module().parts()), fault)
}

const STARTS: [(&[u8], Option<StartFault>); 3] = [
    // The first segment that is out is told.
    (&DATA_OUT, Some(StartFault::DataOut { index: 1 })),
    (&BOTH_OUT, Some(StartFault::ElementOut { index: 0 })),
    // Later segments lie over earlier ones.
    (&FILLED, None),
];

/// A module, an entry, its arguments, and why it may not be invoked where nobody serves imports, if
/// so.
pub type Row<'a> = (&'a [u8], &'a str, &'a [Value], Option<EntryFault>);

// An import that nobody serves is told last.
const ENTRIES: [Row<'static>; 6] = [
    (&FILLED, "g", &[], Some(EntryFault::NoExport)),
    (&FILLED, "f", &[], Some(EntryFault::BadArguments)),
    (
        &FILLED,
        "f",
        &[Value::I64(7)],
        Some(EntryFault::BadArguments),
    ),
    (&FILLED, "f", &[Value::I32(7)], None),
    (
        &READING,
        "f",
        &[Value::I32(7)],
        Some(EntryFault::BadArguments),
    ),
    (&READING, "f", &[], Some(EntryFault::Unserved { import: 0 })),
];

/// Whether an entry is judged so where these devices alone serve the imports.
fn is_judged<S: Devices>(alloc: Global, devices: S, source: &Validated, row: &Row<'_>) -> bool
    requires { AreDistinct (names (S.shown devices)) }
{
    let imports = source.module().parts().imports.as_slice();
    let hosts = Hosts::new(alloc, devices, None, imports);
    entry_fault(source, row.1, row.2, &hosts) == row.3
}

/// Whether a row holds of its module.
pub fn judges(alloc: Global, source: &Validated, row: &Row<'_>) -> bool {
    is_judged(alloc, DeviceSet::new(alloc), source, row)
}

/// The number of the first row that does not hold, if there is one.
fn first_wrong(alloc: Global, rows: &[Row<'_>]) -> Option<usize> {
    for (i, row) in rows.iter().enumerate() {
        if !holds(alloc, row.0, &Question::Judges(row)) {
            return Some(i);
        }
    }
    None
}

#[test]
fn starts_and_entries(rt: HostRuntime) {
    for (i, row) in STARTS.iter().enumerate() {
        assert!(rt; holds(rt.alloc(), row.0, &Question::Starts(row.1)), "{i}");
    }
    assert_eq!(rt; first_wrong(rt.alloc(), &ENTRIES), None);
}
