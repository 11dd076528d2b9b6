//! The start of an instance.

ghost use Rattle.std.specs.Prelude.{◌≡◌};
ghost use Rattle.wasm_syntax.specs.Valid.{Valid};
ghost use Rattle.wasm_syntax.specs.Sizes.{WithinLimits};
ghost use Rattle.wasm_machine.specs.calls.Starts.{Starts};
ghost use Rattle.wasm_machine.specs.declared.started.StartFault.TheVariants as faults;

use crate::bounds::{SegmentOut, segment_out};
use crate::constants::start_globals;
use crate::memory::start_memory;
use crate::table::start_table;
use causes::NoMemory;
use machine_basics::Shared;
use pm_text::Items;
use std::alloc::Global;
use wasm_syntax::ModuleParts;

/// Why an instance does not start: at the first segment that passes the end of what it is put into,
/// by its index among its kind; or for want of memory.
#[derive(Clone, Copy, PartialEq, Eq)]
pub enum StartFault {
    ElementOut { index: u32 },
    DataOut { index: u32 },
    NoMemory,
}

impl From<NoMemory> for StartFault {
    ghost from_gives = { λ _ e. e ≡ faults.NoMemory };

    fn from(_error: NoMemory) -> Self {
        StartFault::NoMemory
    }
}

/// What an instance has at its start: its globals and its memory, and the functions in its table,
/// which is empty where there is none.
#[derive(Drop)]
pub struct Started {
    pub shared: Shared,
    pub table: Items<Option<u32>>,
}

/// Starts an instance of a valid module (Core 4.5.4). All segments are judged first, the element
/// segments before the data segments, and nothing is made where one of them passes the end.
pub fn start(alloc: Global, m: &ModuleParts) -> Result<Started, StartFault>
    requires valid { Valid m.now }
    requires limits { WithinLimits m.now }
    ensures { Starts result m.now }
{
    match segment_out(m) {
        Some(SegmentOut::Element { index }) => Err(StartFault::ElementOut { index }),
        Some(SegmentOut::Data { index }) => Err(StartFault::DataOut { index }),
        None => {
            let globals = start_globals(alloc, m.globals.as_slice())?;
            let table = start_table(alloc, m)?;
            let memory = start_memory(alloc, m)?;
            let shared = Shared { globals, memory };
            Ok(Started { shared, table })
        }
    }
}
