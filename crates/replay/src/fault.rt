//! Why a run does not start.

ghost use Rattle.std.specs.Prelude.{◌≡◌};
ghost use Rattle.replay.specs.declared.fault.StartRefusal.TheVariants as faults;

use causes::NoMemory;
use wasm_machine::{EntryFault, StartFault};

/// Why a run does not start: no function is exported under its name; the arguments are not as many
/// as its parameters, or not of their types; or the element or data segment of an index lies
/// outside, the first such one.
#[derive(Clone, Copy, Debug)]
pub enum StartRefusal {
    NoExport,
    BadArguments,
    ElementOut { index: u32 },
    DataOut { index: u32 },
    NoMemory,
}

impl From<NoMemory> for StartRefusal {
    ghost from_gives = { λ _ e. e ≡ faults.NoMemory };

    fn from(_e: NoMemory) -> StartRefusal {
        StartRefusal::NoMemory
    }
}
