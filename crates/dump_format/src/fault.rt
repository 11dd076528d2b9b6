//! Why a dump is not read.

ghost use Rattle.std.specs.Prelude.{◌≡◌};
ghost use Rattle.dump_format.specs.Part.{part_name};

use wasm_syntax::Quantity;

/// A part of a dump that may stand only once.
#[derive(Clone, Copy, PartialEq, Eq)]
pub enum DumpPart {
    Core,
    CoreModules,
    CoreInstances,
    CoreStack,
    Memory,
}

impl DumpPart {
    /// The name that texts give the part.
    pub fn text(self) -> &'static str
        ensures { result.now ≡ part_name self }
    {
        match self {
            DumpPart::Core => "core",
            DumpPart::CoreModules => "coremodules",
            DumpPart::CoreInstances => "coreinstances",
            DumpPart::CoreStack => "corestack",
            DumpPart::Memory => "memory",
        }
    }
}

/// Why a dump is not read.
#[derive(Clone, Copy, PartialEq, Eq)]
pub enum DumpFault {
    NoMemory,
    /// The item at this offset, in bytes from the first one, has no reading.
    Malformed { at: usize },
    /// The first value of a float type is at this offset.
    FloatValue { at: usize },
    /// A part stands more than once.
    Several { part: DumpPart },
    /// A quantity passes its limit; the count is the whole quantity.
    Limit { what: Quantity, count: u64 },
}
