//! The counted quantities of an input, and the greatest numbers of them that are taken.

ghost use Rattle.std.specs.Prelude.{◌≡◌};
ghost use Rattle.wasm_syntax.specs.Quantity.{greatest, name};

/// A quantity of an input that is counted against a number.
#[derive(Clone, Copy, Debug, PartialEq, Eq)]
pub enum Quantity {
    ModuleBytes,
    DumpBytes,
    RepliesBytes,
    /// The locals of a function, with its parameters.
    Locals,
    /// The blocks, loops and ifs that are open at once in a function.
    Nesting,
    /// The least size of a table, in elements.
    Table,
    /// The least size of a memory, in pages of 65,536 bytes.
    Memory,
    /// The operands that stand at once in a frame.
    Height,
    DumpPages,
    DumpFrames,
    /// The locals of a function that is to be instrumented, with its parameters.
    InstrumentLocals,
    /// The parameters of a function type in a module that is to be instrumented.
    InstrumentParameters,
    InstrumentHeight,
    InstrumentNesting,
    Weight,
}

impl Quantity {
    /// The greatest number that is taken.
    pub fn limit(self) -> u64
        ensures { result ≡ greatest self }
    {
        match self {
            Quantity::ModuleBytes | Quantity::Weight => 134_217_728,
            Quantity::DumpBytes => 536_870_912,
            Quantity::RepliesBytes => 16_777_216,
            Quantity::Locals => 16_384,
            Quantity::Nesting => 1_024,
            Quantity::Table | Quantity::DumpFrames => 65_536,
            Quantity::Memory | Quantity::Height | Quantity::DumpPages => 4_096,
            Quantity::InstrumentLocals => 10_000,
            Quantity::InstrumentParameters
            | Quantity::InstrumentHeight
            | Quantity::InstrumentNesting => 1_000,
        }
    }

    /// The name that texts give the quantity.
    pub fn text(self) -> &'static str
        ensures { result.now ≡ name self }
    {
        match self {
            Quantity::ModuleBytes => "module bytes",
            Quantity::DumpBytes => "dump bytes",
            Quantity::RepliesBytes => "replies bytes",
            Quantity::Locals => "locals",
            Quantity::Nesting => "nesting",
            Quantity::Table => "table",
            Quantity::Memory => "memory",
            Quantity::Height => "height",
            Quantity::DumpPages => "dump pages",
            Quantity::DumpFrames => "dump frames",
            Quantity::InstrumentLocals => "instrument locals",
            Quantity::InstrumentParameters => "instrument parameters",
            Quantity::InstrumentHeight => "instrument height",
            Quantity::InstrumentNesting => "instrument nesting",
            Quantity::Weight => "weight",
        }
    }
}
