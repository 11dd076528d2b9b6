//! A host side: all that serves the imports of a module in a run.

ghost use Rattle.std.specs.Prelude.{◌≡◌, ◌≤◌, ℕ, List, Bool, true, Some, slice_get};
ghost use Rattle.wasm_syntax.specs.declared.parts.Import.{Import as ImportValue};
ghost use Rattle.wasm_syntax.specs.declared.parts.FuncType.{FuncType as TypeValue};
ghost use Rattle.host_devices.specs.calls.HostSides.{Origin, Calls, IsOfType, told, Answers, IsExhausted, HasCause};
ghost use Rattle.host_devices.specs.calls.HostSides.{KeepsUse};

use linear_memory::Memory;
use pm_text::Text;
use wasm_syntax::{FuncType, HostCall, Import, Reply};

/// What a host side answers to a call of an import.
#[derive(Drop)]
pub enum HostAnswer {
    Replied(Reply),
    /// The replies for this import are used up.
    NoReply,
    /// The device of this name failed, and its count of faults rose.
    Failed(Text),
    NoMemory,
}

/// What serves the imports of a module.
///
/// Its meaning is what it began with, which never changes; the calls so far, those that were served
/// and those of the collector; whether it collects; which imports it serves; for each import
/// whether its replies are used up; and for each name of a device a count of faults, which never
/// falls.
pub trait HostSide {
    ghost origin: { Self → Origin };

    ghost calls: { Self → Calls };

    ghost collecting: { Self → Bool };

    ghost serving: { Self → ImportValue → TypeValue → Bool };

    ghost used_up: { Self → ImportValue → Bool };

    ghost fault_count: { Self → List ℕ → ℕ };

    /// Whether an import of that type is served. This never changes.
    fn serves(&self, import: &Import, ftype: &FuncType) -> bool
        ensures { result ≡ serving self.now import.now ftype.now };

    /// Whether the calls of the collector's imports are collected, and not served. This never
    /// changes.
    fn collects(&self) -> bool
        ensures { result ≡ collecting self.now };

    /// Serves a call of an import. The memory is that of the run, where there is one.
    fn call(&mut self, import: &Import, call: &HostCall, memory: Option<&Memory>) -> HostAnswer
        requires there { slice_get (origin self.old).imports call.now.import ≡ Some import.now }
        requires served { (ftype : TypeValue) × (serving self.old import.now ftype ≡ true)
            × IsOfType ftype call.now }
        ensures calls { Answers (told (collecting self.old) import.now call.now) call.now result
            (calls self.old) (calls self.new) }
        ensures exhausted { IsExhausted (used_up self.old import.now) result }
        ensures used { KeepsUse result (used_up self.old) (used_up self.new) }
        ensures cause { HasCause import.now result (fault_count self.old) (fault_count self.new) }
        ensures later { (name : List ℕ) → fault_count self.old name ≤ fault_count self.new name }
        ensures serving { (i : ImportValue) (t : TypeValue)
            → serving self.new i t ≡ serving self.old i t }
        ensures collecting { collecting self.new ≡ collecting self.old }
        ensures origin { origin self.new ≡ origin self.old };
}
