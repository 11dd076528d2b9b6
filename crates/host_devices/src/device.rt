//! Devices, which serve imports by the name of their module.

ghost use Rattle.std.specs.Prelude.{◌≡◌, ◌≤◌, ℕ, List};
ghost use Rattle.causes.specs.Counts.{Rose};
ghost use Rattle.wasm_syntax.specs.declared.host.Served.{Served};
ghost use Rattle.host_devices.specs.calls.Devices.{log_after};

use linear_memory::Memory;
use wasm_syntax::{HostCall, Reply, Served};

/// What a device answers to a call.
#[derive(Drop)]
pub enum DeviceAnswer {
    /// The log has exactly this call and reply behind its old entries.
    Replied(Reply),
    /// The count of faults rose.
    Failed,
    NoMemory,
}

/// A device.
///
/// Its meaning is its name, which never changes; the log of the calls that it replied to; and a
/// count of faults, below 2^64, that never falls.
pub trait Device: Drop {
    ghost title: { Self → List ℕ };

    ghost served: { Self → List Served };

    ghost fault_count: { Self → ℕ };

    /// The name of the module whose imports it serves.
    fn name(&self) -> &str
        ensures { result.now ≡ title self.now };

    /// The calls that it replied to, in order.
    fn log(&self) -> &[Served]
        ensures { result.now ≡ served self.now };

    /// How often a call has failed.
    fn faults(&self) -> u64
        ensures { result ≡ fault_count self.now };

    /// Serves a call. The memory is that of the run, where there is one.
    fn call(&mut self, call: &HostCall, memory: Option<&Memory>) -> DeviceAnswer
        ensures name { title self.new ≡ title self.old }
        ensures log { served self.new ≡ log_after result call.now (served self.old) }
        ensures later { fault_count self.old ≤ fault_count self.new }
        ensures failed { result ≡ DeviceAnswer.Failed
            → Rose (fault_count self.old) (fault_count self.new) };
}
