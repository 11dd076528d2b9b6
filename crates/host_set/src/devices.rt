//! Sets of devices, of any kind.

ghost use Rattle.std.specs.Prelude.{◌≡◌, ◌<◌, [], length, List, MatchOption, slice_index_or, slice_set};
ghost use Rattle.host_set.specs.Sets.{DeviceState, IsCalled, IsPlace, IsUnnamed, no_device};

use host_devices::DeviceAnswer;
use linear_memory::Memory;
use std::alloc::Global;
use wasm_syntax::{HostCall, Served};

/// A set of devices.
///
/// Its meaning is the list of the devices in order of attachment, each as its name, its log and its
/// count of faults. Of two devices of one name the first one counts.
pub trait Devices: Drop {
    ghost shown: { Self → List DeviceState };

    /// The empty set, which takes no memory.
    fn empty(alloc: Global) -> Self
        ensures { shown result ≡ [] };

    /// The index of the device of a name.
    fn place(&self, name: &str) -> Option<usize>
        ensures { MatchOption result (IsUnnamed (shown self.now) name.now)
            (λ i. IsPlace (shown self.now) name.now i) };

    /// The log of the device at an index.
    fn log(&self, place: usize) -> &[Served]
        requires { place < length (shown self.now) }
        ensures { result.now ≡ (slice_index_or (shown self.now) place no_device).log };

    /// Calls the device at an index. The memory is that of the run, where there is one.
    fn call(&mut self, place: usize, call: &HostCall, memory: Option<&Memory>) -> DeviceAnswer
        requires { place < length (shown self.old) }
        ensures others { shown self.new
            ≡ slice_set (shown self.old) place (slice_index_or (shown self.new) place no_device) }
        ensures called { IsCalled result call.now (slice_index_or (shown self.old) place no_device)
            (slice_index_or (shown self.new) place no_device) };
}
