//! A set of boxed devices.

ghost use Rattle.std.specs.Prelude.{◌≡◌, ◌≤◌, [], None, Some, List, ℕ, IfErr, IfOk, OnErr, OnOk, if◌then◌else◌, map};
ghost use Rattle.std.specs.List.{position_from};
ghost use Rattle.std.specs.Option.{option_map};
ghost use Rattle.std.specs.Str.{bytes_eq};
ghost use Rattle.causes.specs.Counts.{Rose};
ghost use Rattle.host_devices.specs.calls.Devices.{log_after};
ghost use Rattle.host_set.specs.Sets.{AreDistinct, attached, device_named, names, released};

use crate::devices::Devices;
use host_devices::{Device, DeviceAnswer};
use linear_memory::Memory;
use std::alloc::Global;
use std::mem;
use wasm_syntax::{HostCall, Served};

/// Devices in boxes, in order of attachment. Those that are left are dropped with the set.
#[derive(Drop)]
pub struct DeviceSet {
    devices: Vec<Box<dyn Device>>,
}

fn name_of(device: &Box<dyn Device>) -> &str
    ensures { result.now ≡ title device.now }
{
    device.name()
}

/// What has a name.
trait Titled {
    ghost text: { Self → List ℕ };

    fn has_name(&self, name: &str) -> bool
        ensures { result ≡ bytes_eq (text self.now) name.now };
}

impl Titled for Box<dyn Device> {
    ghost text = { λ b. (Device-box b).title b.value };

    fn has_name(&self, name: &str) -> bool {
        name_of(self) == name
    }
}

/// The index of the first device of a name.
fn position<D: Titled>(devices: &[D], name: &str) -> Option<usize>
    ensures { result ≡ position_from (λ b. bytes_eq (D.text b) name.now) 0 devices.now }
{
    devices.iter().position(|device| device.has_name(name))
}

fn ask(device: &mut Box<dyn Device>, call: &HostCall, memory: Option<&Memory>) -> DeviceAnswer
    ensures name { title device.new ≡ title device.old }
    ensures log { served device.new ≡ log_after result call.now (served device.old) }
    ensures later { fault_count device.old ≤ fault_count device.new }
    ensures failed { result ≡ DeviceAnswer.Failed
        → Rose (fault_count device.old) (fault_count device.new) }
{
    device.call(call, memory)
}

fn lent(device: &Box<dyn Device>) -> &dyn Device
    ensures name { (Device-dyn result.now).title result.now.1
        ≡ (Device-box device.now).title device.now.value }
    ensures log { (Device-dyn result.now).served result.now.1
        ≡ (Device-box device.now).served device.now.value }
    ensures count { (Device-dyn result.now).fault_count result.now.1
        ≡ (Device-box device.now).fault_count device.now.value }
{
    &**device
}

fn log(device: &Box<dyn Device>) -> &[Served]
    ensures { result.now ≡ served device.now }
{
    device.log()
}

impl Devices for DeviceSet {
    ghost shown = { λ s. map (λ b. record {
      name = (Device-box b).title b.value;
      log = (Device-box b).served b.value;
      count = (Device-box b).fault_count b.value;
    }) s.devices.items };

    fn empty(alloc: Global) -> Self {
        DeviceSet {
            devices: Vec::new(alloc),
        }
    }

    fn place(&self, name: &str) -> Option<usize> {
        position(&self.devices, name)
    }

    fn log(&self, place: usize) -> &[Served] {
        log(&self.devices[place])
    }

    fn call(&mut self, place: usize, call: &HostCall, memory: Option<&Memory>) -> DeviceAnswer {
        ask(&mut self.devices[place], call, memory)
    }
}

impl DeviceSet {
    /// The empty set, which takes no memory.
    pub fn new(alloc: Global) -> Self
        ensures { ⟦<DeviceSet as Devices>⟧.shown result ≡ [] }
    {
        DeviceSet {
            devices: Vec::new(alloc),
        }
    }

    /// Attaches a device, and gives back the one of the same name that it replaces. Replacing takes
    /// no memory. Where memory runs out the set is unchanged and the error gives the device back.
    pub fn attach(
        &mut self,
        device: Box<dyn Device>,
    ) -> Result<Option<Box<dyn Device>>, Box<dyn Device>>
        ensures attached { OnOk result
            (⟦<DeviceSet as Devices>⟧.shown self.new
            ≡ attached (⟦<DeviceSet as Devices>⟧.shown self.old) (record {
              name = title device;
              log = served device;
              count = fault_count device;
            })) }
        ensures replaced { IfOk result (λ old. option_map (λ b. record {
          name = title b;
          log = served b;
          count = fault_count b;
        }) old ≡ device_named (⟦<DeviceSet as Devices>⟧.shown self.old) (title device)) }
        ensures unchanged { OnErr result
            (⟦<DeviceSet as Devices>⟧.shown self.new ≡ ⟦<DeviceSet as Devices>⟧.shown self.old) }
        ensures refused { IfErr result
            (λ b. (title b ≡ title device) × (served b ≡ served device)
            × (fault_count b ≡ fault_count device)) }
        ensures replacing { OnErr result
            (device_named (⟦<DeviceSet as Devices>⟧.shown self.old) (title device) ≡ None) }
        ensures distinct { AreDistinct (names (⟦<DeviceSet as Devices>⟧.shown self.old))
            → AreDistinct (names (⟦<DeviceSet as Devices>⟧.shown self.new)) }
        ensures maps { OnOk result ((name : List ℕ)
            → device_named (⟦<DeviceSet as Devices>⟧.shown self.new) name
            ≡ if bytes_eq (title device) name then Some (record {
              name = title device;
              log = served device;
              count = fault_count device;
            }) else device_named (⟦<DeviceSet as Devices>⟧.shown self.old) name) }
    {
        if let Some(place) = self.place(name_of(&device)) {
            return Ok(Some(mem::replace(&mut self.devices[place], device)));
        }
        match self.devices.push(device) {
            Ok(()) => Ok(None),
            Err(refused) => Err(refused.value),
        }
    }

    /// Takes the device of a name out of the set.
    pub fn release(&mut self, name: &str) -> Option<Box<dyn Device>>
        ensures released { ⟦<DeviceSet as Devices>⟧.shown self.new
            ≡ released (⟦<DeviceSet as Devices>⟧.shown self.old) name.now }
        ensures back { option_map (λ b. record {
          name = title b;
          log = served b;
          count = fault_count b;
        }) result ≡ device_named (⟦<DeviceSet as Devices>⟧.shown self.old) name.now }
        ensures distinct { AreDistinct (names (⟦<DeviceSet as Devices>⟧.shown self.old))
            → AreDistinct (names (⟦<DeviceSet as Devices>⟧.shown self.new)) }
        ensures maps { AreDistinct (names (⟦<DeviceSet as Devices>⟧.shown self.old))
            → (other : List ℕ) → device_named (⟦<DeviceSet as Devices>⟧.shown self.new) other
            ≡ if bytes_eq name.now other then None else device_named
            (⟦<DeviceSet as Devices>⟧.shown self.old) other }
    {
        match self.place(name) {
            Some(place) => Some(self.devices.remove(place)),
            None => None,
        }
    }

    /// The device of a name.
    pub fn get(&self, name: &str) -> Option<&dyn Device>
        ensures { option_map (λ r. record {
          name = title r.now;
          log = served r.now;
          count = fault_count r.now;
        }) result ≡ device_named (⟦<DeviceSet as Devices>⟧.shown self.now) name.now }
    {
        match self.place(name) {
            Some(place) => Some(lent(&self.devices[place])),
            None => None,
        }
    }
}
