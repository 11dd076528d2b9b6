//! Sets of devices, and the host sides that serve imports by them, by a script or by recorded
//! replies.
#![tactic(auto)]

mod device_set;
mod devices;
mod entry;
mod hosts;
mod script_hosts;

pub use device_set::DeviceSet;
pub use devices::Devices;
pub use hosts::Hosts;
pub use script_hosts::ScriptHosts;
