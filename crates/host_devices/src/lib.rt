//! What serves the imports of a module in a run.
#![tactic(auto)]

mod console;
mod copies;
mod counter;
mod device;
mod faults;
mod host;
mod scripted;

pub use console::{Console, empty_reply};
pub use copies::{copy_call, copy_reply};
pub use counter::Counter;
pub use device::{Device, DeviceAnswer};
pub use host::{HostAnswer, HostSide};
pub use scripted::Scripted;
