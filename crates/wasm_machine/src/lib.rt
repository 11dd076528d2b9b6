//! Instances of modules, their start and their invocations (Core 4.5.4, 4.5.5).
#![tactic(auto)]

mod bounds;
mod constants;
mod entries;
mod frames;
mod instance;
mod invocation;
pub mod laws;
mod memory;
mod started;
mod table;

pub use bounds::{SegmentOut, segment_out};
pub use entries::{EntryFault, entry_fault};
pub use frames::FrameRef;
pub use instance::Instance;
pub use invocation::{End, LastInvocation, RunAnswer};
pub use machine_hosted::RunEnd;
pub use machine_steps::{Position, Unwatched, Watch};
pub use started::{StartFault, Started, start};
