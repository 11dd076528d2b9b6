//! Goes to any step of a recorded run.
#![tactic(auto)]

mod ahead;
mod fault;
mod passing;
mod point;
mod recorded;
mod replayer;
mod track;

pub use fault::StartRefusal;
pub use machine_hosted::RunEnd;
pub use recorded::Recorded;
pub use replayer::Replayer;
