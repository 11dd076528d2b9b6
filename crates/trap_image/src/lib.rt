//! The dump of an instance, as it stands at a trap or wherever else a run stopped.
#![tactic(auto)]

mod dump;

pub use dump::image;
