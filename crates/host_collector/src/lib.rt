//! The collector: a host side that takes the calls by which a rewritten module hands over its dump,
//! and the dump of a whole list of such calls.
#![tactic(auto)]

mod closing;
mod collecting;
mod gathered;
mod imports;
pub mod laws;
mod progress;

pub use closing::{CloseFault, Collected, close};
pub use collecting::Collecting;
