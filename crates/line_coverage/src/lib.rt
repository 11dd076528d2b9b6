//! How many steps of a run fell on each source line.
#![tactic(auto)]

mod coverage;
mod placing;
mod spots;
mod sums;
mod visits;

pub use coverage::Coverage;
pub use spots::{LineCount, Spot};
