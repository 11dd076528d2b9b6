//! The command `cover`: how many steps of a run fell on each source line.
#![tactic(auto)]

mod command;
mod covering;
mod ending;
mod merging;
mod telling;

pub use command::cover_file;
