//! The command `run`: a module's functions are invoked, and a dump is written at each trap.
#![tactic(auto)]

mod command;
mod recording;
mod running;
mod scripts;
mod starting;

pub use command::run_file;
pub use running::begin;
pub use scripts::{Script, asked_script, bad_replies};
pub use starting::no_export;
