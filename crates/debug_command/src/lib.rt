//! The command `debug`.
#![tactic(auto)]

mod answering;
mod command;
mod command_list;
mod words;

pub use command::debug_file;
pub use command_list::push_command;
pub use words::{DebugWords, debug_words};
