//! The command `instrument`: the module in a file is rewritten, and what it is rewritten to is
//! written under another name.
#![tactic(auto)]

mod command;
mod rewriting;
mod writing;

pub use command::instrument_file;
pub use rewriting::rewrite;
pub use writing::admitted_bytes;
