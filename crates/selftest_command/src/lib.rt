//! The command `selftest`: a module that divides by zero under so many calls is written, and its
//! rewriting; both are run, the second one with a collector, and their dumps compared.
#![tactic(auto)]

mod bytes;
mod code;
mod command;
pub mod laws;
mod module;
mod numbers;
mod original;
mod running;
mod summary;
mod words;
mod writing;

pub use bytes::selftest_bytes;
pub use command::selftest_files;
pub use module::selftest_module;
pub use words::selftest_words;
