//! Runs whose imports a host side serves (Core 4.4.7, 4.5.4, 4.5.5): a reply to a call of an
//! import, a run of one function, and an invocation, which is the start function, where it is due,
//! and the entry behind it. No run of a valid module gets stuck (Core, appendix "Soundness").
#![tactic(auto)]

mod alone;
mod answer;
mod begin;
mod collector;
mod entry;
mod heard;
mod invocation;
pub mod laws;
mod replies;
mod reply;
mod resume;
mod runner;
mod taken;
mod turn;
mod watched_function;
mod watched_invocation;
mod watched_run;
mod writes;

pub use answer::{EntryRun, RunEnd};
pub use entry::Entry;
pub use resume::resume_invocation;
pub use runner::Runner;
pub use watched_invocation::watch_invocation;
