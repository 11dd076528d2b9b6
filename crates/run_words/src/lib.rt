//! What the words behind `run` and `cover` ask for.
#![tactic(auto)]

mod cover;
mod invocation;
mod invoking;
mod words;

pub use cover::{CoverWords, cover_words};
pub use invocation::{Invocation, Invocations};
pub use invoking::arguments;
pub use words::{RunWords, depth, fuel, number_or, run_words};
