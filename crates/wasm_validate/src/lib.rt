//! The validator of modules (Core 3.4).
#![tactic(auto)]

mod bodies;
mod exports;
mod expressions;
mod first;
pub mod laws;
mod limit;
mod offsets;
mod parts;
mod places;
mod rows;
mod validated;

pub use validated::{ValidateFault, Validated, validate};
