//! What is promised of the rewriting of a decoded module, whole, and how long the rewritten module
//! is.
#![tactic(auto)]

pub mod laws;
pub mod sizes;
