//! The rewriting of modules, so that they dump themselves at a trap.
#![tactic(auto)]

pub mod laws;
