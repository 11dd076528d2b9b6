//! The rewriting of a function's body, so that a trap hands over the values of every frame (in
//! `specs/`), and the proof that the rewritten code does what the original does.
#![tactic(auto)]

pub mod guard_laws;
pub mod laws;
