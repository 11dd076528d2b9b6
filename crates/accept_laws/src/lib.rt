//! Laws of written dumps: their bytes are accepted with the module that ran, and so is what `run`
//! writes.
#![tactic(auto)]

pub mod laws;
pub mod run_laws;
