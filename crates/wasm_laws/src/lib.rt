//! Laws of the definitions of `wasm_syntax`: each is the contract of a function with an empty body.
#![tactic(auto)]

pub mod laws;
