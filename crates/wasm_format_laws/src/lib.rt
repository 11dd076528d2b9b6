//! Laws of the binary format of modules (Core 5), which join its grammar, the decoder and the
//! encoder, and bound the length of encodings: each is the contract of a function with an empty
//! body.
#![tactic(auto)]

pub mod laws;
pub mod sizes;
