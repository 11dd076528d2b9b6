//! Modules prepared for running: flat code with a table that says where each block goes on, and a
//! number for each function type.
#![tactic(auto)]

mod code;
mod numbers;
mod prepared;
mod sides;
mod tree;
mod type_words;
mod whole;

pub use code::Code;
pub use prepared::Prepared;
pub use sides::{Side, side_table};
pub use whole::prepare;
