//! The integer operations of WebAssembly (Core 1.0, 4.3; the sign extensions of Core 2.0, 4.3), on
//! machine words.
#![tactic(auto)]

mod convert;
mod operators;
mod word32;
mod word64;

pub use convert::{extend_s, extend_u, i32_narrow, i64_narrow, wrap};
pub use operators::{ArithTrap, Binary, Compare, Narrow32, Narrow64, Unary};
pub use word32::{i32_binary, i32_compare, i32_unary};
pub use word64::{i64_binary, i64_compare, i64_unary};
