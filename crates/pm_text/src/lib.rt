//! Lists, bytes and texts, which contracts see as lists.
#![tactic(auto)]

mod hex;
mod items;
mod names;
mod numbers;
mod stack;
mod text;

pub use items::{Bytes, Items, Texts};
pub use numbers::{Number, read_decimal, read_value};
pub use stack::Stack;
pub use text::Text;
