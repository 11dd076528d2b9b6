//! The function that an invocation calls.

use wasm_syntax::Value;

/// A function, by its index, and its arguments in the parameters' order.
#[derive(Drop)]
pub struct Entry<'e> {
    pub index: u32,
    pub args: &'e [Value],
}
