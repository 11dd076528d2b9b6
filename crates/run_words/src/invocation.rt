//! Calls of exported functions.

use pm_text::{Items, Text};
use wasm_syntax::Values;

/// A call of an exported function: its name, and the arguments in order.
#[derive(Drop)]
pub struct Invocation {
    pub entry: Text,
    pub args: Values,
}

pub type Invocations = Items<Invocation>;
