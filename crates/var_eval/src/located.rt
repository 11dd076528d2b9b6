//! What locations say.

use wasm_bytes::Run;

/// What the location of a variable, or a frame base, says of an address.
#[derive(Drop)]
pub enum Located<'a> {
    /// There is none, or it is of another class.
    Unsaid,
    /// No entry of its list holds the address.
    NoEntry,
    /// No list stands there.
    Unreadable,
    Expression(Run<'a>),
}
