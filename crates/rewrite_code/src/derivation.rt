//! Locals that are worked out of two others where a frame is left.

use wasm_syntax::Basic;

/// A local that has what an instruction gives on the values of two others, `left` below `right`. All
/// three are indices of locals, the parameters among them.
#[derive(Clone, Copy)]
pub struct Derivation {
    pub made: u32,
    pub instruction: Basic,
    pub left: u32,
    pub right: u32,
}
