//! What opens a block of flat code.

/// What opened a block: a body, a `block` or an `else`; a `loop`; an `if`, whose first arm may
/// still end in an `else`.
#[derive(Clone, Copy)]
pub enum BlockKind {
    Plain,
    Loop,
    Then,
}
