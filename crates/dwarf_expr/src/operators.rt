//! The operators of expressions, with their operands.

use int_ops::{Binary, Compare};

/// What the index of a WebAssembly location counts (DWARF for WebAssembly, `DW_OP_WASM_location`).
#[derive(Clone, Copy)]
pub enum Space {
    Local,
    Global,
    /// From the bottom.
    Operand,
}

/// An operator (DWARF 4 sections 2.5.1 and 2.6.1).
#[derive(Clone, Copy)]
pub enum Operator {
    /// One that pushes a constant: addr, const1u to consts, lit0 to lit31.
    Constant(u64),
    Dup,
    Drop,
    Over,
    Swap,
    Neg,
    Not,
    /// and, div, minus, mod, mul, or, plus, shl, shr, shra, xor
    Arithmetic(Binary),
    /// eq, ge, gt, le, lt, ne
    Comparison(Compare),
    PlusUconst(u64),
    /// deref and deref_size: so many bytes.
    Deref(u64),
    Fbreg(i64),
    Location(Space, u64),
    /// The size, in bytes.
    Piece(u64),
    Nop,
    StackValue,
}

/// What an opcode begins.
#[derive(Clone, Copy)]
pub enum Begun {
    Known(Operator),
    /// An operator whose operands have no reading.
    Cut,
    /// No operator that is known.
    Foreign,
}

/// An operator where it stands.
#[derive(Clone, Copy)]
pub struct PlacedOperator {
    /// The offset of the opcode.
    pub at: u32,
    pub opcode: u8,
    pub begun: Begun,
}
