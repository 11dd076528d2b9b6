//! The operators of the integer instructions.

/// An operation on one integer (Core 2.4.1).
#[derive(Clone, Copy, PartialEq, Eq)]
pub enum Unary {
    /// How many zero bits stand above the highest 1.
    Clz,
    /// How many zero bits stand below the lowest 1.
    Ctz,
    /// How many bits are 1.
    Popcnt,
}

/// A comparison of two integers (Core 2.4.1). `S` compares as signed, `U` as unsigned. `eqz` is
/// `Eq` with 0.
#[derive(Clone, Copy, PartialEq, Eq)]
pub enum Compare {
    Eq,
    Ne,
    LtS,
    LtU,
    GtS,
    GtU,
    LeS,
    LeU,
    GeS,
    GeU,
}

/// An operation on two integers (Core 2.4.1).
#[derive(Clone, Copy, PartialEq, Eq)]
pub enum Binary {
    Add,
    Sub,
    Mul,
    DivS,
    DivU,
    RemS,
    RemU,
    And,
    Or,
    Xor,
    Shl,
    ShrS,
    ShrU,
    Rotl,
    Rotr,
}

/// Why a division or a remainder gives no integer (Core 4.3.2).
#[derive(Clone, Copy, Debug, PartialEq, Eq)]
pub enum ArithTrap {
    /// The divisor is 0.
    DivideByZero,
    /// The quotient of the least signed integer by -1 is past the range.
    Overflow,
}

/// The lowest bits of an i32 that a sign extension reads (Core 2.0, 2.4.1).
#[derive(Clone, Copy, PartialEq, Eq)]
pub enum Narrow32 {
    Eight,
    Sixteen,
}

/// The lowest bits of an i64 that a sign extension reads (Core 2.0, 2.4.1).
#[derive(Clone, Copy, PartialEq, Eq)]
pub enum Narrow64 {
    Eight,
    Sixteen,
    ThirtyTwo,
}
