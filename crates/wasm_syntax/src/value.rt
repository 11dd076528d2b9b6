//! Types of values, values, and what a dump shows of a value.

ghost use Rattle.std.specs.Prelude.{◌≡◌};
ghost use Rattle.wasm_syntax.specs.Machine.{zero_of};
ghost use Rattle.wasm_syntax.specs.Numbers.{same_type, seen_of, type_of};

/// A type of values (Core 2.3.1), without the floats.
#[derive(Clone, Copy, PartialEq, Eq)]
pub enum ValType {
    I32,
    I64,
}

impl ValType {
    /// The zero of a type, with which its locals begin (Core 4.4.7).
    pub fn zero(self) -> Value
        ensures { result ≡ zero_of self }
    {
        match self {
            ValType::I32 => Value::I32(0),
            ValType::I64 => Value::I64(0),
        }
    }

    /// Whether two types are the same.
    pub fn is_same(self, other: ValType) -> bool
        ensures { result ≡ same_type self other }
    {
        match (self, other) {
            (ValType::I32, ValType::I32) => true,
            (ValType::I32, ValType::I64) => false,
            (ValType::I64, ValType::I32) => false,
            (ValType::I64, ValType::I64) => true,
        }
    }
}

/// A value (Core 4.2.1), as an unsigned number.
#[derive(Clone, Copy, Debug, PartialEq, Eq)]
pub enum Value {
    I32(u32),
    I64(u64),
}

impl Value {
    /// The type of a value.
    pub fn type_of(self) -> ValType
        ensures { result ≡ type_of self }
    {
        match self {
            Value::I32(_) => ValType::I32,
            Value::I64(_) => ValType::I64,
        }
    }

    /// What a dump shows of a value that is recorded.
    pub fn shown(self) -> Seen
        ensures { result ≡ seen_of self }
    {
        match self {
            Value::I32(bits) => Seen::I32(bits),
            Value::I64(bits) => Seen::I64(bits),
        }
    }
}

/// What a dump shows of a value.
#[derive(Clone, Copy, PartialEq, Eq)]
pub enum Seen {
    I32(u32),
    I64(u64),
    /// The value was not recorded.
    Missing,
}
