//! Instructions: one variant per production of Core 2.4, with its operator and its immediates as
//! fields, so that each instruction of integers is exactly one value.

ghost use Rattle.std.specs.Prelude.{◌≡◌, ◌<◌, ◌≤◌, ◌*◌, ◌/◌, length, slice_get, Some};
ghost use Rattle.linear_memory.specs.calls.Paged.{IsWidth};
ghost use Rattle.wasm_syntax.specs.Access.{load_bits, load_type, store_bits, store_type};

use crate::value::{ValType, Value};
use int_ops::{Binary, Compare, Narrow32, Narrow64, Unary};

/// A conversion between the two types: `i32.wrap_i64`, `i64.extend_i32_s`, `i64.extend_i32_u` (Core
/// 2.4.1).
#[derive(Clone, Copy, PartialEq, Eq)]
pub enum Convert {
    Wrap,
    ExtendS,
    ExtendU,
}

/// How a load widens what it read (Core 2.4.4).
#[derive(Clone, Copy, PartialEq, Eq)]
pub enum Sign {
    Signed,
    Unsigned,
}

/// What a load reads: a whole value, or the lowest bits of an i32 or of an i64 (Core 2.4.4).
#[derive(Clone, Copy, PartialEq, Eq)]
pub enum Load {
    Full(ValType),
    Part32(Narrow32, Sign),
    Part64(Narrow64, Sign),
}

impl Load {
    /// The type of the value that a load gives.
    pub fn value_type(self) -> ValType
        ensures { result ≡ load_type self }
    {
        match self {
            Load::Full(t) => t,
            Load::Part32(_, _) => ValType::I32,
            Load::Part64(_, _) => ValType::I64,
        }
    }

    /// How many bytes a load reads.
    #[inline(always)]
    pub fn bytes(self) -> u32
        ensures width { result ≡ load_bits self / 8 }
        ensures bits { 8 * result ≡ load_bits self }
        ensures few { result ≤ 8 }
        ensures one_of { IsWidth result }
    {
        match self {
            Load::Full(ValType::I32) => 4,
            Load::Full(ValType::I64) => 8,
            Load::Part32(Narrow32::Eight, _) => 1,
            Load::Part32(Narrow32::Sixteen, _) => 2,
            Load::Part64(Narrow64::Eight, _) => 1,
            Load::Part64(Narrow64::Sixteen, _) => 2,
            Load::Part64(Narrow64::ThirtyTwo, _) => 4,
        }
    }

    /// How many bits a load reads.
    pub fn bits(self) -> u32
        ensures is { result ≡ load_bits self }
        ensures few { result ≤ 64 }
    {
        8 * self.bytes()
    }
}

/// What a store writes: a whole value, or the lowest bits of an i32 or of an i64 (Core 2.4.4).
#[derive(Clone, Copy, PartialEq, Eq)]
pub enum Store {
    Full(ValType),
    Part32(Narrow32),
    Part64(Narrow64),
}

impl Store {
    /// The type of the value that a store takes.
    pub fn value_type(self) -> ValType
        ensures { result ≡ store_type self }
    {
        match self {
            Store::Full(t) => t,
            Store::Part32(_) => ValType::I32,
            Store::Part64(_) => ValType::I64,
        }
    }

    /// How many bytes a store writes.
    #[inline(always)]
    pub fn bytes(self) -> u32
        ensures width { result ≡ store_bits self / 8 }
        ensures bits { 8 * result ≡ store_bits self }
        ensures few { result ≤ 8 }
        ensures one_of { IsWidth result }
    {
        match self {
            Store::Full(ValType::I32) => 4,
            Store::Full(ValType::I64) => 8,
            Store::Part32(Narrow32::Eight) => 1,
            Store::Part32(Narrow32::Sixteen) => 2,
            Store::Part64(Narrow64::Eight) => 1,
            Store::Part64(Narrow64::Sixteen) => 2,
            Store::Part64(Narrow64::ThirtyTwo) => 4,
        }
    }

    /// How many bits a store writes.
    pub fn bits(self) -> u32
        ensures is { result ≡ store_bits self }
        ensures few { result ≤ 64 }
    {
        8 * self.bytes()
    }
}

/// An instruction behind which the next one of its sequence is run (Core 2.4.1 to 2.4.4, and `nop`;
/// Core 2.0 for the sign extensions, `memory.copy` and `memory.fill`).
#[derive(Clone, Copy)]
pub enum Basic {
    Nop,
    Drop,
    Select,
    LocalGet(u32),
    LocalSet(u32),
    LocalTee(u32),
    GlobalGet(u32),
    GlobalSet(u32),
    /// With the exponent of the alignment, and the offset in bytes.
    Load(Load, u32, u32),
    /// With the exponent of the alignment, and the offset in bytes.
    Store(Store, u32, u32),
    MemorySize,
    MemoryGrow,
    MemoryCopy,
    MemoryFill,
    Const(Value),
    Eqz(ValType),
    Unary(ValType, Unary),
    Compare(ValType, Compare),
    Binary(ValType, Binary),
    Convert(Convert),
    /// `i32.extend8_s` and `i32.extend16_s`.
    Extend32(Narrow32),
    /// `i64.extend8_s`, `i64.extend16_s` and `i64.extend32_s`.
    Extend64(Narrow64),
}

/// A control instruction that holds no others (Core 2.4.5).
#[derive(Clone, Copy, PartialEq, Eq)]
pub enum Jump {
    Unreachable,
    Br(u32),
    BrIf(u32),
    /// The place of its first target in the target list of its body, the number of its targets, and
    /// its default.
    BrTable(u32, u32, u32),
    Return,
    Call(u32),
    /// The index of a type. The table is the module's only one.
    CallIndirect(u32),
}

/// An instruction as it stands in a flat body (Core 2.4, 5.4).
#[derive(Clone, Copy)]
pub enum Instr {
    Basic(Basic),
    Jump(Jump),
    Block(Option<ValType>),
    Loop(Option<ValType>),
    If(Option<ValType>),
    Else,
    End,
}

/// An instruction with the code offset of its first byte, in bytes from the first byte of the code
/// entry after its size field, and its length in bytes.
#[derive(Clone, Copy)]
pub struct Op {
    pub at: u32,
    pub len: u32,
    pub code: Instr,
}

/// The n-th instruction.
pub fn read_op(ops: &[Op], n: usize) -> Op
    requires { n < length ops.now }
    ensures { slice_get ops.now n ≡ Some result }
{
    ops[n]
}
