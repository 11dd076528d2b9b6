//! Numeric instructions on values (Core 4.4.1). None where an operand is not of the instruction's
//! type.

ghost use Rattle.std.specs.Prelude.{◌≡◌, ◌==◌, option_map};
ghost use Rattle.int_ops.specs.Integers.{extend32 as extended_32, extend64 as extended_64};
ghost use Rattle.wasm_syntax.specs.Numbers.{number, value, bool_number, unary as unary_of, compare as compare_of};
ghost use Rattle.wasm_syntax.specs.Numbers.{binary as binary_of, convert as convert_of, convert_from, convert_to};
ghost use Rattle.wasm_syntax.specs.declared.value.ValType.TheVariants as types;
ghost use Rattle.wasm_syntax.specs.declared.value.Value.TheVariants as values;
ghost use Rattle.machine_basics.specs.inner.Numeric.{compare_values, binary_values, valued};

use int_ops::{
    ArithTrap, Binary, Compare, Narrow32, Narrow64, Unary, extend_s, extend_u, i32_binary,
    i32_compare, i32_narrow, i32_unary, i64_binary, i64_compare, i64_narrow, i64_unary, wrap,
};
use wasm_syntax::{Convert, ValType, Value};

/// `i32.eqz` and `i64.eqz`.
#[inline(always)]
pub(crate) fn eqz(t: ValType, a: Value) -> Option<Value>
    ensures { result ≡ option_map (λ n. values.I32 (bool_number (n == 0))) (number t a) }
{
    match (t, a) {
        (ValType::I32, Value::I32(n)) => Some(Value::I32(u32::from(n == 0))),
        (ValType::I64, Value::I64(n)) => Some(Value::I32(u32::from(n == 0))),
        _ => None,
    }
}

/// An operation on one integer.
#[inline(always)]
pub(crate) fn unary(t: ValType, op: Unary, a: Value) -> Option<Value>
    ensures { result ≡ option_map (λ n. value t (unary_of t op n)) (number t a) }
{
    match (t, a) {
        (ValType::I32, Value::I32(n)) => Some(Value::I32(i32_unary(op, n))),
        (ValType::I64, Value::I64(n)) => Some(Value::I64(i64_unary(op, n))),
        _ => None,
    }
}

/// A comparison of the deeper operand with the topmost one.
#[inline(always)]
pub(crate) fn compare(t: ValType, op: Compare, a: Value, b: Value) -> Option<Value>
    ensures { result ≡ compare_values t op a b }
{
    match (t, a, b) {
        (ValType::I32, Value::I32(m), Value::I32(n)) => {
            Some(Value::I32(u32::from(i32_compare(op, m, n))))
        }
        (ValType::I64, Value::I64(m), Value::I64(n)) => {
            Some(Value::I32(u32::from(i64_compare(op, m, n))))
        }
        _ => None,
    }
}

/// An operation on two integers, of which the first is the deeper operand.
#[inline(always)]
pub(crate) fn binary(t: ValType, op: Binary, a: Value, b: Value) -> Option<Result<Value, ArithTrap>>
    ensures { result ≡ binary_values t op a b }
{
    match (t, a, b) {
        (ValType::I32, Value::I32(m), Value::I32(n)) => Some(binary_32(op, m, n)),
        (ValType::I64, Value::I64(m), Value::I64(n)) => Some(binary_64(op, m, n)),
        _ => None,
    }
}

#[inline(always)]
fn binary_32(op: Binary, a: u32, b: u32) -> Result<Value, ArithTrap>
    ensures { result ≡ valued types.I32 (binary_of types.I32 op a b) }
{
    match i32_binary(op, a, b) {
        Ok(n) => Ok(Value::I32(n)),
        Err(trap) => Err(trap),
    }
}

#[inline(always)]
fn binary_64(op: Binary, a: u64, b: u64) -> Result<Value, ArithTrap>
    ensures { result ≡ valued types.I64 (binary_of types.I64 op a b) }
{
    match i64_binary(op, a, b) {
        Ok(n) => Ok(Value::I64(n)),
        Err(trap) => Err(trap),
    }
}

/// A conversion between the two types.
#[inline(always)]
pub(crate) fn convert(c: Convert, a: Value) -> Option<Value>
    ensures { result ≡ option_map (λ n. value (convert_to c) (convert_of c n))
        (number (convert_from c) a) }
{
    match (c, a) {
        (Convert::Wrap, Value::I64(n)) => Some(Value::I32(wrap(n))),
        (Convert::ExtendS, Value::I32(n)) => Some(Value::I64(extend_s(n))),
        (Convert::ExtendU, Value::I32(n)) => Some(Value::I64(extend_u(n))),
        _ => None,
    }
}

/// `i32.extend8_s` and `i32.extend16_s` (Core 2.0, 4.4.1).
#[inline(always)]
pub(crate) fn extend_32(bits: Narrow32, a: Value) -> Option<Value>
    ensures { result ≡ option_map (λ n. values.I32 (extended_32 bits n)) (number types.I32 a) }
{
    match a {
        Value::I32(n) => Some(Value::I32(i32_narrow(bits, n))),
        Value::I64(_) => None,
    }
}

/// `i64.extend8_s`, `i64.extend16_s` and `i64.extend32_s` (Core 2.0, 4.4.1).
#[inline(always)]
pub(crate) fn extend_64(bits: Narrow64, a: Value) -> Option<Value>
    ensures { result ≡ option_map (λ n. values.I64 (extended_64 bits n)) (number types.I64 a) }
{
    match a {
        Value::I64(n) => Some(Value::I64(i64_narrow(bits, n))),
        Value::I32(_) => None,
    }
}
