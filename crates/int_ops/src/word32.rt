//! The operations on i32.

ghost use Rattle.std.specs.Prelude.{◌≡◌, ◌%◌};
ghost use Rattle.int_ops.specs.Integers as integers;
ghost use Rattle.int_ops.specs.Integers.{unary, compare, binary};

use crate::{ArithTrap, Binary, Compare, Unary};

/// `i32.clz`, `i32.ctz` and `i32.popcnt`.
#[tactic(auto, unfolding(crate::specs::Integers::unary))]
pub fn i32_unary(op: Unary, a: u32) -> u32
    ensures { result ≡ unary 32 op a }
{
    match op {
        Unary::Clz => a.leading_zeros(),
        Unary::Ctz => a.trailing_zeros(),
        Unary::Popcnt => a.count_ones(),
    }
}

/// `i32.eq`, `i32.ne`, `i32.lt_s` and the other comparisons.
#[tactic(auto, using(crate::proofs::Signs::signed_32), unfolding(crate::specs::Integers::compare))]
#[inline(always)]
pub fn i32_compare(op: Compare, a: u32, b: u32) -> bool
    ensures { result ≡ compare 32 op a b }
{
    let (x, y) = (a.cast_signed(), b.cast_signed());
    match op {
        Compare::Eq => a == b,
        Compare::Ne => a != b,
        Compare::LtS => x < y,
        Compare::LtU => a < b,
        Compare::GtS => x > y,
        Compare::GtU => a > b,
        Compare::LeS => x <= y,
        Compare::LeU => a <= b,
        Compare::GeS => x >= y,
        Compare::GeU => a >= b,
    }
}

#[tactic(auto, unfolding(crate::specs::Integers::div_s))]
fn div_s(a: u32, b: u32) -> Result<u32, ArithTrap>
    ensures { result ≡ integers.div_s 32 a b }
{
    let (x, y) = (a.cast_signed(), b.cast_signed());
    if b == 0 {
        Err(ArithTrap::DivideByZero)
    } else if x == i32::MIN && y == -1 {
        Err(ArithTrap::Overflow)
    } else {
        Ok((x / y).cast_unsigned())
    }
}

#[tactic(auto, unfolding(crate::specs::Integers::rem_s))]
fn rem_s(a: u32, b: u32) -> Result<u32, ArithTrap>
    ensures { result ≡ integers.rem_s 32 a b }
{
    let (x, y) = (a.cast_signed(), b.cast_signed());
    if b == 0 {
        Err(ArithTrap::DivideByZero)
    } else {
        Ok(x.wrapping_rem(y).cast_unsigned())
    }
}

fn shr_s(a: u32, by: u32) -> u32
    ensures { result ≡ integers.shr_s 32 a (by % 32) }
{
    a.cast_signed().wrapping_shr(by).cast_unsigned()
}

#[tactic(auto, using(crate::proofs::Rotations::left_32))]
fn rotl(a: u32, by: u32) -> u32
    ensures { result ≡ integers.rotl 32 a (by % 32) }
{
    a.rotate_left(by)
}

#[tactic(auto, using(crate::proofs::Rotations::right_32))]
fn rotr(a: u32, by: u32) -> u32
    ensures { result ≡ integers.rotr 32 a (by % 32) }
{
    a.rotate_right(by)
}

/// `i32.add`, `i32.sub` and the other operations on two integers. `DivideByZero` exactly where the
/// divisor of a division or remainder is 0, `Overflow` exactly at `i32.div_s` of -2^31 by -1.
#[tactic(auto, unfolding(crate::specs::Integers::binary))]
#[inline(always)]
pub fn i32_binary(op: Binary, a: u32, b: u32) -> Result<u32, ArithTrap>
    ensures { result ≡ binary 32 op a b }
{
    match op {
        Binary::Add => Ok(a.wrapping_add(b)),
        Binary::Sub => Ok(a.wrapping_sub(b)),
        Binary::Mul => Ok(a.wrapping_mul(b)),
        Binary::DivS => div_s(a, b),
        Binary::DivU => a.checked_div(b).ok_or(ArithTrap::DivideByZero),
        Binary::RemS => rem_s(a, b),
        Binary::RemU => a.checked_rem(b).ok_or(ArithTrap::DivideByZero),
        Binary::And => Ok(a & b),
        Binary::Or => Ok(a | b),
        Binary::Xor => Ok(a ^ b),
        Binary::Shl => Ok(a.wrapping_shl(b)),
        Binary::ShrS => Ok(shr_s(a, b)),
        Binary::ShrU => Ok(a.wrapping_shr(b)),
        Binary::Rotl => Ok(rotl(a, b)),
        Binary::Rotr => Ok(rotr(a, b)),
    }
}
