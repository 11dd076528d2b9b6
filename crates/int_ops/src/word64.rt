//! The operations on i64.

ghost use Rattle.std.specs.Prelude.{◌≡◌, ◌%◌};
ghost use Rattle.int_ops.specs.Integers as integers;
ghost use Rattle.int_ops.specs.Integers.{unary, compare, binary};

use crate::{ArithTrap, Binary, Compare, Unary};

/// `i64.clz`, `i64.ctz` and `i64.popcnt`.
#[tactic(auto, unfolding(crate::specs::Integers::unary))]
pub fn i64_unary(op: Unary, a: u64) -> u64
    ensures { result ≡ unary 64 op a }
{
    match op {
        Unary::Clz => u64::from(a.leading_zeros()),
        Unary::Ctz => u64::from(a.trailing_zeros()),
        Unary::Popcnt => u64::from(a.count_ones()),
    }
}

/// `i64.eq`, `i64.ne`, `i64.lt_s` and the other comparisons.
#[tactic(auto, using(crate::proofs::Signs::signed_64), unfolding(crate::specs::Integers::compare))]
#[inline(always)]
pub fn i64_compare(op: Compare, a: u64, b: u64) -> bool
    ensures { result ≡ compare 64 op a b }
{
    let (x, y) = (a.cast_signed(), b.cast_signed());
    match op {
        Compare::Eq => a == b,
        Compare::Ne => a != b,
        Compare::LtS => x < y,
        Compare::LtU => a < b,
        Compare::GtS => x > y,
        Compare::GtU => a > b,
        Compare::LeS => x <= y,
        Compare::LeU => a <= b,
        Compare::GeS => x >= y,
        Compare::GeU => a >= b,
    }
}

#[tactic(auto, unfolding(crate::specs::Integers::div_s))]
fn div_s(a: u64, b: u64) -> Result<u64, ArithTrap>
    ensures { result ≡ integers.div_s 64 a b }
{
    let (x, y) = (a.cast_signed(), b.cast_signed());
    if b == 0 {
        Err(ArithTrap::DivideByZero)
    } else if x == i64::MIN && y == -1 {
        Err(ArithTrap::Overflow)
    } else {
        Ok((x / y).cast_unsigned())
    }
}

#[tactic(auto, unfolding(crate::specs::Integers::rem_s))]
fn rem_s(a: u64, b: u64) -> Result<u64, ArithTrap>
    ensures { result ≡ integers.rem_s 64 a b }
{
    let (x, y) = (a.cast_signed(), b.cast_signed());
    if b == 0 {
        Err(ArithTrap::DivideByZero)
    } else {
        Ok(x.wrapping_rem(y).cast_unsigned())
    }
}

fn shr_s(a: u64, by: u64) -> u64
    ensures { result ≡ integers.shr_s 64 a (by % 64) }
{
    a.cast_signed()
        .wrapping_shr((by % 64) as u32)
        .cast_unsigned()
}

#[tactic(auto, using(crate::proofs::Rotations::left_64))]
fn rotl(a: u64, by: u64) -> u64
    ensures { result ≡ integers.rotl 64 a (by % 64) }
{
    a.rotate_left((by % 64) as u32)
}

#[tactic(auto, using(crate::proofs::Rotations::right_64))]
fn rotr(a: u64, by: u64) -> u64
    ensures { result ≡ integers.rotr 64 a (by % 64) }
{
    a.rotate_right((by % 64) as u32)
}

/// `i64.add`, `i64.sub` and the other operations on two integers. `DivideByZero` exactly where the
/// divisor of a division or remainder is 0, `Overflow` exactly at `i64.div_s` of -2^63 by -1.
#[tactic(auto, unfolding(crate::specs::Integers::binary))]
#[inline(always)]
pub fn i64_binary(op: Binary, a: u64, b: u64) -> Result<u64, ArithTrap>
    ensures { result ≡ binary 64 op a b }
{
    match op {
        Binary::Add => Ok(a.wrapping_add(b)),
        Binary::Sub => Ok(a.wrapping_sub(b)),
        Binary::Mul => Ok(a.wrapping_mul(b)),
        Binary::DivS => div_s(a, b),
        Binary::DivU => a.checked_div(b).ok_or(ArithTrap::DivideByZero),
        Binary::RemS => rem_s(a, b),
        Binary::RemU => a.checked_rem(b).ok_or(ArithTrap::DivideByZero),
        Binary::And => Ok(a & b),
        Binary::Or => Ok(a | b),
        Binary::Xor => Ok(a ^ b),
        Binary::Shl => Ok(a.wrapping_shl((b % 64) as u32)),
        Binary::ShrS => Ok(shr_s(a, b)),
        Binary::ShrU => Ok(a.wrapping_shr((b % 64) as u32)),
        Binary::Rotl => Ok(rotl(a, b)),
        Binary::Rotr => Ok(rotr(a, b)),
    }
}
