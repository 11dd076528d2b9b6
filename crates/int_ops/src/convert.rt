//! Conversions between the widths.

ghost use Rattle.std.specs.Prelude.{◌≡◌};
ghost use Rattle.int_ops.specs.Integers as integers;
ghost use Rattle.int_ops.specs.Integers.{extend32, extend64};

use crate::{Narrow32, Narrow64};

/// The low 32 bits (`i32.wrap_i64`).
pub fn wrap(a: u64) -> u32
    ensures { result ≡ integers.wrap a }
{
    (a % 0x1_0000_0000) as u32
}

/// The same signed number in 64 bits (`i64.extend_i32_s`).
pub fn extend_s(a: u32) -> u64
    ensures { result ≡ integers.extend_s a }
{
    i64::from(a.cast_signed()).cast_unsigned()
}

/// The same unsigned number in 64 bits (`i64.extend_i32_u`).
pub fn extend_u(a: u32) -> u64
    ensures { result ≡ integers.extend_u a }
{
    u64::from(a)
}

/// The lowest 8 or 16 bits, read as signed (`i32.extend8_s`, `i32.extend16_s`).
pub fn i32_narrow(bits: Narrow32, a: u32) -> u32
    ensures { result ≡ extend32 bits a }
{
    match bits {
        Narrow32::Eight => i32::from(((a % 0x100) as u8).cast_signed()).cast_unsigned(),
        Narrow32::Sixteen => i32::from(((a % 0x1_0000) as u16).cast_signed()).cast_unsigned(),
    }
}

/// The lowest 8, 16 or 32 bits, read as signed (`i64.extend8_s`, `i64.extend16_s`,
/// `i64.extend32_s`).
pub fn i64_narrow(bits: Narrow64, a: u64) -> u64
    ensures { result ≡ extend64 bits a }
{
    match bits {
        Narrow64::Eight => i64::from(((a % 0x100) as u8).cast_signed()).cast_unsigned(),
        Narrow64::Sixteen => i64::from(((a % 0x1_0000) as u16).cast_signed()).cast_unsigned(),
        Narrow64::ThirtyTwo => i64::from(
            ((a % 0x1_0000_0000) as u32).cast_signed(),
        ).cast_unsigned(),
    }
}
