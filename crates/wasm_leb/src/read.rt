//! Reading numbers.

ghost use Rattle.std.specs.Prelude.{◌≡◌, ◌<◌, ◌≤◌, ◌^◌, ◌↔◌, length, drop, slice_range, IfOk, IfSome, IsErrOf};
ghost use Rattle.wasm_leb.specs.calls.Numbers.{IsUnsigned, IsSigned, IsUnfinished, BeginsNone};
ghost use Rattle.wasm_leb.specs.Reading.{Gives, unsigned_at, u32_at, u64_at, signed_at, last_signed, IsWithin, s32_at};
ghost use Rattle.wasm_leb.specs.Reading.{s64_at};

use crate::LebFault;

/// The unsigned number of that many bits at the front, and the bytes behind it.
#[tactic(auto, using(crate::proofs::Powers::at_least_128, crate::proofs::Powers::fits_above, crate::proofs::Powers::at_most_64), unfolding(crate::specs::Reading::unsigned_at))]
fn unsigned(bytes: &[u8], bits: u32) -> Result<(u64, &[u8]), LebFault>
    requires { bits ≤ 64 }
    ensures exact { Gives (λ x. (x.0, x.1.now)) result (unsigned_at bits bytes.now) }
    ensures small { IfOk result (λ x. x.0 < 2 ^ bits) }
    ensures shorter { IfOk result (λ x. length x.1.now < length bytes.now) }
{
    let Some((first, rest)) = bytes.split_first() else {
        return Err(LebFault::Truncated);
    };
    let low = u64::from(*first);
    if low < 128 {
        if bits >= 7 || low < 1 << bits {
            return Ok((low, rest));
        }
        return Err(LebFault::TooLong);
    }
    if bits <= 7 {
        return Err(LebFault::TooLong);
    }
    let (high, rest) = unsigned(rest, bits - 7)?;
    Ok((low - 128 + 128 * high, rest))
}

#[tactic(auto, unfolding(crate::specs::Reading::u32_at))]
fn placed_u32(bytes: &[u8], at: usize) -> Result<(u32, usize), LebFault>
    requires { at ≤ length bytes.now }
    ensures { result ≡ u32_at bytes.now at }
{
    let (value, rest) = unsigned(&bytes[at..], 32)?;
    Ok((value as u32, bytes.len() - rest.len()))
}

/// The unsigned 32-bit number at an offset in bytes, and the offset behind it (Core 5.2.2).
/// `Truncated` where the bytes end inside the number, `TooLong` where 5 bytes are there and are no
/// spelling.
pub fn read_u32(bytes: &[u8], at: usize) -> Result<(u32, usize), LebFault>
    requires { at ≤ length bytes.now }
    ensures exact { result ≡ u32_at bytes.now at }
    ensures found { IfOk result (λ x. (at < x.1) × (x.1 ≤ length bytes.now)
        × IsUnsigned 32 (slice_range bytes.now at x.1) x.0) }
    ensures truncated { IsErrOf result LebFault.Truncated ↔ IsUnfinished 5 (drop at bytes.now) }
    ensures too_long { IsErrOf result LebFault.TooLong
        ↔ ((5 ≤ length (drop at bytes.now)) × BeginsNone (IsUnsigned 32) (drop at bytes.now)) }
{
    placed_u32(bytes, at)
}

#[tactic(auto, unfolding(crate::specs::Reading::u64_at))]
fn placed_u64(bytes: &[u8], at: usize) -> Result<(u64, usize), LebFault>
    requires { at ≤ length bytes.now }
    ensures { result ≡ u64_at bytes.now at }
{
    let (value, rest) = unsigned(&bytes[at..], 64)?;
    Ok((value, bytes.len() - rest.len()))
}

/// The unsigned 64-bit number at an offset in bytes, and the offset behind it (Core 5.2.2).
/// `Truncated` where the bytes end inside the number, `TooLong` where 10 bytes are there and are no
/// spelling.
pub fn read_u64(bytes: &[u8], at: usize) -> Result<(u64, usize), LebFault>
    requires { at ≤ length bytes.now }
    ensures exact { result ≡ u64_at bytes.now at }
    ensures found { IfOk result (λ x. (at < x.1) × (x.1 ≤ length bytes.now)
        × IsUnsigned 64 (slice_range bytes.now at x.1) x.0) }
    ensures truncated { IsErrOf result LebFault.Truncated ↔ IsUnfinished 10 (drop at bytes.now) }
    ensures too_long { IsErrOf result LebFault.TooLong
        ↔ ((10 ≤ length (drop at bytes.now)) × BeginsNone (IsUnsigned 64) (drop at bytes.now)) }
{
    placed_u64(bytes, at)
}

/// The last byte of a signed number: its seven bits in two's complement, where they fit.
#[tactic(auto, using(crate::proofs::Powers::at_least_64), unfolding(crate::specs::Reading::last_signed))]
fn last_signed(low: u8, bits: u32) -> Option<i64>
    requires { (low < 128) × (0 < bits) × (bits ≤ 64) }
    ensures exact { result ≡ last_signed bits low }
    ensures small { IfSome result (λ z. IsWithin bits z) }
{
    if low < 64 {
        if bits >= 7 || low < 1 << (bits - 1) {
            Some(i64::from(low))
        } else {
            None
        }
    } else if bits >= 7 || low + (1 << (bits - 1)) >= 128 {
        Some(i64::from(low) - 128)
    } else {
        None
    }
}

/// The signed number of that many bits at the front, and the bytes behind it.
#[tactic(auto, unfolding(crate::specs::Reading::signed_at))]
fn signed(bytes: &[u8], bits: u32) -> Result<(i64, &[u8]), LebFault>
    requires { (0 < bits) × (bits ≤ 64) }
    ensures exact { Gives (λ x. (x.0, x.1.now)) result (signed_at bits bytes.now) }
    ensures small { IfOk result (λ x. IsWithin bits x.0) }
    ensures shorter { IfOk result (λ x. length x.1.now < length bytes.now) }
{
    let Some((first, rest)) = bytes.split_first() else {
        return Err(LebFault::Truncated);
    };
    let low = *first;
    if low < 128 {
        return match last_signed(low, bits) {
            Some(value) => Ok((value, rest)),
            None => Err(LebFault::TooLong),
        };
    }
    if bits <= 7 {
        return Err(LebFault::TooLong);
    }
    let (high, rest) = signed(rest, bits - 7)?;
    Ok((i64::from(low - 128) + 128 * high, rest))
}

#[tactic(auto, unfolding(crate::specs::Reading::s32_at))]
fn placed_s32(bytes: &[u8], at: usize) -> Result<(i32, usize), LebFault>
    requires { at ≤ length bytes.now }
    ensures { result ≡ s32_at bytes.now at }
{
    let (value, rest) = signed(&bytes[at..], 32)?;
    Ok((value as i32, bytes.len() - rest.len()))
}

/// The signed 32-bit number at an offset in bytes, and the offset behind it (Core 5.2.2).
/// `Truncated` where the bytes end inside the number, `TooLong` where 5 bytes are there and are no
/// spelling.
pub fn read_s32(bytes: &[u8], at: usize) -> Result<(i32, usize), LebFault>
    requires { at ≤ length bytes.now }
    ensures exact { result ≡ s32_at bytes.now at }
    ensures found { IfOk result (λ x. (at < x.1) × (x.1 ≤ length bytes.now)
        × IsSigned 32 (slice_range bytes.now at x.1) x.0) }
    ensures truncated { IsErrOf result LebFault.Truncated ↔ IsUnfinished 5 (drop at bytes.now) }
    ensures too_long { IsErrOf result LebFault.TooLong
        ↔ ((5 ≤ length (drop at bytes.now)) × BeginsNone (IsSigned 32) (drop at bytes.now)) }
{
    placed_s32(bytes, at)
}

#[tactic(auto, unfolding(crate::specs::Reading::s64_at))]
fn placed_s64(bytes: &[u8], at: usize) -> Result<(i64, usize), LebFault>
    requires { at ≤ length bytes.now }
    ensures { result ≡ s64_at bytes.now at }
{
    let (value, rest) = signed(&bytes[at..], 64)?;
    Ok((value, bytes.len() - rest.len()))
}

/// The signed 64-bit number at an offset in bytes, and the offset behind it (Core 5.2.2).
/// `Truncated` where the bytes end inside the number, `TooLong` where 10 bytes are there and are no
/// spelling.
pub fn read_s64(bytes: &[u8], at: usize) -> Result<(i64, usize), LebFault>
    requires { at ≤ length bytes.now }
    ensures exact { result ≡ s64_at bytes.now at }
    ensures found { IfOk result (λ x. (at < x.1) × (x.1 ≤ length bytes.now)
        × IsSigned 64 (slice_range bytes.now at x.1) x.0) }
    ensures truncated { IsErrOf result LebFault.Truncated ↔ IsUnfinished 10 (drop at bytes.now) }
    ensures too_long { IsErrOf result LebFault.TooLong
        ↔ ((10 ≤ length (drop at bytes.now)) × BeginsNone (IsSigned 64) (drop at bytes.now)) }
{
    placed_s64(bytes, at)
}
