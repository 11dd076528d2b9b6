//! What is counted of functions.

ghost use Rattle.std.specs.Prelude.{◌≡◌, ◌<◌, ◌^◌, [], slice_get, unwrap_or};
ghost use Rattle.wasm_syntax.specs.Run.{table_min};
ghost use Rattle.rewrite_bodies.specs.Numbering.{entry_weight};
ghost use Rattle.rewrite_modules.specs.Multiple.{highest};

use wasm_syntax::{Heights, LimitsList, ModuleParts, Op, greater};

/// The operand heights of the function of this number, where it has any.
pub(crate) fn heights_of(heights: &Heights, i: usize) -> &[u32]
    ensures { result.now ≡ unwrap_or (slice_get heights.now i) [] }
{
    match heights.get(i) {
        Some(list) => list.as_slice(),
        None => &[],
    }
}

/// The operand height before the instruction of this number.
pub(crate) fn height_before(heights: &[u32], j: usize) -> u64
    ensures is { result ≡ unwrap_or (slice_get heights.now j) 0 }
    ensures small { result < 2 ^ 32 }
{
    match heights.get(j).copied() {
        Some(height) => u64::from(height),
        None => 0,
    }
}

/// The greatest operand height before these instructions.
pub(crate) fn highest_of(heights: &[u32], ops: &[Op]) -> u64
    ensures { result ≡ highest (λ j. unwrap_or (slice_get heights.now j) 0) 0 ops.now }
{
    let mut most = 0;
    for j in 0..ops.len() {
        most = greater(most, height_before(heights, j));
    }
    most
}

/// The weight of a function that is called from outside.
pub(crate) fn entry_weight(parts: &ModuleParts, function: u32) -> u64
    requires { entry_weight parts.now function < 2 ^ 64 }
    ensures { result ≡ entry_weight parts.now function }
{
    let parameters = parts.parameters(function) as u64;
    128 + 16 * parameters + 16 * parts.globals.len() as u64
}

pub(crate) fn wide(n: u32) -> u64
    ensures is { result ≡ n }
    ensures small { result < 2 ^ 32 }
{
    u64::from(n)
}

/// The least size of the table, in elements; 0 where there is none.
pub(crate) fn least_size(tables: &LimitsList) -> u64
    ensures is { result ≡ table_min tables.now }
    ensures small { result < 2 ^ 32 }
{
    match tables.as_slice().first() {
        Some(limits) => wide(limits.min),
        None => 0,
    }
}
