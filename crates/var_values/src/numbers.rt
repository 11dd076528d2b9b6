//! The numbers that bytes spell.

ghost use Rattle.std.specs.Prelude.{ℕ, ◌≡◌, ◌≤◌, ◌<◌, ◌*◌, ◌^◌, ◌<ℤ◌, ◌+ℤ◌, pos, IfOk};
ghost use Rattle.var_values.specs.Bytes as bytes;

use crate::bytes::byte_at;
use crate::mark::{Mark, first_mark};
use crate::source::Source;
use dwarf_expr::FrameView;

/// A byte in front of a number, or the mark that counts.
fn joined(first: Result<u8, Mark>, rest: Result<u128, Mark>) -> Result<u128, Mark>
    requires { IfOk rest (λ number. number < 2 ^ 120) }
    ensures is { result ≡ bytes.joined first rest }
    ensures below { (n : ℕ) → IfOk rest (λ number. number < n)
        → IfOk result (λ number. number < 256 * n) }
{
    match first {
        Ok(byte) => match rest {
            Ok(rest) => Ok(u128::from(byte) + 256 * rest),
            Err(mark) => Err(mark),
        },
        Err(mark) => match rest {
            Ok(_) => Err(mark),
            Err(other) => Err(first_mark(mark, other)),
        },
    }
}

/// The number that `count` bytes from `index` on spell, the lowest first, or the mark that counts.
#[tactic(auto, using(crate::proofs::FuelLaws::no_bytes))]
pub fn number_at(
    view: &FrameView<'_>,
    source: &Source,
    index: i128,
    count: u32,
) -> Result<u128, Mark>
    requires few { count ≤ 16 }
    requires near { (index +ℤ pos count) <ℤ pos (2 ^ 120) }
    ensures is { result ≡ bytes.number_at view.now.memory source.now index count }
    ensures below { IfOk result (λ number. number < 256 ^ count) }
{
    if count == 0 {
        return Ok(0);
    }
    let rest = number_at(view, source, index + 1, count - 1);
    joined(byte_at(view, source, index), rest)
}
