//! The bits of scalars as numbers (DWARF 4 section 5.5.6).

ghost use Rattle.std.specs.Prelude.{◌≡◌, ◌≤◌, ◌<◌, ◌^◌, ◌/◌, ◌%◌, ◌+ℤ◌, ◌<ℤ◌, pos, IfOk};
ghost use Rattle.var_values.specs.Bytes.{joined, number_at};
ghost use Rattle.var_values.specs.calls.Near.{IsNear};
ghost use Rattle.var_values.specs.Scalars as scalars;
ghost use Rattle.var_values.specs.inner.Wide as wides;

use crate::bits::Bits;
use crate::place::Place;
use crate::{Mark, Source, byte_at, first_mark, number_at};
use dwarf_expr::FrameView;

/// The bits of a scalar of this size: all of them, where it is no bit-field.
pub fn bits_of(place: &Place<'_>, size: u64) -> Bits
    requires { size ≤ 16 }
    ensures { result ≡ scalars.bits_of place.now size }
{
    match place.bits {
        Some(bits) => bits,
        None => Bits {
            first: 0,
            count: 8 * size,
        },
    }
}

/// How many bytes hold these bits.
fn holding(bits: Bits) -> u32
    requires { bits.count ≤ 128 }
    ensures is { result ≡ scalars.holding bits }
    ensures few { result ≤ 17 }
{
    if bits.count == 0 {
        return 0;
    }
    let first = u128::from(bits.first);
    let last = first + u128::from(bits.count) - 1;
    (last / 8 - first / 8 + 1) as u32
}

/// A number of up to 17 bytes: the lowest one, and those above it.
#[derive(Clone, Copy, Drop)]
struct Wide {
    first: u8,
    rest: u128,
}

/// A byte in front of a number, or the mark that counts.
fn with_first(first: Result<u8, Mark>, rest: Result<u128, Mark>) -> Result<Wide, Mark>
    ensures { wides.number result ≡ joined first rest }
{
    match first {
        Ok(first) => match rest {
            Ok(rest) => Ok(Wide { first, rest }),
            Err(mark) => Err(mark),
        },
        Err(mark) => match rest {
            Ok(_) => Err(mark),
            Err(other) => Err(first_mark(mark, other)),
        },
    }
}

/// The number that `count` bytes from an index on spell, the lowest first, or the mark that counts.
#[tactic(auto, using(crate::proofs::WordLaws::no_word))]
fn wide_at(view: &FrameView<'_>, source: &Source, index: i128, count: u32) -> Result<Wide, Mark>
    requires few { count ≤ 17 }
    requires near { (index +ℤ pos 17) <ℤ pos (2 ^ 120) }
    ensures { wides.number result ≡ number_at view.now.memory source.now index count }
{
    if count == 0 {
        return Ok(Wide { first: 0, rest: 0 });
    }
    let rest = number_at(view, source, index + 1, count - 1);
    with_first(byte_at(view, source, index), rest)
}

/// The lowest bits of a number.
fn low_bits(number: u128, count: u64) -> u128
    requires { count ≤ 128 }
    ensures { result ≡ number % 2 ^ count }
{
    if count == 128 {
        number
    } else {
        number % (1 << count)
    }
}

fn power(bits: u64) -> u128
    requires { bits ≤ 8 }
    ensures { result ≡ 2 ^ bits }
{
    1 << bits
}

/// The lowest 128 bits of a number without its lowest bits, of which there are fewer than 8.
fn shifted(wide: Wide, count: u64) -> u128
    requires { count < 8 }
    ensures { result ≡ wides.value wide / 2 ^ count % 2 ^ 128 }
{
    let first = u128::from(wide.first) / power(count);
    wide.rest.wrapping_mul(power(8 - count)).wrapping_add(first)
}

/// The number in the bytes that hold bits at a place, or the mark that counts.
fn wide_in(view: &FrameView<'_>, place: &Place<'_>, bits: Bits) -> Result<Wide, Mark>
    requires few { bits.count ≤ 128 }
    requires near { IsNear 0 place.now.offset }
    ensures { wides.number result ≡ number_at view.now.memory place.now.source
        (place.now.offset +ℤ pos (bits.first / 8)) (scalars.holding bits) }
{
    let index = place.offset + i128::from(bits.first / 8);
    wide_at(view, place.source, index, holding(bits))
}

/// The bits at a place as an unsigned number, or the mark that counts.
pub fn word_in(view: &FrameView<'_>, place: &Place<'_>, bits: Bits) -> Result<u128, Mark>
    requires few { bits.count ≤ 128 }
    requires near { IsNear 0 place.now.offset }
    ensures is { result ≡ scalars.word_in view.now.memory place.now bits }
    ensures below { IfOk result (λ word. word < 2 ^ bits.count) }
{
    match wide_in(view, place, bits) {
        Ok(wide) => Ok(low_bits(shifted(wide, bits.first % 8), bits.count)),
        Err(mark) => Err(mark),
    }
}
