//! Which types have values.

ghost use Rattle.std.specs.Prelude.{◌≡◌};
ghost use Rattle.dwarf_types.specs.Types.{class_at};
ghost use Rattle.var_values.specs.Scalars as scalars;
ghost use Rattle.var_values.specs.Suits as suiting;

use crate::Source;
use crate::bits::Bits;
use crate::place::Place;
use crate::scalars::encoding_of;
use dwarf_entries::Standing;
use dwarf_expr::PiecePlace;
use dwarf_types::{Class, class_of};

fn is_size(size: u64) -> bool
    ensures { result ≡ scalars.is_size size }
{
    size == 1 || size == 2 || size == 4 || size == 8
}

fn is_integer_size(size: u64) -> bool
    ensures { result ≡ scalars.is_integer_size size }
{
    is_size(size) || size == 16
}

fn is_code_point_size(size: u64) -> bool
    ensures { result ≡ scalars.is_code_point_size size }
{
    size == 1 || size == 2 || size == 4
}

/// Whether a base type of an encoding has this size (DWARF 4 section 7.8).
fn encoding_suits(encoding: u64, size: u64) -> bool
    ensures { result ≡ scalars.encoding_suits encoding size }
{
    match encoding {
        1 => size == 4,
        2 => is_size(size),
        5 | 7 => is_integer_size(size),
        4 => 1 <= size && size <= 16,
        6 | 8 => size == 1,
        16 => is_code_point_size(size),
        _ => false,
    }
}

fn size_suits(encoding: Option<u64>, size: u64) -> bool
    ensures { result ≡ scalars.size_suits encoding size }
{
    match encoding {
        Some(encoding) => encoding_suits(encoding, size),
        None => false,
    }
}

fn class_suits(standing: &Standing<'_, '_>, size: u64) -> bool
    ensures { result ≡ suiting.class_suits (class_at standing.now) standing.now size }
{
    match class_of(standing.entry().tag) {
        Class::Pointing | Class::Members | Class::Array => true,
        Class::Enumeration => is_size(size),
        Class::Base => size_suits(encoding_of(standing), size),
        Class::Passed | Class::Another => false,
    }
}

/// Whether a value of this class and size may stand in these bits.
fn bits_suit(class: Class, size: u64, bits: Option<Bits>) -> bool
    ensures { result ≡ suiting.bits_suit class size bits }
{
    let Some(bits) = bits else {
        return true;
    };
    match class {
        Class::Enumeration | Class::Base => u128::from(bits.count) <= 8 * u128::from(size),
        _ => false,
    }
}

fn place_suits(place: PiecePlace, size: u64) -> bool
    ensures { result ≡ suiting.place_suits place size }
{
    match place {
        PiecePlace::Value(_) => size <= 8,
        PiecePlace::Address(_) | PiecePlace::Nothing => true,
    }
}

fn source_suits(source: &Source, size: u64) -> bool
    ensures { result ≡ suiting.source_suits source.now size }
{
    match source {
        Source::Single(place) => place_suits(*place, size),
        Source::Lost(_) | Source::Pieces(_) => true,
    }
}

/// Whether a type of this size has values, and one may stand at the place.
pub fn suits(standing: &Standing<'_, '_>, place: &Place<'_>, size: u64) -> bool
    ensures { result ≡ suiting.suits standing.now place.now size }
{
    class_suits(standing, size)
        && bits_suit(class_of(standing.entry().tag), size, place.bits)
        && source_suits(place.source, size)
}
