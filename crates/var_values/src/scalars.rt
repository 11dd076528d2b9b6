//! Texts of scalars where they stand (DWARF 4 sections 5.1, 5.5.6 and 5.7).

ghost use Rattle.std.specs.Prelude.{◌≡◌, ◌≤◌, ◌<◌, ◌*◌, ◌^◌, ◌-◌, ◌-ℤ◌, ◌++◌, pos, true, false, Some, unwrap_or, OnOk};
ghost use Rattle.std.specs.Prelude.{IfOk};
ghost use Rattle.dwarf_entries.specs.Origins.{longest_chain};
ghost use Rattle.dwarf_types.specs.Kinds.{encoding};
ghost use Rattle.dwarf_types.specs.Types.{class_at, behind, type_of as type_at};
ghost use Rattle.dwarf_types.specs.declared.class.Class.TheVariants as classes;
ghost use Rattle.var_values.specs.Texts.{base_text};
ghost use Rattle.var_values.specs.calls.Near.{IsNear};
ghost use Rattle.var_values.specs.Scalars as scalars;
ghost use Rattle.var_values.specs.calls.Told.{Tells};
ghost use Rattle.var_values.specs.inner.Scalar.{IsScalar};

use crate::place::Place;
use crate::texts::push_unsigned;
use crate::word::{bits_of, word_in};
use crate::{Mark, push_address, push_base, push_enumeration};
use causes::NoMemory;
use dwarf_entries::names::ENCODING;
use dwarf_entries::tags::BASE;
use dwarf_entries::{LONGEST_CHAIN, Standing, natural};
use dwarf_expr::FrameView;
use dwarf_types::{Behind, Class, TypeStanding, TypedUnits, class_of, resolved, type_of};
use pm_text::Text;

/// The encoding of a base type.
pub fn encoding_of(standing: &Standing<'_, '_>) -> Option<u64>
    ensures { result ≡ encoding standing.now }
{
    natural(&standing.entry().attributes, ENCODING)
}

/// Half of as many numbers as so many bits have.
#[tactic(auto, using(crate::proofs::ScalarLaws::half_twice, crate::proofs::ScalarLaws::half_few, crate::proofs::ScalarLaws::half_some))]
fn half_of(count: u64) -> u128
    requires some { 0 < count }
    requires few { count ≤ 128 }
    ensures is { result ≡ 2 ^ (count - 1) }
    ensures twice { 2 ^ count ≡ 2 * result }
    ensures few { result ≤ 2 ^ 127 }
    ensures some { 0 < result }
{
    1 << (count - 1)
}

/// A number less twice another one.
fn less_twice(word: u128, half: u128) -> i128
    requires few { half ≤ 2 ^ 127 }
    requires from { half ≤ word }
    requires to { word < 2 * half }
    ensures { result ≡ (pos word -ℤ pos (2 * half)) }
{
    (word - half) as i128 - 1 - (half - 1) as i128
}

/// A number of so many bits in two's complement.
#[tactic(auto, using(crate::proofs::ScalarLaws::none_signed, crate::proofs::ScalarLaws::low_signed, crate::proofs::ScalarLaws::signed_is))]
fn as_signed(count: u64, word: u128) -> i128
    requires few { count ≤ 128 }
    requires below { word < 2 ^ count }
    ensures { result ≡ scalars.as_signed count word }
{
    if count == 0 {
        return 0;
    }
    let half = half_of(count);
    if word < half {
        word as i128
    } else {
        less_twice(word, half)
    }
}

/// The number that a word in so many bits is.
pub fn number_of(signed: bool, count: u64, word: u128) -> i128
    requires few { count ≤ 128 }
    requires narrow { signed ≡ false → count ≤ 64 }
    requires below { word < 2 ^ count }
    ensures { result ≡ scalars.number_of signed count word }
{
    if signed {
        as_signed(count, word)
    } else {
        word as i128
    }
}

fn is_signed(encoding: Option<u64>) -> bool
    ensures { result ≡ scalars.is_signed encoding }
{
    match encoding {
        Some(encoding) => encoding == 5 || encoding == 6,
        None => false,
    }
}

/// Whether the type behind that of an enumeration is a signed base type.
fn behind_is_signed<'r, 'k, 'a>(units: &TypedUnits<'r, 'k, 'a>, standing: &Standing<'r, 'a>) -> bool
    ensures { result ≡ scalars.behind_is_signed (behind units.now longest_chain
        (type_at units.now standing.now.entry.attributes)) }
{
    let from = type_of(units, &standing.entry().attributes);
    match resolved(units, LONGEST_CHAIN, from) {
        Behind::Stands {
            standing,
            skipped: _,
        } => standing.entry().tag == BASE && is_signed(encoding_of(standing.standing())),
        Behind::Nothing | Behind::TooDeep => false,
    }
}

/// Whether the numbers of a type are signed.
pub fn type_is_signed<'r, 'k, 'a>(
    units: &TypedUnits<'r, 'k, 'a>,
    standing: &Standing<'r, 'a>,
) -> bool
    ensures { result ≡ scalars.type_is_signed (class_at standing.now) units.now standing.now }
{
    match class_of(standing.entry().tag) {
        Class::Enumeration => behind_is_signed(units, standing),
        Class::Passed
        | Class::Pointing
        | Class::Members
        | Class::Array
        | Class::Base
        | Class::Another => is_signed(encoding_of(standing)),
    }
}

/// Appends the text of a base type of an encoding with this word in so many bits.
#[tactic(auto, using(crate::proofs::ScalarLaws::encoding_short, crate::proofs::ScalarLaws::narrow_word, crate::proofs::ScalarLaws::narrow_unless_signed))]
fn push_encoded(
    text: &mut Text,
    encoding: u64,
    size: u64,
    count: u64,
    word: u128,
) -> Result<(), NoMemory>
    requires suits { scalars.encoding_suits encoding size ≡ true }
    requires few { count ≤ 8 * size }
    requires below { word < 2 ^ count }
    ensures { OnOk result (text.new ≡ text.old ++ base_text encoding size word
        (scalars.number_of (scalars.is_signed (Some encoding)) count word)) }
{
    if encoding == 4 {
        return push_base(text, encoding, size, word, 0);
    }
    if encoding == 7 {
        return push_unsigned(text, word);
    }
    let number = number_of(is_signed(Some(encoding)), count, word);
    push_base(text, encoding, size, word, number)
}

/// Appends the text of a base type with this word in so many bits.
fn push_based(
    text: &mut Text,
    standing: &Standing<'_, '_>,
    size: u64,
    count: u64,
    word: u128,
) -> Result<(), NoMemory>
    requires suits { scalars.size_suits (encoding standing.now) size ≡ true }
    requires few { count ≤ 8 * size }
    requires below { word < 2 ^ count }
    ensures { OnOk result (text.new ≡ text.old
        ++ base_text (unwrap_or (encoding standing.now) 0) size word
        (scalars.number_of (scalars.is_signed (encoding standing.now)) count word)) }
{
    match encoding_of(standing) {
        Some(encoding) => push_encoded(text, encoding, size, count, word),
        None => Ok(()),
    }
}

/// Appends the text of an enumeration with this word in so many bits.
fn push_enumerated<'r, 'k, 'a>(
    text: &mut Text,
    units: &TypedUnits<'r, 'k, 'a>,
    standing: &TypeStanding<'r, 'k, 'a>,
    size: u64,
    count: u64,
    word: u128,
) -> Result<(), NoMemory>
    requires short { size ≤ 8 }
    requires few { count ≤ 8 * size }
    requires below { word < 2 ^ count }
    ensures { OnOk result (text.new ≡ text.old ++ scalars.word_text classes.Enumeration
        units.now standing.now size count word) }
{
    let number = number_of(behind_is_signed(units, standing.standing()), count, word);
    push_enumeration(text, units.units(), standing, size, number)
}

/// Appends the text of a pointer, an enumeration or a base type with this word in so many bits.
fn push_word<'r, 'k, 'a>(
    text: &mut Text,
    units: &TypedUnits<'r, 'k, 'a>,
    standing: &TypeStanding<'r, 'k, 'a>,
    size: u64,
    count: u64,
    word: u128,
) -> Result<(), NoMemory>
    requires scalar { IsScalar standing.now size }
    requires few { count ≤ 8 * size }
    requires below { word < 2 ^ count }
    ensures { OnOk result (text.new ≡ text.old ++ scalars.word_text (class_at standing.now)
        units.now standing.now size count word) }
{
    match class_of(standing.entry().tag) {
        Class::Pointing => push_address(text, word as u64),
        Class::Enumeration => push_enumerated(text, units, standing, size, count, word),
        Class::Base => push_based(text, standing.standing(), size, count, word),
        Class::Passed | Class::Members | Class::Array | Class::Another => Ok(()),
    }
}

/// Appends the text of a pointer, an enumeration or a base type of this size, or tells the mark in
/// its place.
#[tactic(auto, unfolding(crate::specs::Scalars::scalar_text))]
pub fn push_scalar<'r, 'k, 'a>(
    text: &mut Text,
    units: &TypedUnits<'r, 'k, 'a>,
    view: &FrameView<'_>,
    standing: &TypeStanding<'r, 'k, 'a>,
    size: u64,
    place: &Place<'_>,
) -> Result<Option<Mark>, NoMemory>
    requires scalar { IsScalar standing.now size }
    requires narrow { (scalars.bits_of place.now size).count ≤ 8 * size }
    requires near { IsNear 1 place.now.offset }
    ensures { IfOk result (λ mark. Tells (scalars.scalar_text units.now view.now.memory
        standing.now size place.now) mark text.old text.new) }
{
    let bits = bits_of(place, size);
    match word_in(view, place, bits) {
        Ok(word) => push_word(text, units, standing, size, bits.count, word).and(Ok(None)),
        Err(mark) => Ok(Some(mark)),
    }
}
