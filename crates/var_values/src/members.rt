//! Where members stand (DWARF 4 section 5.5.6).

ghost use Rattle.std.specs.Prelude.{ℕ, ◌≡◌, suc, IfSome};
ghost use Rattle.dwarf_info.specs.Attributes.{as_number, attribute, valued};
ghost use Rattle.dwarf_entries.specs.Names.{as_natural, at_bit_size, at_data_bit_offset, at_data_member_location};
ghost use Rattle.var_values.specs.calls.Near.{IsNear};
ghost use Rattle.var_values.specs.Members as members;
ghost use Rattle.var_values.specs.inner.Close.{IsClose};
ghost use Rattle.var_values.specs.inner.Parts.{own_source};

use crate::bits::Bits;
use crate::place::Place;
use crate::{Mark, Source, constant_source};
use dwarf_entries::names::{BIT_SIZE, DATA_BIT_OFFSET, DATA_MEMBER_LOCATION};
use dwarf_entries::{attribute, natural};
use dwarf_info::{AttrValue, Attributes, Entry};

const DECLARATION: u64 = 0x3c;

const EXTERNAL: u64 = 0x3f;

/// Whether an attribute is a flag that is set.
fn is_set(attributes: &Attributes<'_>, name: u64) -> bool
    ensures { result ≡ members.is_set (attribute name attributes.now) }
{
    match attribute(attributes, name) {
        Some(AttrValue::Flag(set)) => set,
        _ => false,
    }
}

/// Whether a member is static: external, or only declared. Such a one is no part of the object.
pub fn is_static(entry: &Entry<'_>) -> bool
    ensures { result ≡ members.is_static entry.now }
{
    let attributes = &entry.attributes;
    is_set(attributes, EXTERNAL) || is_set(attributes, DECLARATION)
}

/// A constant in bytes, with its sign.
fn distance(value: &AttrValue<'_>) -> Option<i128>
    ensures is { result ≡ as_number value.now }
    ensures close { IfSome result IsClose }
{
    match value {
        AttrValue::Constant(number) => Some(i128::from(*number)),
        AttrValue::Signed(number) => Some(i128::from(*number)),
        _ => None,
    }
}

/// The place of a member that is no bit-field.
fn at_location<'s>(place: &Place<'s>, entry: &Entry<'_>) -> Option<Place<'s>>
    requires near { IsNear 1 place.now.offset }
    ensures is { result ≡ members.at_location place.now
        (attribute at_data_member_location entry.now.attributes) }
    ensures near { (n : ℕ) → IsNear (suc n) place.now.offset
        → IfSome result (λ p. IsNear n p.offset) }
{
    let Some(location) = attribute(&entry.attributes, DATA_MEMBER_LOCATION) else {
        return Some(Place {
            source: place.source,
            offset: place.offset,
            bits: place.bits,
        });
    };
    let further = distance(&location)?;
    Some(Place {
        source: place.source,
        offset: place.offset + further,
        bits: None,
    })
}

/// The place of a bit-field.
fn at_bits<'s>(place: &Place<'s>, entry: &Entry<'_>) -> Option<Place<'s>>
    ensures is { result ≡ members.at_bits place.now
        (valued as_natural at_bit_size entry.now.attributes)
        (valued as_natural at_data_bit_offset entry.now.attributes) }
    ensures near { (n : ℕ) → IsNear (suc n) place.now.offset
        → IfSome result (λ p. IsNear n p.offset) }
{
    let attributes = &entry.attributes;
    let count = natural(attributes, BIT_SIZE)?;
    let first = natural(attributes, DATA_BIT_OFFSET)?;
    Some(Place {
        source: place.source,
        offset: place.offset,
        bits: Some(Bits { first, count }),
    })
}

/// Where a member stands that is part of a structure at a place. None where the member is of
/// another form.
#[tactic(auto, unfolding(crate::specs::Members::part_at))]
pub fn part_at<'s>(place: &Place<'s>, entry: &Entry<'_>) -> Option<Place<'s>>
    requires near { IsNear 1 place.now.offset }
    ensures is { result ≡ members.part_at place.now entry.now }
    ensures near { (n : ℕ) → IsNear (suc n) place.now.offset
        → IfSome result (λ p. IsNear n p.offset) }
{
    match attribute(&entry.attributes, BIT_SIZE) {
        Some(_) => at_bits(place, entry),
        None => at_location(place, entry),
    }
}

/// Where the value of a member comes from that is no part of its structure: a static one is no more
/// than its constant, and one of another form is nowhere.
pub fn own_source(entry: &Entry<'_>) -> Source
    ensures { result ≡ own_source entry.now }
{
    if is_static(entry) {
        return constant_source(&entry.attributes);
    }
    Source::Lost(Mark::UnsupportedType)
}

/// Where a member of a structure at a place stands: in the structure, or at the start of its own
/// source where it is no part of it.
pub fn member_place<'s: 'n, 'n>(place: &Place<'s>, entry: &Entry<'_>, own: &'n Source) -> Place<'n>
    requires near { IsNear 1 place.now.offset }
    requires own { own.now ≡ own_source entry.now }
    ensures is { result ≡ members.member_place place.now entry.now }
    ensures near { (n : ℕ) → IsNear (suc n) place.now.offset → IsNear n result.offset }
{
    if is_static(entry) {
        return Place {
            source: own,
            offset: 0,
            bits: None,
        };
    }
    if let Some(member) = part_at(place, entry) {
        return member;
    }
    Place {
        source: own,
        offset: place.offset,
        bits: None,
    }
}
