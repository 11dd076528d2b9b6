//! Sizes of types (DWARF 4 sections 2.21, 5.1 and 5.4).

ghost use Rattle.std.specs.Prelude.{◌≡◌, ◌||◌, nat_lt, map, filter, find, Some, None};
ghost use Rattle.std.specs.Option.{is_some};
ghost use Rattle.dwarf_entries.specs.Standing.{is_child, entries_inside};
ghost use Rattle.dwarf_entries.specs.Tags.{tag_subrange};
ghost use Rattle.dwarf_types.specs.Counts.{subrange_count};
ghost use Rattle.dwarf_types.specs.Products as products;
ghost use Rattle.dwarf_types.specs.Sizes as sizes;

use crate::behind::{Typed, type_at, type_of};
use crate::class::{Class, class_of};
use crate::counts::{has_subranges, subrange_count, subranges_behind};
use crate::type_standing::TypeStanding;
use crate::typed_units::TypedUnits;
use dwarf_entries::names::BYTE_SIZE;
use dwarf_entries::tags::SUBRANGE;
use dwarf_entries::{LONGEST_CHAIN, Standing, as_natural, attribute, is_child};
use dwarf_info::{AttrValue, Entry};

/// So many sizes, where the product is below 2^64.
pub(crate) fn times(count: Option<u128>, size: Option<u64>) -> Option<u64>
    ensures { result ≡ products.times count size }
{
    let count = count?;
    let size = u128::from(size?);
    if size == 0 {
        return Some(0);
    }
    if count > u128::from(u64::MAX) / size {
        return None;
    }
    Some((count * size) as u64)
}

/// The size of arrays of arrays, whose subranges are among the entries, and whose innermost
/// elements have this size.
fn array_size(entries: &[Entry<'_>], depth: u32, element: Option<u64>) -> Option<u64>
    ensures { result ≡ products.array_size
        (map subrange_count (filter (is_child depth tag_subrange) entries.now)) element }
{
    let mut size = element;
    let mut left = entries.len();
    'entries: while left > 0 {
        left -= 1;
        let entry = &entries[left];
        if is_child(entry, depth, SUBRANGE) {
            size = times(subrange_count(entry), size);
        }
    }
    size
}

/// Whether the counts of an array are known, behind its first so many subranges: one without
/// subranges has a count that is not.
fn is_counted(standing: &Standing<'_, '_>, skipped: usize) -> bool
    ensures { result ≡ (nat_lt 0 skipped || is_some
        (find (is_child standing.now.entry.depth tag_subrange) (entries_inside standing.now))) }
{
    skipped > 0 || has_subranges(standing.inside(), standing.entry().depth)
}

/// The size of an array without its first so many subranges, which are read.
#[tactic(auto, using(crate::proofs::ArraySizes::rows_unknown, crate::proofs::ArraySizes::rows_known))]
fn rows_read(standing: &Standing<'_, '_>, skipped: usize, element: Option<u64>) -> Option<u64>
    ensures { result ≡ sizes.rows_size standing.now skipped element }
{
    if !is_counted(standing, skipped) {
        return None;
    }
    let depth = standing.entry().depth;
    array_size(
        subranges_behind(standing.inside(), depth, skipped),
        depth,
        element,
    )
}

/// The size of an array without its first so many subranges, where its innermost elements have a
/// size.
#[tactic(auto, using(crate::proofs::SizeLaws::rows_are))]
fn rows_sized(standing: &TypeStanding<'_, '_, '_>, skipped: usize, element: u64) -> Option<u64>
    ensures { result ≡ sizes.rows_size standing.now skipped (Some element) }
{
    match standing.rows_of(element) {
        Some(rows) => rows.size(skipped),
        None => rows_read(standing.standing(), skipped, Some(element)),
    }
}

/// The size of an array without its first so many subranges.
#[tactic(auto, using(crate::proofs::SizeLaws::rows_without))]
fn rows_size(
    standing: &TypeStanding<'_, '_, '_>,
    skipped: usize,
    element: Option<u64>,
) -> Option<u64>
    ensures { result ≡ sizes.rows_size standing.now skipped element }
{
    match element {
        Some(element) => rows_sized(standing, skipped, element),
        None => None,
    }
}

/// The size that an entry states.
fn stated_size(standing: &Standing<'_, '_>) -> Option<u64>
    ensures { result ≡ sizes.stated_size standing.now None }
{
    let size = attribute(&standing.entry().attributes, BYTE_SIZE)?;
    as_natural(&size)
}

/// Whether an entry states a size, in a constant form.
fn states_size(standing: &Standing<'_, '_>) -> bool
    ensures { result ≡ sizes.states_size standing.now }
{
    match attribute(&standing.entry().attributes, BYTE_SIZE) {
        Some(AttrValue::Constant(_) | AttrValue::Signed(_)) => true,
        _ => false,
    }
}

/// The size of a type, where at most so many type entries follow each other.
#[tactic(auto, using(crate::proofs::Fuel::size_none, crate::proofs::Fuel::size_spent, crate::proofs::Fuel::size_more))]
fn size_within<'r, 'k, 'a>(
    units: &TypedUnits<'r, 'k, 'a>,
    most: u32,
    typed: &Typed<'r, 'k, 'a>,
) -> Option<u64>
    ensures { result ≡ sizes.size_within units.now most typed.now }
{
    let Typed::At { standing, skipped } = typed else {
        return None;
    };
    if most == 0 {
        return None;
    }
    let attributes = &standing.entry().attributes;
    match class_of(standing.entry().tag) {
        Class::Passed => size_within(units, most - 1, &type_of(units, attributes)),
        Class::Pointing => Some(4),
        Class::Array => {
            let element = size_within(units, most - 1, &type_of(units, attributes));
            rows_size(standing, *skipped, element)
        }
        Class::Enumeration => {
            if states_size(standing.standing()) {
                stated_size(standing.standing())
            } else {
                size_within(units, most - 1, &type_of(units, attributes))
            }
        }
        Class::Members | Class::Base | Class::Another => stated_size(standing.standing()),
    }
}

/// The size of a type in bytes, where it has one.
pub fn type_size<'r, 'k, 'a>(
    units: &TypedUnits<'r, 'k, 'a>,
    typed: &Typed<'r, 'k, 'a>,
) -> Option<u64>
    ensures { result ≡ sizes.type_size units.now typed.now }
{
    size_within(units, LONGEST_CHAIN, typed)
}

/// The size of the type at an offset of the section in bytes, where it has one.
#[tactic(auto, unfolding(crate::specs::Sizes::size))]
pub fn size_of(units: &TypedUnits<'_, '_, '_>, entry: u32) -> Option<u64>
    ensures { result ≡ sizes.size units.now entry }
{
    type_size(units, &type_at(units, entry))
}
