//! Steps to elements of arrays, and behind what pointers lead to (DWARF 4 section 5.4).

ghost use Rattle.std.specs.Prelude.{true, ◌≡◌, ◌<◌, ◌+◌, ◌*◌, ◌^◌, ◌||◌, nat_lt, drop, find, length, option_copied};
ghost use Rattle.dwarf_entries.specs.Standing.{is_child};
ghost use Rattle.dwarf_types.specs.Counts.{counts};
ghost use Rattle.dwarf_types.specs.Types.{type_of as the_type};
ghost use Rattle.dwarf_types.specs.Sizes.{type_size as the_size};
ghost use Rattle.var_eval.specs.Steps as steps;
ghost use Rattle.var_eval.specs.inner.Counted.{is_past_known};
ghost use Rattle.var_eval.specs.inner.Told.{Tells};

use crate::dead_end::DeadEnd;
use crate::meeting::{Met, meet};
use crate::part::Part;
use crate::pointers::pointed;
use crate::sourced_place::SourcedPlace;
use dwarf_entries::tags::{POINTER, SUBRANGE};
use dwarf_entries::{Standing, is_child};
use dwarf_expr::{FrameView, PiecePlace};
use dwarf_info::Entry;
use dwarf_types::{
    Class, TypeStanding, Typed, TypedUnits, class_of, has_subranges, subrange_count,
    subranges_behind, type_of, type_size,
};
use var_values::{Mark, Source};

/// The first of a tag, of the children of an entry of this depth.
pub fn first_child<'r, 'a>(entries: &'r [Entry<'a>], depth: u32, tag: u64) -> Option<&'r Entry<'a>>
    ensures { option_copied result ≡ find (is_child depth tag) entries.now }
{
    for entry in entries {
        if is_child(entry, depth, tag) {
            return Some(entry);
        }
    }
    None
}

/// Whether an index is at or past the count of an array behind its first so many subranges, where
/// that is known.
#[tactic(auto, using(crate::proofs::Rows::past_none, crate::proofs::Rows::past_counted, crate::proofs::Rows::past_uncounted))]
fn is_past(standing: &Standing<'_, '_>, skipped: usize, index: u32) -> bool
    ensures { result ≡ steps.is_past (drop skipped (counts standing.now)) index }
{
    let depth = standing.entry().depth;
    let left = subranges_behind(standing.inside(), depth, skipped);
    let Some(subrange) = first_child(left, depth, SUBRANGE) else {
        return false;
    };
    match subrange_count(subrange) {
        Some(count) => count <= u128::from(index),
        None => false,
    }
}

/// Whether an array has rows behind its first so many subranges and one more.
#[tactic(auto, using(crate::proofs::Rows::rows_told, crate::proofs::Rows::none_told))]
fn has_rows(standing: &Standing<'_, '_>, skipped: usize) -> bool
    ensures is { result ≡ nat_lt (skipped + 1) (length (counts standing.now)) }
    ensures room { result ≡ true → skipped + 1 < 2 ^ 64 }
{
    let entries = standing.inside();
    let depth = standing.entry().depth;
    skipped < entries.len() && has_subranges(subranges_behind(entries, depth, skipped + 1), depth)
}

/// Whether an index is at or past a count, where that is known.
fn is_past_count(count: Option<Option<u128>>, index: u32) -> bool
    ensures { result ≡ is_past_known count index }
{
    match count {
        Some(Some(count)) => u128::from(index) >= count,
        Some(None) | None => false,
    }
}

/// Whether an index is at or past the count of an array behind its first so many subranges, which
/// are read only where they are not known yet.
#[tactic(auto, using(crate::proofs::Rows::past_in_rows))]
fn passes_end(standing: &TypeStanding<'_, '_, '_>, skipped: usize, index: u32) -> bool
    ensures { result ≡ steps.is_past (drop skipped (counts standing.now)) index }
{
    match standing.rows() {
        Some(rows) => is_past_count(rows.count(skipped), index),
        None => is_past(standing.standing(), skipped, index),
    }
}

/// Whether more than one is left behind the first so many.
fn are_left(len: usize, skipped: usize) -> bool
    ensures is { result ≡ nat_lt (skipped + 1) len }
    ensures room { result ≡ true → skipped + 1 < 2 ^ 64 }
{
    skipped < len && len - skipped > 1
}

/// Whether an array has rows behind its first so many subranges and one more, which are read only
/// where they are not known yet.
fn holds_rows(standing: &TypeStanding<'_, '_, '_>, skipped: usize) -> bool
    ensures is { result ≡ nat_lt (skipped + 1) (length (counts standing.now)) }
    ensures room { result ≡ true → skipped + 1 < 2 ^ 64 }
{
    match standing.rows() {
        Some(rows) => are_left(rows.len(), skipped),
        None => has_rows(standing.standing(), skipped),
    }
}

/// The type of the elements of an array behind its first so many subranges: rows of it, or the type
/// that it has.
fn element_type<'r, 'k, 'a>(
    units: &TypedUnits<'r, 'k, 'a>,
    met: Met<'r, 'k, 'a>,
) -> Typed<'r, 'k, 'a>
    ensures { result ≡ steps.element_type units.now met.entry.standing met.entry.skipped }
{
    let Met { standing, skipped } = met;
    if holds_rows(&standing, skipped) {
        return Typed::At {
            standing,
            skipped: skipped + 1,
        };
    }
    type_of(units, &standing.entry().attributes)
}

/// So many elements of a size, in bytes.
fn bytes_of(index: u32, size: u64) -> u128
    ensures is { result ≡ index * size }
    ensures few { result < 2 ^ 96 }
{
    u128::from(index) * u128::from(size)
}

/// Whether an element is behind the end of an array, or the array is behind that of another one.
fn is_behind_end(past: bool, met: &Met<'_, '_, '_>, index: u32) -> bool
    ensures { result ≡ (past
        || steps.is_past (drop met.now.skipped (counts met.now.standing)) index) }
{
    past || passes_end(&met.standing, met.skipped, index)
}

/// An element of an array that stands there.
fn array_element<'r, 'k, 'a>(
    units: &TypedUnits<'r, 'k, 'a>,
    index: u32,
    met: Met<'r, 'k, 'a>,
    spot: SourcedPlace,
    past: bool,
) -> Result<Part<'r, 'k, 'a>, DeadEnd>
    ensures { Tells result (steps.element_at units.now index spot past met.entry
        (the_size units.now (steps.element_type units.now met.entry.standing met.entry.skipped))) }
{
    let past = is_behind_end(past, &met, index);
    let typed = element_type(units, met);
    let Some(size) = type_size(units, &typed) else {
        return Err(DeadEnd::Marked(Mark::UnsupportedType));
    };
    match spot.further(bytes_of(index, size)) {
        Ok(spot) => Ok(Part { typed, spot, past }),
        Err(end) => Err(end),
    }
}

/// So many bytes behind an address, modulo 2^32.
fn address_further(more: u128, source: Source) -> Source
    requires { more < 2 ^ 96 }
    ensures { result ≡ steps.address_further more source }
{
    match source {
        Source::Single(PiecePlace::Address(address)) => {
            let sum = u128::from(address) + more;
            Source::Single(PiecePlace::Address((sum % 0x1_0000_0000) as u32))
        }
        other => other,
    }
}

/// An element behind what a pointer leads to that stands there.
fn pointed_element<'r, 'k, 'a>(
    units: &TypedUnits<'r, 'k, 'a>,
    index: u32,
    standing: &TypeStanding<'r, 'k, 'a>,
    source: Source,
) -> Result<Part<'r, 'k, 'a>, DeadEnd>
    ensures { Tells result (steps.pointed_element units.now index standing.now source
        (the_size units.now (the_type units.now standing.now.entry.attributes))) }
{
    let to = type_of(units, &standing.entry().attributes);
    let Some(size) = type_size(units, &to) else {
        return Err(DeadEnd::Marked(Mark::UnsupportedType));
    };
    if standing.entry().tag != POINTER {
        return Err(DeadEnd::Marked(Mark::UnsupportedType));
    }
    Ok(Part::whole(to, address_further(bytes_of(index, size), source)))
}

/// An element of an array, or of those that a pointer leads to the first of.
#[tactic(auto, using(crate::proofs::Stops::stopped), unfolding(crate::specs::Steps::element_step))]
pub fn element_step<'r, 'k, 'a>(
    units: &TypedUnits<'r, 'k, 'a>,
    view: &FrameView<'_>,
    index: u32,
    part: Part<'r, 'k, 'a>,
) -> Result<Part<'r, 'k, 'a>, DeadEnd>
    ensures { Tells result (steps.element_step units.now view.now.memory index part.entry) }
{
    let Part { typed, spot, past } = part;
    let met = match meet(units, typed, spot.place().bits) {
        Ok(met) => met,
        Err(end) => return Err(end),
    };
    match class_of(met.standing.entry().tag) {
        Class::Array => array_element(units, index, met, spot, past),
        Class::Pointing => {
            let source = pointed(view, &spot, past);
            pointed_element(units, index, &met.standing, source)
        }
        _ => Err(DeadEnd::Marked(Mark::UnsupportedType)),
    }
}
