//! Counts of arrays (DWARF 4 sections 5.4 and 5.11).

ghost use Rattle.std.specs.Prelude.{◌≡◌, ℕ, ◌≤◌, ◌≤ℤ◌, ◌<ℤ◌, ◌^◌, pos, filter, drop, find, IfSome};
ghost use Rattle.std.specs.Option.{is_some};
ghost use Rattle.dwarf_entries.specs.Names.{as_natural};
ghost use Rattle.dwarf_entries.specs.Standing.{is_child};
ghost use Rattle.dwarf_entries.specs.Tags.{tag_subrange};
ghost use Rattle.dwarf_types.specs.Counts as counts;

use dwarf_entries::names::{COUNT, UPPER_BOUND};
use dwarf_entries::tags::SUBRANGE;
use dwarf_entries::{as_natural, attribute, is_child};
use dwarf_info::{AttrValue, Attributes, Entry};

/// A count that is not below 0.
fn count(value: &AttrValue<'_>) -> Option<u128>
    ensures count { result ≡ as_natural value.now }
    ensures small { IfSome result (λ count. count ≤ 2 ^ 64) }
{
    let count = as_natural(value)?;
    Some(u128::from(count))
}

/// The count that an upper bound makes.
fn count_to(bound: &AttrValue<'_>) -> Option<u128>
    ensures count { result ≡ counts.bound_count bound.now }
    ensures small { IfSome result (λ count. count ≤ 2 ^ 64) }
{
    match bound {
        AttrValue::Constant(bound) => Some(u128::from(*bound) + 1),
        AttrValue::Signed(bound) => {
            if *bound >= -1 {
                Some((i128::from(*bound) + 1) as u128)
            } else {
                None
            }
        }
        _ => None,
    }
}

/// The count of a subrange, where it is known, which is at most 2^64.
pub(crate) fn small_count(entry: &Entry<'_>) -> Option<u128>
    ensures count { result ≡ counts.subrange_count entry.now }
    ensures small { IfSome result (λ count. count ≤ 2 ^ 64) }
{
    let attributes = &entry.attributes;
    match attribute(attributes, COUNT) {
        Some(value) => count(&value),
        None => {
            let bound = attribute(attributes, UPPER_BOUND)?;
            count_to(&bound)
        }
    }
}

/// The count of a subrange, where it is known: its count, or its upper bound and one more.
pub fn subrange_count(entry: &Entry<'_>) -> Option<u128>
    ensures { result ≡ counts.subrange_count entry.now }
{
    small_count(entry)
}

/// Whether a subrange of an array of this depth is among the entries.
pub fn has_subranges(entries: &[Entry<'_>], depth: u32) -> bool
    ensures { result ≡ is_some (find (is_child depth tag_subrange) entries.now) }
{
    for entry in entries {
        if is_child(entry, depth, SUBRANGE) {
            return true;
        }
    }
    false
}

/// The entries behind the first so many subranges of an array of this depth.
pub fn subranges_behind<'r, 'a>(
    entries: &'r [Entry<'a>],
    depth: u32,
    skipped: usize,
) -> &'r [Entry<'a>]
    ensures { filter (is_child depth tag_subrange) result.now
        ≡ drop skipped (filter (is_child depth tag_subrange) entries.now) }
{
    let mut left = entries;
    let mut more = skipped;
    'entries: while more > 0 {
        let [entry, behind @ ..] = left else {
            return left;
        };
        if is_child(entry, depth, SUBRANGE) {
            more -= 1;
        }
        left = behind;
    }
    left
}
