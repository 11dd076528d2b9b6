//! What the subranges of an array say, read once for all who ask (DWARF 4 section 5.4).

ghost use Rattle.std.specs.Prelude.{◌≡◌, ◌-◌, ◌<◌, get_or, map, filter, drop, length, slice_get, Some, IfOk};
ghost use Rattle.dwarf_entries.specs.Standing.{is_child};
ghost use Rattle.dwarf_entries.specs.Tags.{tag_subrange};
ghost use Rattle.dwarf_types.specs.Counts.{counts, subrange_count};
ghost use Rattle.dwarf_types.specs.calls.Subranges.{size_behind};
ghost use Rattle.dwarf_types.specs.inner.Sized.{AreSizes};

use crate::counts::small_count;
use crate::kept_counts::KeptCounts;
use crate::size::times;
use causes::NoMemory;
use dwarf_entries::tags::SUBRANGE;
use dwarf_entries::{Standing, is_child};
use dwarf_info::Entry;
use pm_text::Items;
use std::alloc::Global;
use std::marker::Model;

/// The subranges of an array whose innermost elements have a size. Contracts see it as the counts
/// and that size.
#[derive(Drop)]
pub struct ArrayRows {
    // The outermost first.
    counts: KeptCounts,
    element: u64,
    // With so many of the innermost subranges, from none on, up to the first that is not known.
    sizes: Items<u64>,
}

impl Model for ArrayRows {
    ghost use Rattle.dwarf_types.specs.calls.Subranges.{Subranges};
    ghost use Rattle.dwarf_types.specs.inner.Sized.{AreSizes};

    ghost Value = { Subranges };

    ghost view = { λ a. record { counts = a.counts; element = a.element } };

    ghost invariant = { λ a. AreSizes a.counts a.element a.sizes };
}

/// The counts of the subranges among entries of this depth.
fn counts_among(alloc: Global, entries: &[Entry<'_>], depth: u32) -> Result<KeptCounts, NoMemory>
    ensures { IfOk result (λ cs. cs
        ≡ map subrange_count (filter (is_child depth tag_subrange) entries.now)) }
{
    let mut counts = KeptCounts::new(alloc);
    let mut left = entries;
    'entries: while let [entry, behind @ ..] = left {
        if is_child(entry, depth, SUBRANGE) {
            counts.push(small_count(entry))?;
        }
        left = behind;
    }
    Ok(counts)
}

/// The counts of an array: one that is not known where there are no subranges.
#[tactic(auto, using(crate::proofs::SizeLaws::one_count, crate::proofs::SizeLaws::some_counts))]
fn counts_of(alloc: Global, standing: &Standing<'_, '_>) -> Result<KeptCounts, NoMemory>
    ensures { IfOk result (λ cs. cs ≡ counts standing.now) }
{
    let mut counts = counts_among(alloc, standing.inside(), standing.entry().depth)?;
    if counts.is_empty() {
        counts.push(None)?;
    }
    Ok(counts)
}

/// The count of that number.
fn numbered(counts: &KeptCounts, number: usize) -> Option<u128>
    requires { number < length counts.now }
    ensures { result ≡ get_or counts.now number result }
{
    match counts.get(number) {
        Some(count) => count,
        None => unreachable!(),
    }
}

/// The size of the elements, and of the arrays of one more of the innermost subranges each, up to
/// the first that is not known.
fn sizes_of(alloc: Global, counts: &KeptCounts, element: u64) -> Result<Items<u64>, NoMemory>
    ensures { IfOk result (AreSizes counts.now element) }
{
    let mut sizes = Items::new(alloc);
    sizes.push(element)?;
    let mut size = element;
    let mut left = counts.len();
    'subranges: while left > 0 {
        left -= 1;
        let Some(next) = times(numbered(counts, left), Some(size)) else {
            return Ok(sizes);
        };
        sizes.push(next)?;
        size = next;
    }
    Ok(sizes)
}

/// How many are left behind the first so many.
fn left_behind(len: usize, skipped: usize) -> usize
    ensures { result ≡ len - skipped }
{
    len.saturating_sub(skipped)
}

fn size_at(sizes: &[u64], index: usize) -> Option<u64>
    ensures { result ≡ slice_get sizes.now index }
{
    sizes.get(index).copied()
}

impl ArrayRows {
    /// Those of an array whose innermost elements have this size. It takes time and memory by the
    /// entries in the array.
    pub fn of(alloc: Global, standing: &Standing<'_, '_>, element: u64) -> Result<Self, NoMemory>
        ensures counts { IfOk result (λ a. a.counts ≡ counts standing.now) }
        ensures element { IfOk result (λ a. a.element ≡ element) }
    {
        match counts_of(alloc, standing) {
            Ok(counts) => match sizes_of(alloc, &counts, element) {
                Ok(sizes) => Ok(ArrayRows {
                    counts,
                    element,
                    sizes,
                }),
                Err(NoMemory) => Err(NoMemory),
            },
            Err(NoMemory) => Err(NoMemory),
        }
    }

    /// The size of the innermost elements in bytes.
    pub fn element(&self) -> u64
        ensures { result ≡ self.now.element }
    {
        self.element
    }

    /// How many counts there are.
    pub fn len(&self) -> usize
        ensures { result ≡ length self.now.counts }
    {
        self.counts.len()
    }

    /// The count behind the first so many, where there is one; None within it where it is not
    /// known.
    pub fn count(&self, skipped: usize) -> Option<Option<u128>>
        ensures { result ≡ slice_get self.now.counts skipped }
    {
        self.counts.get(skipped)
    }

    /// The size without the first so many subranges in bytes, where there is one.
    pub fn size(&self, skipped: usize) -> Option<u64>
        ensures { result ≡ size_behind self.now skipped }
    {
        let left = left_behind(self.counts.len(), skipped);
        size_at(self.sizes.as_slice(), left)
    }
}
