//! Counts of arrays in few bytes.

ghost use Rattle.std.specs.Prelude.{◌≡◌, ◌==◌, ◌≤◌, ◌^◌, ◌++◌, ◌∷◌, [], map, length, slice_get, IfSome, OnOk};
ghost use Rattle.dwarf_types.specs.inner.Keeping.{count_of};

use causes::NoMemory;
use pm_text::Items;
use std::alloc::Global;
use std::marker::Model;

/// A count of at most 2^64, where it is known.
#[derive(Clone, Copy)]
pub struct KeptCount {
    /// The count modulo 2^32.
    pub low: u32,
    /// How many times 2^32 is in the rest, modulo 2^32.
    pub high: u32,
    /// How many times 2^64 is in it, or 2 where it is not known.
    pub top: u8,
}

/// Counts of at most 2^64, each in 12 bytes. Contracts see them as the list.
#[derive(Drop)]
pub struct KeptCounts {
    counts: Items<KeptCount>,
}

impl Model for KeptCounts {
    ghost use Rattle.std.specs.Prelude.{ℕ, List, Option, map};
    ghost use Rattle.dwarf_types.specs.inner.Keeping.{count_of};

    ghost Value = { List (Option ℕ) };

    ghost view = { λ k. map count_of k.counts };
}

/// A count as it is kept.
fn kept(count: Option<u128>) -> KeptCount
    requires { IfSome count (λ count. count ≤ 2 ^ 64) }
    ensures { count_of result ≡ count }
{
    let Some(count) = count else {
        return KeptCount {
            low: 0,
            high: 0,
            top: 2,
        };
    };
    if count >= 0x1_0000_0000_0000_0000 {
        return KeptCount {
            low: 0,
            high: 0,
            top: 1,
        };
    }
    KeptCount {
        low: (count % 0x1_0000_0000) as u32,
        high: (count / 0x1_0000_0000) as u32,
        top: 0,
    }
}

fn count_of(kept: KeptCount) -> Option<u128>
    ensures { result ≡ count_of kept }
{
    if kept.top == 2 {
        return None;
    }
    let top = u128::from(kept.top) * 0x1_0000_0000_0000_0000;
    let high = u128::from(kept.high) * 0x1_0000_0000;
    Some(top + high + u128::from(kept.low))
}

#[tactic(auto, using(crate::proofs::SizeLaws::count_pushed))]
fn push(counts: &mut Items<KeptCount>, count: Option<u128>) -> Result<(), NoMemory>
    requires { IfSome count (λ count. count ≤ 2 ^ 64) }
    ensures { OnOk result (map count_of counts.new ≡ map count_of counts.old ++ count ∷ []) }
{
    counts.push(kept(count))
}

#[tactic(auto, using(crate::proofs::SizeLaws::count_got))]
fn get(counts: &[KeptCount], number: usize) -> Option<Option<u128>>
    ensures { result ≡ slice_get (map count_of counts.now) number }
{
    match counts.get(number) {
        Some(kept) => Some(count_of(*kept)),
        None => None,
    }
}

#[tactic(auto, using(crate::proofs::SizeLaws::counts_length))]
fn len(counts: &[KeptCount]) -> usize
    ensures { result ≡ length (map count_of counts.now) }
{
    counts.len()
}

impl KeptCounts {
    /// No count.
    pub fn new(alloc: Global) -> Self
        ensures { result ≡ [] }
    {
        KeptCounts {
            counts: Items::new(alloc),
        }
    }

    /// Adds a count behind the others.
    pub fn push(&mut self, count: Option<u128>) -> Result<(), NoMemory>
        requires { IfSome count (λ count. count ≤ 2 ^ 64) }
        ensures { OnOk result (self.new ≡ self.old ++ count ∷ []) }
    {
        push(&mut self.counts, count)
    }

    /// How many counts there are.
    pub fn len(&self) -> usize
        ensures { result ≡ length self.now }
    {
        len(self.counts.as_slice())
    }

    pub fn is_empty(&self) -> bool
        ensures { result ≡ (length self.now == 0) }
    {
        self.len() == 0
    }

    /// The count of that number, where there is one; None within it where it is not known.
    pub fn get(&self, number: usize) -> Option<Option<u128>>
        ensures { result ≡ slice_get self.now number }
    {
        get(self.counts.as_slice(), number)
    }
}
