//! The sequences of a line program.

ghost use Rattle.std.specs.Prelude.{◌≡◌, true, length, IfOk, find, slice_get};
ghost use Rattle.std.specs.Option.{option_copied};
ghost use Rattle.dwarf_line.specs.declared.sequences.Start.{Start};
ghost use Rattle.dwarf_line.specs.Holding.{holds};
ghost use Rattle.dwarf_line.specs.inner.Halving.{last_reached, ascends_from};
ghost use Rattle.dwarf_line.specs.calls.Held.{held};
ghost use Rattle.dwarf_line.specs.inner.Starts.{start_of, starts_from, apart_from, sought};

use crate::hull::held_by;
use crate::lines::Sequence;
use causes::NoMemory;
use pm_text::Items;
use std::alloc::Global;
use std::marker::Model;

/// Where a sequence begins and ends that holds addresses.
#[derive(Clone, Copy)]
pub struct Start {
    pub first: u32,
    pub end: u32,
    /// The number of the sequence, from 0.
    pub index: usize,
}

/// The sequences of a line program, which contracts see as the list.
#[derive(Drop)]
pub struct Sequences {
    sequences: Items<Sequence>,
    // Those that hold addresses, by their first ones.
    starts: Vec<Start>,
    // No address is held by two. Then the one that holds an address is found by halving.
    apart: bool,
}

impl Model for Sequences {
    ghost use Rattle.std.specs.Prelude.{◌≡◌, List};
    ghost use Rattle.dwarf_line.specs.declared.lines.Sequence.{Sequence};
    ghost use Rattle.dwarf_line.specs.inner.Starts.{AreStarts};

    ghost Value = { List Sequence };

    ghost view = { λ s. s.sequences };

    ghost invariant = { λ s. AreStarts s.apart s.starts.items s.sequences };
}

impl Sequence {
    /// The addresses that it holds: from the first one up to but not including the second. What
    /// linkers make of removed code holds none.
    pub fn held(&self) -> Option<(u32, u32)>
        ensures { result ≡ held self.now }
    {
        let first = self.rows.first()?.address;
        held_by(Some(first), self.end)
    }
}

/// The sequence holds the address.
#[tactic(auto, using(crate::proofs::HeldLaws::holds_held))]
fn holds(address: u32, s: &Sequence) -> bool
    ensures { result ≡ holds address s.now }
{
    match s.held() {
        Some((first, end)) => first <= address && address < end,
        None => false,
    }
}

/// Where a sequence begins and ends. It holds its first address, or none.
fn start_of(index: usize, s: &Sequence) -> Option<Start>
    ensures { result ≡ start_of index s.now }
{
    let first = s.rows.first()?.address;
    if !holds(first, s) {
        return None;
    }
    Some(Start {
        first,
        end: s.end,
        index,
    })
}

/// Where the sequences begin and end that hold addresses.
fn starts_of(alloc: Global, sequences: &[Sequence]) -> Result<Vec<Start>, NoMemory>
    ensures { IfOk result (λ starts. starts.items ≡ starts_from 0 sequences.now) }
{
    let mut starts = Vec::new(alloc);
    'sequences: for (index, s) in sequences.iter().enumerate() {
        if let Some(start) = start_of(index, s) {
            starts.push(start)?;
        }
    }
    Ok(starts)
}

/// Each ends before the next one begins.
fn are_apart(starts: &[Start]) -> bool
    ensures { result ≡ apart_from 0 starts.now }
{
    let mut reached = 0;
    for start in starts {
        if start.first < reached || start.end <= start.first {
            return false;
        }
        reached = start.end;
    }
    true
}

/// The last one that begins at or before an address, by halving.
fn last_start(address: u32, starts: &[Start]) -> Option<Start>
    requires { ascends_from (λ (t : Start). t.first) 0 starts.now ≡ true }
    ensures { result ≡ last_reached (λ (t : Start). t.first) address starts.now }
{
    let count = starts.partition_point(|t| t.first <= address);
    if count == 0 {
        return None;
    }
    Some(starts[count - 1])
}

/// The first that holds the address, in linear time.
fn first_holding<'a>(address: u32, sequences: &'a [Sequence]) -> Option<&'a Sequence>
    ensures { option_copied result ≡ find (holds address) sequences.now }
{
    for s in sequences {
        if holds(address, s) {
            return Some(s);
        }
    }
    None
}

/// The same by where they begin, if no address is held by two.
fn sought<'a>(address: u32, starts: &[Start], sequences: &'a [Sequence]) -> Option<&'a Sequence>
    requires { ascends_from (λ (t : Start). t.first) 0 starts.now ≡ true }
    ensures { option_copied result ≡ sought address starts.now sequences.now }
{
    let start = last_start(address, starts)?;
    let s = sequences.get(start.index)?;
    if holds(address, s) { Some(s) } else { None }
}

impl Sequences {
    /// The list of these sequences, in their order.
    pub fn new(alloc: Global, sequences: Items<Sequence>) -> Result<Self, NoMemory>
        ensures { IfOk result (λ s. s ≡ sequences) }
    {
        let mut starts = starts_of(alloc, sequences.as_slice())?;
        starts.sort_by_key(|start| start.first)?;
        let apart = are_apart(starts.as_slice());
        Ok(Sequences {
            sequences,
            starts,
            apart,
        })
    }

    pub fn as_slice(&self) -> &[Sequence]
        ensures { result.now ≡ self.now }
    {
        self.sequences.as_slice()
    }

    pub fn len(&self) -> usize
        ensures { result ≡ length self.now }
    {
        self.sequences.len()
    }

    /// The first that holds the address: in logarithmic time where no address is held by two.
    pub fn first_holding(&self, address: u32) -> Option<&Sequence>
        ensures { option_copied result ≡ find (holds address) self.now }
    {
        if self.apart {
            sought(address, self.starts.as_slice(), self.sequences.as_slice())
        } else {
            first_holding(address, self.sequences.as_slice())
        }
    }
}
