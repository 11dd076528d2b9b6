//! Entries where they stand.

ghost use Rattle.std.specs.Prelude.{◌≡◌, nat_lt};
ghost use Rattle.std.specs.List.{prefix_len};
ghost use Rattle.dwarf_entries.specs.Standing.{stands, entries_inside, is_child};

use dwarf_info::{Entry, Unit};
use std::marker::Model;

/// An entry where it stands in its unit: in the tree that is written out, with the entries behind
/// it.
#[derive(Drop)]
pub struct Standing<'r, 'a> {
    unit: &'r Unit<'a>,
    entry: &'r Entry<'a>,
    behind: &'r [Entry<'a>],
}

impl<'r, 'a> Model for Standing<'r, 'a> {
    ghost use Rattle.dwarf_entries.specs.Standing.{Standing, stands};

    ghost Value = { Standing };

    ghost view = { λ x. stands x.unit.now x.entry.now x.behind.now };
}

/// How many entries from the front on are deeper.
fn deeper(depth: u32, entries: &[Entry<'_>]) -> usize
    ensures { result ≡ prefix_len (λ e. nat_lt depth e.depth) entries.now }
{
    for (number, entry) in entries.iter().enumerate() {
        if entry.depth <= depth {
            return number;
        }
    }
    entries.len()
}

impl<'r, 'a> Standing<'r, 'a> {
    pub fn new(unit: &'r Unit<'a>, entry: &'r Entry<'a>, behind: &'r [Entry<'a>]) -> Self
        ensures { result ≡ stands unit.now entry.now behind.now }
    {
        Standing {
            unit,
            entry,
            behind,
        }
    }

    /// The same entry again.
    pub fn copied(&self) -> Self
        ensures { result ≡ self.now }
    {
        Standing {
            unit: self.unit,
            entry: self.entry,
            behind: self.behind,
        }
    }

    pub fn unit(&self) -> &'r Unit<'a>
        ensures { result.now ≡ self.now.unit }
    {
        self.unit
    }

    pub fn entry(&self) -> &'r Entry<'a>
        ensures { result.now ≡ self.now.entry }
    {
        self.entry
    }

    /// The entries in it, in the order of the section.
    pub fn inside(&self) -> &'r [Entry<'a>]
        ensures { result.now ≡ entries_inside self.now }
    {
        let len = deeper(self.entry.depth, self.behind);
        &self.behind[..len]
    }
}

/// Whether an entry is a child, of this tag, of an entry of this depth: it is one deeper.
pub fn is_child(entry: &Entry<'_>, depth: u32, tag: u64) -> bool
    ensures { result ≡ is_child depth tag entry.now }
{
    u64::from(entry.depth) == u64::from(depth) + 1 && entry.tag == tag
}
