//! What is known of the memory before an instruction: how many bytes from the value of a local on lie
//! inside.

ghost use Rattle.std.specs.Prelude.{◌≡◌, ◌==◌, ◌&&◌, ◌+◌, ◌*◌, nat_le, [], ◌∷◌, map, Some, None, option_map};
ghost use Rattle.std.specs.Prelude.{IfOk, OnOk};
ghost use Rattle.rewrite_bodies.specs.calls.Facts.{same_base, is_on, is_local, others, answered};
ghost use Rattle.rewrite_bodies.specs.calls.Facts.{first_facts, noted, shown, is_answered, reach};
ghost use Rattle.operand_spill.specs.inner.Exposing.{base_of, fact, copy, made, copies, held};

use crate::copies::{KnownCopies, KnownCopy, is_written};
use causes::NoMemory;
use std::alloc::Global;
use std::collections::BTreeSet;
use std::marker::Model;
use wasm_syntax::{Basic, ModuleParts};

/// The most facts that are kept, with the one on the least pages.
const MOST: usize = 33;

/// The bytes from the value of a local, or from address 0, to this end, which is counted from there,
/// lie inside the memory.
#[derive(Clone, Copy)]
pub struct KnownFact {
    pub local: Option<u32>,
    pub end: u64,
}

fn same_base(a: Option<u32>, b: Option<u32>) -> bool
    ensures { result ≡ same_base (base_of a) (base_of b) }
{
    match a {
        Some(x) => match b {
            Some(y) => x == y,
            None => false,
        },
        None => match b {
            Some(_) => false,
            None => true,
        },
    }
}

/// Whether a fact says that so many bytes lie inside.
fn answers(found: KnownFact, local: Option<u32>, end: u64) -> bool
    ensures { result
        ≡ (same_base (base_of found.local) (base_of local) && nat_le end found.end) }
{
    same_base(found.local, local) && end <= found.end
}

/// Whether one of these does.
fn is_known(items: &[KnownFact], local: Option<u32>, end: u64) -> bool
    ensures { result ≡ answered (made local end) (map fact items.now) }
{
    for found in items {
        if answers(*found, local, end) {
            return true;
        }
    }
    false
}

/// Those on other locals than this one.
fn unwritten(alloc: Global, items: &[KnownFact], local: u32) -> Result<Vec<KnownFact>, NoMemory>
    ensures { IfOk result (λ left. map fact left.items
        ≡ others (is_local (Some local)) (map fact items.now)) }
{
    let mut left = Vec::new(alloc);
    for found in items {
        if !is_written(found.local, local) {
            left.push(*found)?;
        }
    }
    Ok(left)
}

/// Whether a base is one of these locals.
fn is_marked(marks: &BTreeSet<u32>, base: Option<u32>) -> bool
    ensures { result ≡ is_on (held marks.now) (base_of base) }
{
    match base {
        Some(local) => marks.contains(&local),
        None => false,
    }
}

/// Those on none of these locals.
fn unmarked(
    alloc: Global,
    items: &[KnownFact],
    marks: &BTreeSet<u32>,
) -> Result<Vec<KnownFact>, NoMemory>
    ensures { IfOk result (λ left. map fact left.items
        ≡ others (held marks.now) (map fact items.now)) }
{
    let mut left = Vec::new(alloc);
    for found in items {
        if !is_marked(marks, found.local) {
            left.push(*found)?;
        }
    }
    Ok(left)
}

/// So many pages lie inside.
fn least(pages: u32) -> KnownFact
    ensures { fact result ≡ made None (65536 * pages) }
{
    KnownFact {
        local: None,
        end: 65_536 * u64::from(pages),
    }
}

/// Facts, which contracts see as a list.
#[derive(Drop)]
pub struct Facts {
    alloc: Global,
    items: Vec<KnownFact>,
}

impl Model for Facts {
    ghost use Rattle.std.specs.Prelude.{List, map};
    ghost use Rattle.rewrite_bodies.specs.calls.Facts.{Fact};
    ghost use Rattle.operand_spill.specs.inner.Exposing.{fact};

    ghost Value = { List Fact };

    ghost view = { λ s. map fact s.items.items };
}

/// What an access to this address shows, with this offset and so many bytes.
fn reach(address: Option<KnownCopy>, offset: u32, bytes: u32) -> Option<KnownFact>
    ensures { option_map fact result ≡ reach (option_map copy address) (offset + bytes) }
{
    match address {
        Some(known) => Some(KnownFact {
            local: known.local,
            end: u64::from(known.plus) + (u64::from(offset) + u64::from(bytes)),
        }),
        None => None,
    }
}

/// What an instruction shows on these operands.
pub fn shown(instruction: Basic, operands: KnownCopies) -> Option<KnownFact>
    ensures { option_map fact result ≡ shown instruction (copies operands) }
{
    match instruction {
        Basic::Load(load, _, offset) => reach(operands.first, offset, load.bytes()),
        Basic::Store(store, _, offset) => reach(operands.second, offset, store.bytes()),
        _ => None,
    }
}

impl Facts {
    /// None, which takes no memory.
    pub fn new(alloc: Global) -> Self
        ensures { result ≡ [] }
    {
        Facts {
            alloc,
            items: Vec::new(alloc),
        }
    }

    /// A single one.
    fn one(alloc: Global, found: KnownFact) -> Result<Self, NoMemory>
        ensures { IfOk result (λ facts. facts ≡ fact found ∷ []) }
    {
        let mut items = Vec::new(alloc);
        items.push(found)?;
        Ok(Facts { alloc, items })
    }

    /// Those where a function begins: a memory has its least pages.
    pub fn first(alloc: Global, source: &ModuleParts) -> Result<Self, NoMemory>
        ensures { IfOk result (λ facts. facts ≡ first_facts source.now.memories) }
    {
        match source.memories.as_slice() {
            [limits, ..] => Facts::one(alloc, least(limits.min)),
            [] => Ok(Facts::new(alloc)),
        }
    }

    /// None, in place of these.
    pub fn none(&self) -> Self
        ensures { result ≡ [] }
    {
        Facts::new(self.alloc)
    }

    /// Whether they answer for what an instruction shows.
    pub fn answer(&self, shown: Option<KnownFact>) -> bool
        ensures { result ≡ is_answered (option_map fact shown) self.now }
    {
        match shown {
            Some(found) => is_known(self.items.as_slice(), found.local, found.end),
            None => false,
        }
    }

    /// One more, where it is not known yet, and there is room.
    fn note_one(&mut self, found: KnownFact) -> Result<(), NoMemory>
        ensures { OnOk result (self.new ≡ noted (Some (fact found)) self.old) }
    {
        if is_known(self.items.as_slice(), found.local, found.end) {
            return Ok(());
        }
        if self.items.len() < MOST {
            self.items.push(found)?;
        }
        Ok(())
    }

    /// What an instruction shows is noted.
    pub fn note(&mut self, shown: Option<KnownFact>) -> Result<(), NoMemory>
        ensures { OnOk result (self.new ≡ noted (option_map fact shown) self.old) }
    {
        match shown {
            Some(found) => self.note_one(found),
            None => Ok(()),
        }
    }

    /// A copy.
    pub fn copy(&self) -> Result<Facts, NoMemory>
        ensures { IfOk result (λ copy. copy ≡ self.now) }
    {
        let items = Vec::from_slice(self.alloc, self.items.as_slice())?;
        Ok(Facts {
            alloc: self.alloc,
            items,
        })
    }

    /// Those on another local than the one that an instruction writes are kept.
    #[tactic(auto, using(crate::proofs::Exposings::others_none))]
    pub fn free(&mut self, written: Option<u32>) -> Result<(), NoMemory>
        ensures { OnOk result (self.new ≡ others (is_local written) self.old) }
    {
        match written {
            Some(local) => self.items = unwritten(self.alloc, self.items.as_slice(), local)?,
            None => {}
        }
        Ok(())
    }

    /// Those on none of these locals.
    pub fn unmarked(&self, marks: &BTreeSet<u32>) -> Result<Facts, NoMemory>
        ensures { IfOk result (λ left. left ≡ others (held marks.now) self.now) }
    {
        let items = unmarked(self.alloc, self.items.as_slice(), marks)?;
        Ok(Facts {
            alloc: self.alloc,
            items,
        })
    }
}
