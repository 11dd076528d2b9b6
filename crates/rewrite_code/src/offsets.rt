//! Offsets of instructions.

ghost use Rattle.std.specs.Prelude.{◌≡◌, ◌++◌, ◌∷◌, [], true, OnOk};
ghost use Rattle.rewrite_bodies.specs.calls.Facts.{among};
ghost use Rattle.rewrite_bodies.specs.calls.Slots.{is_any};
ghost use Rattle.rewrite_code.specs.calls.Rising.{Rising};

use causes::NoMemory;
use std::alloc::Global;
use std::marker::Model;

/// Whether an offset behind these is none of the lower ones.
fn may_follow(items: &[u32], offset: u32) -> bool
    ensures { result ≡ true → Rising items.now → Rising (items.now ++ offset ∷ []) }
{
    match items.last() {
        Some(last) => *last <= offset,
        None => true,
    }
}

/// Whether an offset is one of these, which need no order.
fn is_among(items: &[u32], offset: u32) -> bool
    ensures { result ≡ among offset items.now }
{
    items.contains(&offset)
}

/// Whether an offset is one of these, which rise.
fn is_found(items: &[u32], offset: u32) -> bool
    ensures { Rising items.now → result ≡ among offset items.now }
{
    items.binary_search(&offset).is_ok()
}

/// Whether there is one.
fn has_some(items: &[u32]) -> bool
    ensures { result ≡ is_any items.now }
{
    match items {
        [] => false,
        [..] => true,
    }
}

/// Offsets of instructions of a function, which contracts see as a list, in the order in which they
/// were noted. Where they rise, as those of a decoded body do, one is found in logarithmic time.
#[derive(Drop)]
pub struct Offsets {
    items: Vec<u32>,
    in_order: bool,
}

impl Model for Offsets {
    ghost use Rattle.std.specs.Prelude.{◌≡◌, ℕ, List, true};
    ghost use Rattle.rewrite_code.specs.calls.Rising.{Rising};

    ghost Value = { List ℕ };

    ghost view = { λ s. s.items.items };

    ghost invariant = { λ s. s.in_order ≡ true → Rising s.items.items };
}

impl Offsets {
    /// None, which takes no memory.
    pub fn new(alloc: Global) -> Self
        ensures { result ≡ [] }
    {
        Offsets {
            items: Vec::new(alloc),
            in_order: true,
        }
    }

    /// One more.
    pub fn note(&mut self, offset: u32) -> Result<(), NoMemory>
        ensures { OnOk result (self.new ≡ self.old ++ offset ∷ []) }
    {
        if !may_follow(self.items.as_slice(), offset) {
            self.in_order = false;
        }
        self.items.push(offset)?;
        Ok(())
    }

    /// Whether there is one.
    pub fn is_any(&self) -> bool
        ensures { result ≡ is_any self.now }
    {
        has_some(self.items.as_slice())
    }

    /// Whether an offset is one of them.
    pub fn contains(&self, offset: u32) -> bool
        ensures { result ≡ among offset self.now }
    {
        if self.in_order {
            is_found(self.items.as_slice(), offset)
        } else {
            is_among(self.items.as_slice(), offset)
        }
    }
}
