//! The stack of an expression (DWARF 4 section 2.5.1).

ghost use Rattle.std.specs.Prelude.{◌≡◌, ◌≤◌, [], length};
ghost use Rattle.dwarf_expr.specs.Meaning.{pushed};
ghost use Rattle.dwarf_expr.specs.inner.Steps.{Pops, Leaves};

use crate::effects::Event;
use arrayvec::ArrayVec;
use std::marker::Model;

/// Entries of 64 bits, at most 64. Contracts see the topmost one first.
#[derive(Drop)]
pub(crate) struct Stack {
    entries: ArrayVec<u64, 64>,
}

impl Model for Stack {
    ghost use Rattle.std.specs.Prelude.{ℕ, List, reverse};

    ghost Value = { List ℕ };

    ghost view = { λ s. reverse s.entries.items };
}

impl Stack {
    pub(crate) fn new() -> Self
        ensures { result ≡ [] }
    {
        Stack {
            entries: ArrayVec::new(),
        }
    }

    /// Drops all entries.
    pub(crate) fn clear(&mut self)
        ensures { self.new ≡ [] }
    {
        self.entries.clear();
    }

    /// Takes the topmost entry. `Bad` where there is none.
    #[tactic(auto, using(crate::proofs::Entries::popped, crate::proofs::Entries::none_left))]
    pub(crate) fn pop(&mut self) -> Result<u64, Event>
        ensures top { Pops result self.old self.new }
        ensures bound { length self.old ≤ 64 }
    {
        // There are never more than 64.
        let _count = self.entries.len();
        match self.entries.pop() {
            Some(entry) => Ok(entry),
            None => Err(Event::Bad),
        }
    }

    /// Puts an entry on top. `TooDeep` where there are 64.
    #[tactic(auto, using(crate::proofs::Entries::has_room, crate::proofs::Entries::has_none))]
    pub(crate) fn push(&mut self, entry: u64) -> Result<(), Event>
        ensures { Leaves result self.new (pushed self.old entry) }
    {
        if self.entries.is_full() {
            return Err(Event::TooDeep);
        }
        self.entries.push(entry);
        Ok(())
    }
}
