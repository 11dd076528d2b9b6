//! Which calls fail.

ghost use Rattle.std.specs.Prelude.{◌≡◌, ◌≤◌, MatchOption};
ghost use Rattle.causes.specs.Counts.{Rose};
ghost use Rattle.pm_outside.specs.calls.Memory.{IsToFail, part_of, with_call, with_fault};

use std::marker::Model;

/// How many bytes of its piece a failing call takes before it fails, all of a shorter one.
#[derive(Clone, Copy)]
pub struct Part {
    /// The number of the call, counted from 0.
    pub call: u64,
    pub bytes: usize,
}

/// The numbers of the calls that fail, counted from 0, what these take first, and how many were
/// made and have failed.
#[derive(Drop)]
pub(crate) struct FaultPlan {
    failing: Vec<u64>,
    parts: Vec<Part>,
    next: u64,
    faults: u64,
}

impl Model for FaultPlan {
    ghost use Rattle.pm_outside.specs.calls.Memory.{Plan};

    ghost Value = { Plan };

    ghost view = { λ p. record {
      failing = p.failing.items;
      parts = p.parts.items;
      next = p.next;
      faults = p.faults;
    } };
}

/// The bytes that the first part for a call gives, 0 where there is none.
fn part_of(parts: &[Part], call: u64) -> usize
    ensures { result ≡ part_of parts.now call }
{
    match parts.iter().find(|part| part.call == call) {
        Some(part) => part.bytes,
        None => 0,
    }
}

impl FaultPlan {
    pub(crate) fn new(failing: Vec<u64>, parts: Vec<Part>) -> Self
        ensures { result ≡ record {
          failing = failing.items;
          parts = parts.items;
          next = 0;
          faults = 0;
        } }
    {
        FaultPlan {
            failing,
            parts,
            next: 0,
            faults: 0,
        }
    }

    pub(crate) fn set_parts(&mut self, parts: Vec<Part>)
        ensures { self.new ≡ record self.old { parts = parts.items } }
    {
        self.parts = parts;
    }

    /// Counts a call. Where it is to fail, gives how many bytes of its piece it takes first.
    pub(crate) fn next_fault(&mut self) -> Option<usize>
        ensures planned { MatchOption result (IsToFail self.old → ⊥) (λ part.
            IsToFail self.old × (part ≡ part_of self.old.parts self.old.next)) }
        ensures counted { self.new ≡ with_call self.old }
    {
        let number = self.next;
        self.next = number.saturating_add(1);
        if !self.failing.contains(&number) {
            return None;
        }
        Some(part_of(&self.parts, number))
    }

    /// Counts a fault.
    pub(crate) fn count_fault(&mut self)
        ensures later { self.old.faults ≤ self.new.faults }
        ensures rose { Rose self.old.faults self.new.faults }
        ensures counted { self.new ≡ with_fault self.old }
    {
        self.faults = self.faults.saturating_add(1);
    }
}
