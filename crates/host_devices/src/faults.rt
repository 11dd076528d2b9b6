//! Which calls of a device fail.

ghost use Rattle.std.specs.Prelude.{◌≡◌, ◌≤◌, ◌↔◌, IsTrue};
ghost use Rattle.std.specs.Bool.{OnFalse, OnTrue};
ghost use Rattle.causes.specs.Counts.{Rose};
ghost use Rattle.host_devices.specs.calls.Faults.{IsToFail, HasCounted, one_more};

use std::marker::Model;

/// The numbers of the calls that fail, counted from 0, and how many were made and have failed.
#[derive(Drop)]
pub struct Faults {
    failing: Vec<u64>,
    next: u64,
    count: u64,
}

impl Model for Faults {
    ghost use Rattle.host_devices.specs.calls.Faults.{Plan};

    ghost Value = { Plan };

    ghost view = { λ f. record { failing = f.failing.items; next = f.next; count = f.count } };
}

impl Faults {
    pub fn new(failing: Vec<u64>) -> Self
        ensures { result ≡ record { failing = failing.items; next = 0; count = 0 } }
    {
        Faults {
            failing,
            next: 0,
            count: 0,
        }
    }

    /// How often a call has failed.
    pub fn count(&self) -> u64
        ensures { result ≡ self.now.count }
    {
        self.count
    }

    /// Counts a failure.
    pub fn fail(&mut self)
        ensures later { self.old.count ≤ self.new.count }
        ensures rose { Rose self.old.count self.new.count }
        ensures counted { self.new ≡ record self.old { count = one_more self.old.count } }
    {
        self.count = self.count.saturating_add(1);
    }

    /// Counts a call, and says whether it fails.
    pub fn next_fails(&mut self) -> bool
        ensures fails { IsTrue result ↔ IsToFail self.old }
        ensures counted { HasCounted self.old self.new }
        ensures later { self.old.count ≤ self.new.count }
        ensures rose { IsTrue result → Rose self.old.count self.new.count }
        ensures once { OnTrue result (self.new.count ≡ one_more self.old.count) }
        ensures same { OnFalse result (self.new.count ≡ self.old.count) }
    {
        let failing = self.failing.contains(&self.next);
        self.next = self.next.saturating_add(1);
        if failing {
            self.fail();
        }
        failing
    }
}
