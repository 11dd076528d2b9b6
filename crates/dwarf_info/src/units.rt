//! The units of a section.

ghost use Rattle.std.specs.Prelude.{◌≡◌, ℕ, IfSome, option_and_then};
ghost use Rattle.dwarf_info.specs.calls.EntryPlaces.{IsEntryAt, first_at, entry_there, place_among};
ghost use Rattle.dwarf_info.specs.inner.Settling.{placed};

use crate::entry::UnitAnswer;
use crate::places::{EntryPlace, Places};
use pm_text::Items;
use std::marker::Model;

/// The units of a section, in order. Contracts see them as the list.
#[derive(Drop)]
pub struct Units<'a> {
    answers: Items<UnitAnswer<'a>>,
    places: Places,
}

impl<'a> Model for Units<'a> {
    ghost use Rattle.std.specs.Prelude.{◌≡◌, ℕ, List};
    ghost use Rattle.dwarf_info.specs.declared.entry.UnitAnswer.{UnitAnswer};
    ghost use Rattle.dwarf_info.specs.inner.Settling.{placed};
    ghost use Rattle.dwarf_info.specs.calls.EntryPlaces.{place_among};

    ghost Value = { List UnitAnswer };

    ghost view = { λ u. u.answers };

    ghost invariant = { λ u. (q : ℕ) → placed u.places q ≡ place_among 0 u.answers q };
}

impl<'a> Units<'a> {
    pub(crate) fn new(answers: Items<UnitAnswer<'a>>, places: Places) -> Self
        requires { (q : ℕ) → placed places q ≡ place_among 0 answers q }
        ensures { result ≡ answers.entry }
    {
        Units { answers, places }
    }

    /// The units, in the order of the section.
    pub fn as_slice(&self) -> &[UnitAnswer<'a>]
        ensures { result.now ≡ self.now }
    {
        self.answers.as_slice()
    }

    /// Where the entry at an offset of the section stands, if there is one; of several the first.
    /// It takes logarithmic time.
    pub fn place_of(&self, at: u32) -> Option<EntryPlace>
        ensures place { result ≡ place_among 0 self.now at }
        ensures found { IfSome result (IsEntryAt self.now at) }
        ensures first { option_and_then (entry_there self.now) result ≡ first_at at self.now }
    {
        self.places.get(at)
    }
}
