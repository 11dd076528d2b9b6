//! What lists say of an address, from the last entry on.

ghost use Rattle.std.specs.Prelude.{◌≡◌, ℕ, []};
ghost use Rattle.dwarf_loc.specs.calls.Said.{said, said_before, held_before, base_behind, chosen_of};

use crate::entry::ListEntry;
use crate::search::{first_of, is_between};

/// What a list says of an address.
#[derive(Clone, Copy)]
pub struct Said<T> {
    /// What the first entry holds that holds the address.
    pub held: Option<T>,
    /// What counts where no entry holds the address.
    pub default: Option<T>,
}

impl<T: Copy + Drop> Said<T> {
    /// What a list without entries says.
    pub fn nothing() -> Self
        ensures { (base address : ℕ) → result ≡ said base address [] }
    {
        Said {
            held: None,
            default: None,
        }
    }

    /// What the entry holds that counts for the address (DWARF 5, 2.6.2).
    pub fn chosen(self) -> Option<T>
        ensures { result ≡ chosen_of self }
    {
        first_of(self.held, self.default)
    }

    /// The same behind one more entry, from `begin` up to but not including `end`.
    fn hold(self, address: u32, begin: u128, end: u128, what: T) -> Self
        ensures { result ≡ held_before address begin end what self }
    {
        if is_between(begin, address, end) {
            Said {
                held: Some(what),
                ..self
            }
        } else {
            self
        }
    }

    /// What a list says that has an entry in front of what says this, where a base is in force in
    /// front of the entry.
    pub fn behind(self, address: u32, base: u32, entry: ListEntry<T>) -> Self
        ensures { result ≡ said_before address base entry self }
    {
        let base = u128::from(base);
        match entry {
            ListEntry::Base(_) => self,
            ListEntry::FromBase { begin, end, what } => self.hold(
                address,
                base + u128::from(begin),
                base + u128::from(end),
                what,
            ),
            ListEntry::Between { begin, end, what } => {
                self.hold(address, u128::from(begin), u128::from(end), what)
            }
            ListEntry::Lasting {
                begin,
                length,
                what,
            } => self.hold(
                address,
                u128::from(begin),
                u128::from(begin) + u128::from(length),
                what,
            ),
            ListEntry::Otherwise(what) => Said {
                default: Some(what),
                ..self
            },
        }
    }
}

/// The base that is in force behind an entry.
pub fn base_behind<T>(base: u32, entry: &ListEntry<T>) -> u32
    ensures { result ≡ base_behind base entry.now }
{
    match entry {
        ListEntry::Base(address) => *address,
        ListEntry::FromBase { .. } => base,
        ListEntry::Between { .. } => base,
        ListEntry::Lasting { .. } => base,
        ListEntry::Otherwise(_) => base,
    }
}
