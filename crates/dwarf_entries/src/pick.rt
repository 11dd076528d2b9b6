//! Entries of a unit that pass a test.

ghost use Rattle.std.specs.Prelude.{◌≡◌, ◌++◌, Bool, OnOk, filter, find};
ghost use Rattle.dwarf_entries.specs.Standing.{Standing as Stands, standing_in};

use crate::standing::Standing;
use causes::NoMemory;
use dwarf_info::{Entry, Unit};
use pm_text::Items;

/// A test of entries.
pub trait Pick {
    ghost picks: { Self → Stands → Bool };

    fn picks(&self, standing: &Standing<'_, '_>) -> bool
        ensures { result ≡ picks self.now standing.now };
}

/// The first of the entries that passes.
pub fn first_picked<'r, 'a, P: Pick>(
    pick: &P,
    unit: &'r Unit<'a>,
    entries: &'r [Entry<'a>],
) -> Option<Standing<'r, 'a>>
    ensures { result ≡ find (P.picks pick.now) (standing_in unit.now entries.now) }
{
    let mut left = entries;
    'entries: while let [entry, behind @ ..] = left {
        let standing = Standing::new(unit, entry, behind);
        if pick.picks(&standing) {
            return Some(standing);
        }
        left = behind;
    }
    None
}

/// Appends each of the entries that passes.
pub fn push_picked<'r, 'a, P: Pick>(
    pick: &P,
    unit: &'r Unit<'a>,
    entries: &'r [Entry<'a>],
    picked: &mut Items<Standing<'r, 'a>>,
) -> Result<(), NoMemory>
    ensures { OnOk result (picked.new
        ≡ picked.old ++ filter (P.picks pick.now) (standing_in unit.now entries.now)) }
{
    let mut left = entries;
    'entries: while let [entry, behind @ ..] = left {
        let standing = Standing::new(unit, entry, behind);
        if pick.picks(&standing) {
            picked.push(standing)?;
        }
        left = behind;
    }
    Ok(())
}
