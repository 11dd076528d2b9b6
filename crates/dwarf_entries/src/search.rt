//! The entry at an offset of the section.

ghost use Rattle.std.specs.Prelude.{◌≡◌, ◌<◌, ◌+◌, length, drop};
ghost use Rattle.dwarf_entries.specs.Standing as places;
ghost use Rattle.dwarf_entries.specs.inner.Numbered as numbers;

use crate::standing::Standing;
use dwarf_info::{Entry, EntryPlace, Unit, UnitAnswer, Units};

/// What stands behind an entry of that number.
fn rest_behind<'r, 'a>(entries: &'r [Entry<'a>], number: usize) -> &'r [Entry<'a>]
    requires { number < length entries.now }
    ensures { result.now ≡ drop (number + 1) entries.now }
{
    &entries[number + 1..]
}

/// The entry of that number in a unit, from 0.
#[tactic(auto, using(crate::proofs::Placed::numbered_past))]
fn numbered<'r, 'a>(unit: &'r Unit<'a>, number: usize) -> Option<Standing<'r, 'a>>
    ensures { result ≡ numbers.numbered unit.now unit.now.entries number }
{
    let entries = unit.entries.as_slice();
    if number >= entries.len() {
        return None;
    }
    let rest = rest_behind(entries, number);
    Some(Standing::new(unit, &entries[number], rest))
}

fn numbered_of<'r, 'a>(answer: &'r UnitAnswer<'a>, number: usize) -> Option<Standing<'r, 'a>>
    ensures { result ≡ numbers.numbered_of answer.now number }
{
    match answer {
        UnitAnswer::Tree(unit) => numbered(unit, number),
        UnitAnswer::Unreadable { section: _, at: _ } => None,
    }
}

/// The entry at a place.
#[tactic(auto, using(crate::proofs::Placed::there_at, crate::proofs::Placed::there_past))]
fn there<'r, 'a>(units: &'r [UnitAnswer<'a>], place: EntryPlace) -> Option<Standing<'r, 'a>>
    ensures { result ≡ numbers.there units.now place.unit place.entry }
{
    if place.unit >= units.len() {
        return None;
    }
    numbered_of(&units[place.unit], place.entry)
}

/// The entry at an offset of the section. It takes logarithmic time.
#[tactic(auto, using(crate::proofs::Placed::found_there))]
pub fn standing_at<'r, 'a>(units: &'r Units<'a>, at: u32) -> Option<Standing<'r, 'a>>
    ensures { result ≡ places.standing_at units.now at }
{
    let place = units.place_of(at)?;
    there(units.as_slice(), place)
}
