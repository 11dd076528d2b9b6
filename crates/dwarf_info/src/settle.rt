//! References: which of them meet an entry.

ghost use Rattle.std.specs.Prelude.{◌≡◌, map, IfOk};
ghost use Rattle.dwarf_info.specs.inner.Settling.{placed, meets, settled_by, entry_by, answer_by, is_met};

use crate::entry::{AttrValue, Entries, Entry, Unit, UnitAnswer};
use crate::places::Places;
use causes::NoMemory;
use pm_text::Items;
use std::alloc::Global;

/// A value that stays as it is: no reference, or one that meets an entry.
pub fn is_met<'a>(places: &Places, value: &AttrValue<'a>) -> bool
    ensures { result ≡ is_met (meets (placed places.now)) value.now }
{
    match value {
        AttrValue::Reference(at) => places.get(*at).is_some(),
        _ => true,
    }
}

/// A reference that meets no entry refers to nothing.
#[tactic(auto, using(crate::proofs::SettleLaws::value_stays, crate::proofs::SettleLaws::value_goes))]
pub fn settle_value<'a>(places: &Places, value: &mut AttrValue<'a>)
    ensures { value.new ≡ settled_by (meets (placed places.now)) value.old }
{
    if !is_met(places, value) {
        *value = AttrValue::Other;
    }
}

/// Each entry is settled where it is.
fn settle_entries<'a>(places: &Places, entries: &mut [Entry<'a>])
    ensures { entries.new ≡ map (entry_by (meets (placed places.now))) entries.old }
{
    for entry in entries.iter_mut() {
        entry.attributes.settle(places);
    }
}

fn settled_entries<'a>(places: &Places, entries: Entries<'a>) -> Entries<'a>
    ensures { result ≡ map (entry_by (meets (placed places.now))) entries.entry }
{
    let mut kept = entries.into_vec();
    settle_entries(places, kept.as_mut_slice());
    Items::from_vec(kept)
}

fn settled_answer<'a>(places: &Places, answer: UnitAnswer<'a>) -> UnitAnswer<'a>
    ensures { result ≡ answer_by (meets (placed places.now)) answer.entry }
{
    match answer {
        UnitAnswer::Tree(unit) => UnitAnswer::Tree(Unit {
            at: unit.at,
            version: unit.version,
            entries: settled_entries(places, unit.entries),
        }),
        UnitAnswer::Unreadable { section, at } => UnitAnswer::Unreadable { section, at },
    }
}

/// The units, where nothing is left of each reference that meets no entry.
pub fn settled_answers<'a>(
    alloc: Global,
    places: &Places,
    answers: Items<UnitAnswer<'a>>,
) -> Result<Items<UnitAnswer<'a>>, NoMemory>
    ensures { IfOk result (λ kept. kept
        ≡ map (answer_by (meets (placed places.now))) answers.entry) }
{
    let mut kept = Items::new(alloc);
    for answer in answers.into_vec() {
        kept.push(settled_answer(places, answer))?;
    }
    Ok(kept)
}
