//! Reading all units.

ghost use Rattle.std.specs.Prelude.{◌≡◌, ◌≤◌, length, IfOk};
ghost use Rattle.dwarf_info.specs.Sections.{IsReadable, greatest_section};
ghost use Rattle.dwarf_info.specs.Units.{settled, units_of};
ghost use Rattle.dwarf_info.specs.Version4.{units4};
ghost use Rattle.dwarf_info.specs.calls.Grammar4.{IsUnits4};

use crate::answers::read_answers;
use crate::entry::UnitAnswer;
use crate::places::Places;
use crate::prepared::PreparedSections;
use crate::sections::{Sections, Sections5};
use crate::settle::settled_answers;
use crate::units::Units;
use crate::version::UnitVersions;
use crate::version4::OnlyFour;
use causes::NoMemory;
use pm_text::Items;
use std::alloc::Global;

/// The units, where nothing is left of each reference that meets no entry.
fn settled<'a>(alloc: Global, answers: Items<UnitAnswer<'a>>) -> Result<Units<'a>, NoMemory>
    ensures { IfOk result (λ units. units ≡ settled answers.entry) }
{
    match Places::of(alloc, answers.as_slice()) {
        Ok(places) => match settled_answers(alloc, &places, answers) {
            Ok(kept) => Ok(Units::new(kept, places)),
            Err(NoMemory) => Err(NoMemory),
        },
        Err(NoMemory) => Err(NoMemory),
    }
}

/// The units of `.debug_info`, in order. Those of the given versions are read.
#[tactic(auto, unfolding(crate::specs::Units::units_of))]
pub fn read_all<'a, W: UnitVersions<'a>>(
    alloc: Global,
    sections: &Sections5<'a>,
    versions: &mut W,
) -> Result<Units<'a>, NoMemory>
    requires ready { W.is_ready sections.now versions.old }
    requires short { length sections.now.base.info ≤ greatest_section }
    ensures { IfOk result (λ units. units ≡ units_of sections.now W.versions) }
{
    match PreparedSections::new(alloc, sections) {
        Ok(prepared) => {
            let read = read_answers(alloc, &prepared, versions);
            match read {
                Ok(answers) => settled(alloc, answers),
                Err(NoMemory) => Err(NoMemory),
            }
        }
        Err(NoMemory) => Err(NoMemory),
    }
}

/// The units of `.debug_info`, in order (DWARF 4 section 7.5.1). Those of version 4 are read; in
/// place of each other one stands the offset of its length.
#[tactic(auto, unfolding(crate::specs::Version4::units4))]
pub fn read_units<'a>(alloc: Global, sections: &Sections<'a>) -> Result<Units<'a>, NoMemory>
    requires { IsReadable sections.now }
    ensures exact { IfOk result (λ units. units ≡ units4 sections.now) }
    ensures spelled { IfOk result (IsUnits4 sections.now) }
{
    let all = Sections5::without5(sections);
    match OnlyFour::new(alloc, &all) {
        Ok(mut versions) => {
            let units = read_all(alloc, &all, &mut versions);
            drop(versions);
            units
        }
        Err(NoMemory) => Err(NoMemory),
    }
}
