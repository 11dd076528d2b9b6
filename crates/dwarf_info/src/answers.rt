//! Reading all units of a section, in order (DWARF 4 section 7.5.1).

ghost use Rattle.std.specs.Prelude.{◌≡◌, ◌≤◌, ◌<◌, ◌-◌, Ok, codes, length, OnOk, IfOk};
ghost use Rattle.wasm_bytes.specs.Place.{Moves, Stays};
ghost use Rattle.wasm_bytes.specs.Reading.{until_end};
ghost use Rattle.dwarf_info.specs.declared.entry.UnitAnswer.TheVariants as answer;
ghost use Rattle.dwarf_info.specs.Sections.{greatest_section};
ghost use Rattle.dwarf_info.specs.Units.{answer_item, answers_of};

use crate::entry::UnitAnswer;
use crate::prepared::PreparedSections;
use crate::unit::read_whole;
use crate::version::UnitVersions;
use causes::NoMemory;
use dwarf_bytes::open_unit;
use pm_text::{Items, Text};
use std::alloc::Global;
use wasm_bytes::{ItemFault, Reader};

fn unreadable<'a>(alloc: Global, at: usize) -> Result<UnitAnswer<'a>, NoMemory>
    ensures { IfOk result (λ a. a ≡ answer.Unreadable (codes ".debug_info") at) }
{
    let section = Text::from_str(alloc, ".debug_info")?;
    Ok(UnitAnswer::Unreadable { section, at })
}

/// A unit, or in its place that it has no reading. Where its length has none, the rest of the
/// section is that one unit.
#[tactic(auto, unfolding(crate::specs::Units::answer_item, wasm_bytes::specs::Reading::rest_item))]
fn read_answer<'a, W: UnitVersions<'a>>(
    alloc: Global,
    sections: &PreparedSections<'a>,
    versions: &mut W,
    reader: &mut Reader<'a>,
) -> Result<UnitAnswer<'a>, NoMemory>
    requires ready { W.is_ready sections.now versions.old }
    requires short { length reader.old.block ≤ greatest_section }
    requires more { reader.old.at < length reader.old.block }
    ensures item { IfOk result (λ a. answer_item sections.now W.versions reader.old
        ≡ Ok (a, reader.new)) }
    ensures moves { OnOk result (Moves reader.old reader.new) }
    ensures ready { W.is_ready sections.now versions.new }
{
    let at = reader.at();
    let mut behind = reader.fork();
    let Ok(mut block) = open_unit(&mut behind) else {
        reader.rest();
        return unreadable(alloc, at);
    };
    *reader = behind;
    match read_whole(alloc, sections, versions, at as u32, &mut block) {
        Ok(unit) => Ok(UnitAnswer::Tree(unit)),
        Err(ItemFault::At(_)) => unreadable(alloc, at),
        Err(ItemFault::NoMemory) => Err(NoMemory),
    }
}

fn answers_left<'a, W: UnitVersions<'a>>(
    alloc: Global,
    sections: &PreparedSections<'a>,
    versions: &mut W,
    reader: &mut Reader<'a>,
) -> Result<Items<UnitAnswer<'a>>, NoMemory>
    requires ready { W.is_ready sections.now versions.old }
    requires short { length reader.old.block ≤ greatest_section }
    ensures item { IfOk result (λ units. until_end (answer_item sections.now W.versions)
        (length reader.old.block - reader.old.at) reader.old ≡ Ok (units, reader.new)) }
{
    let mut units = Items::new(alloc);
    'units: while reader.left() > 0 {
        match read_answer(alloc, sections, versions, reader) {
            Ok(answer) => units.push(answer)?,
            Err(NoMemory) => return Err(NoMemory),
        }
    }
    Ok(units)
}

/// The units of `.debug_info`, in which references are not settled.
#[tactic(auto, unfolding(crate::specs::Units::answers_of, wasm_bytes::specs::Reading::to_end_item))]
pub fn read_answers<'a, W: UnitVersions<'a>>(
    alloc: Global,
    sections: &PreparedSections<'a>,
    versions: &mut W,
) -> Result<Items<UnitAnswer<'a>>, NoMemory>
    requires ready { W.is_ready sections.now versions.old }
    requires short { length sections.now.base.info ≤ greatest_section }
    ensures { IfOk result (λ units. units ≡ answers_of sections.now W.versions) }
{
    answers_left(
        alloc,
        sections,
        versions,
        &mut Reader::new(sections.sections().base().info),
    )
}
