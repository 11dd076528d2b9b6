//! Reading all units.

ghost use Rattle.std.specs.Prelude.{IfOk, ◌≡◌, ◌≤◌, length};
ghost use Rattle.wasm_bytes.specs.Laws.{IsBytes};
ghost use Rattle.dwarf_info.specs.Sections.{IsReadable5, greatest_section};
ghost use Rattle.dwarf_info.specs.Units.{units_of};
ghost use Rattle.dwarf5_info.specs.Version5.{units5};
ghost use Rattle.dwarf5_info.specs.calls.Grammar5.{IsUnits5};

use crate::version5::UpToFive;
use causes::NoMemory;
use dwarf_info::{Sections5, UnitVersions, Units, read_all};
use std::alloc::Global;

/// The elements of a slice of bytes are bytes.
fn are_bytes(bytes: &[u8])
    ensures { IsBytes bytes.now }
{
    let _length = bytes.len();
}

fn sections_are_bytes(sections: &Sections5<'_>)
    ensures { IsBytes sections.now.base.abbreviations × IsBytes sections.now.base.info }
{
    are_bytes(sections.base.abbrev);
    are_bytes(sections.base.info);
}

/// The units of `.debug_info`. Those of the given versions are read, if there was memory for them.
fn read_by<'a, W: UnitVersions<'a> + Drop>(
    alloc: Global,
    sections: &Sections5<'a>,
    versions: Result<W, NoMemory>,
) -> Result<Units<'a>, NoMemory>
    requires ready { IfOk versions (W.is_ready sections.now) }
    requires short { length sections.now.base.info ≤ greatest_section }
    ensures { IfOk result (λ units. units ≡ units_of sections.now W.versions) }
{
    match versions {
        Ok(mut versions) => read_all(alloc, sections, &mut versions),
        Err(NoMemory) => Err(NoMemory),
    }
}

/// The units of `.debug_info`, in order (DWARF 5 section 7.5.1). Those of versions 4 and 5 are
/// read; in place of each other one stands the offset of its length. What stands in place of
/// indices is looked up.
#[tactic(auto, unfolding(crate::specs::Version5::units5))]
pub fn read_units5<'a>(alloc: Global, sections: &Sections5<'a>) -> Result<Units<'a>, NoMemory>
    requires { IsReadable5 sections.now }
    ensures exact { IfOk result (λ units. units ≡ units5 sections.now) }
    ensures spelled { IfOk result (IsUnits5 sections.now) }
{
    sections_are_bytes(sections);
    read_by(alloc, sections, UpToFive::new(alloc, sections))
}
