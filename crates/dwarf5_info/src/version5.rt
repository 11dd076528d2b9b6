//! Units of version 5 (DWARF 5 section 7.5.1.1).

ghost use Rattle.std.specs.Prelude.{◌≡◌, ◌≤◌, ◌+◌, ◌-◌, [], length, option_map, option_copied, unwrap_or, IfOk, OnOk};
ghost use Rattle.std.specs.Prelude.{IfSome};
ghost use Rattle.wasm_bytes.specs.Place.{Place, Moves, Stays};
ghost use Rattle.wasm_bytes.specs.calls.Answers.{Reads, Gives};
ghost use Rattle.dwarf_bytes.specs.Items.{item_or_none};
ghost use Rattle.dwarf_info.specs.Sections.{SectionBytes5, greatest_section};
ghost use Rattle.dwarf_info.specs.Forms.{form_of};
ghost use Rattle.dwarf_info.specs.Units.{body_item};
ghost use Rattle.dwarf_info.specs.calls.Sizes.{IsSized};
ghost use Rattle.dwarf5_info.specs.Forms5.{forms5};
ghost use Rattle.dwarf5_info.specs.Indices.{index5};
ghost use Rattle.dwarf5_info.specs.Version5.{is_unit_type, header5_item, shapes5_item, version5, up_to5};
ghost use Rattle.dwarf5_info.specs.calls.Rows5.{pair5, rows5};
ghost use Rattle.dwarf5_info.specs.inner.Bases.{looked_up};
ghost use Rattle.dwarf5_info.specs.inner.Keeping.{IsKept, AreKept};

use crate::abbreviations::read_pair5;
use crate::forms::form5;
use crate::indices::Bases;
use causes::NoMemory;
use dwarf_bytes::number;
use dwarf_info::{
    AttrValue, Attributes, Form, Four, IndexTable, KnownPairs, PreparedSections, Sections5, Slot,
    Tables, Unit, UnitVersion, UnitVersions, read_body,
};
use std::alloc::Global;
use wasm_bytes::{ItemFault, Malformed, Reader};

/// A compile or a partial unit.
fn is_unit_type(unit_type: u64) -> bool
    ensures { result ≡ is_unit_type unit_type }
{
    unit_type == 1 || unit_type == 3
}

/// Version 5.
#[derive(Drop)]
pub struct Five {}

impl<'a> UnitVersion<'a> for Five {
    type Index = Bases;

    ghost version = { version5 };

    ghost pair = { pair5 };

    ghost looked = { looked_up };

    fn form(code: u64) -> Option<Form>
        ensures row { result ≡ form_of forms5 code }
        ensures sized { IfSome result IsSized }
    {
        form5(code)
    }

    /// The type of the unit, which is a compile or a partial unit, the size of an address, which is
    /// 4, and the offset of the abbreviations.
    #[tactic(auto, unfolding(crate::specs::Version5::header5_item))]
    fn header(reader: &mut Reader<'a>) -> Result<u64, Malformed>
        ensures item { Reads result reader.new (header5_item reader.old) }
        ensures stays { OnOk result (Stays reader.old reader.new) }
    {
        let at = reader.at();
        let unit_type = number(reader, 1)?;
        if !is_unit_type(unit_type) {
            return Err(Malformed { at });
        }
        let at = reader.at();
        if number(reader, 1)? != 4 {
            return Err(Malformed { at });
        }
        number(reader, 4)
    }

    fn read_pair(reader: &mut Reader<'a>) -> Result<Option<Slot>, Malformed>
        ensures item { Reads result reader.new (pair5 reader.old) }
        ensures moves { OnOk result (Moves reader.old reader.new) }
    {
        read_pair5(reader)
    }

    #[tactic(auto, unfolding(crate::specs::Version5::shapes5_item, dwarf_abbrev::specs::Reading::table_item, dwarf_bytes::specs::Items::ended_item, dwarf_bytes::specs::Items::ended_from))]
    fn rows_are_shapes()
        ensures { (p : Place) → shapes5_item p ≡ rows5 (length p.block + 1 - p.at) p }
    {}

    fn index(root: Option<&Attributes<'a>>) -> Bases
        ensures { (s : SectionBytes5) → looked_up s result
            ≡ index5 s (unwrap_or (option_copied root.entry) []) }
    {
        Bases::of(root)
    }

    fn value(
        sections: &PreparedSections<'a>,
        index: &Bases,
        table: IndexTable,
        number: u64,
    ) -> Option<AttrValue<'a>>
        ensures { result ≡ looked_up sections.now index.now table number }
    {
        index.value(sections, table, number)
    }
}

/// What is kept of the abbreviations of a version.
#[derive(Drop)]
struct Kept {
    pairs: KnownPairs,
    tables: Tables,
}

/// Versions 4 and 5.
#[derive(Drop)]
pub struct UpToFive {
    four: Kept,
    five: Kept,
}

impl Kept {
    /// The pairs of a version are read, and no table yet.
    fn new<'a, V: UnitVersion<'a>>(
        alloc: Global,
        sections: &Sections5<'a>,
    ) -> Result<Self, NoMemory>
        requires { length sections.now.base.abbreviations ≤ greatest_section }
        ensures { IfOk result (IsKept V.pair sections.now) }
    {
        match KnownPairs::of::<V>(alloc, sections) {
            Ok(pairs) => Ok(Kept {
                pairs,
                tables: Tables::new(alloc),
            }),
            Err(NoMemory) => Err(NoMemory),
        }
    }

    /// What stands behind the version of a unit of this version.
    fn read_body<'a, V: UnitVersion<'a>>(
        &mut self,
        alloc: Global,
        sections: &PreparedSections<'a>,
        origin: u32,
        version: u32,
        reader: &mut Reader<'a>,
    ) -> Result<Unit<'a>, ItemFault>
        requires ready { IsKept V.pair sections.now self.old }
        requires short { length reader.old.block ≤ greatest_section }
        ensures item { Gives result reader.new
            (body_item sections.now origin version V.version reader.old) }
        ensures stays { OnOk result (Stays reader.old reader.new) }
        ensures ready { IsKept V.pair sections.now self.new }
    {
        let pairs = &self.pairs;
        let tables = &mut self.tables;
        read_body::<V>(alloc, sections, pairs, tables, origin, version, reader)
    }
}

impl UpToFive {
    /// No table of abbreviations of these sections is read yet.
    pub fn new(alloc: Global, sections: &Sections5<'_>) -> Result<Self, NoMemory>
        requires { length sections.now.base.abbreviations ≤ greatest_section }
        ensures { IfOk result (AreKept sections.now) }
    {
        let Ok(four) = Kept::new::<Four>(alloc, sections) else {
            return Err(NoMemory);
        };
        match Kept::new::<Five>(alloc, sections) {
            Ok(five) => Ok(UpToFive { four, five }),
            Err(NoMemory) => {
                drop(four);
                Err(NoMemory)
            }
        }
    }
}

impl<'a> UnitVersions<'a> for UpToFive {
    ghost versions = { up_to5 };

    ghost is_ready = { AreKept };

    fn read_body(
        &mut self,
        alloc: Global,
        sections: &PreparedSections<'a>,
        origin: u32,
        version: u32,
        reader: &mut Reader<'a>,
    ) -> Result<Unit<'a>, ItemFault>
        requires ready { AreKept sections.now self.old }
        requires short { length reader.old.block ≤ greatest_section }
        ensures item { Gives result reader.new
            (item_or_none (option_map (body_item sections.now origin version) (up_to5 version))
            reader.old) }
        ensures stays { OnOk result (Stays reader.old reader.new) }
        ensures ready { AreKept sections.now self.new }
    {
        match version {
            5 => self
                .five
                .read_body::<Five>(alloc, sections, origin, version, reader),
            4 => self
                .four
                .read_body::<Four>(alloc, sections, origin, version, reader),
            _ => Err(ItemFault::At(reader.at())),
        }
    }
}
