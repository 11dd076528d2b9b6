//! Kinds of lists: of ranges and of locations, in the sections of version 4 and of version 5.

ghost use Rattle.std.specs.Prelude.{◌≡◌, List, ℕ, Option, OnOk};
ghost use Rattle.wasm_bytes.specs.Place.{Place, Read, Moves};
ghost use Rattle.wasm_bytes.specs.calls.Answers.{Reads};
ghost use Rattle.dwarf_info.specs.Sections.{SectionBytes5};
ghost use Rattle.dwarf_loc.specs.declared.entry.ListEntry.{ListEntry as Listed};
ghost use Rattle.dwarf_scopes.specs.declared.kinds.ListWay.{ListWay as Way};
ghost use Rattle.dwarf_scopes.specs.calls.Kinds.{range_item, range_section, location_item, location_section};

use dwarf_info::Sections5;
use dwarf_loc::{
    AddressTable, ListEntry, Span, location_entry, loclist_entry, range_entry, rnglist_entry,
};
use wasm_bytes::{Malformed, Reader};

/// By what the lists of a unit are read, but for the base from which they count.
#[derive(Clone, Copy)]
pub struct ListWay {
    pub version5: bool,
    /// Where the addresses of indices begin.
    pub addresses: Option<u32>,
}

/// A kind of list.
pub trait ListKind {
    /// What an entry holds.
    type What: Copy + Drop;

    /// The section that holds the lists.
    ghost section: { SectionBytes5 → Way → List ℕ };

    /// An entry, none where it is the end mark, and the place behind it, or the offset of the first
    /// item without a reading.
    ghost item: { SectionBytes5 → Way → Place → Read (Option (Listed Self.What)) };

    fn section<'a>(sections: &Sections5<'a>, way: ListWay) -> &'a [u8]
        ensures { result.now ≡ section sections.now way };

    fn entry(
        sections: &Sections5<'_>,
        way: ListWay,
        reader: &mut Reader<'_>,
    ) -> Result<Option<ListEntry<Self::What>>, Malformed>
        ensures item { Reads result reader.new (item sections.now way reader.old) }
        ensures moves { OnOk result (Moves reader.old reader.new) };
}

/// Lists of ranges.
pub struct RangeLists;

impl ListKind for RangeLists {
    type What = ();

    ghost section = { range_section };

    ghost item = { range_item };

    fn section<'a>(sections: &Sections5<'a>, way: ListWay) -> &'a [u8] {
        if way.version5 {
            return sections.rnglists;
        }
        sections.base.ranges
    }

    fn entry(
        sections: &Sections5<'_>,
        way: ListWay,
        reader: &mut Reader<'_>,
    ) -> Result<Option<ListEntry<()>>, Malformed> {
        if way.version5 {
            return rnglist_entry(&AddressTable::new(sections.addr, way.addresses), reader);
        }
        range_entry(reader)
    }
}

/// Lists of locations.
pub struct LocationLists;

impl ListKind for LocationLists {
    type What = Span;

    ghost section = { location_section };

    ghost item = { location_item };

    fn section<'a>(sections: &Sections5<'a>, way: ListWay) -> &'a [u8] {
        if way.version5 {
            return sections.loclists;
        }
        sections.base.loc
    }

    fn entry(
        sections: &Sections5<'_>,
        way: ListWay,
        reader: &mut Reader<'_>,
    ) -> Result<Option<ListEntry<Span>>, Malformed> {
        if way.version5 {
            return loclist_entry(&AddressTable::new(sections.addr, way.addresses), reader);
        }
        location_entry(reader)
    }
}
