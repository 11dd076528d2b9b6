//! What a version says of its units.

ghost use Rattle.std.specs.Prelude.{◌≡◌, ◌≤◌, ◌+◌, ◌-◌, ℕ, length, [], Option, None, option_map, option_copied};
ghost use Rattle.std.specs.Prelude.{unwrap_or, OnOk, IfSome};
ghost use Rattle.wasm_bytes.specs.Place.{Place, Moves, Stays};
ghost use Rattle.wasm_bytes.specs.calls.Answers.{Reads, Gives};
ghost use Rattle.dwarf_info.specs.declared.form.IndexTable.{IndexTable};
ghost use Rattle.dwarf_info.specs.declared.entry.AttrValue.{AttrValue};
ghost use Rattle.dwarf_bytes.specs.Items.{item_or_none};
ghost use Rattle.dwarf_info.specs.Sections.{SectionBytes5, greatest_section};
ghost use Rattle.dwarf_info.specs.Forms.{form_of};
ghost use Rattle.dwarf_info.specs.Units.{Version, Versions, body_item};
ghost use Rattle.dwarf_info.specs.calls.Keeping.{rows_of};
ghost use Rattle.dwarf_info.specs.calls.Pairs.{Pair};
ghost use Rattle.dwarf_info.specs.calls.Sizes.{IsSized};

use crate::attributes::Attributes;
use crate::entry::{AttrValue, Unit};
use crate::form::{Form, IndexTable, Slot};
use crate::prepared::PreparedSections;
use std::alloc::Global;
use wasm_bytes::{ItemFault, Malformed, Reader};

/// How the units of a version are read.
pub trait UnitVersion<'a>: Drop {
    /// What indices are looked up by.
    type Index: Drop;

    ghost version: { Version };

    /// What an index of a table stands for.
    ghost looked: { SectionBytes5 → Self.Index → IndexTable → ℕ → Option AttrValue };

    /// The form of a code.
    fn form(code: u64) -> Option<Form>
        ensures row { result ≡ form_of version.rows code }
        ensures sized { IfSome result IsSized };

    /// What stands between the version and the entries, which gives the offset of the
    /// abbreviations.
    fn header(reader: &mut Reader<'a>) -> Result<u64, Malformed>
        ensures item { Reads result reader.new (version.header reader.old) }
        ensures stays { OnOk result (Stays reader.old reader.new) };

    /// A pair of a row, with the form of its code, or None for the end mark.
    ghost pair: { Pair };

    fn read_pair(reader: &mut Reader<'a>) -> Result<Option<Slot>, Malformed>
        ensures item { Reads result reader.new (pair reader.old) }
        ensures moves { OnOk result (Moves reader.old reader.new) };

    /// A table has fewer rows than a byte more than stands behind its offset.
    fn rows_are_shapes()
        ensures { (p : Place) → version.shapes p
            ≡ rows_of pair (length p.block + 1 - p.at) p };

    /// What indices are looked up by, in a unit whose root has these attributes.
    fn index(root: Option<&Attributes<'a>>) -> Self::Index
        ensures { (s : SectionBytes5) → looked s result ≡ version.index s (unwrap_or (option_copied root.entry) []) };

    /// What an index of a table stands for.
    fn value(
        sections: &PreparedSections<'a>,
        index: &Self::Index,
        table: IndexTable,
        number: u64,
    ) -> Option<AttrValue<'a>>
        ensures { result ≡ looked sections.now index.now table number };
}

/// The versions that are read.
pub trait UnitVersions<'a>: Drop {
    ghost versions: { Versions };

    /// What is kept of abbreviations is that of these sections.
    ghost is_ready: { SectionBytes5 → Self → Type 0 };

    /// What stands behind the version of a unit.
    fn read_body(
        &mut self,
        alloc: Global,
        sections: &PreparedSections<'a>,
        origin: u32,
        version: u32,
        reader: &mut Reader<'a>,
    ) -> Result<Unit<'a>, ItemFault>
        requires ready { is_ready sections.now self.old }
        requires short { length reader.old.block ≤ greatest_section }
        ensures item { Gives result reader.new
            (item_or_none (option_map (body_item sections.now origin version) (versions version))
            reader.old) }
        ensures stays { OnOk result (Stays reader.old reader.new) }
        ensures ready { is_ready sections.now self.new };
}
