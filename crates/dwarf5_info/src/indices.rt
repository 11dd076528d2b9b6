//! Tables that are looked up by index (DWARF 5 sections 7.26 to 7.29).

ghost use Rattle.std.specs.Prelude.{◌≡◌, ◌+◌, ◌*◌, [], option_copied, unwrap_or};
ghost use Rattle.dwarf_bytes.specs.Items.{number_item, read_at};
ghost use Rattle.dwarf_info.specs.Sections.{SectionBytes5};
ghost use Rattle.dwarf5_info.specs.Indices.{table_section, base_of, list_offset, entry_means, index5};
ghost use Rattle.dwarf5_info.specs.inner.Bases.{base_in, looked_up};

use dwarf_entries::names::{ADDR_BASE, LOCLISTS_BASE, RNGLISTS_BASE, STR_OFFSETS_BASE};
use dwarf_entries::offset;
use dwarf_info::{AttrValue, Attributes, IndexTable, PreparedSections, TextSection};
use dwarf_loc::AddressTable;

/// Where the tables of a unit begin, as far as its root says. Its indices are looked up by that.
#[derive(Clone, Copy)]
pub struct Bases {
    pub texts: Option<u32>,
    pub addresses: Option<u32>,
    pub location_lists: Option<u32>,
    pub range_lists: Option<u32>,
}

/// The bases of the tables, which are attributes of the root.
fn root_bases(root: &Attributes<'_>) -> Bases
    ensures { base_in result ≡ base_of root.now }
{
    let texts = offset(root, STR_OFFSETS_BASE);
    let addresses = offset(root, ADDR_BASE);
    let location_lists = offset(root, LOCLISTS_BASE);
    let range_lists = offset(root, RNGLISTS_BASE);
    Bases {
        texts,
        addresses,
        location_lists,
        range_lists,
    }
}

fn no_bases() -> Bases
    ensures { base_in result ≡ base_of [] }
{
    Bases {
        texts: None,
        addresses: None,
        location_lists: None,
        range_lists: None,
    }
}

fn table_base(bases: &Bases, table: IndexTable) -> Option<u32>
    ensures { result ≡ base_in bases.now table }
{
    match table {
        IndexTable::Texts => bases.texts,
        IndexTable::Addresses => bases.addresses,
        IndexTable::LocationLists => bases.location_lists,
        IndexTable::RangeLists => bases.range_lists,
    }
}

fn section<'a>(sections: &PreparedSections<'a>, table: IndexTable) -> &'a [u8]
    ensures { result.now ≡ table_section sections.now table }
{
    let sections = sections.sections();
    match table {
        IndexTable::Texts => sections.str_offsets,
        IndexTable::Addresses => sections.addr,
        IndexTable::LocationLists => sections.loclists,
        IndexTable::RangeLists => sections.rnglists,
    }
}

/// The entry of an index, in a table with that base.
fn entry(section: &[u8], base: u32, index: u64) -> Option<u32>
    ensures { result ≡ read_at (number_item 4) section.now (base + 4 * index) }
{
    AddressTable::new(section, Some(base)).get(index)
}

/// The offset of a list, which counts from the base.
fn list_offset<'a>(base: u32, entry: u32) -> AttrValue<'a>
    ensures { result ≡ list_offset (base + entry) }
{
    AttrValue::Offset(base.saturating_add(entry))
}

/// What an entry of a table with that base stands for.
fn meaning<'a>(
    sections: &PreparedSections<'a>,
    base: u32,
    table: IndexTable,
    entry: u32,
) -> Option<AttrValue<'a>>
    ensures { result ≡ entry_means sections.now base table entry }
{
    match table {
        IndexTable::Texts => {
            let text = sections.text_at(TextSection::Str, u64::from(entry))?;
            Some(AttrValue::Text(text))
        }
        IndexTable::Addresses => Some(AttrValue::Address(entry)),
        IndexTable::LocationLists => Some(list_offset(base, entry)),
        IndexTable::RangeLists => Some(list_offset(base, entry)),
    }
}

impl Bases {
    /// Those of a unit whose root has these attributes.
    pub fn of(root: Option<&Attributes<'_>>) -> Self
        ensures { (s : SectionBytes5) → looked_up s result
            ≡ index5 s (unwrap_or (option_copied root.entry) []) }
    {
        match root {
            Some(root) => root_bases(root),
            None => no_bases(),
        }
    }

    /// What an index of a table stands for.
    pub fn value<'a>(
        &self,
        sections: &PreparedSections<'a>,
        table: IndexTable,
        index: u64,
    ) -> Option<AttrValue<'a>>
        ensures { result ≡ looked_up sections.now self.now table index }
    {
        let base = table_base(self, table)?;
        let entry = entry(section(sections, table), base, index)?;
        meaning(sections, base, table, entry)
    }
}
