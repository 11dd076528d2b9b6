//! The tables of abbreviations that were read, which units share. Each of their rows is read once,
//! however many tables have it.

ghost use Rattle.std.specs.Prelude.{◌≡◌, ◌≤◌, IfOk, OnOk, [], ◌∷◌, length, option_map};
ghost use Rattle.dwarf_bytes.specs.Items.{read_at};
ghost use Rattle.dwarf_info.specs.Sections.{SectionBytes5};
ghost use Rattle.dwarf_info.specs.calls.Keeping.{Rows, IsTable, IsThere, Keeps, KeepsIf, kept_at, numbered};
ghost use Rattle.dwarf_info.specs.calls.Keeping.{rows_of};
ghost use Rattle.dwarf_info.specs.calls.Pairs.{KnowsAll};
ghost use Rattle.dwarf_info.specs.inner.Rows.{Leads};

use crate::form::Shape;
use crate::known::KnownPairs;
use crate::prepared::PreparedSections;
use crate::rows::read_row;
use crate::version::UnitVersion;
use causes::NoMemory;
use dwarf_abbrev::SharedLists;
use pm_text::Items;
use std::alloc::Global;
use std::collections::BTreeMap;
use wasm_bytes::{ItemFault, Reader};

/// The tables of abbreviations that were read.
#[derive(Drop)]
pub struct Tables {
    /// Each table, by its number.
    pub lists: SharedLists<Shape>,
    /// The numbers of tables, by where they stand; None where no table stands there.
    pub read: BTreeMap<u64, Option<u32>>,
}

/// A row of a table, with its offset.
#[derive(Drop)]
pub struct PlacedRow {
    pub at: u64,
    pub shape: Shape,
}

/// Where the reading of rows stopped, and the number of the table there.
#[derive(Drop)]
struct Stop {
    at: u64,
    table: Option<u32>,
}

impl Tables {
    /// No table is read yet.
    pub fn new(alloc: Global) -> Self
        ensures { (rows : Rows) (s : SectionBytes5) → Keeps rows s result }
    {
        Tables {
            lists: SharedLists::new(alloc),
            read: BTreeMap::new(alloc),
        }
    }

    /// The number of the table at an offset, where it was read.
    fn known(&self, at: u64) -> Option<Option<u32>>
        ensures { result ≡ kept_at self.now at }
    {
        self.read.get(&at).copied()
    }

    /// Keeps which table stands at an offset.
    fn keep(&mut self, at: u64, table: Option<u32>) -> Result<(), NoMemory>
        requires { IsThere self.old table }
        ensures same { self.new.lists ≡ self.old.lists }
        ensures kept { (rows : Rows) (s : SectionBytes5) → Keeps rows s self.old
            → IsTable rows s.base.abbreviations at (numbered self.old table)
            → Keeps rows s self.new }
    {
        self.read.insert(at, table)?;
        Ok(())
    }

    /// Makes the table that has a row in front of the one of a number, if there is one.
    fn made(&mut self, shape: Shape, behind: Option<u32>) -> Result<Option<u32>, NoMemory>
        requires { IsThere self.old behind }
        ensures kept { KeepsIf self.old self.new }
        ensures there { IfOk result (IsThere self.new) }
        ensures table { IfOk result (λ table. numbered self.new table
            ≡ option_map (λ rows. shape ∷ rows) (numbered self.old behind)) }
    {
        let Some(behind) = behind else {
            return Ok(None);
        };
        let table = self.lists.push(shape, behind)?;
        Ok(Some(table))
    }

    /// Makes the table that begins with a row, behind which stands the one of a number, and keeps
    /// where it stands.
    fn with_row(&mut self, row: PlacedRow, behind: Option<u32>) -> Result<Option<u32>, NoMemory>
        requires { IsThere self.old behind }
        ensures kept { (rows : Rows) (s : SectionBytes5) → Keeps rows s self.old
            → IsTable rows s.base.abbreviations row.at
            (option_map (λ more. row.shape ∷ more) (numbered self.old behind))
            → Keeps rows s self.new }
        ensures there { IfOk result (IsThere self.new) }
        ensures table { IfOk result (λ table. numbered self.new table
            ≡ option_map (λ more. row.shape ∷ more) (numbered self.old behind)) }
    {
        let at = row.at;
        let table = self.made(row.shape, behind)?;
        self.keep(at, table)?;
        Ok(table)
    }
}

/// Reads rows from an offset of the section on, up to the end of the table, to where one is known,
/// or to where none has a reading.
fn read_rows<'a, V: UnitVersion<'a>>(
    alloc: Global,
    sections: &PreparedSections<'a>,
    section: &'a [u8],
    pairs: &KnownPairs,
    tables: &Tables,
    start: usize,
    rows: &mut Items<PlacedRow>,
) -> Result<Stop, NoMemory>
    requires kept { Keeps (rows_of V.pair) sections.now tables.now }
    requires knows { KnowsAll V.pair sections.now pairs.now }
    requires section { section.now ≡ sections.now.base.abbreviations }
    requires inside { start ≤ length section.now }
    requires none { rows.old ≡ [] }
    ensures led { IfOk result (λ stop. Leads (rows_of V.pair) sections.now.base.abbreviations rows.new
        start stop.at) }
    ensures there { IfOk result (λ stop. IsThere tables.now stop.table) }
    ensures table { IfOk result (λ stop. IsTable (rows_of V.pair) sections.now.base.abbreviations stop.at
        (numbered tables.now stop.table)) }
{
    let mut reader = Reader::starting_at(section, start);
    'rows: loop {
        let at = reader.at() as u64;
        if let Some(table) = tables.known(at) {
            return Ok(Stop { at, table });
        }
        let row = read_row::<V>(alloc, section, pairs, &mut reader);
        match row {
            Ok(Some(shape)) => rows.push(PlacedRow { at, shape })?,
            Ok(None) => return Ok(Stop { at, table: Some(0) }),
            Err(ItemFault::At(_)) => return Ok(Stop { at, table: None }),
            Err(ItemFault::NoMemory) => return Err(NoMemory),
        }
    }
}

/// Makes the tables that begin with rows, behind which stands the one of a number, and hands out
/// the number of the first one.
fn keep_rows<'a, V: UnitVersion<'a>>(
    sections: &PreparedSections<'a>,
    tables: &mut Tables,
    start: u64,
    rows: &mut Items<PlacedRow>,
    stop: Stop,
) -> Result<Option<u32>, NoMemory>
    requires kept { Keeps (rows_of V.pair) sections.now tables.old }
    requires led { Leads (rows_of V.pair) sections.now.base.abbreviations rows.old start stop.at }
    requires there { IsThere tables.old stop.table }
    requires table { IsTable (rows_of V.pair) sections.now.base.abbreviations stop.at
        (numbered tables.old stop.table) }
    ensures kept { Keeps (rows_of V.pair) sections.now tables.new }
    ensures table { IfOk result (λ table. IsTable (rows_of V.pair) sections.now.base.abbreviations start
        (numbered tables.new table)) }
{
    let mut table = stop.table;
    tables.keep(stop.at, table)?;
    'rows: while let Some(row) = rows.pop() {
        let first = tables.with_row(row, table)?;
        table = first;
    }
    Ok(table)
}

/// The number of the table at an offset, if one stands there. What was read before is not read
/// again.
pub fn select<'a, V: UnitVersion<'a>>(
    alloc: Global,
    sections: &PreparedSections<'a>,
    pairs: &KnownPairs,
    tables: &mut Tables,
    at: u64,
) -> Result<Option<u32>, NoMemory>
    requires kept { Keeps (rows_of V.pair) sections.now tables.old }
    requires knows { KnowsAll V.pair sections.now pairs.now }
    ensures table { IfOk result (λ table. numbered tables.new table
        ≡ read_at V.version.shapes sections.now.base.abbreviations at) }
    ensures kept { Keeps (rows_of V.pair) sections.now tables.new }
{
    V::rows_are_shapes();
    let section = sections.sections().abbreviations();
    if at > section.len() as u64 {
        return Ok(None);
    }
    let start = at as usize;
    let mut rows = Items::new(alloc);
    match read_rows::<V>(alloc, sections, section, pairs, tables, start, &mut rows) {
        Ok(stop) => keep_rows::<V>(sections, tables, at, &mut rows, stop),
        Err(NoMemory) => Err(NoMemory),
    }
}
