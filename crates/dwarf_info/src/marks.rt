//! Where pairs may begin that units have in their rows. What is marked needs no proof: pairs at other
//! offsets are read again by each row that has them.

ghost use Rattle.std.specs.Prelude.{◌≡◌, ◌≤◌, ◌+◌, length, IfOk};
ghost use Rattle.dwarf_info.specs.Sections.{greatest_section};

use crate::sections::Sections5;
use crate::version::UnitVersion;
use causes::NoMemory;
use dwarf_abbrev::read_flag;
use dwarf_bytes::{number, open_unit};
use std::alloc::Global;
use wasm_bytes::{Malformed, Reader};

/// What may begin at an offset of a section.
#[derive(Clone, Copy)]
pub struct Mark {
    /// Whether a row does.
    pub row: bool,
    /// Whether a pair does.
    pub pair: bool,
}

/// So many offsets, of which none is marked.
fn unmarked(alloc: Global, count: usize) -> Result<Vec<Mark>, NoMemory>
    ensures { IfOk result (λ marks. length marks.items ≡ count) }
{
    let none = Mark {
        row: false,
        pair: false,
    };
    let marks = vec![in alloc; none; count]?;
    Ok(marks)
}

/// Marks an offset of a section, where a row may begin.
fn mark_row(marks: &mut Vec<Mark>, at: u64)
    ensures { length marks.new.items ≡ length marks.old.items }
{
    if at < marks.len() as u64 {
        marks[at as usize].row = true;
    }
}

/// Marks an offset of a section, where a pair may begin.
fn mark_pair(marks: &mut Vec<Mark>, at: u64)
    ensures { length marks.new.items ≡ length marks.old.items }
{
    if at < marks.len() as u64 {
        marks[at as usize].pair = true;
    }
}

/// The offset of the abbreviations of a unit.
fn table_of<'a, V: UnitVersion<'a>>(unit: &mut Reader<'a>) -> Result<u64, Malformed> {
    let _version = number(unit, 2)?;
    V::header(unit)
}

/// Marks where the tables of units begin.
fn mark_tables<'a, V: UnitVersion<'a>>(info: &'a [u8], marks: &mut Vec<Mark>)
    ensures { length marks.new.items ≡ length marks.old.items }
{
    let mut reader = Reader::new(info);
    'units: while reader.left() > 0 {
        let Ok(mut unit) = open_unit(&mut reader) else {
            return;
        };
        if let Ok(at) = table_of::<V>(&mut unit) {
            mark_row(marks, at);
        }
    }
}

/// Where the pairs of a row begin.
pub fn pairs_of(row: &mut Reader<'_>) -> Result<Option<u64>, Malformed> {
    if row.u64()? == 0 {
        return Ok(None);
    }
    let _tag = row.u64()?;
    let _children = read_flag(row)?;
    Ok(Some(row.at() as u64))
}

/// Marks what stands behind a pair: another one, or a row behind the end mark.
fn mark_behind_pair<'a, V: UnitVersion<'a>>(section: &'a [u8], at: usize, marks: &mut Vec<Mark>)
    requires { at ≤ length section.now }
    ensures { length marks.new.items ≡ length marks.old.items }
{
    let mut reader = Reader::starting_at(section, at);
    let pair = V::read_pair(&mut reader);
    let next = reader.at() as u64;
    match pair {
        Ok(Some(_)) => mark_pair(marks, next),
        Ok(None) => mark_row(marks, next),
        Err(_) => {}
    }
}

/// Marks where pairs begin, from the rows that are marked on.
fn mark_all<'a, V: UnitVersion<'a>>(section: &'a [u8], marks: &mut Vec<Mark>)
    requires { length marks.old.items ≡ length section.now + 1 }
    ensures { length marks.new.items ≡ length marks.old.items }
{
    let mut at = 0;
    'offsets: while at < marks.len() {
        if marks[at].row {
            if let Ok(Some(pairs)) = pairs_of(&mut Reader::starting_at(section, at)) {
                mark_pair(marks, pairs);
            }
        }
        if marks[at].pair {
            mark_behind_pair::<V>(section, at, marks);
        }
        at += 1;
    }
}

/// Where rows of units and the pairs of these begin, and maybe others.
pub fn marked_pairs<'a, V: UnitVersion<'a>>(
    alloc: Global,
    sections: &Sections5<'a>,
) -> Result<Vec<Mark>, NoMemory>
    requires { length sections.now.base.abbreviations ≤ greatest_section }
    ensures { IfOk result (λ marks. length marks.items
        ≡ length sections.now.base.abbreviations + 1) }
{
    let section = sections.abbreviations();
    match unmarked(alloc, section.len() + 1) {
        Ok(mut marks) => {
            mark_tables::<V>(sections.base().info, &mut marks);
            mark_all::<V>(section, &mut marks);
            Ok(marks)
        }
        Err(NoMemory) => Err(NoMemory),
    }
}
