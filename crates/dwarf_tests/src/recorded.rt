//! Modules that are recorded by hand, and what is found of them by the rows of a table. What is
//! large is made here, once for all tables.

use crate::frames::memory_with;
use crate::reading::{sections4, units4};
use crate::shown_tests::{self, Scene};
use crate::{scope_tests, step_tests, text_tests, type_tests, value_tests};
use dwarf_expr::FrameView;
use dwarf_info::{Sections5, Units};
use dwarf_types::{Arrays, Structures, TypedUnits};
use linear_memory::Memory;
use std::alloc::Global;

/// The sections of a module of version 4, and bytes at addresses of its memory.
pub struct Recorded {
    pub info: &'static [u8],
    pub abbrev: &'static [u8],
    pub loc: &'static [u8],
    pub ranges: &'static [u8],
    pub contents: &'static [(u64, &'static [u8])],
}

/// What is asked of a module, and what should be found.
pub enum Table {
    Scopes(&'static [scope_tests::Row]),
    Visible(&'static [value_tests::VisibleRow]),
    Meant(&'static [step_tests::MeantRow]),
    Types(&'static [type_tests::Row]),
    Names(&'static [value_tests::NameRow]),
    Steps(&'static [step_tests::Row]),
    Texts(&'static [text_tests::Row]),
    Shown(&'static Scene, &'static [shown_tests::Row]),
}

fn first_wrong_by<'a>(
    alloc: Global,
    sections: &Sections5<'a>,
    types: TypedUnits<'_, '_, 'a>,
    memory: &Option<Memory>,
    table: &Table,
) -> Option<usize> {
    let view = FrameView {
        locals: &[],
        operands: &[],
        globals: &[],
        memory: memory.as_ref(),
    };
    match table {
        Table::Scopes(rows) => scope_tests::first_wrong(alloc, sections, types.units(), rows),
        Table::Visible(rows) => value_tests::first_unseen(alloc, sections, types.units(), rows),
        Table::Meant(rows) => step_tests::first_other(alloc, sections, types.units(), rows),
        Table::Types(rows) => type_tests::first_wrong(&types, rows),
        Table::Names(rows) => value_tests::first_unnamed(alloc, &types, rows),
        Table::Steps(rows) => step_tests::first_wrong(alloc, &types, &view, rows),
        Table::Texts(rows) => text_tests::first_wrong(alloc, &types, &view, rows),
        Table::Shown(scene, rows) => {
            shown_tests::first_wrong(alloc, sections, types, memory, scene, rows)
        }
    }
}

fn first_wrong_in(
    alloc: Global,
    recorded: &Recorded,
    units: &Units<'_>,
    memory: &Option<Memory>,
    table: &Table,
) -> Option<usize> {
    let sections = sections4(
        recorded.info,
        recorded.abbrev,
        recorded.loc,
        recorded.ranges,
    );
    let Ok(arrays) = Arrays::of(alloc, units) else {
        return Some(0);
    };
    let Ok(structures) = Structures::of(alloc, units) else {
        return Some(0);
    };
    let types = TypedUnits::with_structures(units, &arrays, &structures);
    first_wrong_by(alloc, &sections, types, memory, table)
}

/// The number of the first row where something else is found.
pub fn first_wrong(alloc: Global, recorded: &Recorded, table: &Table) -> Option<usize> {
    let memory = memory_with(alloc, recorded.contents);
    match units4(alloc, recorded.info, recorded.abbrev, &[]) {
        Some(units) => first_wrong_in(alloc, recorded, &units, &memory, table),
        None => Some(0),
    }
}

/// The same of several tables, and 1,000 for each table in front of it.
pub fn first_wrong_of(alloc: Global, tables: &[(&Recorded, Table)]) -> Option<usize> {
    for (i, (recorded, table)) in tables.iter().enumerate() {
        if let Some(row) = first_wrong(alloc, recorded, table) {
            return Some(i.wrapping_mul(1_000).wrapping_add(row));
        }
    }
    None
}
