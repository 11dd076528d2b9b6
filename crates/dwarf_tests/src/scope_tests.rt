//! Units by hand, as llvm-dwarfdump lists them, with addresses and what stands there.

use crate::recorded::{self, Recorded, Table};
use causes::NoMemory;
use dwarf_entries::Standing;
use dwarf_info::{Sections5, Units};
use dwarf_scopes::{inlined_at, scopes_at, variables_at};
use pm_text::Items;
use std::alloc::Global;

const ABBREV: [u8; 102] = [
    1, 17, 1, 17, 1, 0, 0, 2, 52, 0, 0, 0, 3, 46, 0, 17, 1, 18, 6, 0, 0, 4, 46, 0, 18, 1, 0, 0, 5,
    46, 1, 17, 1, 18, 1, 0, 0, 6, 5, 0, 0, 0, 7, 11, 1, 17, 1, 18, 11, 0, 0, 8, 29, 1, 17, 1, 18,
    11, 0, 0, 9, 11, 1, 85, 23, 0, 0, 10, 19, 1, 0, 0, 11, 46, 0, 17, 1, 18, 13, 85, 23, 0, 0, 12,
    46, 0, 17, 1, 18, 10, 85, 23, 0, 0, 13, 46, 0, 85, 23, 0, 0, 0,
];

// The root, whose low_pc is 100, has subprograms: at 17 one that is removed, at 26 one without a
// low_pc, at 31 one from 110 up to 150, at 78 one that ends before it begins, at 88 one whose
// high_pc is a block, at 99 one whose list is cut. The one at 31 has a parameter at 40, blocks at
// 41 (from 110 up to 120) and 65 (by its list, from 140 up to 144), a variable at 72 and a
// structure at 73. In the block at 41 stand a variable at 47 and inlined subroutines at 48 (from
// 130 up to 140) and, in that, at 55 (from 132 up to 134), with a variable at 54 and a parameter at
// 61.
const INFO: [u8; 105] = [
    101, 0, 0, 0, 4, 0, 0, 0, 0, 0, 4, 1, 100, 0, 0, 0, 2, 3, 0, 0, 0, 0, 232, 3, 0, 0, 4, 144, 1,
    0, 0, 5, 110, 0, 0, 0, 150, 0, 0, 0, 6, 7, 110, 0, 0, 0, 10, 2, 8, 130, 0, 0, 0, 10, 2, 8, 132,
    0, 0, 0, 2, 6, 0, 0, 0, 9, 0, 0, 0, 0, 2, 0, 2, 10, 2, 0, 0, 2, 11, 110, 0, 0, 0, 124, 0, 0, 0,
    0, 12, 44, 1, 0, 0, 1, 1, 0, 0, 0, 0, 13, 24, 0, 0, 0, 0,
];

const RANGES: [u8; 28] = [
    2, 0, 0, 0, 6, 0, 0, 0, 40, 0, 0, 0, 44, 0, 0, 0, 0, 0, 0, 0, 0, 0, 0, 0, 1, 0, 0, 0,
];

const MODULE: Recorded = Recorded {
    info: &INFO,
    abbrev: &ABBREV,
    loc: &[],
    ranges: &RANGES,
    contents: &[],
};

/// An address, the scopes there, the variables, and the inlined subroutines, by their offsets.
pub type Row = (u32, &'static [u32], &'static [u32], &'static [u32]);

const ROWS: [Row; 7] = [
    (115, &[31, 41], &[40, 72, 47], &[]),
    (133, &[31, 48, 55], &[40, 72, 54, 61], &[55, 48]),
    (141, &[31, 65], &[40, 72, 70], &[]),
    (150, &[], &[], &[]),
    (102, &[88], &[], &[]),
    (50, &[], &[], &[]),
    (399, &[], &[], &[]),
];

fn stand_at(standing: &[Standing<'_, '_>], offsets: &[u32]) -> bool {
    if standing.len() != offsets.len() {
        return false;
    }
    for (entry, at) in standing.iter().zip(offsets) {
        if entry.entry().at != *at {
            return false;
        }
    }
    true
}

fn are_found(found: Result<Items<Standing<'_, '_>>, NoMemory>, offsets: &[u32]) -> bool {
    match found {
        Ok(found) => stand_at(found.as_slice(), offsets),
        Err(_) => false,
    }
}

fn is_right<'a>(alloc: Global, sections: &Sections5<'a>, units: &Units<'a>, row: &Row) -> bool {
    are_found(scopes_at(alloc, sections, units.as_slice(), row.0), row.1)
        && are_found(
            variables_at(alloc, sections, units.as_slice(), row.0),
            row.2,
        )
        && are_found(inlined_at(alloc, sections, units.as_slice(), row.0), row.3)
}

/// The number of the first row where something else is found.
pub fn first_wrong<'a>(
    alloc: Global,
    sections: &Sections5<'a>,
    units: &Units<'a>,
    rows: &[Row],
) -> Option<usize> {
    for (i, row) in rows.iter().enumerate() {
        if !is_right(alloc, sections, units, row) {
            return Some(i);
        }
    }
    None
}

const TABLE: Table = Table::Scopes(&ROWS);

#[test]
fn scopes_are_found(rt: HostRuntime) {
    let wrong = recorded::first_wrong(rt.alloc(), &MODULE, &TABLE);
    assert_eq!(rt; wrong, None);
}
