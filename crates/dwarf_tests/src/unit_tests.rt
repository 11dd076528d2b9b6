//! The units of a module as a C compiler writes them, the same cut short, and each form once. The
//! expected values are from the standard's tables and another reader.

use crate::reading::{EntryRow, Sample, UNREADABLE, is_read4, units4};
use crate::samples::{ABBREV, ENTRIES, FORMS, INFO, NAMED, TEXTS};
use dwarf_info::{EntryPlace, Units};
use std::alloc::Global;

// The values of all forms in the same order, and two bytes of padding.
const VALUES: [u8; 92] = [
    0x58, 0x00, 0x00, 0x00, 0x04, 0x00, 0x00, 0x00, 0x00, 0x00, 0x04, 0x01, 0x78, 0x56, 0x34, 0x12,
    0x01, 0x00, 0xAA, 0x01, 0x00, 0x00, 0x00, 0xBB, 0x34, 0x12, 0x78, 0x56, 0x34, 0x12, 0xF0, 0xDE,
    0xBC, 0x9A, 0x78, 0x56, 0x34, 0x12, 0x61, 0x00, 0x01, 0xCC, 0x01, 0xDD, 0xFF, 0x02, 0x7F, 0x02,
    0x00, 0x00, 0x00, 0x80, 0x01, 0x0B, 0x00, 0x00, 0x00, 0x0B, 0x0C, 0x00, 0x0B, 0x00, 0x00, 0x00,
    0x0B, 0x00, 0x00, 0x00, 0x00, 0x00, 0x00, 0x00, 0x0D, 0x0D, 0x7E, 0x04, 0x03, 0x02, 0x01, 0x02,
    0xEE, 0xFF, 0x01, 0x02, 0x03, 0x04, 0x05, 0x06, 0x07, 0x08, 0x00, 0x00,
];

const ALL_FORMS: EntryRow<'static> = (
    11,
    0,
    0x11,
    &[
        (1, 0x1234_5678),
        (4, 0xAA),
        (4, 0xBB),
        (2, 0x1234),
        (2, 0x1234_5678),
        (2, 0x1234_5678_9ABC_DEF0),
        (5, 0x61),
        (4, 0xCC),
        (4, 0xDD),
        (2, 0xFF),
        (6, 1),
        (3, 0xFFFF_FFFF_FFFF_FFFF),
        (5, 0x7A),
        (2, 0x80),
        (7, 11),
        (7, 11),
        (9, 0),
        (7, 11),
        (7, 11),
        (9, 0),
        (3, 0xFFFF_FFFF_FFFF_FFFE),
        (8, 0x0102_0304),
        (4, 0xEEFF),
        (6, 1),
        (9, 0),
    ],
);

// Two units, each with one entry, at 11 and at 26; the first is unreadable, as its padding is not
// zero.
const TWO: [u8; 29] = [
    0x0B, 0x00, 0x00, 0x00, 0x04, 0x00, 0x00, 0x00, 0x00, 0x00, 0x04, 0x01, 0x61, 0x00, 0x01, 0x0A,
    0x00, 0x00, 0x00, 0x04, 0x00, 0x00, 0x00, 0x00, 0x00, 0x04, 0x01, 0x62, 0x00,
];

// The compiled module, each form once, and a unit behind an unreadable one.
const SAMPLES: [Sample<'static>; 3] = [
    Sample {
        info: &INFO,
        abbrev: &ABBREV,
        str: &[],
        units: &[(0, Some(4))],
        entries: &ENTRIES,
    },
    Sample {
        info: &VALUES,
        abbrev: &FORMS,
        str: &TEXTS,
        units: &[(0, Some(4))],
        entries: &[ALL_FORMS],
    },
    Sample {
        info: &TWO,
        abbrev: &NAMED,
        str: &[],
        units: &[(0, None), (15, Some(4))],
        entries: &[],
    },
];

// How many bytes are left of the section of the module, where its unit is cut.
const CUT: [usize; 8] = [1, 3, 4, 10, 11, 60, 125, 128];

fn are_read(alloc: Global, samples: &[Sample<'_>]) -> bool {
    for s in samples {
        if !is_read4(alloc, s.info, s.abbrev, s.str, s.units, s.entries) {
            return false;
        }
    }
    true
}

fn is_cut(alloc: Global, lengths: &[usize]) -> bool {
    for len in lengths {
        if *len > INFO.len() || !is_read4(alloc, &INFO[..*len], &ABBREV, &[], UNREADABLE, &[]) {
            return false;
        }
    }
    true
}

#[test]
fn units_are_read(rt: HostRuntime) {
    assert!(rt; are_read(rt.alloc(), &SAMPLES) && is_cut(rt.alloc(), &CUT));
}

// An offset of the section, and the place of the entry there.
const PLACES: [(u32, Option<EntryPlace>); 6] = [
    (11, Some(EntryPlace { unit: 0, entry: 0 })),
    (79, Some(EntryPlace { unit: 0, entry: 5 })),
    (125, Some(EntryPlace { unit: 0, entry: 12 })),
    (0, None),
    (80, None),
    (128, None),
];

// An unreadable unit has no entries.
const PLACES_OF_TWO: [(u32, Option<EntryPlace>); 2] = [
    (11, None),
    (26, Some(EntryPlace { unit: 1, entry: 0 })),
];

fn are_placed_in(units: &Units<'_>, rows: &[(u32, Option<EntryPlace>)]) -> bool {
    for (at, place) in rows {
        if units.place_of(*at) != *place {
            return false;
        }
    }
    true
}

fn are_placed(
    alloc: Global,
    info: &[u8],
    abbrev: &[u8],
    rows: &[(u32, Option<EntryPlace>)],
) -> bool {
    match units4(alloc, info, abbrev, &[]) {
        Some(units) => are_placed_in(&units, rows),
        None => false,
    }
}

#[test]
fn entries_are_found_by_their_offsets(rt: HostRuntime) {
    assert!(rt; are_placed(rt.alloc(), &INFO, &ABBREV, &PLACES));
    assert!(rt; are_placed(rt.alloc(), &TWO, &NAMED, &PLACES_OF_TWO));
}
