//! The forms of version 4 in a unit of version 5, codes that are those of no form, and units that
//! are cut at each byte.

use crate::reading::{EntryRow, Sample, UNREADABLE, are_read5, is_read5};
use crate::samples::{ABBREV, FORMS, INFO, TEXTS};
use std::alloc::Global;

// The values of all forms in the same order, in a unit of version 5, and two bytes of padding.
const VALUES: [u8; 93] = [
    0x59, 0x00, 0x00, 0x00, 0x05, 0x00, 0x01, 0x04, 0x00, 0x00, 0x00, 0x00, 0x01, 0x78, 0x56, 0x34,
    0x12, 0x01, 0x00, 0xAA, 0x01, 0x00, 0x00, 0x00, 0xBB, 0x34, 0x12, 0x78, 0x56, 0x34, 0x12, 0xF0,
    0xDE, 0xBC, 0x9A, 0x78, 0x56, 0x34, 0x12, 0x61, 0x00, 0x01, 0xCC, 0x01, 0xDD, 0xFF, 0x02, 0x7F,
    0x02, 0x00, 0x00, 0x00, 0x80, 0x01, 0x0C, 0x00, 0x00, 0x00, 0x0C, 0x0D, 0x00, 0x0C, 0x00, 0x00,
    0x00, 0x0C, 0x00, 0x00, 0x00, 0x00, 0x00, 0x00, 0x00, 0x0E, 0x0D, 0x7E, 0x04, 0x03, 0x02, 0x01,
    0x02, 0xEE, 0xFF, 0x01, 0x02, 0x03, 0x04, 0x05, 0x06, 0x07, 0x08, 0x00, 0x00,
];

const ALL_FORMS: EntryRow<'static> = (
    12,
    0,
    0x11,
    &[
        (1, 0x1234_5678),
        (4, 0xAA),
        (4, 0xBB),
        (2, 0x1234),
        (2, 0x1234_5678),
        (2, 0x1234_5678_9ABC_DEF0),
        (5, 0x61),
        (4, 0xCC),
        (4, 0xDD),
        (2, 0xFF),
        (6, 1),
        (3, 0xFFFF_FFFF_FFFF_FFFF),
        (5, 0x7A),
        (2, 0x80),
        (7, 12),
        (7, 12),
        (9, 0),
        (7, 12),
        (7, 12),
        (9, 0),
        (3, 0xFFFF_FFFF_FFFF_FFFE),
        (8, 0x0102_0304),
        (4, 0xEEFF),
        (6, 1),
        (9, 0),
    ],
);

// Units of versions 4 and 5 with one entry, whose values are zeros.
const UNIT4: [u8; 28] = [
    0x18, 0x00, 0x00, 0x00, 0x04, 0x00, 0x00, 0x00, 0x00, 0x00, 0x04, 0x01, 0x00, 0x00, 0x00, 0x00,
    0x00, 0x00, 0x00, 0x00, 0x00, 0x00, 0x00, 0x00, 0x00, 0x00, 0x00, 0x00,
];

const UNIT5: [u8; 29] = [
    0x19, 0x00, 0x00, 0x00, 0x05, 0x00, 0x01, 0x04, 0x00, 0x00, 0x00, 0x00, 0x01, 0x00, 0x00, 0x00,
    0x00, 0x00, 0x00, 0x00, 0x00, 0x00, 0x00, 0x00, 0x00, 0x00, 0x00, 0x00, 0x00,
];

// Codes that are those of no form of version 4, and of no form of version 5.
const NO_FORMS4: [u8; 18] = [
    0x00, 0x02, 0x1A, 0x1B, 0x1E, 0x1F, 0x21, 0x22, 0x23, 0x25, 0x26, 0x27, 0x28, 0x29, 0x2A, 0x2B,
    0x2C, 0x2D,
];

const NO_FORMS5: [u8; 6] = [0x00, 0x02, 0x1C, 0x1D, 0x24, 0x2D];

// One entry with four bytes.
const DATA4: [u8; 8] = [0x01, 0x11, 0x00, 0x03, 0x06, 0x00, 0x00, 0x00];

// All forms of version 4 in version 5, and one form in a unit of each version.
const SAMPLES: [Sample<'static>; 3] = [
    Sample {
        info: &VALUES,
        abbrev: &FORMS,
        str: &TEXTS,
        units: &[(0, Some(5))],
        entries: &[ALL_FORMS],
    },
    Sample {
        info: &UNIT4,
        abbrev: &DATA4,
        str: &TEXTS,
        units: &[(0, Some(4))],
        entries: &[(11, 0, 0x11, &[(2, 0)])],
    },
    Sample {
        info: &UNIT5,
        abbrev: &DATA4,
        str: &TEXTS,
        units: &[(0, Some(5))],
        entries: &[(12, 0, 0x11, &[(2, 0)])],
    },
];

#[test]
fn forms_of_version_4_are_read(rt: HostRuntime) {
    assert!(rt; are_read5(rt.alloc(), &SAMPLES));
}

/// The unit is unreadable where its entry has an attribute of one of these forms.
fn are_no_forms(alloc: Global, info: &[u8], forms: &[u8]) -> bool {
    for form in forms {
        let abbrev = [0x01, 0x11, 0x00, 0x03, *form, 0x00, 0x00, 0x00];
        if !is_read5(alloc, info, &abbrev, &TEXTS, UNREADABLE, &[]) {
            return false;
        }
    }
    true
}

/// The unit is unreadable wherever its sections are cut.
fn is_unreadable_cut(alloc: Global, info: &[u8], abbrev: &[u8]) -> bool {
    for len in 1..info.len() {
        if !is_read5(alloc, &info[..len], abbrev, &TEXTS, UNREADABLE, &[]) {
            return false;
        }
    }
    for len in 0..abbrev.len() {
        if !is_read5(alloc, info, &abbrev[..len], &TEXTS, UNREADABLE, &[]) {
            return false;
        }
    }
    true
}

#[test]
fn other_forms_and_cut_units_are_refused(rt: HostRuntime) {
    let alloc = rt.alloc();
    assert!(rt; are_no_forms(alloc, &UNIT4, &NO_FORMS4));
    assert!(rt; are_no_forms(alloc, &UNIT5, &NO_FORMS5));
    assert!(rt; is_unreadable_cut(alloc, &INFO, &ABBREV));
    assert!(rt; is_unreadable_cut(alloc, &VALUES, &FORMS));
}
