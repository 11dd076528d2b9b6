//! Sections by hand: how their units are read, and units with their entries beside the rows of a
//! table.

use dwarf_info::{AttrValue, Entry, Sections, Sections5, UnitAnswer, Units, read_units};
use dwarf5_info::read_units5;
use std::alloc::Global;

// No section of a test is longer.
const LONGEST: usize = 1000;

// Texts and tables beside units of version 5, whose bases are 2, 1, 3 and 4.
const LINE_TEXTS: [u8; 5] = [0x61, 0x00, 0x62, 0x63, 0x00];

const TEXT_OFFSETS: [u8; 10] = [0x00, 0x00, 0x02, 0x00, 0x00, 0x00, 0x00, 0x00, 0x00, 0x00];

const ADDRESSES: [u8; 9] = [0x00, 0x07, 0x00, 0x00, 0x00, 0x09, 0x00, 0x00, 0x00];

const LOCATION_LISTS: [u8; 11] = [
    0x00, 0x00, 0x00, 0x14, 0x00, 0x00, 0x00, 0x1E, 0x00, 0x00, 0x00,
];

const RANGE_LISTS: [u8; 12] = [
    0x00, 0x00, 0x00, 0x00, 0x28, 0x00, 0x00, 0x00, 0x32, 0x00, 0x00, 0x00,
];

/// A value by its class and by a number: of bytes that which they spell, the highest first.
pub type Seen = (u32, u64);

/// An entry: its offset, its depth, its tag, and its attributes.
pub type EntryRow<'t> = (u32, u32, u64, &'t [Seen]);

/// A unit: its offset, and its version. One without a version is unreadable.
pub type UnitRow = (usize, Option<u32>);

/// One unit, which is unreadable.
pub const UNREADABLE: &[UnitRow] = &[(0, None)];

/// Sections, and what is read in them.
pub struct Sample<'t> {
    pub info: &'t [u8],
    pub abbrev: &'t [u8],
    pub str: &'t [u8],
    pub units: &'t [UnitRow],
    /// Those of the first unit.
    pub entries: &'t [EntryRow<'t>],
}

/// The units of these sections, of which those of version 4 are read. None where a section is long,
/// or memory is wanting.
pub fn units4<'a>(
    alloc: Global,
    info: &'a [u8],
    abbrev: &'a [u8],
    str: &'a [u8],
) -> Option<Units<'a>> {
    if info.len() > LONGEST || abbrev.len() > LONGEST || str.len() > LONGEST {
        return None;
    }
    let sections = Sections {
        info,
        abbrev,
        line: &[],
        str,
        loc: &[],
        ranges: &[],
    };
    read_units(alloc, &sections).ok()
}

/// The units of these sections beside the texts and tables above. None where a section is long, or
/// memory is wanting.
pub fn units5<'a>(
    alloc: Global,
    info: &'a [u8],
    abbrev: &'a [u8],
    str: &'a [u8],
) -> Option<Units<'a>> {
    if info.len() > LONGEST || abbrev.len() > LONGEST || str.len() > LONGEST {
        return None;
    }
    let sections = Sections5 {
        base: Sections {
            info,
            abbrev,
            line: &[],
            str,
            loc: &[],
            ranges: &[],
        },
        line_str: &LINE_TEXTS,
        str_offsets: &TEXT_OFFSETS,
        addr: &ADDRESSES,
        loclists: &LOCATION_LISTS,
        rnglists: &RANGE_LISTS,
    };
    read_units5(alloc, &sections).ok()
}

/// The sections of a module with units of version 4.
pub fn sections4<'a>(
    info: &'a [u8],
    abbrev: &'a [u8],
    loc: &'a [u8],
    ranges: &'a [u8],
) -> Sections5<'a> {
    Sections5::without5(&Sections {
        info,
        abbrev,
        line: &[],
        str: &[],
        loc,
        ranges,
    })
}

fn number_of(bytes: &[u8]) -> u64 {
    let mut number: u64 = 0;
    for byte in bytes {
        number = number.wrapping_mul(0x100).wrapping_add(u64::from(*byte));
    }
    number
}

fn seen(value: &AttrValue<'_>) -> Seen {
    match value {
        AttrValue::Address(n) => (1, u64::from(*n)),
        AttrValue::Constant(n) => (2, *n),
        AttrValue::Signed(n) => (3, n.cast_unsigned()),
        AttrValue::Block(bytes) => (4, number_of(bytes.as_slice())),
        AttrValue::Text(bytes) => (5, number_of(bytes.as_slice())),
        AttrValue::Flag(flag) => (6, u64::from(*flag)),
        AttrValue::Reference(at) => (7, u64::from(*at)),
        AttrValue::Offset(at) => (8, u64::from(*at)),
        AttrValue::Other => (9, 0),
    }
}

fn is_entry(alloc: Global, entry: &Entry<'_>, row: &EntryRow<'_>) -> bool {
    let Ok(attributes) = entry.attributes.all(alloc) else {
        return false;
    };
    if entry.at != row.0
        || entry.depth != row.1
        || entry.tag != row.2
        || attributes.len() != row.3.len()
    {
        return false;
    }
    for (attribute, wanted) in attributes.as_slice().iter().zip(row.3) {
        if seen(&attribute.value) != *wanted {
            return false;
        }
    }
    true
}

fn are_entries(alloc: Global, entries: &[Entry<'_>], rows: &[EntryRow<'_>]) -> bool {
    if entries.len() != rows.len() {
        return false;
    }
    for (entry, row) in entries.iter().zip(rows) {
        if !is_entry(alloc, entry, row) {
            return false;
        }
    }
    true
}

/// The first unit has these entries, none where it is unreadable.
fn has_entries(alloc: Global, answers: &[UnitAnswer<'_>], rows: &[EntryRow<'_>]) -> bool {
    match answers.first() {
        Some(answer) => match answer {
            UnitAnswer::Tree(unit) => are_entries(alloc, unit.entries.as_slice(), rows),
            UnitAnswer::Unreadable { .. } => rows.is_empty(),
        },
        None => false,
    }
}

fn is_unit(answer: &UnitAnswer<'_>, row: &UnitRow) -> bool {
    match answer {
        UnitAnswer::Tree(unit) => unit.at as usize == row.0 && row.1 == Some(unit.version),
        UnitAnswer::Unreadable { section, at } => {
            *at == row.0 && row.1.is_none() && section.as_str() == ".debug_info"
        }
    }
}

fn are_units(answers: &[UnitAnswer<'_>], rows: &[UnitRow]) -> bool {
    if answers.len() != rows.len() {
        return false;
    }
    for (answer, row) in answers.iter().zip(rows) {
        if !is_unit(answer, row) {
            return false;
        }
    }
    true
}

fn are_as_wanted(
    alloc: Global,
    found: &Option<Units<'_>>,
    units: &[UnitRow],
    entries: &[EntryRow<'_>],
) -> bool {
    match found {
        Some(found) => {
            are_units(found.as_slice(), units) && has_entries(alloc, found.as_slice(), entries)
        }
        None => false,
    }
}

/// These sections have these units, and the first of them these entries, by a reader of version 4.
pub fn is_read4(
    alloc: Global,
    info: &[u8],
    abbrev: &[u8],
    str: &[u8],
    units: &[UnitRow],
    entries: &[EntryRow<'_>],
) -> bool {
    are_as_wanted(alloc, &units4(alloc, info, abbrev, str), units, entries)
}

/// The same by a reader of versions 4 and 5.
pub fn is_read5(
    alloc: Global,
    info: &[u8],
    abbrev: &[u8],
    str: &[u8],
    units: &[UnitRow],
    entries: &[EntryRow<'_>],
) -> bool {
    are_as_wanted(alloc, &units5(alloc, info, abbrev, str), units, entries)
}

/// All samples are read so by a reader of versions 4 and 5.
pub fn are_read5(alloc: Global, samples: &[Sample<'_>]) -> bool {
    for s in samples {
        if !is_read5(alloc, s.info, s.abbrev, s.str, s.units, s.entries) {
            return false;
        }
    }
    true
}
