//! Lists and expressions of units by hand, with the addresses of their tables.

ghost use Rattle.dwarf_info.specs.Sections.{IsReadable5};

use dwarf_bytes::ReadFault;
use dwarf_info::{Sections, Sections5, Unit, UnitAnswer};
use dwarf_loc::{AddressTable, Span};
use dwarf_scopes::{location_in, range_in};
use dwarf5_info::{plain_expr, read_units5, with_addresses};
use std::alloc::Global;

// A unit of version 5 and one of version 4, whose roots have the low_pc 100 and the base 4 of
// addresses.
const INFO: [u8; 41] = [
    0x11, 0x00, 0x00, 0x00, 0x05, 0x00, 0x01, 0x04, 0x00, 0x00, 0x00, 0x00, 0x01, 0x64, 0x00, 0x00,
    0x00, 0x04, 0x00, 0x00, 0x00, 0x10, 0x00, 0x00, 0x00, 0x04, 0x00, 0x00, 0x00, 0x00, 0x00, 0x04,
    0x01, 0x64, 0x00, 0x00, 0x00, 0x04, 0x00, 0x00, 0x00,
];

const ABBREV: [u8; 10] = [0x01, 0x11, 0x00, 0x11, 0x01, 0x73, 0x17, 0x00, 0x00, 0x00];

// Four bytes in front of a table of 10 and FFFFFFF0.
const ADDRESSES: [u8; 12] = [
    0xAA, 0xAA, 0xAA, 0xAA, 0x10, 0x00, 0x00, 0x00, 0xF0, 0xFF, 0xFF, 0xFF,
];

// At 0 the offsets 5 to 8 and a default, at 9 two addresses from that of index 1 on, at 15 an index
// without an address.
const LOCATION_LISTS: [u8; 21] = [
    0x04, 0x05, 0x08, 0x01, 0x30, 0x05, 0x01, 0x31, 0x00, 0x03, 0x01, 0x02, 0x01, 0x32, 0x00, 0x03,
    0x02, 0x02, 0x01, 0x32, 0x00,
];

// At 0, in the layout of version 4: from 2 up to 14, counted from the low_pc of a unit.
const OLD_LISTS: [u8; 19] = [2, 0, 0, 0, 14, 0, 0, 0, 1, 0, 0x30, 0, 0, 0, 0, 0, 0, 0, 0];

// At 0 the offsets 5 to 8, at 4 five addresses from that of index 0 on, at 8 an index without an
// address.
const RANGE_LISTS: [u8; 12] = [
    0x04, 0x05, 0x08, 0x00, 0x03, 0x00, 0x05, 0x00, 0x03, 0x02, 0x05, 0x00,
];

fn sections<'a>() -> Sections5<'a>
    ensures { IsReadable5 result }
{
    Sections5 {
        base: Sections {
            info: &INFO,
            abbrev: &ABBREV,
            line: &[],
            str: &[],
            loc: &OLD_LISTS,
            ranges: &[],
        },
        line_str: &[],
        str_offsets: &[],
        addr: &ADDRESSES,
        loclists: &LOCATION_LISTS,
        rnglists: &RANGE_LISTS,
    }
}

// What is asked of a unit, and the answer.
enum Asked {
    // The offset of a list, an address, and the expression that counts.
    Location(usize, u32, Result<Option<Span>, ReadFault>),
    // The offset of a list, an address, and whether the list holds it.
    Range(usize, u32, Result<bool, ReadFault>),
    // An expression, and the same with addresses in place of indices.
    Plain(&'static [u8], &'static [u8]),
}

// The numbers of units.
const ROWS: [(usize, Asked); 19] = [
    (0, Asked::Location(0, 104, Ok(Some(Span { at: 7, len: 1 })))),
    (0, Asked::Location(0, 105, Ok(Some(Span { at: 4, len: 1 })))),
    (0, Asked::Location(0, 107, Ok(Some(Span { at: 4, len: 1 })))),
    (0, Asked::Location(0, 108, Ok(Some(Span { at: 7, len: 1 })))),
    (0, Asked::Location(8, 105, Ok(None))),
    (
        0,
        Asked::Location(9, 0xFFFF_FFF1, Ok(Some(Span { at: 13, len: 1 }))),
    ),
    (0, Asked::Location(9, 0xFFFF_FFF2, Ok(None))),
    (
        0,
        Asked::Location(15, 0, Err(ReadFault::Unreadable { at: 15 })),
    ),
    (
        0,
        Asked::Location(21, 0, Err(ReadFault::Unreadable { at: 21 })),
    ),
    (
        1,
        Asked::Location(0, 103, Ok(Some(Span { at: 10, len: 1 }))),
    ),
    (0, Asked::Range(0, 104, Ok(false))),
    (0, Asked::Range(0, 105, Ok(true))),
    (0, Asked::Range(0, 108, Ok(false))),
    (0, Asked::Range(4, 0x10, Ok(true))),
    (0, Asked::Range(4, 0x15, Ok(false))),
    (0, Asked::Range(8, 0, Err(ReadFault::Unreadable { at: 8 }))),
    (
        0,
        Asked::Range(12, 0, Err(ReadFault::Unreadable { at: 12 })),
    ),
    (
        0,
        Asked::Plain(&[0xA1, 0x00], &[0x03, 0x10, 0x00, 0x00, 0x00]),
    ),
    (1, Asked::Plain(&[0xA1, 0x00], &[0xA1, 0x00])),
];

fn is_plain_in(alloc: Global, unit: &Unit<'_>, expr: &[u8], expected: &[u8]) -> bool {
    match plain_expr(alloc, &sections(), unit, expr) {
        Ok(plain) => plain.as_slice() == expected,
        Err(_) => false,
    }
}

fn is_answered(alloc: Global, unit: &Unit<'_>, asked: &Asked) -> bool {
    match asked {
        Asked::Location(at, address, wanted) => {
            location_in(&sections(), unit, *at, *address) == *wanted
        }
        Asked::Range(at, address, wanted) => range_in(&sections(), unit, *at, *address) == *wanted,
        Asked::Plain(expr, expected) => is_plain_in(alloc, unit, expr, expected),
    }
}

fn is_right(alloc: Global, units: &[UnitAnswer<'_>], number: usize, asked: &Asked) -> bool {
    match units.get(number) {
        Some(UnitAnswer::Tree(unit)) => is_answered(alloc, unit, asked),
        _ => false,
    }
}

fn first_wrong_in(alloc: Global, units: &[UnitAnswer<'_>]) -> Option<usize> {
    for (i, (number, asked)) in ROWS.iter().enumerate() {
        if !is_right(alloc, units, *number, asked) {
            return Some(i);
        }
    }
    None
}

/// The number of the first row with another answer.
fn first_wrong(alloc: Global) -> Option<usize> {
    match read_units5(alloc, &sections()) {
        Ok(units) => first_wrong_in(alloc, units.as_slice()),
        Err(_) => Some(0),
    }
}

#[test]
fn lists_and_expressions_of_units(rt: HostRuntime) {
    assert_eq!(rt; first_wrong(rt.alloc()), None);
}

// An expression, and the same without addrx: replaced; between others; an index of two bytes;
// without an entry, and then replaced; behind an operator that is not known; inside an operand;
// cut; behind a cut operator; behind a deref_size of another size; empty. The answers are those of
// a program written apart. In front of them the base of the table; the last one has none.
const EXPRESSIONS: [(Option<u32>, &[u8], &[u8]); 11] = [
    (Some(4), &[0xA1, 0x01], &[0x03, 0xF0, 0xFF, 0xFF, 0xFF]),
    (
        Some(4),
        &[0x31, 0xA1, 0x01, 0x22],
        &[0x31, 0x03, 0xF0, 0xFF, 0xFF, 0xFF, 0x22],
    ),
    (Some(4), &[0xA1, 0x80, 0x00], &[0x03, 0x10, 0, 0, 0]),
    (
        Some(4),
        &[0xA1, 0x02, 0xA1, 0x00],
        &[0xA1, 0x02, 0x03, 0x10, 0, 0, 0],
    ),
    (Some(4), &[0xE0, 0xA1, 0x01], &[0xE0, 0xA1, 0x01]),
    (
        Some(4),
        &[0x03, 0xA1, 0x01, 0, 0],
        &[0x03, 0xA1, 0x01, 0, 0],
    ),
    (Some(4), &[0x31, 0xA1, 0x80], &[0x31, 0xA1, 0x80]),
    (Some(4), &[0x0A, 0xA1], &[0x0A, 0xA1]),
    (
        Some(4),
        &[0x94, 0x03, 0xA1, 0x00],
        &[0x94, 0x03, 0x03, 0x10, 0, 0, 0],
    ),
    (Some(4), &[], &[]),
    (None, &[0x31, 0xA1, 0x01], &[0x31, 0xA1, 0x01]),
];

fn is_plain(alloc: Global, base: Option<u32>, expr: &[u8], expected: &[u8]) -> bool {
    match with_addresses(alloc, &AddressTable::new(&ADDRESSES, base), expr) {
        Ok(plain) => plain.as_slice() == expected,
        Err(_) => false,
    }
}

#[test]
fn addresses_stand_in_place_of_indices(rt: HostRuntime) {
    for (base, expr, expected) in &EXPRESSIONS {
        assert!(rt; is_plain(rt.alloc(), *base, expr, expected));
    }
}
