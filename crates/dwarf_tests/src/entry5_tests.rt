//! Lists by hand, read in the same way by llvm-dwarfdump, with addresses and what they say of them.

use dwarf_bytes::ReadFault;
use dwarf_loc::{AddressTable, Span, loclist_location, rnglist_holds};

// Four bytes in front of a table of 10, 64 and FFFFFFF0.
const ADDRESSES: [u8; 16] = [
    0xaa, 0xaa, 0xaa, 0xaa, 0x10, 0, 0, 0, 0x64, 0, 0, 0, 0xf0, 0xff, 0xff, 0xff,
];

// At 0 an offset pair and a default. At 10 each kind but a default. At 57 two defaults in front of
// an offset pair. Behind an offset pair: at 69 an index without an address, at 77 an unknown kind,
// at 84 no end mark.
const LOCATIONS: [u8; 89] = [
    4, 2, 14, 2, 0x91, 0x0c, 5, 1, 0x30, 0, 1, 1, 4, 0, 4, 1, 0x30, 2, 0, 1, 1, 0x31, 3, 2, 32, 1,
    0x32, 6, 200, 0, 0, 0, 4, 0, 2, 1, 0x33, 7, 0x2c, 1, 0, 0, 0x2e, 1, 0, 0, 1, 0x34, 8, 0x90, 1,
    0, 0, 2, 1, 0x35, 0, 5, 1, 0x30, 5, 1, 0x31, 4, 0, 2, 1, 0x32, 0, 4, 0, 2, 1, 0x30, 1, 3, 0, 4,
    0, 2, 1, 0x30, 9, 0, 4, 0, 2, 1, 0x30,
];

// The base of the table, where the list stands, the base, the address, and the place of the
// expression that counts.
type LocationRow = (
    Option<u32>,
    usize,
    u32,
    u32,
    Result<Option<Span>, ReadFault>,
);

const FOUND: [LocationRow; 25] = [
    (Some(4), 0, 2, 4, Ok(Some(Span { at: 4, len: 2 }))),
    (Some(4), 0, 2, 15, Ok(Some(Span { at: 4, len: 2 }))),
    (Some(4), 0, 2, 16, Ok(Some(Span { at: 8, len: 1 }))),
    (Some(4), 10, 0, 100, Ok(Some(Span { at: 16, len: 1 }))),
    (Some(4), 10, 7, 103, Ok(Some(Span { at: 16, len: 1 }))),
    (Some(4), 10, 0, 16, Ok(Some(Span { at: 21, len: 1 }))),
    (Some(4), 10, 0, 99, Ok(Some(Span { at: 21, len: 1 }))),
    (
        Some(4),
        10,
        0,
        0xffff_ffff,
        Ok(Some(Span { at: 26, len: 1 })),
    ),
    (Some(4), 10, 0, 201, Ok(Some(Span { at: 36, len: 1 }))),
    (Some(4), 10, 0, 301, Ok(Some(Span { at: 47, len: 1 }))),
    (Some(4), 10, 0, 401, Ok(Some(Span { at: 55, len: 1 }))),
    (Some(4), 57, 0, 1, Ok(Some(Span { at: 67, len: 1 }))),
    (Some(4), 57, 0, 2, Ok(Some(Span { at: 59, len: 1 }))),
    (Some(4), 10, 0, 15, Ok(None)),
    (Some(4), 10, 0, 104, Ok(None)),
    (Some(4), 10, 0, 202, Ok(None)),
    (Some(4), 10, 0, 302, Ok(None)),
    (Some(4), 10, 0, 402, Ok(None)),
    (Some(4), 69, 0, 0, Err(ReadFault::Unreadable { at: 69 })),
    (Some(4), 77, 0, 0, Err(ReadFault::Unreadable { at: 77 })),
    (Some(4), 84, 0, 0, Err(ReadFault::Unreadable { at: 84 })),
    (Some(4), 89, 0, 0, Err(ReadFault::Unreadable { at: 89 })),
    (Some(4), 90, 0, 0, Err(ReadFault::Unreadable { at: 90 })),
    (Some(8), 10, 0, 100, Err(ReadFault::Unreadable { at: 10 })),
    (None, 10, 0, 100, Err(ReadFault::Unreadable { at: 10 })),
];

// At 0 each kind. At 35 one that stands in location lists alone.
const RANGES: [u8; 40] = [
    1, 1, 4, 0, 4, 2, 0, 1, 3, 2, 32, 5, 200, 0, 0, 0, 4, 0, 2, 6, 0x2c, 1, 0, 0, 0x2e, 1, 0, 0, 7,
    0x90, 1, 0, 0, 2, 0, 4, 0, 2, 8, 0,
];

// Where the list stands, the address, and whether the list holds it.
type RangeRow = (usize, u32, Result<bool, ReadFault>);

const HELD: [RangeRow; 13] = [
    (0, 16, Ok(true)),
    (0, 99, Ok(true)),
    (0, 103, Ok(true)),
    (0, 0xffff_ffff, Ok(true)),
    (0, 201, Ok(true)),
    (0, 301, Ok(true)),
    (0, 401, Ok(true)),
    (0, 15, Ok(false)),
    (0, 104, Ok(false)),
    (0, 202, Ok(false)),
    (0, 302, Ok(false)),
    (0, 402, Ok(false)),
    (35, 0, Err(ReadFault::Unreadable { at: 35 })),
];

fn is_found(row: &LocationRow) -> bool {
    let addresses = AddressTable::new(&ADDRESSES, row.0);
    loclist_location(&LOCATIONS, &addresses, row.1, row.2, row.3) == row.4
}

fn are_found(rows: &[LocationRow]) -> bool {
    for row in rows {
        if !is_found(row) {
            return false;
        }
    }
    true
}

fn are_held(addresses: &AddressTable<'_>, rows: &[RangeRow]) -> bool {
    for row in rows {
        if rnglist_holds(&RANGES, addresses, row.0, 0, row.1) != row.2 {
            return false;
        }
    }
    true
}

#[test]
fn lists_hold_addresses(rt: HostRuntime) {
    assert!(rt; are_found(&FOUND));
    assert!(rt; are_held(&AddressTable::new(&ADDRESSES, Some(4)), &HELD));
}
