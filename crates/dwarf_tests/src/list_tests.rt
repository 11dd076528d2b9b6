//! Lists by hand, read in the same way by llvm-dwarfdump, with addresses and what they say of them.

use dwarf_bytes::ReadFault;
use dwarf_loc::{Span, location_at, range_holds};

// At 0: from 2 up to 14 and from 14 up to 20, and from 4 up to 6. At 42: from 2 up to 4 counted
// from the base, then from 100, and from 2 up to 5 counted from 0. At 99: from 0 up to 4. At 118:
// from FFFFFFF0 up to FFFFFFFE. At 137 a list whose end mark is cut.
const LOCATIONS: [u8; 155] = [
    2, 0, 0, 0, 14, 0, 0, 0, 2, 0, 0x91, 0x0c, 14, 0, 0, 0, 20, 0, 0, 0, 1, 0, 0x30, 4, 0, 0, 0, 6,
    0, 0, 0, 1, 0, 0x31, 0, 0, 0, 0, 0, 0, 0, 0, 2, 0, 0, 0, 4, 0, 0, 0, 1, 0, 0x30, 0xff, 0xff,
    0xff, 0xff, 100, 0, 0, 0, 2, 0, 0, 0, 4, 0, 0, 0, 1, 0, 0x31, 0xff, 0xff, 0xff, 0xff, 0, 0, 0,
    0, 2, 0, 0, 0, 5, 0, 0, 0, 1, 0, 0x32, 0, 0, 0, 0, 0, 0, 0, 0, 0, 0, 0, 0, 4, 0, 0, 0, 1, 0,
    0x33, 0, 0, 0, 0, 0, 0, 0, 0, 0xf0, 0xff, 0xff, 0xff, 0xfe, 0xff, 0xff, 0xff, 1, 0, 0x34, 0, 0,
    0, 0, 0, 0, 0, 0, 2, 0, 0, 0, 4, 0, 0, 0, 1, 0, 0x35, 0, 0, 0, 0, 0, 0, 0,
];

// Where the list stands, the base, the address, and the place of the expression that counts.
type LocationRow = (usize, u32, u32, Result<Option<Span>, ReadFault>);

const FOUND: [LocationRow; 18] = [
    (0, 0, 2, Ok(Some(Span { at: 10, len: 2 }))),
    (0, 0, 5, Ok(Some(Span { at: 10, len: 2 }))),
    (0, 0, 14, Ok(Some(Span { at: 22, len: 1 }))),
    (0, 100, 103, Ok(Some(Span { at: 10, len: 2 }))),
    (42, 0, 2, Ok(Some(Span { at: 52, len: 1 }))),
    (42, 0, 102, Ok(Some(Span { at: 71, len: 1 }))),
    (42, 7, 4, Ok(Some(Span { at: 90, len: 1 }))),
    (99, 0, 0, Ok(Some(Span { at: 109, len: 1 }))),
    (118, 0, 0xffff_fff0, Ok(Some(Span { at: 128, len: 1 }))),
    (0, 0, 20, Ok(None)),
    (0, 0, 1, Ok(None)),
    (99, 0, 4, Ok(None)),
    (118, 32, 16, Ok(None)),
    (34, 0, 0, Ok(None)),
    (137, 0, 2, Err(ReadFault::Unreadable { at: 137 })),
    (148, 0, 2, Err(ReadFault::Unreadable { at: 148 })),
    (155, 0, 2, Err(ReadFault::Unreadable { at: 155 })),
    (156, 0, 2, Err(ReadFault::Unreadable { at: 156 })),
];

// At 0: from 2 up to 14 counted from the base, and from 102 up to 104. At 32 an empty list. At 40 a
// list without an end mark.
const RANGES: [u8; 48] = [
    2, 0, 0, 0, 14, 0, 0, 0, 0xff, 0xff, 0xff, 0xff, 100, 0, 0, 0, 2, 0, 0, 0, 4, 0, 0, 0, 0, 0, 0,
    0, 0, 0, 0, 0, 0, 0, 0, 0, 0, 0, 0, 0, 2, 0, 0, 0, 4, 0, 0, 0,
];

// The same, and whether the list holds the address.
type RangeRow = (usize, u32, u32, Result<bool, ReadFault>);

const HELD: [RangeRow; 7] = [
    (0, 0, 3, Ok(true)),
    (0, 1, 2, Ok(false)),
    (0, 0, 14, Ok(false)),
    (0, 7, 103, Ok(true)),
    (0, 0, 104, Ok(false)),
    (32, 0, 0, Ok(false)),
    (40, 0, 3, Err(ReadFault::Unreadable { at: 40 })),
];

fn are_found(rows: &[LocationRow]) -> bool {
    for row in rows {
        if location_at(&LOCATIONS, row.0, row.1, row.2) != row.3 {
            return false;
        }
    }
    true
}

fn are_held(rows: &[RangeRow]) -> bool {
    for row in rows {
        if range_holds(&RANGES, row.0, row.1, row.2) != row.3 {
            return false;
        }
    }
    true
}

#[test]
fn lists_hold_addresses(rt: HostRuntime) {
    assert!(rt; are_found(&FOUND) && are_held(&HELD));
}
