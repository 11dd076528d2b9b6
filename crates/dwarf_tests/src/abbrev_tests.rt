//! The abbreviations of a module as a C compiler writes them, and tables by hand.

use dwarf_abbrev::{Abbrev, read_abbrevs};
use std::alloc::Global;

// The first four abbreviations of a unit, an end mark of ten bytes, and other bytes.
const SECTION: [u8; 57] = [
    0x01, 0x11, 0x01, 0x03, 0x08, 0x10, 0x17, 0x11, 0x01, 0x12, 0x06, 0x00, 0x00, 0x02, 0x2E, 0x01,
    0x03, 0x08, 0x11, 0x01, 0x12, 0x06, 0x40, 0x18, 0x49, 0x13, 0x00, 0x00, 0x05, 0x24, 0x00, 0x03,
    0x08, 0x3E, 0x0B, 0x0B, 0x0B, 0x00, 0x00, 0x80, 0x80, 0x80, 0x80, 0x00, 0x07, 0x07, 0x01, 0x00,
    0x00, 0x00, 0x07, 0x02, 0x02, 0x00, 0x00, 0x00, 0x00,
];

fn is_abbrev(abbrev: &Abbrev, code: u64, tag: u64, children: bool, pairs: usize) -> bool {
    abbrev.code == code
        && abbrev.tag == tag
        && abbrev.children == children
        && abbrev.pairs.len() == pairs
}

fn has_pair(abbrev: &Abbrev) -> bool {
    match abbrev.pairs.get(2) {
        Some(pair) => pair.attribute == 0x12 && pair.form == 6,
        None => false,
    }
}

fn are_abbrevs(abbrevs: &[Abbrev]) -> bool {
    match abbrevs {
        [unit, function, number] => {
            is_abbrev(unit, 1, 0x11, true, 4)
                && is_abbrev(function, 2, 0x2E, true, 5)
                && is_abbrev(number, 5, 0x24, false, 3)
                && has_pair(function)
        }
        _ => false,
    }
}

/// Whether the first table has these abbreviations, and finds the second by its code.
fn is_read(alloc: Global, section: &[u8]) -> bool {
    match read_abbrevs(alloc, section, 0) {
        Ok(table) => {
            let found = match table.find(2) {
                Some(found) => is_abbrev(found, 2, 0x2E, true, 5),
                None => false,
            };
            found && table.find(3).is_none() && are_abbrevs(table.as_slice())
        }
        Err(_) => false,
    }
}

// Where no table stands: children 2; rows up to the end of the section; its end, and behind it.
const REFUSED: [usize; 4] = [50, 52, 57, 58];

fn is_refused(alloc: Global, section: &[u8], at: usize) -> bool {
    read_abbrevs(alloc, section, at).is_err()
}

#[test]
fn tables_are_read_or_refused(rt: HostRuntime) {
    assert!(rt; is_read(rt.alloc(), &SECTION));
    for at in REFUSED {
        assert!(rt; is_refused(rt.alloc(), &SECTION, at));
    }
    for len in 0..44 {
        assert!(rt; is_refused(rt.alloc(), &SECTION[..len], 0));
    }
}
