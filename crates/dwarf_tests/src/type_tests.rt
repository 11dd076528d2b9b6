//! Kinds and sizes of types: those of a compiled module, chains of other names, and arrays by their
//! counts. The expected values are from the standard's rules by hand.

use crate::recorded::{self, Recorded, Table};
use crate::samples::{CHAINS, COMPILED_MODULE};
use dwarf_types::{Kind, TypedUnits, kind_of, size_of};

/// An offset, the kind of the type there if it is told, and its size.
pub type Row = (u32, Option<Kind>, Option<u64>);

const COMPILED: [Row; 6] = [
    (79, Some(Kind::Base { encoding: 5 }), Some(4)),
    (86, Some(Kind::Base { encoding: 6 }), Some(1)),
    (94, Some(Kind::Pointer { to: Some(79) }), Some(4)),
    (99, Some(Kind::Members { at: 99 }), Some(8)),
    (
        120,
        Some(Kind::Array {
            at: 120,
            element: Some(86),
        }),
        Some(4),
    ),
    (96, Some(Kind::Unsupported), None),
];

// The first of 17 entries and the second.
const CHAINED: [Row; 2] = [
    (12, Some(Kind::TooDeep), None),
    (14, Some(Kind::Base { encoding: 5 }), Some(4)),
];

const ARRAY_ABBREV: [u8; 60] = [
    1, 17, 1, 0, 0, 2, 36, 0, 62, 11, 11, 11, 0, 0, 3, 1, 1, 73, 17, 0, 0, 4, 33, 0, 55, 15, 0, 0,
    5, 33, 0, 47, 13, 0, 0, 6, 33, 0, 0, 0, 7, 4, 0, 73, 17, 0, 0, 8, 1, 0, 73, 17, 0, 0, 9, 15, 0,
    0, 0, 0,
];

// `int`, arrays of it with subranges by count or upper bound, one without subranges, an enumeration
// and a pointer.
const ARRAY_INFO: [u8; 117] = [
    113, 0, 0, 0, 4, 0, 0, 0, 0, 0, 4, 1, 2, 5, 4, 3, 12, 4, 2, 5, 2, 0, 3, 12, 6, 0, 3, 12, 4,
    128, 128, 128, 128, 128, 32, 4, 128, 128, 128, 128, 128, 32, 0, 3, 12, 5, 127, 0, 3, 12, 5,
    126, 0, 3, 12, 4, 128, 128, 128, 128, 128, 128, 128, 128, 64, 0, 3, 12, 4, 255, 255, 255, 255,
    255, 255, 255, 255, 63, 0, 3, 12, 4, 0, 4, 128, 128, 128, 128, 128, 128, 128, 128, 128, 1, 0,
    3, 12, 4, 128, 128, 128, 128, 128, 128, 128, 128, 128, 1, 4, 0, 0, 8, 12, 7, 12, 9, 0,
];

const ARRAYS: Recorded = Recorded {
    info: &ARRAY_INFO,
    abbrev: &ARRAY_ABBREV,
    loc: &[],
    ranges: &[],
    contents: &[],
};

const SIZES: [Row; 14] = [
    (12, None, Some(4)),
    (15, None, Some(24)),
    (22, None, None),
    (26, None, None),
    (43, None, Some(0)),
    (48, None, None),
    (53, None, None),
    (66, None, Some(18_446_744_073_709_551_612)),
    (79, None, None),
    (95, None, Some(0)),
    (111, None, None),
    (113, None, Some(4)),
    (115, None, Some(4)),
    (116, None, None),
];

fn is_type(types: &TypedUnits<'_, '_, '_>, row: &Row) -> bool {
    if size_of(types, row.0) != row.2 {
        return false;
    }
    match row.1 {
        Some(kind) => kind_of(types, row.0) == kind,
        None => true,
    }
}

/// The number of the first row with another kind or size.
pub fn first_wrong(types: &TypedUnits<'_, '_, '_>, rows: &[Row]) -> Option<usize> {
    for (i, row) in rows.iter().enumerate() {
        if !is_type(types, row) {
            return Some(i);
        }
    }
    None
}

// Types of a module, chains of at most 16 entries, and arrays, whose sizes are products.
const TABLES: [(&Recorded, Table); 3] = [
    (&COMPILED_MODULE, Table::Types(&COMPILED)),
    (&CHAINS, Table::Types(&CHAINED)),
    (&ARRAYS, Table::Types(&SIZES)),
];

#[test]
fn types_are_known(rt: HostRuntime) {
    assert_eq!(rt; recorded::first_wrong_of(rt.alloc(), &TABLES), None);
}
