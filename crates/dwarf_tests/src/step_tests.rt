//! Steps from variables, and the variable that a name means. The expected values are from the
//! standard's rules by hand.

use crate::recorded::{self, Recorded, Table};
use crate::samples::{CHAINS, COMPILED_MODULE, STACK};
use dwarf_expr::{FrameView, PiecePlace};
use dwarf_info::{Sections5, Units};
use dwarf_types::{TypedUnits, type_at};
use std::alloc::Global;
use var_eval::{Part, chosen, walk};
use var_path::{Path, parse_path};
use var_values::Source;

/// Where a path leads: so many bytes behind an address, or the same behind the end of an array; the
/// number of the first bit, and how many bits; a part that has no place, by the text of its mark
/// and 1; a step that does not fit, by the text of its mark and 0; or something else.
type Reached = (&'static str, u64, i128);

/// The offset of a type, the address of a value of it, a path from there, and where it leads.
pub type Row = (u32, u32, &'static str, Reached);

const OTHER: Reached = ("other", 0, 0);

fn place_of(part: &Part<'_, '_, '_>) -> Reached {
    let place = part.place();
    match place.source {
        Source::Single(PiecePlace::Address(address)) => match place.bits {
            Some(bits) => ("bits", bits.first, i128::from(bits.count)),
            None if part.is_past() => ("past", u64::from(*address), place.offset),
            None => ("at", u64::from(*address), place.offset),
        },
        Source::Lost(mark) => (mark.text(), 1, 0),
        _ => OTHER,
    }
}

fn walked(
    alloc: Global,
    types: &TypedUnits<'_, '_, '_>,
    view: &FrameView<'_>,
    row: &Row,
    path: &Path<'_>,
) -> Reached {
    let typed = type_at(types, row.0);
    let source = Source::Single(PiecePlace::Address(row.1));
    match walk(alloc, types, view, path.steps.as_slice(), typed, source) {
        Ok(Ok(part)) => place_of(&part),
        Ok(Err(mark)) => (mark.text(), 0, 0),
        Err(_) => OTHER,
    }
}

fn reaches(alloc: Global, types: &TypedUnits<'_, '_, '_>, view: &FrameView<'_>, row: &Row) -> bool {
    match parse_path(alloc, row.2) {
        Ok(Some(path)) => walked(alloc, types, view, row, &path) == row.3,
        _ => false,
    }
}

/// The number of the first row that leads elsewhere.
pub fn first_wrong(
    alloc: Global,
    types: &TypedUnits<'_, '_, '_>,
    view: &FrameView<'_>,
    rows: &[Row],
) -> Option<usize> {
    for (i, row) in rows.iter().enumerate() {
        if !reaches(alloc, types, view, row) {
            return Some(i);
        }
    }
    None
}

const UNFIT: Reached = ("<unsupported type>", 0, 0);

const COMPILED: [Row; 18] = [
    (99, 1008, "s", ("at", 1008, 0)),
    (99, 1008, "s.a", ("at", 1008, 0)),
    (99, 1008, "s.b", ("at", 1008, 4)),
    (99, 1008, "s.b[1]", ("at", 1008, 5)),
    (99, 1008, "s.b[3]", ("at", 1008, 7)),
    (99, 1008, "s.b[4]", ("past", 1008, 8)),
    (94, 1000, "*p", ("at", 65_536, 0)),
    (94, 1000, "p[2]", ("at", 65_544, 0)),
    (94, 1000, "p[2147483647]", ("at", 65_532, 0)),
    (94, 1000, "p.a", UNFIT),
    (94, 1000, "p->a", UNFIT),
    (94, 1000, "**p", UNFIT),
    (99, 1008, "s->a", UNFIT),
    (99, 1008, "s.c", UNFIT),
    (99, 1008, "*s", UNFIT),
    (99, 1008, "s[0]", UNFIT),
    (99, 1008, "*s.b", UNFIT),
    (79, 1004, "x[0]", UNFIT),
];

const SHAPES_ABBREV: [u8; 109] = [
    1, 17, 1, 0, 0, 2, 36, 0, 62, 11, 11, 11, 0, 0, 3, 19, 1, 11, 7, 0, 0, 4, 13, 0, 3, 8, 73, 17,
    56, 13, 0, 0, 5, 13, 0, 3, 8, 73, 17, 13, 11, 107, 11, 0, 0, 6, 13, 0, 3, 8, 73, 17, 56, 10, 0,
    0, 7, 1, 1, 73, 17, 0, 0, 8, 33, 0, 55, 11, 0, 0, 9, 33, 0, 0, 0, 10, 22, 0, 73, 17, 0, 0, 11,
    16, 0, 73, 17, 0, 0, 12, 15, 0, 73, 17, 0, 0, 13, 66, 0, 73, 17, 0, 0, 14, 15, 0, 0, 0, 0,
];

// `int` at 12. At 15 a structure of 2^64 - 1 bytes: `m` (`int`) at -4, `n` at 16, an array of that
// structure without a count, `b`, three bits from the fifth on, `o` of another form, and `t`, that
// structure by another name. At 56 `int[2][3]`, at 63 the other name, at 65, 67 and 69 a reference,
// a pointer and an rvalue reference to the structure, at 71 a pointer to the array, at 73 one
// without a type, at 74 another name of the reference, at 76 two pointers to the structure.
const SHAPES: [u8; 82] = [
    78, 0, 0, 0, 4, 0, 0, 0, 0, 0, 4, 1, 2, 5, 4, 3, 255, 255, 255, 255, 255, 255, 255, 255, 4,
    109, 0, 12, 124, 4, 110, 0, 52, 16, 5, 98, 0, 12, 3, 5, 6, 111, 0, 12, 1, 35, 4, 116, 0, 63, 0,
    0, 7, 15, 9, 0, 7, 12, 8, 2, 8, 3, 0, 10, 15, 11, 15, 12, 15, 13, 15, 12, 56, 14, 10, 65, 7,
    67, 8, 2, 0, 0,
];

const SHAPED: [Row; 32] = [
    (15, 1000, "s.m", ("at", 1000, -4)),
    (15, 1000, "s.n[1]", ("at", 1000, 18_446_744_073_709_551_631)),
    (15, 1000, "s.n[0].n[0].m", ("at", 1000, 28)),
    (
        15,
        1000,
        "s.n[0].n[0].n[0].n[0].n[0].n[0].n[0].n[0].n[0].n[0].m",
        ("at", 1000, 156),
    ),
    (
        15,
        1000,
        "s.n[0].n[0].n[0].n[0].n[0].n[0].n[0].n[0].n[0].n[0].k",
        UNFIT,
    ),
    (
        15,
        1000,
        "s.n[2147483647].m",
        ("at", 1000, 39_614_081_238_685_424_720_914_939_917),
    ),
    (15, 1000, "s.t.m", ("at", 1000, -4)),
    (63, 1000, "t.t.n", ("at", 1000, 16)),
    (56, 1000, "a[1]", ("at", 1000, 12)),
    (56, 1000, "a[2]", ("past", 1000, 24)),
    (56, 1000, "a[1][2]", ("at", 1000, 20)),
    (56, 1000, "a[0][3]", ("past", 1000, 12)),
    (56, 1000, "a[2][0]", ("past", 1000, 24)),
    (65, 1000, "r->m", ("at", 65_536, -4)),
    (65, 1000, "(*r).m", ("at", 65_536, -4)),
    (67, 1000, "p[1].m", ("at", 65_535, -4)),
    (69, 1000, "v->m", ("at", 65_536, -4)),
    (71, 1000, "p[1]", ("at", 65_560, 0)),
    (71, 1000, "(*p)[1][1]", ("at", 65_536, 16)),
    (74, 1000, "r->m", ("at", 65_536, -4)),
    (76, 1000, "q[1]->m", ("at", 7, -4)),
    (15, 1000, "s.o", UNFIT),
    (15, 1000, "s.b.m", UNFIT),
    (15, 1000, "s.b[0]", UNFIT),
    (15, 1000, "*s.b", UNFIT),
    (56, 1000, "a[0][0][0]", UNFIT),
    (65, 1000, "r[0]", UNFIT),
    (65, 1000, "r.m", UNFIT),
    (73, 1000, "p[0]", UNFIT),
    (15, 1000, "s.b", ("bits", 5, 3)),
    (76, 1000, "q[2]->m", ("<outside array>", 1, 0)),
    (67, 65_533, "p->m", ("<outside memory>", 1, 0)),
];

const SHAPED_MODULE: Recorded = Recorded {
    info: &SHAPES,
    abbrev: &SHAPES_ABBREV,
    loc: &[],
    ranges: &[],
    contents: &STACK,
};

// A step meets 16 entries.
const CHAINED: [Row; 2] = [
    (12, 0, "x[0]", ("<type too deep>", 0, 0)),
    (14, 0, "x[0]", UNFIT),
];

const NAMES_ABBREV: [u8; 31] = [
    1, 17, 1, 0, 0, 2, 52, 0, 3, 8, 0, 0, 3, 46, 1, 17, 1, 18, 11, 0, 0, 4, 11, 1, 17, 1, 18, 11,
    0, 0, 0,
];

// Variables of the unit: `g` at 12, `x` at 15, `w` at 41 and 44. A subprogram from 10 up to 30 has
// `x` at 24 and `y` at 27, and a block in it from 12 up to 17 has `x` at 36.
const NAMES: [u8; 48] = [
    44, 0, 0, 0, 4, 0, 0, 0, 0, 0, 4, 1, 2, 103, 0, 2, 120, 0, 3, 10, 0, 0, 0, 20, 2, 120, 0, 2,
    121, 0, 4, 12, 0, 0, 0, 5, 2, 120, 0, 0, 0, 2, 119, 0, 2, 119, 0, 0,
];

const NAMED_MODULE: Recorded = Recorded {
    info: &NAMES,
    abbrev: &NAMES_ABBREV,
    loc: &[],
    ranges: &[],
    contents: &[],
};

/// An address, a name, and the offset of the entry of the variable that it means.
pub type MeantRow = (u32, &'static [u8], Option<u32>);

const MEANT: [MeantRow; 9] = [
    (13, b"x", Some(36)),
    (13, b"y", Some(27)),
    (20, b"x", Some(24)),
    (20, b"y", Some(27)),
    (13, b"g", Some(12)),
    (29, b"w", Some(41)),
    (13, b"z", None),
    (30, b"g", None),
    (9, b"x", None),
];

fn is_meant<'a>(
    alloc: Global,
    sections: &Sections5<'a>,
    units: &Units<'a>,
    row: &MeantRow,
) -> bool {
    match chosen(alloc, sections, units, row.0, row.1) {
        Ok(Some(standing)) => row.2 == Some(standing.entry().at),
        Ok(None) => row.2.is_none(),
        Err(_) => false,
    }
}

/// The number of the first row whose name means something else.
pub fn first_other<'a>(
    alloc: Global,
    sections: &Sections5<'a>,
    units: &Units<'a>,
    rows: &[MeantRow],
) -> Option<usize> {
    for (i, row) in rows.iter().enumerate() {
        if !is_meant(alloc, sections, units, row) {
            return Some(i);
        }
    }
    None
}

// Steps in a compiled module, by all shapes of types and through chains, and names of variables.
const TABLES: [(&Recorded, Table); 4] = [
    (&COMPILED_MODULE, Table::Steps(&COMPILED)),
    (&SHAPED_MODULE, Table::Steps(&SHAPED)),
    (&CHAINS, Table::Steps(&CHAINED)),
    (&NAMED_MODULE, Table::Meant(&MEANT)),
];

#[test]
fn paths_lead_to_places(rt: HostRuntime) {
    assert_eq!(rt; recorded::first_wrong_of(rt.alloc(), &TABLES), None);
}
