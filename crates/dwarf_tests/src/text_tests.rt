//! Texts of values by types of each class, and the marks in them. The expected texts are from the
//! standard's rules by hand.

use crate::frames::{Origin, source_of};
use crate::recorded::{self, Recorded, Table};
use dwarf_expr::FrameView;
use dwarf_types::{TypedUnits, type_at};
use pm_text::Text;
use std::alloc::Global;
use var_values::{Place, push_value};

const ABBREV: [u8; 180] = [
    1, 17, 1, 0, 0, 2, 36, 0, 62, 11, 11, 11, 0, 0, 3, 19, 1, 11, 11, 0, 0, 4, 13, 0, 3, 8, 73, 17,
    13, 11, 107, 11, 0, 0, 5, 13, 0, 3, 8, 73, 17, 56, 13, 0, 0, 6, 13, 0, 3, 8, 73, 17, 56, 10, 0,
    0, 7, 13, 0, 3, 8, 0, 0, 8, 13, 0, 3, 8, 73, 17, 13, 11, 0, 0, 9, 1, 1, 73, 17, 0, 0, 10, 33,
    0, 55, 15, 0, 0, 11, 33, 0, 47, 13, 0, 0, 12, 4, 1, 11, 11, 0, 0, 13, 40, 0, 3, 8, 28, 13, 0,
    0, 14, 4, 1, 11, 11, 73, 17, 0, 0, 15, 4, 0, 11, 11, 0, 0, 16, 13, 0, 3, 8, 73, 17, 13, 15,
    107, 11, 0, 0, 17, 15, 0, 73, 17, 0, 0, 18, 13, 0, 3, 8, 73, 17, 56, 11, 0, 0, 19, 13, 0, 3, 8,
    73, 17, 0, 0, 20, 23, 1, 11, 11, 0, 0, 21, 19, 0, 0, 0, 0,
];

// A base type of 2 bytes at 12, and others behind it. At 27 a structure with a bit-field of 3 bits
// at 5, members at -4, of a location that is a block, without a type, with a bit-field that stands
// nowhere, with one of 17 bits and with one of none. At 68 an array of two rows of two, at 75 one
// without subranges, at 78 one with the upper bound -1, at 83 one of 2^40 rows of 2^40, at 100 one
// of two empty rows, at 107 one of 66 bytes. At 112 an enumeration without a type, at 127 one of
// signed characters, at 137 one of 3 bytes. At 139 a structure with a bit-field of 128 bits at 4,
// at 149 a pointer, at 151 a structure with a pointer and one in bits, at 168 one that contains
// itself, at 175 a union, at 187 an array of three, at 192 a structure without members, at 195 one
// without a size, at 196 one of 16 bytes. At 209 a structure with a member behind 16 subranges.
const INFO: [u8; 250] = [
    246, 0, 0, 0, 4, 0, 0, 0, 0, 0, 4, 1, 2, 5, 2, 2, 7, 1, 2, 5, 4, 2, 4, 16, 2, 6, 1, 3, 4, 4,
    97, 0, 12, 3, 5, 5, 98, 0, 12, 124, 6, 99, 0, 12, 2, 35, 0, 7, 100, 0, 8, 101, 0, 12, 3, 4,
    102, 0, 12, 17, 0, 4, 103, 0, 12, 0, 0, 0, 9, 12, 10, 2, 11, 1, 0, 9, 12, 0, 9, 12, 11, 127, 0,
    9, 15, 10, 128, 128, 128, 128, 128, 32, 10, 128, 128, 128, 128, 128, 32, 0, 9, 12, 10, 2, 10,
    0, 0, 9, 15, 10, 66, 0, 12, 1, 13, 110, 101, 103, 0, 127, 13, 116, 119, 111, 0, 2, 0, 14, 1,
    24, 13, 116, 119, 111, 0, 2, 0, 15, 3, 3, 17, 16, 119, 0, 21, 128, 1, 4, 0, 17, 151, 3, 4, 18,
    110, 101, 120, 116, 0, 149, 0, 4, 112, 0, 149, 3, 0, 0, 3, 4, 19, 114, 0, 168, 0, 20, 4, 19,
    105, 0, 18, 18, 115, 0, 12, 2, 0, 9, 18, 10, 3, 0, 3, 0, 0, 21, 3, 16, 18, 105, 0, 18, 0, 18,
    106, 0, 18, 12, 0, 3, 2, 10, 0, 10, 0, 10, 0, 10, 0, 10, 0, 10, 0, 10, 0, 10, 0, 10, 0, 10, 0,
    10, 0, 10, 0, 10, 0, 10, 0, 10, 0, 10, 0, 18, 105, 0, 12, 0, 0, 0,
];

/// The offset of a type, where a value comes from, and its text.
pub type Row = (u32, Origin, &'static str);

const ROWS: [Row; 27] = [
    (
        27,
        Origin::Number(0xe0),
        "{a = -1, b = <optimised out>, c = <unsupported type>, d = <unsupported type>, e = \
         <unsupported type>, f = <unsupported type>, g = 0}",
    ),
    (
        27,
        Origin::Address(65_536),
        "{a = <outside memory>, b = 5, c = <unsupported type>, d = <unsupported type>, e = \
         <unsupported type>, f = <unsupported type>, g = 0}",
    ),
    (27, Origin::BadExpression, "<bad expression>"),
    (
        68,
        Origin::Number(0xfffe_0003_0002_00ff),
        "{{255, 2}, {3, -2}}",
    ),
    (75, Origin::Number(0), "<unsupported type>"),
    (78, Origin::Number(0), "{}"),
    (83, Origin::Address(0), "<unsupported type>"),
    (100, Origin::Number(0), "{{}, {}}"),
    (112, Origin::Number(0x1ff), "neg"),
    (112, Origin::Number(2), "two"),
    (112, Origin::Number(254), "254"),
    (127, Origin::Number(254), "-2"),
    (127, Origin::Number(2), "two"),
    (137, Origin::Number(2), "<unsupported type>"),
    (
        139,
        Origin::Address(16),
        "{w = 0xaffeeddccbbaa9988776655443322110}",
    ),
    (139, Origin::Number(0), "<unsupported type>"),
    (149, Origin::Number(65_536), "0x00010000"),
    (
        151,
        Origin::Number(5),
        "{next = 0x00000005, p = <unsupported type>}",
    ),
    (
        168,
        Origin::Number(0),
        "{r = {r = {r = {r = {r = {r = {r = {r = {r = {r = {r = {r = {r = {r = {r = {r = <type too \
         deep>}}}}}}}}}}}}}}}}",
    ),
    (175, Origin::Number(0xfffe_0001), "{i = -131071, s = -2}"),
    (
        187,
        Origin::Address(65_532),
        "{5, <outside memory>, <outside memory>}",
    ),
    (192, Origin::Number(0), "{}"),
    (195, Origin::Number(0), "<unsupported type>"),
    (196, Origin::Number(0), "<unsupported type>"),
    (
        196,
        Origin::Address(65_528),
        "{i = 0, j = <outside memory>}",
    ),
    (209, Origin::Number(0xfffe), "{i = -2}"),
    (
        107,
        Origin::Address(32),
        "{10, 0, 0, 0, 0, 0, 0, 0, 0, 0, 0, 0, 0, 0, 0, 0, 0, 0, 0, 0, 0, 0, 0, 0, 0, 0, 0, 0, 0, \
         0, 0, 0, 0, 0, 0, 0, 0, 0, 0, 0, 0, 0, 0, 0, 0, 0, 0, 0, 0, 0, 0, 0, 0, 0, 0, 0, 0, 0, 0, \
         0, 0, 0, 0, 0, ...}",
    ),
];

// In memory stand 17 bytes at 16, and a number at the end of the page.
const MODULE: Recorded = Recorded {
    info: &INFO,
    abbrev: &ABBREV,
    loc: &[],
    ranges: &[],
    contents: &[
        (
            16,
            &[
                0x00, 0x11, 0x22, 0x33, 0x44, 0x55, 0x66, 0x77, 0x88, 0x99, 0xaa, 0xbb, 0xcc, 0xdd,
                0xee, 0xff, 0x0a,
            ],
        ),
        (65_532, &[5]),
    ],
};

fn has_text(
    alloc: Global,
    types: &TypedUnits<'_, '_, '_>,
    view: &FrameView<'_>,
    row: &Row,
) -> bool {
    let source = source_of(&row.1);
    let place = Place {
        source: &source,
        offset: 0,
        bits: None,
    };
    let typed = type_at(types, row.0);
    let mut text = Text::new(alloc);
    match push_value(alloc, &mut text, types, view, &typed, &place) {
        Ok(Some(mark)) => text.is_empty() && mark.text() == row.2,
        Ok(None) => text.as_str() == row.2,
        Err(_) => false,
    }
}

/// The number of the first row with another text.
pub fn first_wrong(
    alloc: Global,
    types: &TypedUnits<'_, '_, '_>,
    view: &FrameView<'_>,
    rows: &[Row],
) -> Option<usize> {
    for (i, row) in rows.iter().enumerate() {
        if !has_text(alloc, types, view, row) {
            return Some(i);
        }
    }
    None
}

const TABLE: Table = Table::Texts(&ROWS);

#[test]
fn values_have_texts(rt: HostRuntime) {
    let wrong = recorded::first_wrong(rt.alloc(), &MODULE, &TABLE);
    assert_eq!(rt; wrong, None);
}
