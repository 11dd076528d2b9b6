//! Visible variables of a compiled module, bytes of values, and texts of base types. The expected
//! values are by hand.

use crate::frames::{Origin, source_of};
use crate::recorded::{self, Recorded, Table};
use crate::samples::COMPILED_MODULE;
use dwarf_expr::FrameView;
use dwarf_info::{Sections5, Units};
use dwarf_types::{Typed, TypedUnits, type_at};
use pm_text::Text;
use std::alloc::Global;
use var_eval::{Variable, visible};
use var_values::{Mark, number_at, push_base, push_enumeration};

/// An address, and the names of the variables there with the offsets of their entries.
pub type VisibleRow = (u32, &'static [(&'static [u8], u32)]);

const VISIBLE: [VisibleRow; 2] = [(45, &[(b"p", 48), (b"x", 58), (b"s", 68)]), (49, &[])];

fn are_variables(variables: &[Variable<'_>], rows: &[(&[u8], u32)]) -> bool {
    if variables.len() != rows.len() {
        return false;
    }
    for (variable, row) in variables.iter().zip(rows) {
        if variable.name.as_slice() != row.0 || variable.entry != row.1 {
            return false;
        }
    }
    true
}

fn are_visible<'a>(
    alloc: Global,
    sections: &Sections5<'a>,
    units: &Units<'a>,
    row: &VisibleRow,
) -> bool {
    match visible(alloc, sections, units, row.0) {
        Ok(variables) => are_variables(variables.as_slice(), row.1),
        Err(_) => false,
    }
}

/// The number of the first row where other variables are visible.
pub fn first_unseen<'a>(
    alloc: Global,
    sections: &Sections5<'a>,
    units: &Units<'a>,
    rows: &[VisibleRow],
) -> Option<usize> {
    for (i, row) in rows.iter().enumerate() {
        if !are_visible(alloc, sections, units, row) {
            return Some(i);
        }
    }
    None
}

// An encoding, a size, the bits, the number that they are, and the text.
type TextRow = (u64, u64, u128, i128, &'static str);

const TEXTS: [TextRow; 12] = [
    (5, 4, 7, 7, "7"),
    (5, 1, 255, -1, "-1"),
    (
        7,
        8,
        18_446_744_073_709_551_615,
        18_446_744_073_709_551_615,
        "18446744073709551615",
    ),
    (6, 1, 66, 66, "66 'B'"),
    (8, 1, 32, 32, "32 ' '"),
    (8, 1, 126, 126, "126 '~'"),
    (8, 1, 127, 127, "127"),
    (6, 1, 128, -128, "-128"),
    (2, 1, 2, 2, "true"),
    (2, 4, 0, 0, "false"),
    (4, 4, 0x3f80_0001, 0, "0x3f800001"),
    (1, 4, 65_536, 65_536, "0x00010000"),
];

fn has_text(alloc: Global, row: &TextRow) -> bool {
    let mut text = Text::new(alloc);
    row.2 < 0x1_0000_0000_0000_0000
        && push_base(&mut text, row.0, row.1, row.2, row.3).is_ok()
        && text.as_str() == row.4
}

#[test]
fn base_types_have_texts(rt: HostRuntime) {
    for row in &TEXTS {
        assert!(rt; has_text(rt.alloc(), row));
    }
}

const ENUMERATION_ABBREV: [u8; 22] = [
    1, 17, 1, 0, 0, 2, 4, 1, 11, 11, 0, 0, 3, 40, 0, 3, 8, 28, 13, 0, 0, 0,
];

// At 12 an enumeration of four bytes: `a` is 1, `b` is -1, and `c` is 1 too. At 27 another one, in
// which 15 enumerators `x` that are 0 stand in front of these.
const ENUMERATION: [u8; 103] = [
    99, 0, 0, 0, 4, 0, 0, 0, 0, 0, 4, 1, 2, 4, 3, 97, 0, 1, 3, 98, 0, 0x7f, 3, 99, 0, 1, 0, 2, 4,
    3, 120, 0, 0, 3, 120, 0, 0, 3, 120, 0, 0, 3, 120, 0, 0, 3, 120, 0, 0, 3, 120, 0, 0, 3, 120, 0,
    0, 3, 120, 0, 0, 3, 120, 0, 0, 3, 120, 0, 0, 3, 120, 0, 0, 3, 120, 0, 0, 3, 120, 0, 0, 3, 120,
    0, 0, 3, 120, 0, 0, 3, 97, 0, 1, 3, 98, 0, 0x7f, 3, 99, 0, 1, 0, 0,
];

const ENUMERATIONS: Recorded = Recorded {
    info: &ENUMERATION,
    abbrev: &ENUMERATION_ABBREV,
    loc: &[],
    ranges: &[],
    contents: &[],
};

/// The offset of an enumeration, a value, and its name.
pub type NameRow = (u32, i128, &'static str);

const NAMES: [NameRow; 7] = [
    (12, 1, "a"),
    (12, -1, "b"),
    (12, 7, "7"),
    (27, 0, "x"),
    (27, 0x1_0000_0001, "a"),
    (27, -1, "b"),
    (27, 7, "7"),
];

fn has_name(alloc: Global, types: &TypedUnits<'_, '_, '_>, row: &NameRow) -> bool {
    let Typed::At {
        standing,
        skipped: _,
    } = type_at(types, row.0)
    else {
        return false;
    };
    let mut text = Text::new(alloc);
    push_enumeration(&mut text, types.units(), &standing, 4, row.1).is_ok()
        && text.as_str() == row.2
}

/// The number of the first row with another name.
pub fn first_unnamed(
    alloc: Global,
    types: &TypedUnits<'_, '_, '_>,
    rows: &[NameRow],
) -> Option<usize> {
    for (i, row) in rows.iter().enumerate() {
        if !has_name(alloc, types, row) {
            return Some(i);
        }
    }
    None
}

// Visible parameters and variables, and names of enumerators.
const TABLES: [(&Recorded, Table); 2] = [
    (&COMPILED_MODULE, Table::Visible(&VISIBLE)),
    (&ENUMERATIONS, Table::Names(&NAMES)),
];

#[test]
fn variables_are_visible_and_enumerators_have_names(rt: HostRuntime) {
    assert_eq!(rt; recorded::first_wrong_of(rt.alloc(), &TABLES), None);
}

// Where a value comes from, the number of its first byte, how many bytes, and the number that they
// spell.
type NumberRow = (Origin, i128, u32, Result<u128, Mark>);

const WORD: Origin = Origin::Number(0x1122_3344_5566_7788);

const NUMBERS: [NumberRow; 6] = [
    (WORD, 0, 2, Ok(0x7788)),
    (WORD, 4, 4, Ok(0x1122_3344)),
    (WORD, 7, 2, Err(Mark::OptimisedOut)),
    (WORD, -1, 1, Err(Mark::OptimisedOut)),
    (Origin::Address(8), 0, 4, Err(Mark::NotRecorded)),
    (Origin::BadExpression, 0, 1, Err(Mark::BadExpression)),
];

fn is_number(row: &NumberRow) -> bool {
    let view = FrameView {
        locals: &[],
        operands: &[],
        globals: &[],
        memory: None,
    };
    row.1 <= 8 && row.2 <= 8 && number_at(&view, &source_of(&row.0), row.1, row.2) == row.3
}

#[test]
fn bytes_of_values_have_marks(rt: HostRuntime) {
    for row in &NUMBERS {
        assert!(rt; is_number(row));
    }
    assert!(rt; Mark::OutsideMemory.text() == "<outside memory>");
}
