//! Expressions whose meaning was worked out by hand and by an evaluator of its own.

use crate::frames::memory_with;
use dwarf_expr::{Base, Eval, FrameView, Piece, PiecePlace, eval, frame_base};
use linear_memory::Memory;
use std::alloc::Global;
use wasm_syntax::Seen;

// What an expression means: the name, a number, and an offset in the expression.
type Meaning = (&'static str, u64, u32);

type Row = (&'static [u8], Meaning);

// No expression is longer here.
const LONGEST: usize = 100;

// Values over a frame with memory.
const VALUES: [Row; 34] = [
    (
        &[0x03, 0x01, 0x02, 0x03, 0x04, 0x9f],
        ("value", 0x0403_0201, 0),
    ),
    (&[0x08, 0xff, 0x9f], ("value", 255, 0)),
    (&[0x09, 0xff, 0x9f], ("value", 0xffff_ffff_ffff_ffff, 0)),
    (&[0x0b, 0xff, 0x7f, 0x9f], ("value", 0x7fff, 0)),
    (
        &[0x0d, 0xff, 0xff, 0xff, 0xff, 0x9f],
        ("value", 0xffff_ffff_ffff_ffff, 0),
    ),
    (
        &[0x0e, 0xfe, 0, 0, 0, 0, 0, 0, 0x80, 0x9f],
        ("value", 0x8000_0000_0000_00fe, 0),
    ),
    (
        &[0x0f, 0xfe, 0, 0, 0, 0, 0, 0, 0x80, 0x9f],
        ("value", 0x8000_0000_0000_00fe, 0),
    ),
    (&[0x11, 0x7f, 0x9f], ("value", 0xffff_ffff_ffff_ffff, 0)),
    (&[0x31, 0x12, 0x22, 0x9f], ("value", 2, 0)),
    (&[0x31, 0x32, 0x13, 0x9f], ("value", 1, 0)),
    (&[0x31, 0x32, 0x14, 0x9f], ("value", 1, 0)),
    (&[0x31, 0x32, 0x16, 0x9f], ("value", 1, 0)),
    (
        &[0x09, 0xf9, 0x32, 0x1b, 0x9f],
        ("value", 0xffff_ffff_ffff_fffd, 0),
    ),
    (
        &[0x31, 0x33, 0x1c, 0x9f],
        ("value", 0xffff_ffff_ffff_fffe, 0),
    ),
    (&[0x09, 0xff, 0x33, 0x1d, 0x9f], ("value", 0, 0)),
    (
        &[0x09, 0xff, 0x35, 0x1e, 0x9f],
        ("value", 0xffff_ffff_ffff_fffb, 0),
    ),
    (&[0x31, 0x1f, 0x9f], ("value", 0xffff_ffff_ffff_ffff, 0)),
    (&[0x30, 0x20, 0x9f], ("value", 0xffff_ffff_ffff_ffff, 0)),
    (&[0x31, 0x23, 0x80, 0x01, 0x9f], ("value", 129, 0)),
    (&[0x31, 0x08, 0x40, 0x24, 0x9f], ("value", 0, 0)),
    (&[0x09, 0xff, 0x08, 0x3f, 0x25, 0x9f], ("value", 1, 0)),
    (&[0x09, 0xff, 0x08, 0x40, 0x25, 0x9f], ("value", 0, 0)),
    (
        &[0x09, 0xf0, 0x08, 0x40, 0x26, 0x9f],
        ("value", 0xffff_ffff_ffff_ffff, 0),
    ),
    (&[0x36, 0x33, 0x27, 0x9f], ("value", 5, 0)),
    (&[0x09, 0xff, 0x30, 0x2a, 0x9f], ("value", 0, 0)),
    (&[0x30, 0x09, 0xff, 0x2b, 0x9f], ("value", 1, 0)),
    (&[0x40, 0x06, 0x9f], ("value", 0x0403_0201, 0)),
    (&[0x40, 0x94, 0x02, 0x9f], ("value", 0x0201, 0)),
    (&[0xed, 0x00, 0x02, 0x9f], ("value", 992, 0)),
    (&[0xed, 0x00, 0x00], ("value", 4_294_967_295, 0)),
    (&[0xed, 0x02, 0x01], ("value", 6, 0)),
    (&[0xed, 0x01, 0x00], ("value", 9, 0)),
    (&[0xed, 0x03, 0, 0, 0, 0, 0x9f], ("value", 9, 0)),
    (&[0x91, 0x7c, 0x9f], ("value", 988, 0)),
];

// The offset of the fault.
const FAULTS: [Row; 22] = [
    (&[0x30, 0x30, 0x1b], ("fault", 0, 2)),
    (&[0x96], ("fault", 0, 1)),
    (&[0x30, 0x13], ("fault", 0, 2)),
    (&[0x31, 0x03, 0x01, 0x02], ("fault", 0, 1)),
    (
        &[
            0x10, 0xff, 0xff, 0xff, 0xff, 0xff, 0xff, 0xff, 0xff, 0xff, 0x02,
        ],
        ("fault", 0, 0),
    ),
    (&[0x12], ("fault", 0, 0)),
    (&[0x31, 0x16], ("fault", 0, 1)),
    (&[0x40, 0x94, 0x08], ("fault", 0, 1)),
    (&[0x31, 0x9f, 0x96], ("fault", 0, 1)),
    (&[0x31, 0x9f, 0x9f], ("fault", 0, 1)),
    (&[0x9f], ("fault", 0, 1)),
    (&[0x30, 0x30, 0x1b, 0xe0], ("fault", 0, 2)),
    (&[0xed, 0x04, 0x00], ("fault", 0, 0)),
    (&[0xed], ("fault", 0, 0)),
    (&[0xed, 0x00, 0x04], ("fault", 0, 0)),
    (&[0x96, 0x93, 0x04], ("fault", 0, 1)),
    (&[0x31, 0x13, 0x93, 0x04], ("fault", 0, 2)),
    (&[0x31, 0x93, 0x04, 0x13], ("fault", 0, 3)),
    (&[0x31, 0x93, 0x04, 0x96], ("fault", 0, 4)),
    (&[0x31, 0x93, 0x04, 0x31, 0x9f], ("fault", 0, 5)),
    (&[0x31, 0x9f, 0x93], ("fault", 0, 2)),
    (&[0x31, 0x93], ("fault", 0, 1)),
];

// 16 pieces of one byte, and 17.
const SIXTEEN: [u8; 32] = [
    0x93, 1, 0x93, 1, 0x93, 1, 0x93, 1, 0x93, 1, 0x93, 1, 0x93, 1, 0x93, 1, 0x93, 1, 0x93, 1, 0x93,
    1, 0x93, 1, 0x93, 1, 0x93, 1, 0x93, 1, 0x93, 1,
];

const SEVENTEEN: [u8; 34] = [
    0x93, 1, 0x93, 1, 0x93, 1, 0x93, 1, 0x93, 1, 0x93, 1, 0x93, 1, 0x93, 1, 0x93, 1, 0x93, 1, 0x93,
    1, 0x93, 1, 0x93, 1, 0x93, 1, 0x93, 1, 0x93, 1, 0x93, 1,
];

// Addresses, what is not known, and the most entries and pieces.
const OTHERS: [Row; 10] = [
    (&[], ("empty", 0, 0)),
    (&[0xed, 0x00, 0x02, 0x96], ("address", 992, 0)),
    (&[0x09, 0xff], ("address", 4_294_967_295, 0)),
    (&[0x0c, 0xfd, 0xff, 0, 0, 0x06], ("outside", 65_533, 0)),
    (&[0x31, 0xa1, 0], ("unsupported", 0xa1, 1)),
    (&[0xe0], ("unsupported", 0xe0, 0)),
    (&[0x30; 64], ("address", 0, 0)),
    (&[0x30; 65], ("too deep", 0, 0)),
    (&SIXTEEN, ("pieces", 16, 0)),
    (&SEVENTEEN, ("unsupported", 0x93, 32)),
];

// The frame base is known, not recorded or absent; a local, or the memory, is not recorded.
const BASES: [(Base, Row); 10] = [
    (Base::At(992), (&[0x91, 0x0c], ("address", 1004, 0))),
    (Base::At(0), (&[0x91, 0x7c], ("address", 4_294_967_292, 0))),
    (Base::Missing, (&[0x91, 0x0c], ("missing", 0, 0))),
    (Base::Absent, (&[0x91, 0x0c], ("fault", 0, 0))),
    (Base::Absent, (&[0xed, 0x00, 0x01], ("missing", 0, 0))),
    (Base::Absent, (&[0xed, 0x01, 0x00], ("missing", 0, 0))),
    (Base::Absent, (&[0x30, 0x94, 0x01], ("missing", 0, 0))),
    (Base::Absent, (&[0xed, 0x00, 0x02], ("fault", 0, 0))),
    (Base::Absent, (&[0x94, 0x03, 0x96], ("fault", 0, 0))),
    (Base::Absent, (&[0xed, 0x04, 0x00], ("fault", 0, 0))),
];

// All but those of frame bases.
const TABLES: [&[Row]; 3] = [&VALUES, &FAULTS, &OTHERS];

const LOCALS: [Seen; 4] = [
    Seen::I32(4_294_967_295),
    Seen::Missing,
    Seen::I32(992),
    Seen::I64(5),
];

const OPERANDS: [Seen; 2] = [Seen::I32(5), Seen::I32(6)];

const GLOBALS: [Seen; 1] = [Seen::I32(9)];

const CONTENTS: [(u64, &[u8]); 1] = [(16, &[1, 2, 3, 4])];

fn view_of_locals<'a>(locals: &'a [Seen]) -> FrameView<'a> {
    FrameView {
        locals,
        operands: &[],
        globals: &[],
        memory: None,
    }
}

fn meaning(found: &Eval) -> Meaning {
    match found {
        Eval::Empty => ("empty", 0, 0),
        Eval::Value(word) => ("value", *word, 0),
        Eval::Address(address) => ("address", u64::from(*address), 0),
        Eval::Pieces(list) => ("pieces", list.as_slice().len() as u64, 0),
        Eval::Missing => ("missing", 0, 0),
        Eval::Outside(address) => ("outside", u64::from(*address), 0),
        Eval::Unsupported { op, at } => ("unsupported", u64::from(*op), *at),
        Eval::BadExpr { at } => ("fault", 0, *at),
        Eval::TooDeep => ("too deep", 0, 0),
    }
}

fn means(view: &FrameView<'_>, base: Base, row: &Row) -> bool {
    row.0.len() <= LONGEST && meaning(&eval(row.0, view, base)) == row.1
}

fn first_wrong_in(view: &FrameView<'_>, rows: &[Row]) -> Option<usize> {
    for (i, row) in rows.iter().enumerate() {
        if !means(view, Base::At(992), row) {
            return Some(i);
        }
    }
    None
}

/// The number of the first row that means something else over the frame with memory.
fn first_wrong(alloc: Global, rows: &[Row]) -> Option<usize> {
    let memory = memory_with(alloc, &CONTENTS);
    let view = FrameView {
        locals: &LOCALS,
        operands: &OPERANDS,
        globals: &GLOBALS,
        memory: memory.as_ref(),
    };
    first_wrong_in(&view, rows)
}

#[test]
fn expressions_have_meanings(rt: HostRuntime) {
    for rows in TABLES {
        assert_eq!(rt; first_wrong(rt.alloc(), rows), None);
    }
}

const IN_PIECES: [u8; 11] = [0x31, 0x93, 4, 0x93, 2, 0xed, 0x00, 0x02, 0x93, 0x80, 0x01];

const PIECES: [Piece; 3] = [
    Piece {
        size: 4,
        place: PiecePlace::Address(1),
    },
    Piece {
        size: 2,
        place: PiecePlace::Nothing,
    },
    Piece {
        size: 128,
        place: PiecePlace::Value(992),
    },
];

fn has_pieces(found: &Eval, pieces: &[Piece]) -> bool {
    match found {
        Eval::Pieces(list) => list.as_slice() == pieces,
        _ => false,
    }
}

// Expressions of frame bases, and the bases, where local 0 is 992.
const FRAME_BASES: [(&[u8], Base); 4] = [
    (&[0xed, 0x00, 0x00, 0x9f], Base::At(992)),
    (&[0x09, 0xff, 0x9f], Base::At(4_294_967_295)),
    (&[0xed, 0x01, 0x00], Base::Missing),
    (&[0x91, 0x00], Base::Absent),
];

#[test]
fn frames_without_memory(rt: HostRuntime) {
    let view = view_of_locals(&[Seen::I32(992), Seen::Missing]);
    for (base, row) in &BASES {
        assert!(rt; means(&view, *base, row));
    }
    for (expr, base) in &FRAME_BASES {
        assert!(rt; expr.len() <= LONGEST && frame_base(expr, &view) == *base);
    }
    let view = view_of_locals(&LOCALS);
    assert!(rt; has_pieces(&eval(&IN_PIECES, &view, Base::At(992)), &PIECES));
}
