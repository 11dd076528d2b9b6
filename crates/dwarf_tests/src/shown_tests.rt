//! What is shown of variables: behind paths in a compiled module and as a listing has them, by
//! where they are, by the constants that they are, and the marks in their places. The expected
//! texts are from the standard's rules by hand.

use crate::recorded::{self, Recorded, Table};
use crate::samples::COMPILED_MODULE;
use causes::NoMemory;
use dwarf_entries::standing_at;
use dwarf_expr::FrameView;
use dwarf_info::Sections5;
use dwarf_scopes::subprogram_at;
use dwarf_types::TypedUnits;
use linear_memory::Memory;
use pm_text::Text;
use std::alloc::Global;
use var_eval::{Shown, VariableFrame, no_sources, push_variable, value_at, value_of};
use var_path::parse_path;
use wasm_syntax::Seen;

/// What is recorded of a frame.
pub struct Scene {
    pub address: u32,
    pub locals: &'static [Seen],
    pub operands: &'static [Seen],
    /// How many operands a call under way has left.
    pub left: Option<u32>,
    pub globals: &'static [Seen],
}

/// What is asked for: the value behind a path, a variable as a listing has it, and the value of a
/// variable by the offset of its entry.
pub enum Asked {
    Path(&'static str),
    Listed(u32),
    Entry(u32),
}

/// What is asked for, and its text.
pub type Row = (Asked, &'static str);

fn by_path(
    alloc: Global,
    frame: &VariableFrame<'_, '_, '_, '_, '_, '_>,
    path: &str,
) -> Result<Shown, NoMemory> {
    match parse_path(alloc, path)? {
        Some(path) => value_of(alloc, frame, &path),
        None => Err(NoMemory),
    }
}

fn listed(
    alloc: Global,
    frame: &VariableFrame<'_, '_, '_, '_, '_, '_>,
    at: u32,
) -> Result<Shown, NoMemory> {
    let Some(variable) = standing_at(frame.units(), at) else {
        return Ok(Shown::NoVariable);
    };
    let mut text = Text::new(alloc);
    push_variable(alloc, &mut text, frame, &variable, &mut no_sources(alloc))?;
    Ok(Shown::Text(text))
}

fn shown(
    alloc: Global,
    frame: &VariableFrame<'_, '_, '_, '_, '_, '_>,
    asked: &Asked,
) -> Result<Shown, NoMemory> {
    match asked {
        Asked::Path(path) => by_path(alloc, frame, path),
        Asked::Listed(at) => listed(alloc, frame, *at),
        Asked::Entry(at) => value_at(alloc, frame, *at),
    }
}

/// The text that is shown, which may be that of a mark.
fn has_text(shown: &Result<Shown, NoMemory>, text: &str) -> bool {
    match shown {
        Ok(Shown::NoVariable) => text == "no variable",
        Ok(Shown::Marked(mark)) => text == mark.text(),
        Ok(Shown::Text(found)) => text == found.as_str(),
        Err(_) => false,
    }
}

fn first_wrong_in(
    alloc: Global,
    frame: &VariableFrame<'_, '_, '_, '_, '_, '_>,
    rows: &[Row],
) -> Option<usize> {
    for (i, (asked, text)) in rows.iter().enumerate() {
        if !has_text(&shown(alloc, frame, asked), text) {
            return Some(i);
        }
    }
    None
}

/// The number of the first row where something else is shown.
pub fn first_wrong<'a>(
    alloc: Global,
    sections: &Sections5<'a>,
    types: TypedUnits<'_, '_, 'a>,
    memory: &Option<Memory>,
    scene: &Scene,
    rows: &[Row],
) -> Option<usize> {
    let view = FrameView {
        locals: scene.locals,
        operands: scene.operands,
        globals: scene.globals,
        memory: memory.as_ref(),
    };
    let found = subprogram_at(alloc, sections, types.units().as_slice(), scene.address);
    let Ok(subprogram) = found else {
        return Some(0);
    };
    match VariableFrame::new(
        alloc,
        sections,
        types,
        scene.address,
        subprogram,
        &view,
        scene.left,
    ) {
        Ok(frame) => first_wrong_in(alloc, &frame, rows),
        Err(_) => Some(0),
    }
}

// A frame of the compiled module, in which `p` points behind the memory.
const COMPILED: Scene = Scene {
    address: 45,
    locals: &[Seen::I32(65_536), Seen::I32(0), Seen::I32(992)],
    operands: &[Seen::I32(65_536)],
    left: None,
    globals: &[Seen::I32(992)],
};

const PRINTED: [Row; 19] = [
    (Asked::Path("p"), "0x00010000"),
    (Asked::Path("x"), "7"),
    (Asked::Path("s"), "{a = 3, b = {0, 66 'B', 0, 0}}"),
    (Asked::Path("s.a"), "3"),
    (Asked::Path("s.b"), "{0, 66 'B', 0, 0}"),
    (Asked::Path("s.b[1]"), "66 'B'"),
    (Asked::Path("(s.b)[3]"), "0"),
    (Asked::Path("s.b[4]"), "<outside array>"),
    (Asked::Path("s.b[2147483647]"), "<outside memory>"),
    (Asked::Path("*p"), "<outside memory>"),
    (Asked::Path("p[2147483647]"), "0"),
    (Asked::Path("**p"), "<unsupported type>"),
    (Asked::Path("p.a"), "<unsupported type>"),
    (Asked::Path("s->a"), "<unsupported type>"),
    (Asked::Path("s.c"), "<unsupported type>"),
    (Asked::Path("q"), "no variable"),
    (Asked::Listed(48), "0x00010000"),
    (Asked::Listed(58), "7"),
    (Asked::Listed(68), "{a = 3, b = {0, 66 'B', 0, 0}}"),
];

const ABBREV: [u8; 78] = [
    1, 17, 1, 17, 1, 0, 0, 2, 36, 0, 62, 11, 11, 11, 0, 0, 3, 46, 1, 17, 1, 18, 11, 64, 24, 0, 0,
    4, 52, 0, 73, 17, 0, 0, 5, 52, 0, 73, 17, 28, 13, 0, 0, 6, 52, 0, 73, 17, 28, 10, 0, 0, 7, 52,
    0, 73, 17, 2, 24, 0, 0, 8, 52, 0, 73, 17, 2, 23, 0, 0, 9, 52, 0, 2, 24, 0, 0, 0,
];

// The root begins at 100, and a subprogram holds 100 to 119 with its frame base in local 0. Its
// variables are of 2 bytes each, but for the one at 185, which has no type: at 30 one that is
// nowhere, at 32 the constant -2, at 35 a block, at 40 an empty expression, at 43 one at frame base
// + 4, at 48 one whose address is in local 0, at 54 one by a global, at 60 an operator that is not
// known, at 64 a division by 0, at 70 65 entries, at 138 one behind the memory's end, at 147 a piece
// that is nowhere, at 156 two pieces, at 167, 173 and 179 by lists, of which the last one is none,
// at 189 the last byte of memory.
const INFO: [u8; 199] = [
    195, 0, 0, 0, 4, 0, 0, 0, 0, 0, 4, 1, 100, 0, 0, 0, 2, 5, 2, 3, 100, 0, 0, 0, 20, 4, 237, 0, 0,
    159, 4, 16, 5, 16, 126, 6, 16, 2, 1, 0, 7, 16, 0, 7, 16, 2, 145, 4, 7, 16, 3, 237, 0, 0, 7, 16,
    3, 237, 1, 0, 7, 16, 1, 224, 7, 16, 3, 48, 48, 27, 7, 16, 65, 48, 48, 48, 48, 48, 48, 48, 48,
    48, 48, 48, 48, 48, 48, 48, 48, 48, 48, 48, 48, 48, 48, 48, 48, 48, 48, 48, 48, 48, 48, 48, 48,
    48, 48, 48, 48, 48, 48, 48, 48, 48, 48, 48, 48, 48, 48, 48, 48, 48, 48, 48, 48, 48, 48, 48, 48,
    48, 48, 48, 48, 48, 48, 48, 48, 48, 7, 16, 6, 3, 254, 255, 255, 255, 6, 7, 16, 6, 48, 159, 147,
    1, 147, 1, 7, 16, 8, 53, 159, 147, 1, 49, 159, 147, 1, 8, 16, 0, 0, 0, 0, 8, 16, 20, 0, 0, 0,
    8, 16, 99, 0, 0, 0, 9, 2, 48, 159, 7, 16, 5, 3, 255, 255, 0, 0, 0, 0,
];

// The first list holds 100 to 119, the one at 20 holds 120 to 129.
const LOC: [u8; 39] = [
    0, 0, 0, 0, 20, 0, 0, 0, 2, 0, 55, 159, 0, 0, 0, 0, 0, 0, 0, 0, 20, 0, 0, 0, 30, 0, 0, 0, 1, 0,
    48, 0, 0, 0, 0, 0, 0, 0, 0,
];

const LOCATED_MODULE: Recorded = Recorded {
    info: &INFO,
    abbrev: &ABBREV,
    loc: &LOC,
    ranges: &[],
    contents: &[(44, &[0x34, 0x12])],
};

const LOCATED: Scene = Scene {
    address: 110,
    locals: &[Seen::I32(40)],
    operands: &[],
    left: None,
    globals: &[],
};

const SHOWN: [Row; 19] = [
    (Asked::Entry(30), "<optimised out>"),
    (Asked::Entry(32), "-2"),
    (Asked::Entry(35), "<optimised out>"),
    (Asked::Entry(40), "<optimised out>"),
    (Asked::Entry(43), "4660"),
    (Asked::Entry(48), "0"),
    (Asked::Entry(54), "<not recorded>"),
    (Asked::Entry(60), "<unsupported expression>"),
    (Asked::Entry(64), "<bad expression>"),
    (Asked::Entry(70), "<expression too deep>"),
    (Asked::Entry(138), "<outside memory>"),
    (Asked::Entry(147), "<optimised out>"),
    (Asked::Entry(156), "261"),
    (Asked::Entry(167), "7"),
    (Asked::Entry(173), "<optimised out>"),
    (Asked::Entry(179), "<bad expression>"),
    (Asked::Entry(185), "<unsupported type>"),
    (Asked::Entry(189), "<outside memory>"),
    (Asked::Entry(31), "no variable"),
];

// Variables of 2 bytes: at 30 one that is operand 0, at 37 operand 1, at 44 one whose address is in
// operand 1.
const OPERANDS: [u8; 52] = [
    48, 0, 0, 0, 4, 0, 0, 0, 0, 0, 4, 1, 100, 0, 0, 0, 2, 5, 2, 3, 100, 0, 0, 0, 20, 4, 237, 0, 0,
    159, 7, 16, 4, 237, 2, 0, 159, 7, 16, 4, 237, 2, 1, 159, 7, 16, 3, 237, 2, 1, 0, 0,
];

const CALLING_MODULE: Recorded = Recorded {
    info: &OPERANDS,
    abbrev: &ABBREV,
    loc: &[],
    ranges: &[],
    contents: &[(44, &[0x34, 0x12])],
};

// A call has taken operand 1.
const ONE_TAKEN: Scene = Scene {
    address: 110,
    locals: &[Seen::I32(40)],
    operands: &[Seen::I32(7)],
    left: Some(1),
    globals: &[],
};

const BEHIND_ONE: [Row; 3] = [
    (Asked::Entry(30), "7"),
    (Asked::Entry(37), "<optimised out>"),
    (Asked::Entry(44), "<optimised out>"),
];

// A call has taken both.
const BOTH_TAKEN: Scene = Scene {
    address: 110,
    locals: &[Seen::I32(40)],
    operands: &[],
    left: Some(0),
    globals: &[],
};

const BEHIND_BOTH: [Row; 3] = [
    (Asked::Entry(30), "<optimised out>"),
    (Asked::Entry(37), "<optimised out>"),
    (Asked::Entry(44), "<optimised out>"),
];

// A call has taken none.
const NONE_TAKEN: Scene = Scene {
    address: 110,
    locals: &[Seen::I32(40)],
    operands: &[Seen::I32(7), Seen::I32(44)],
    left: None,
    globals: &[],
};

const BEHIND_NONE: [Row; 3] = [
    (Asked::Entry(30), "7"),
    (Asked::Entry(37), "44"),
    (Asked::Entry(44), "4660"),
];

// A call has left both, and no operand is recorded.
const NONE_RECORDED: Scene = Scene {
    address: 110,
    locals: &[Seen::I32(40)],
    operands: &[],
    left: Some(2),
    globals: &[],
};

const WITHOUT_RECORD: [Row; 3] = [
    (Asked::Entry(30), "<not recorded>"),
    (Asked::Entry(37), "<not recorded>"),
    (Asked::Entry(44), "<not recorded>"),
];

// Variables of a compiled module, by their locations, and by operands that a call has taken.
const TABLES: [(&Recorded, Table); 6] = [
    (&COMPILED_MODULE, Table::Shown(&COMPILED, &PRINTED)),
    (&LOCATED_MODULE, Table::Shown(&LOCATED, &SHOWN)),
    (&CALLING_MODULE, Table::Shown(&ONE_TAKEN, &BEHIND_ONE)),
    (&CALLING_MODULE, Table::Shown(&BOTH_TAKEN, &BEHIND_BOTH)),
    (&CALLING_MODULE, Table::Shown(&NONE_TAKEN, &BEHIND_NONE)),
    (
        &CALLING_MODULE,
        Table::Shown(&NONE_RECORDED, &WITHOUT_RECORD),
    ),
];

#[test]
fn variables_are_shown(rt: HostRuntime) {
    assert_eq!(rt; recorded::first_wrong_of(rt.alloc(), &TABLES), None);
}
