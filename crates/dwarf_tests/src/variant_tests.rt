//! Structures with variant parts, as Rust has them of its enums. The expected texts are from the
//! standard's rules by hand.

use crate::recorded::{self, Recorded, Table};
use crate::shown_tests::{Asked, Row, Scene};

const ABBREV: [u8; 102] = [
    1, 17, 1, 17, 1, 0, 0, 2, 36, 0, 62, 11, 11, 11, 0, 0, 3, 46, 1, 17, 1, 18, 11, 0, 0, 4, 52, 0,
    3, 8, 73, 17, 2, 24, 0, 0, 5, 19, 1, 11, 11, 0, 0, 6, 13, 0, 3, 8, 73, 17, 56, 11, 0, 0, 7, 51,
    1, 21, 17, 0, 0, 8, 13, 0, 73, 17, 56, 11, 0, 0, 9, 25, 1, 22, 13, 0, 0, 10, 25, 1, 0, 0, 11,
    19, 0, 11, 11, 0, 0, 12, 25, 1, 61, 10, 0, 0, 13, 51, 1, 0, 0, 0,
];

// A function from 100 to 119, and two structures. The one at 34 is an `Option`: its discriminant of
// 4 bytes chooses `None` by 0 and `Some` by 1. The one at 65 has `first`, a variant part with a
// discriminant of one byte, in which -1 chooses `low` and every other number `other`, and `last`.
// That at 115 has lists: 3 and 5 to 9 choose `few` and a part in it, in which 1 chooses `deep`, and
// 200 chooses `many`. In that at 170 the numbers from -3 to -1 choose `minus`, and the others
// `rest`. That at 204 has one variant, and no discriminant.
const INFO: [u8; 370] = [
    110, 1, 0, 0, 4, 0, 0, 0, 0, 0, 4, 1, 100, 0, 0, 0, 2, 7, 4, 2, 5, 1, 11, 8, 5, 8, 6, 95, 95,
    48, 0, 16, 4, 0, 5, 8, 7, 38, 8, 16, 0, 9, 0, 6, 78, 111, 110, 101, 0, 22, 0, 0, 9, 1, 6, 83,
    111, 109, 101, 0, 24, 0, 0, 0, 0, 5, 4, 6, 102, 105, 114, 115, 116, 0, 19, 1, 7, 78, 8, 19, 0,
    9, 127, 6, 108, 111, 119, 0, 19, 2, 0, 10, 6, 111, 116, 104, 101, 114, 0, 19, 2, 0, 0, 6, 108,
    97, 115, 116, 0, 19, 3, 0, 2, 7, 1, 5, 4, 7, 119, 8, 112, 0, 12, 5, 0, 3, 1, 5, 9, 6, 102, 101,
    119, 0, 112, 1, 7, 138, 8, 112, 2, 9, 1, 6, 100, 101, 101, 112, 0, 112, 3, 0, 0, 0, 12, 3, 0,
    200, 1, 6, 109, 97, 110, 121, 0, 112, 1, 0, 0, 0, 5, 2, 7, 174, 8, 19, 0, 12, 3, 1, 125, 127,
    6, 109, 105, 110, 117, 115, 0, 112, 1, 0, 10, 6, 114, 101, 115, 116, 0, 112, 1, 0, 0, 0, 5, 1,
    13, 10, 6, 111, 110, 108, 121, 0, 112, 0, 0, 0, 0, 3, 100, 0, 0, 0, 20, 4, 115, 101, 0, 34, 5,
    3, 40, 0, 0, 0, 4, 110, 101, 0, 34, 5, 3, 48, 0, 0, 0, 4, 98, 110, 0, 34, 5, 3, 56, 0, 0, 0, 4,
    102, 114, 0, 34, 5, 3, 255, 255, 0, 0, 4, 108, 119, 0, 65, 5, 3, 64, 0, 0, 0, 4, 111, 114, 0,
    65, 5, 3, 68, 0, 0, 0, 4, 108, 53, 0, 115, 5, 3, 72, 0, 0, 0, 4, 108, 99, 0, 115, 5, 3, 76, 0,
    0, 0, 4, 108, 52, 0, 115, 5, 3, 80, 0, 0, 0, 4, 108, 57, 0, 115, 5, 3, 84, 0, 0, 0, 4, 109,
    105, 0, 170, 5, 3, 88, 0, 0, 0, 4, 114, 101, 0, 170, 5, 3, 90, 0, 0, 0, 4, 111, 110, 0, 204, 5,
    3, 92, 0, 0, 0, 0, 0,
];

const MODULE: Recorded = Recorded {
    info: &INFO,
    abbrev: &ABBREV,
    loc: &[],
    ranges: &[],
    contents: &[(
        40,
        &[
            1, 0, 0, 0, 5, 0, 0, 0, 0, 0, 0, 0, 0, 0, 0, 0, 7, 0, 0, 0, 0, 0, 0, 0, 0xff, 10, 11,
            12, 5, 10, 11, 12, 5, 11, 1, 12, 200, 13, 0, 0, 4, 0, 0, 0, 9, 14, 2, 0, 0xfe, 15,
            0xfc, 16, 17,
        ],
    )],
};

const ENUMS: Scene = Scene {
    address: 110,
    locals: &[],
    operands: &[],
    left: None,
    globals: &[],
};

const VARIANTS: [Row; 21] = [
    (Asked::Path("se"), "{Some = {__0 = 5}}"),
    (Asked::Path("ne"), "{None = {}}"),
    (Asked::Path("bn"), "{<optimised out>}"),
    (Asked::Path("fr"), "{<outside memory>}"),
    (Asked::Path("lw"), "{first = 10, low = 11, last = 12}"),
    (Asked::Path("or"), "{first = 10, other = 11, last = 12}"),
    (Asked::Path("se.Some.__0"), "5"),
    (Asked::Path("se.None"), "<unsupported type>"),
    (Asked::Path("bn.Some"), "<unsupported type>"),
    (Asked::Path("lw.low"), "11"),
    (Asked::Path("or.low"), "<unsupported type>"),
    (Asked::Path("or.last"), "12"),
    (Asked::Path("l5"), "{few = 11, deep = 12}"),
    (Asked::Path("lc"), "{many = 13}"),
    (Asked::Path("l4"), "{<optimised out>}"),
    (Asked::Path("l9"), "{few = 14, <optimised out>}"),
    (Asked::Path("mi"), "{minus = 15}"),
    (Asked::Path("re"), "{rest = 16}"),
    (Asked::Path("on"), "{only = 17}"),
    (Asked::Path("l5.deep"), "12"),
    (Asked::Path("lc.few"), "<unsupported type>"),
];

const TABLE: Table = Table::Shown(&ENUMS, &VARIANTS);

#[test]
fn the_discriminant_chooses_a_variant(rt: HostRuntime) {
    let wrong = recorded::first_wrong(rt.alloc(), &MODULE, &TABLE);
    assert_eq!(rt; wrong, None);
}
