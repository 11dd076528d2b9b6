//! Variables as compilers write them: in memory by an address in a local, with static members, code
//! points and integers of 16 bytes, in namespaces and in other units. The expected texts are from
//! the standard's rules by hand.

use crate::recorded::{self, Recorded, Table};
use crate::shown_tests::{Asked, Row, Scene};
use wasm_syntax::Seen;

const ABBREV: [u8; 90] = [
    1, 17, 1, 17, 1, 0, 0, 2, 36, 0, 62, 11, 11, 11, 0, 0, 3, 46, 1, 17, 1, 18, 11, 0, 0, 4, 52, 0,
    3, 8, 73, 17, 2, 24, 0, 0, 5, 19, 1, 11, 11, 0, 0, 6, 13, 0, 3, 8, 73, 17, 56, 11, 0, 0, 7, 13,
    0, 3, 8, 73, 17, 28, 13, 63, 25, 60, 25, 0, 0, 8, 13, 0, 3, 8, 73, 17, 63, 12, 60, 12, 0, 0, 9,
    57, 1, 3, 8, 0, 0, 0,
];

// Two units. The first holds a function from 100 to 119. Its types are `int` at 16, a code point of
// 4 bytes and one of 1, integers of 16 bytes, and a structure of `a`, the static `k` and `n`, `m`
// whose flags are not set, and `b`. In a namespace stand `counter`, `both`, a function with
// `hidden`, and in another namespace `deep`; behind it `both` again. The second unit has `far` and
// `counter` in a namespace, and `other`.
const INFO: [u8; 354] = [
    7, 1, 0, 0, 4, 0, 0, 0, 0, 0, 4, 1, 100, 0, 0, 0, 2, 5, 4, 2, 16, 4, 2, 16, 1, 2, 5, 16, 2, 7,
    16, 5, 8, 6, 97, 0, 16, 0, 7, 107, 0, 16, 183, 7, 8, 110, 0, 16, 1, 0, 8, 109, 0, 16, 0, 0, 6,
    98, 0, 16, 4, 0, 3, 100, 0, 0, 0, 20, 4, 115, 0, 31, 3, 237, 0, 0, 4, 116, 0, 31, 4, 237, 0, 0,
    159, 4, 120, 0, 16, 3, 237, 0, 1, 4, 121, 0, 16, 4, 237, 0, 1, 150, 4, 122, 0, 16, 4, 237, 0,
    1, 159, 4, 112, 0, 19, 5, 3, 48, 0, 0, 0, 4, 113, 0, 22, 5, 3, 52, 0, 0, 0, 4, 114, 0, 25, 5,
    3, 56, 0, 0, 0, 4, 117, 0, 28, 5, 3, 56, 0, 0, 0, 4, 118, 0, 25, 5, 3, 72, 0, 0, 0, 4, 119, 0,
    28, 5, 3, 72, 0, 0, 0, 4, 111, 0, 25, 4, 237, 0, 0, 159, 0, 9, 110, 0, 4, 99, 111, 117, 110,
    116, 101, 114, 0, 16, 5, 3, 44, 0, 0, 0, 4, 98, 111, 116, 104, 0, 16, 5, 3, 40, 0, 0, 0, 3,
    200, 0, 0, 0, 10, 4, 104, 105, 100, 100, 101, 110, 0, 16, 5, 3, 40, 0, 0, 0, 0, 9, 105, 0, 4,
    100, 101, 101, 112, 0, 16, 5, 3, 40, 0, 0, 0, 0, 0, 4, 98, 111, 116, 104, 0, 16, 5, 3, 44, 0,
    0, 0, 0, 83, 0, 0, 0, 4, 0, 0, 0, 0, 0, 4, 1, 44, 1, 0, 0, 2, 5, 4, 3, 44, 1, 0, 0, 10, 4, 108,
    111, 99, 97, 108, 0, 16, 5, 3, 40, 0, 0, 0, 0, 9, 102, 0, 4, 102, 97, 114, 0, 16, 5, 3, 44, 0,
    0, 0, 4, 99, 111, 117, 110, 116, 101, 114, 0, 16, 5, 3, 40, 0, 0, 0, 0, 4, 111, 116, 104, 101,
    114, 0, 16, 5, 3, 40, 0, 0, 0, 0,
];

const MODULE: Recorded = Recorded {
    info: &INFO,
    abbrev: &ABBREV,
    loc: &[],
    ranges: &[],
    contents: &[(
        40,
        &[
            0x87, 0xd6, 0x12, 0, 77, 0, 0, 0, 0xbb, 3, 0, 0, 65, 0, 0, 0, 0xfe, 0xff, 0xff, 0xff,
            0xff, 0xff, 0xff, 0xff, 0xff, 0xff, 0xff, 0xff, 0xff, 0xff, 0xff, 0xff, 0, 0, 0, 0, 0,
            0, 0, 0, 0, 0, 0, 0, 0, 0, 0, 0x80,
        ],
    )],
};

const OBJECTS: Scene = Scene {
    address: 110,
    locals: &[Seen::I32(40), Seen::I32(44)],
    operands: &[],
    left: None,
    globals: &[],
};

const ROWS: [Row; 26] = [
    // One location alone holds the address.
    (Asked::Path("s.b"), "77"),
    (Asked::Path("x"), "77"),
    (Asked::Path("y"), "77"),
    (Asked::Path("z"), "44"),
    (Asked::Path("t.a"), "40"),
    // Static members are no part of the object.
    (
        Asked::Path("s"),
        "{a = 1234567, k = 951, n = <optimised out>, m = 1234567, b = 77}",
    ),
    (
        Asked::Path("t"),
        "{a = 40, k = 951, n = <optimised out>, m = 40, b = 0}",
    ),
    (Asked::Path("s.k"), "951"),
    (Asked::Path("s.n"), "<optimised out>"),
    (Asked::Path("s.m"), "1234567"),
    (
        Asked::Listed(68),
        "{a = 1234567, k = 951, n = <optimised out>, m = 1234567, b = 77}",
    ),
    // Code points and wide integers have texts.
    (Asked::Path("p"), "955 '\\u{3bb}'"),
    (Asked::Path("q"), "65 'A'"),
    (Asked::Path("r"), "-2"),
    (Asked::Path("u"), "340282366920938463463374607431768211454"),
    (Asked::Path("v"), "-170141183460469231731687303715884105728"),
    (Asked::Path("w"), "170141183460469231731687303715884105728"),
    (Asked::Path("o"), "<unsupported type>"),
    // Names reach namespaces and other units.
    (Asked::Path("counter"), "77"),
    (Asked::Path("deep"), "1234567"),
    (Asked::Path("both"), "77"),
    (Asked::Path("far"), "77"),
    (Asked::Path("other"), "1234567"),
    (Asked::Path("hidden"), "no variable"),
    (Asked::Path("local"), "no variable"),
    (Asked::Path("n"), "no variable"),
];

const TABLE: Table = Table::Shown(&OBJECTS, &ROWS);

#[test]
fn objects_are_shown(rt: HostRuntime) {
    let wrong = recorded::first_wrong(rt.alloc(), &MODULE, &TABLE);
    assert_eq!(rt; wrong, None);
}
