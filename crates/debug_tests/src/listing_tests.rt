//! Listings of recorded values.

use debugger::push_listing;
use pm_text::Text;
use std::alloc::Global;
use wasm_syntax::Seen;

/// Recorded values, how many there are where none is recorded, and the lines.
type Row<'a> = (&'a [Seen], u32, &'a str);

const ROWS: [Row<'static>; 4] = [
    (
        &[Seen::I32(4_294_967_289), Seen::Missing, Seen::I64(5)],
        3,
        "local 0 i32:-7\nlocal 1 <not recorded>\nlocal 2 i64:5\n",
    ),
    (&[], 0, "no locals\n"),
    (&[], 2, "local 0 <not recorded>\nlocal 1 <not recorded>\n"),
    (&[Seen::I32(0)], 0, "local 0 i32:0\n"),
];

fn is_listed(alloc: Global, row: &Row<'_>) -> bool {
    let mut text = Text::new(alloc);
    push_listing(&mut text, "local", row.0, row.1).is_ok() && text.as_str() == row.2
}

#[test]
fn values_are_listed(rt: HostRuntime) {
    for row in &ROWS {
        assert!(rt; is_listed(rt.alloc(), row), "{}", row.2);
    }
}
