//! Numbers of a rewritten module, and the names that the rewriting takes, worked out by hand.

ghost use Rattle.std.specs.Bool.{OnTrue};
ghost use Rattle.wasm_syntax.specs.Sizes.{WithinLimits};
ghost use Rattle.index_map.specs.calls.Wrapper.{HasWrapper};

use crate::modules::{Asked, DIV, is_so};
use crate::piece_tests::has_two_functions;
use index_map::{IndexMap, export_collision, import_collision};
use wasm_syntax::{ExportKind, Module, ModuleParts, ValType};

/// Two imports, `a` of `env` and `x` of `coredump`, and two functions. The first one is exported as
/// `f` and as `coredump.memory`, the import `a` as `a`, and the second function is the start
/// function.
const NAMED: [u8; 91] = [
    0x00, 0x61, 0x73, 0x6d, 0x01, 0x00, 0x00, 0x00, 0x01, 0x09, 0x02, 0x60, 0x01, 0x7f, 0x01, 0x7f,
    0x60, 0x00, 0x00, 0x02, 0x16, 0x02, 0x03, 0x65, 0x6e, 0x76, 0x01, 0x61, 0x00, 0x00, 0x08, 0x63,
    0x6f, 0x72, 0x65, 0x64, 0x75, 0x6d, 0x70, 0x01, 0x78, 0x00, 0x00, 0x03, 0x03, 0x02, 0x00, 0x01,
    0x07, 0x1b, 0x03, 0x01, 0x66, 0x00, 0x02, 0x0f, 0x63, 0x6f, 0x72, 0x65, 0x64, 0x75, 0x6d, 0x70,
    0x2e, 0x6d, 0x65, 0x6d, 0x6f, 0x72, 0x79, 0x00, 0x02, 0x01, 0x61, 0x00, 0x00, 0x08, 0x01, 0x03,
    0x0a, 0x09, 0x02, 0x04, 0x00, 0x20, 0x00, 0x0b, 0x02, 0x00, 0x0b,
];

/// An import `a` of `env`, two functions, of which the second is exported as `g`, and a table of
/// three elements, exported as `t`: the import and twice the first function, from the place on that
/// byte 52 says, which is 0.
const SHOWN: [u8; 67] = [
    0x00, 0x61, 0x73, 0x6d, 0x01, 0x00, 0x00, 0x00, 0x01, 0x04, 0x01, 0x60, 0x00, 0x00, 0x02, 0x09,
    0x01, 0x03, 0x65, 0x6e, 0x76, 0x01, 0x61, 0x00, 0x00, 0x03, 0x03, 0x02, 0x00, 0x00, 0x04, 0x04,
    0x01, 0x70, 0x00, 0x03, 0x07, 0x09, 0x02, 0x01, 0x74, 0x01, 0x00, 0x01, 0x67, 0x00, 0x02, 0x09,
    0x09, 0x01, 0x00, 0x41, 0x00, 0x0b, 0x03, 0x00, 0x01, 0x01, 0x0a, 0x07, 0x02, 0x02, 0x00, 0x0b,
    0x02, 0x00, 0x0b,
];

/// Whether the first export is of a function that the module defines.
fn is_defined(parts: &ModuleParts) -> bool
    ensures { OnTrue result (HasWrapper parts.now 0) }
{
    match parts.exports.get(0) {
        Some(export) => {
            matches!(export.kind, ExportKind::Function)
                && export.index as usize >= parts.imports.len()
        }
        None => false,
    }
}

/// An import stays, three of the collector stand behind the imports, then the functions, and then
/// the wrappers of exports and of the start function.
fn has_numbers(numbers: &IndexMap<'_>) -> bool {
    let parts = numbers.source();
    if !has_two_functions(parts) || !is_defined(parts) {
        return false;
    }
    let found = [
        numbers.function(0),
        numbers.function(1),
        numbers.value_import(ValType::I32),
        numbers.value_import(ValType::I64),
        numbers.frame_import(),
        numbers.flag(),
        numbers.length(),
        numbers.wrapper(0),
    ];
    found == [0, 1, 2, 3, 4, 0, 1, 7]
}

fn has_wrappers(numbers: &IndexMap<'_>) -> bool {
    numbers.wrapped() == [2, 2, 3].as_slice()
        && numbers.exports() == [7, 8, 0].as_slice()
        && numbers.start() == Some(9)
        && numbers.helper_base() == 10
        && numbers.helped().is_empty()
}

/// Whether the module of two imports has its numbers.
pub fn is_numbered(numbers: &IndexMap<'_>) -> bool {
    has_numbers(numbers) && has_wrappers(numbers)
}

/// The wrapper of the export stands behind the two functions, and then that of the one function of
/// the table that the module defines; where the table stays as it is, there is none.
fn has_table(numbers: &IndexMap<'_>, doubled: bool, wrapped: &[u32], helpers: u32) -> bool {
    numbers.doubles() == doubled
        && numbers.table_size() == 3
        && numbers.wrapped() == wrapped
        && numbers.wrapper_base() == 6
        && numbers.exports() == [0, 6].as_slice()
        && numbers.helper_base() == helpers
}

/// Whether the table that a host sees has its numbers.
pub fn is_shown(numbers: &IndexMap<'_>, doubled: bool) -> bool {
    if doubled {
        has_table(numbers, true, &[2, 1], 8)
    } else {
        has_table(numbers, false, &[2], 7)
    }
}

/// The elements stand one place further on, where the last one is out of the table.
fn moved_on() -> [u8; 67] {
    let mut bytes = SHOWN;
    bytes[52] = 1;
    bytes
}

/// Whether these are the first import and the first export with a name that the rewriting takes.
pub fn has_collisions(source: &Module, import: Option<u32>, export: Option<u32>) -> bool
    requires { WithinLimits source.now }
{
    import_collision(source) == import && export_collision(source) == export
}

#[test]
fn functions_names_and_tables_have_numbers(rt: HostRuntime) {
    let alloc = rt.alloc();
    // Functions stand behind the collector.
    assert!(rt; is_so(alloc, &NAMED, &Asked::Numbers));
    // Taken names are told.
    assert!(rt; is_so(alloc, &NAMED, &Asked::Collisions(Some(1), Some(1))));
    assert!(rt; is_so(alloc, &DIV, &Asked::Collisions(None, None)));
    // A table that a host sees is doubled, and stays where its segments do not fit.
    assert!(rt; is_so(alloc, &SHOWN, &Asked::Shown(true)));
    assert!(rt; is_so(alloc, &moved_on(), &Asked::Shown(false)));
}
