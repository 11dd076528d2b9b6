//! What is asked of modules. Each is read and validated in one function, and numbered in another
//! one, for all that is asked.

ghost use Rattle.std.specs.Prelude.{◌≡◌, IfSome};
ghost use Rattle.wasm_syntax.specs.Sizes.{WithinLimits};
ghost use Rattle.wasm_format_laws.specs.calls.Sized.{Sized};

use crate::contexts::{Written, writes};
use crate::{exit_tests, guard_tests, number_tests, piece_tests, plan_tests, weight_tests};
use index_map::IndexMap;
use std::alloc::Global;
use wasm_decode::decode;
use wasm_format_laws::sizes::spelled_is_sized;
use wasm_syntax::Module;
use wasm_validate::{Validated, validate};

/// A function that divides its first parameter by its second, and is exported.
pub const DIV: [u8; 41] = [
    0x00, 0x61, 0x73, 0x6d, 0x01, 0x00, 0x00, 0x00, 0x01, 0x07, 0x01, 0x60, 0x02, 0x7f, 0x7f, 0x01,
    0x7f, 0x03, 0x02, 0x01, 0x00, 0x07, 0x07, 0x01, 0x03, 0x64, 0x69, 0x76, 0x00, 0x00, 0x0a, 0x09,
    0x01, 0x07, 0x00, 0x20, 0x00, 0x20, 0x01, 0x6d, 0x0b,
];

fn checked(alloc: Global, m: Module) -> Option<Validated>
    requires limits { WithinLimits m }
    requires sized { Sized m }
    ensures { IfSome result Sized }
{
    match validate(alloc, m) {
        Ok(v) => Some(v),
        Err(_) => None,
    }
}

/// None where the bytes are no valid module.
fn valid(alloc: Global, bytes: &[u8]) -> Option<Validated>
    ensures { IfSome result Sized }
{
    spelled_is_sized();
    match decode(alloc, bytes) {
        Ok(m) => checked(alloc, m),
        Err(_) => None,
    }
}

/// What is asked of a module.
pub enum Asked {
    /// What is written around the nodes of its first function.
    Exit,
    /// How many locals of that are worked out where its frame is left.
    Derived(usize),
    /// The verdicts of guards of divisions, and their kinds of traps.
    Guards,
    /// Pieces of rewritten bodies.
    Pieces,
    /// The numbers of a module with a start function.
    Numbers,
    /// The first import and the first export with a name that the rewriting takes.
    Collisions(Option<u32>, Option<u32>),
    /// A table that a host sees, and whether it is doubled.
    Shown(bool),
    /// The added locals of a division.
    Division,
    /// The added locals and the known constants of nested blocks.
    Nested,
    /// The weight of a division.
    Weight,
    /// The weight of no module.
    NoWeight,
}

fn answers(alloc: Global, source: &Validated, map: &IndexMap<'_>, asked: &Asked) -> bool
    requires sized { Sized map.now }
    requires limits { WithinLimits map.now }
{
    match asked {
        Asked::Exit => writes(alloc, map, &exit_tests::LOCALS, &Written::Exit),
        Asked::Derived(count) => exit_tests::counts_of(alloc, map.source(), *count),
        Asked::Guards => writes(alloc, map, &guard_tests::PARAMETERS, &Written::Guards),
        Asked::Pieces => writes(alloc, map, &piece_tests::LOCALS, &Written::Pieces),
        Asked::Numbers => number_tests::is_numbered(map),
        Asked::Collisions(import, export) => {
            number_tests::has_collisions(source.module(), *import, *export)
        }
        Asked::Shown(doubled) => number_tests::is_shown(map, *doubled),
        Asked::Division => plan_tests::is_planned(alloc, source, false),
        Asked::Nested => plan_tests::is_planned(alloc, source, true),
        Asked::Weight => weight_tests::division_weighs(alloc, map),
        Asked::NoWeight => weight_tests::nothing_weighs(alloc, map),
    }
}

fn numbered(alloc: Global, source: &Validated, asked: &Asked) -> bool
    requires sized { Sized source.now }
{
    match IndexMap::new(alloc, source.module()) {
        Ok(map) => answers(alloc, source, &map, asked),
        Err(_) => false,
    }
}

/// Whether what is asked is so in a valid module.
pub fn is_so(alloc: Global, bytes: &[u8], asked: &Asked) -> bool {
    match valid(alloc, bytes) {
        Some(source) => numbered(alloc, &source, asked),
        None => false,
    }
}
