//! Weights of modules, each the sum of its parts by hand.

ghost use Rattle.std.specs.Prelude.{◌≡◌, ◌≤◌, ℕ, [], ◌∷◌, List, IfOk};
ghost use Rattle.wasm_syntax.specs.declared.quantity.Quantity.TheVariants.{Height};
ghost use Rattle.wasm_syntax.specs.Quantity.{greatest};
ghost use Rattle.wasm_syntax.specs.Sizes.{WithinLimits};
ghost use Rattle.wasm_format_laws.specs.calls.Sized.{Sized};
ghost use Rattle.rewrite_modules.specs.Weight.{height_at};

use crate::modules::{Asked, DIV, is_so};
use causes::NoMemory;
use index_map::{IndexMap, first_excess, weight};
use pm_text::Items;
use std::alloc::Global;
use wasm_syntax::Heights;

/// Magic and version alone: 512, and 8 for each of 8 bytes.
const EMPTY: [u8; 8] = [0x00, 0x61, 0x73, 0x6d, 0x01, 0x00, 0x00, 0x00];

/// The operand heights of the division.
fn heights(alloc: Global) -> Result<Heights, NoMemory>
    ensures { IfOk result (λ heights. heights ≡ (0 ∷ 1 ∷ 2 ∷ 1 ∷ []) ∷ []) }
{
    let mut heights = Items::new(alloc);
    heights.push(Items::from_slice(alloc, &[0, 1, 2, 1])?)?;
    Ok(heights)
}

/// Whether a module weighs so much, and no limit of the rewriting passes.
fn weighs(numbers: &IndexMap<'_>, heights: &Heights, expected: u64) -> bool
    requires sized { Sized numbers.now }
    requires limits { WithinLimits numbers.now }
    requires low { (i op : ℕ) → height_at heights.now i op ≤ greatest Height }
{
    weight(numbers, heights) == expected && first_excess(numbers, heights).is_none()
}

/// 512 for the module, 208, 224, 232 and 216 for its instructions, 224 for the function, 160 for
/// the export, and 8 for each of 41 bytes.
pub fn division_weighs(alloc: Global, numbers: &IndexMap<'_>) -> bool
    requires sized { Sized numbers.now }
    requires limits { WithinLimits numbers.now }
{
    match heights(alloc) {
        Ok(heights) => weighs(numbers, &heights, 2104),
        Err(_) => false,
    }
}

/// The module without sections weighs its header.
pub fn nothing_weighs(alloc: Global, numbers: &IndexMap<'_>) -> bool
    requires sized { Sized numbers.now }
    requires limits { WithinLimits numbers.now }
{
    let heights = Items::new(alloc);
    weighs(numbers, &heights, 576)
}

#[test]
fn weights_are_sums_of_parts(rt: HostRuntime) {
    assert!(rt; is_so(rt.alloc(), &DIV, &Asked::Weight));
    assert!(rt; is_so(rt.alloc(), &EMPTY, &Asked::NoWeight));
}
