//! The limits of the rewriting.

ghost use Rattle.std.specs.Prelude.{◌≡◌, ◌+◌, ◌<◌, ◌≤◌, ◌^◌, [], ◌∷◌, ℕ, length, map, None};
ghost use Rattle.wasm_syntax.specs.declared.quantity.Quantity.TheVariants.{Height, InstrumentHeight, InstrumentLocals};
ghost use Rattle.wasm_syntax.specs.declared.quantity.Quantity.TheVariants.{Locals};
ghost use Rattle.wasm_syntax.specs.Module.{type_at};
ghost use Rattle.wasm_syntax.specs.Quantity.{greatest};
ghost use Rattle.wasm_syntax.specs.Sizes.{WithinLimits, local_count, nesting};
ghost use Rattle.wasm_syntax.specs.Valid.{AtIndex};
ghost use Rattle.wasm_format_laws.specs.calls.Sized.{Sized};
ghost use Rattle.rewrite_modules.specs.Weight.{height_at};
ghost use Rattle.index_map.specs.Limits.{first_excess, first_over, function_heights, function_locals};

use crate::IndexMap;
use crate::count::{heights_of, highest_of};
use crate::weights::weight;
use pm_text::Items;
use wasm_syntax::{Body, FuncType, Heights, ModuleParts, Quantity};

/// A quantity that passes its greatest number, and how much there is of it.
#[derive(Clone, Copy)]
pub struct Excess {
    pub what: Quantity,
    pub count: u64,
}

/// What is counted against a limit.
trait Counted {
    ghost count: { Self → ℕ };

    fn count(&self) -> u64
        ensures { result ≡ count self.now };
}

/// The parameters of a type.
impl Counted for FuncType {
    ghost count = { λ t. length t.params };

    fn count(&self) -> u64 {
        self.params.len() as u64
    }
}

/// The nesting of a body.
impl Counted for Body {
    ghost count = { nesting };

    fn count(&self) -> u64 {
        self.nesting()
    }
}

/// A number, where it passes the greatest one of the quantity.
fn over(what: Quantity, count: u64) -> Option<Excess>
    ensures { result ≡ first_over what (count ∷ []) }
{
    if count > what.limit() {
        Some(Excess { what, count })
    } else {
        None
    }
}

/// The first count that passes.
fn first_over<T: Counted>(what: Quantity, items: &Items<T>) -> Option<Excess>
    ensures { result ≡ first_over what (map T.count items.now) }
{
    for item in items.as_slice() {
        let count = item.count();
        if count > what.limit() {
            return Some(Excess { what, count });
        }
    }
    None
}

/// The first function that has too many locals.
fn locals_over(parts: &ModuleParts) -> Option<Excess>
    requires few { length parts.now.imports + length parts.now.bodies < 2 ^ 64 }
    requires locals { AtIndex parts.now.bodies
        (λ i body. local_count (type_at parts.now (length parts.now.imports + i)) body
        ≤ greatest Locals) }
    ensures { result ≡ first_over InstrumentLocals (function_locals parts.now 0 parts.now.bodies) }
{
    let what = Quantity::InstrumentLocals;
    let bodies = parts.bodies.as_slice();
    for i in 0..bodies.len() {
        let count = bodies[i].locals(parts.type_of(parts.imports.len() + i));
        if count > what.limit() {
            return Some(Excess { what, count });
        }
    }
    None
}

/// The first function that has too many operands at once.
fn heights_over(bodies: &[Body], heights: &Heights) -> Option<Excess>
    ensures { result ≡ first_over InstrumentHeight (function_heights heights.now 0 bodies.now) }
{
    let what = Quantity::InstrumentHeight;
    for i in 0..bodies.len() {
        let count = highest_of(heights_of(heights, i), bodies[i].ops.as_slice());
        if count > what.limit() {
            return Some(Excess { what, count });
        }
    }
    None
}

/// The first quantity that passes its greatest number: of locals by functions, with parameters, of
/// parameters by types, of operand heights and of nesting by functions, and the weight.
#[tactic(auto, unfolding(crate::specs::Limits::first_excess))]
pub fn first_excess(numbers: &IndexMap<'_>, heights: &Heights) -> Option<Excess>
    requires sized { Sized numbers.now }
    requires limits { WithinLimits numbers.now }
    requires low { (i op : ℕ) → height_at heights.now i op ≤ greatest Height }
    ensures { result ≡ first_excess numbers.now heights.now }
{
    let parts = numbers.source();
    if let Some(excess) = locals_over(parts) {
        return Some(excess);
    }
    if let Some(excess) = first_over(Quantity::InstrumentParameters, &parts.types) {
        return Some(excess);
    }
    if let Some(excess) = heights_over(parts.bodies.as_slice(), heights) {
        return Some(excess);
    }
    if let Some(excess) = first_over(Quantity::InstrumentNesting, &parts.bodies) {
        return Some(excess);
    }
    over(Quantity::Weight, weight(numbers, heights))
}
