//! The limits that a module keeps.

ghost use Rattle.std.specs.Prelude.{◌≡◌, ◌<◌, ◌^◌, ℕ, length, map, slice_get};
ghost use Rattle.std.specs.List.{AllByRecursion};
ghost use Rattle.wasm_syntax.specs.declared.quantity.Quantity.TheVariants.{Locals};
ghost use Rattle.wasm_syntax.specs.Sizes.{ShortType, parameter_count, nesting};
ghost use Rattle.wasm_decode.specs.Decode.{all_locals, first_over, too_much};
ghost use Rattle.wasm_decode.specs.inner.Fit.{FewLocals};

use crate::fault::DecodeFault;
use pm_text::Items;
use wasm_syntax::{Body, FuncTypes, Limits, ModuleParts, Quantity};

/// What is counted against a limit.
trait Counted {
    ghost count: { Self → ℕ };

    fn count(&self) -> u64
        ensures { result ≡ count self.now };
}

/// The least size of a table or a memory.
impl Counted for Limits {
    ghost count = { λ l. l.min };

    fn count(&self) -> u64 {
        u64::from(self.min)
    }
}

/// The nesting of a body.
impl Counted for Body {
    ghost count = { nesting };

    fn count(&self) -> u64 {
        self.nesting()
    }
}

/// The first count that passes the greatest number of the quantity.
fn first_over<T: Counted>(what: Quantity, items: &Items<T>) -> Option<DecodeFault>
    ensures { result ≡ first_over what (map T.count items.now) }
{
    for item in items.as_slice() {
        let count = item.count();
        if count > what.limit() {
            return Some(DecodeFault::Limit { what, count });
        }
    }
    None
}

/// The parameters of a type; none where its index is out of range.
fn parameter_count(types: &FuncTypes, index: u32) -> u64
    requires { AllByRecursion ShortType types.now }
    ensures is { result ≡ parameter_count (slice_get types.now index) }
    ensures small { result < 2 ^ 32 }
{
    match types.get(index as usize) {
        Some(ftype) => ftype.params.len() as u64,
        None => 0,
    }
}

/// The first function, of those that have bodies, that has too many locals.
fn locals_over(types: &FuncTypes, functions: &[u32], bodies: &[Body]) -> Option<DecodeFault>
    requires types { AllByRecursion ShortType types.now }
    requires few { AllByRecursion FewLocals bodies.now }
    requires same { length functions.now ≡ length bodies.now }
    ensures { result ≡ first_over Locals (all_locals types.now functions.now bodies.now) }
{
    for index in 0..bodies.len() {
        let count = parameter_count(types, functions[index]) + bodies[index].declared();
        if count > Quantity::Locals.limit() {
            return Some(DecodeFault::Limit {
                what: Quantity::Locals,
                count,
            });
        }
    }
    None
}

/// The first quantity of a module that passes its greatest number.
#[tactic(auto, unfolding(crate::specs::Decode::too_much))]
pub fn too_much(parts: &ModuleParts) -> Option<DecodeFault>
    requires types { AllByRecursion ShortType parts.now.types }
    requires few { AllByRecursion FewLocals parts.now.bodies }
    requires same { length parts.now.functions ≡ length parts.now.bodies }
    ensures { result ≡ too_much parts.now }
{
    if let Some(fault) = locals_over(
        &parts.types,
        parts.functions.as_slice(),
        parts.bodies.as_slice(),
    ) {
        return Some(fault);
    }
    if let Some(fault) = first_over(Quantity::Nesting, &parts.bodies) {
        return Some(fault);
    }
    if let Some(fault) = first_over(Quantity::Table, &parts.tables) {
        return Some(fault);
    }
    first_over(Quantity::Memory, &parts.memories)
}
