//! All function bodies of a module.

ghost use Rattle.std.specs.Prelude.{◌≡◌, ◌<◌, length, slice_get, Some};
ghost use Rattle.wasm_syntax.specs.Module.{IsModule};
ghost use Rattle.wasm_syntax.specs.Sizes.{WithinLimits};
ghost use Rattle.wasm_validate.specs.inner.Places.{UpTo};
ghost use Rattle.wasm_validate.specs.calls.Whole.{BodyJudged, BodiesJudged};
ghost use Rattle.wasm_validate.specs.declared.bodies.BodiesFault.TheVariants as faults;

use causes::NoMemory;
use pm_text::Items;
use std::alloc::Global;
use validate_body::{BodyFault, Marks, check_body};
use wasm_syntax::{Body, ModuleParts, Place};

/// Why a module is refused: at a place, or for want of memory.
#[derive(Clone, Copy)]
pub enum BodiesFault {
    At(Place),
    NoMemory,
}

impl From<NoMemory> for BodiesFault {
    ghost from_gives = { λ _ e. e ≡ faults.NoMemory };

    fn from(_error: NoMemory) -> Self {
        BodiesFault::NoMemory
    }
}

/// The body of the i-th defined function.
fn body_at(bodies: &Items<Body>, i: usize) -> &Body
    requires { i < length bodies.now }
    ensures { slice_get bodies.now i ≡ Some result.now }
{
    &bodies.as_slice()[i]
}

/// Whether the body of the i-th defined function has its type.
fn check_at(alloc: Global, m: &ModuleParts, i: usize) -> Result<Marks, BodyFault>
    requires limits { WithinLimits m.now }
    requires whole { IsModule m.now }
    requires here { i < length m.now.bodies }
    requires others { UpTo m.now 10 0 }
    ensures { BodyJudged result m.now i }
{
    let body = body_at(&m.bodies, i);
    match m.type_of(m.imports.len() + i) {
        Some(t) => check_body(alloc, m, t, body),
        None => unreachable!(),
    }
}

/// The first function whose body is wrong, where all other places are fine; or what is known before
/// each instruction.
pub fn check_bodies(alloc: Global, m: &ModuleParts) -> Result<Items<Marks>, BodiesFault>
    requires limits { WithinLimits m.now }
    requires whole { IsModule m.now }
    requires others { UpTo m.now 10 0 }
    ensures { BodiesJudged result m.now }
{
    let mut all = Items::new(alloc);
    let mut i = 0;
    while i < m.bodies.len() {
        match check_at(alloc, m, i) {
            Ok(marks) => {
                all.push(marks)?;
            }
            Err(BodyFault::WrongAt(offset)) => {
                let index = (m.imports.len() + i) as u32;
                return Err(BodiesFault::At(Place::Function { index, offset }));
            }
            Err(BodyFault::NoMemory) => return Err(BodiesFault::NoMemory),
        }
        i += 1;
    }
    Ok(all)
}
