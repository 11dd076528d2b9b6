//! The types that `call_indirect`s use. Numbers are met from the last one on, each once.

ghost use Rattle.std.specs.Prelude.{◌≡◌, ℕ, ◌<◌, ◌∷◌, ◌++◌, List, None, length, replicate, IfOk, OnOk};
ghost use Rattle.rewrite_modules.specs.Weight.{type_used};
ghost use Rattle.index_map.specs.inner.Used.{AllBelow, HasMet, bodies_used, ops_used};
ghost use Rattle.index_map.specs.inner.Kept.{AreUsed};

use causes::NoMemory;
use pm_text::Items;
use std::alloc::Global;
use wasm_syntax::{Body, Instr, Jump, ModuleParts, Op};

/// The types that are used, each once.
#[derive(Drop)]
pub(crate) struct UsedTypes {
    pub(crate) types: Items<u32>,
    /// For each type of the module, how many of them stand behind it; None where it is not used.
    pub(crate) places: Items<Option<usize>>,
}

/// Meets a type.
pub(crate) fn meet(met: &mut Vec<u32>, places: &mut [Option<usize>], t: u32) -> Result<(), NoMemory>
    requires { t < length places.old }
    ensures { (us : List ℕ) → HasMet us met.old.items places.old
        → OnOk result (HasMet (t ∷ us) met.new.items places.new) }
{
    match places[t as usize] {
        Some(_) => {}
        None => {
            places[t as usize] = Some(met.as_slice().len());
            met.push(t)?;
        }
    }
    Ok(())
}

/// Meets the type that an instruction uses.
fn meet_instr(met: &mut Vec<u32>, places: &mut [Option<usize>], code: Instr) -> Result<(), NoMemory>
    requires { AllBelow (length places.old) (type_used code) }
    ensures { (us : List ℕ) → HasMet us met.old.items places.old
        → OnOk result (HasMet (type_used code ++ us) met.new.items places.new) }
{
    match code {
        Instr::Jump(Jump::CallIndirect(t)) => meet(met, places, t),
        _ => Ok(()),
    }
}

/// Meets the types that flat code uses, from its end on.
fn meet_code(met: &mut Vec<u32>, places: &mut [Option<usize>], ops: &[Op]) -> Result<(), NoMemory>
    requires { AllBelow (length places.old) (ops_used ops.now) }
    ensures { (us : List ℕ) → HasMet us met.old.items places.old
        → OnOk result (HasMet (ops_used ops.now ++ us) met.new.items places.new) }
{
    let mut i = ops.len();
    while i > 0 {
        i -= 1;
        meet_instr(met, places, ops[i].code)?;
    }
    Ok(())
}

/// Meets the types that all bodies use, from the last one on.
fn meet_bodies(
    met: &mut Vec<u32>,
    places: &mut [Option<usize>],
    bodies: &[Body],
) -> Result<(), NoMemory>
    requires { AllBelow (length places.old) (bodies_used bodies.now) }
    ensures { (us : List ℕ) → HasMet us met.old.items places.old
        → OnOk result (HasMet (bodies_used bodies.now ++ us) met.new.items places.new) }
{
    let mut i = bodies.len();
    while i > 0 {
        i -= 1;
        meet_code(met, places, bodies[i].ops.as_slice())?;
    }
    Ok(())
}

/// A table in which no type was met.
pub(crate) fn new_places(alloc: Global, count: usize) -> Result<Vec<Option<usize>>, NoMemory>
    ensures { IfOk result (λ places. places.items ≡ replicate count None) }
{
    let places = vec![in alloc; None; count]?;
    Ok(places)
}

/// The types that a module uses, in one pass over its code.
pub(crate) fn used_types(alloc: Global, parts: &ModuleParts) -> Result<UsedTypes, NoMemory>
    requires { AllBelow (length parts.now.types) (bodies_used parts.now.bodies) }
    ensures { IfOk result (λ used. AreUsed parts.now used.types used.places) }
{
    let mut places = new_places(alloc, parts.types.len())?;
    let mut met = Vec::new(alloc);
    meet_bodies(&mut met, &mut places, parts.bodies.as_slice())?;
    met.reverse();
    Ok(UsedTypes {
        types: Items::from_vec(met),
        places: Items::from_vec(places),
    })
}
