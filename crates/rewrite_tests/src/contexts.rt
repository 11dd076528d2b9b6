//! Contexts of functions with four heights that give an i32, made in one function for all that is
//! written with them.

use crate::{exit_tests, guard_tests, piece_tests};
use causes::NoMemory;
use index_map::IndexMap;
use pm_text::Items;
use rewrite_code::{Derivation, Exits, FunctionContext, Landings, Offsets};
use std::alloc::Global;
use wasm_syntax::{ModuleParts, ValType};

/// What is written.
pub enum Written {
    /// What stands around the nodes of function 0, with what needs a guard in it and the locals
    /// that are worked out.
    Exit,
    /// Guards of divisions in function 0, without any local that is worked out.
    Guards,
    /// Pieces of the body of function 1, in which a division needs its guard.
    Pieces,
}

fn guarded_of(alloc: Global, parts: &ModuleParts, what: &Written) -> Result<Offsets, NoMemory> {
    match what {
        Written::Exit => exit_tests::guards(alloc, parts),
        Written::Guards => Ok(Offsets::new(alloc)),
        Written::Pieces => piece_tests::five(alloc),
    }
}

fn derived_of(
    alloc: Global,
    parts: &ModuleParts,
    guarded: &Offsets,
    what: &Written,
) -> Result<Items<Derivation>, NoMemory> {
    match what {
        Written::Exit => exit_tests::found(alloc, parts, guarded),
        _ => Ok(Items::new(alloc)),
    }
}

fn writes_in(
    alloc: Global,
    map: &IndexMap<'_>,
    locals: Items<ValType>,
    guarded: Offsets,
    derived: Items<Derivation>,
    what: &Written,
) -> bool {
    if locals.len() > 6 {
        return false;
    }
    let exits = Exits {
        landings: Landings::new(alloc),
        exposed: guarded,
        derivations: derived,
    };
    let gives = Some(ValType::I32);
    let index = match what {
        Written::Pieces => 1,
        _ => 0,
    };
    let context = FunctionContext::new(map, locals, 4, index, gives, exits);
    match what {
        Written::Exit => exit_tests::has_exit(alloc, &context),
        Written::Guards => guard_tests::all_leave(alloc, &context),
        Written::Pieces => piece_tests::writes_all(alloc, &context),
    }
}

fn writes_with(
    alloc: Global,
    map: &IndexMap<'_>,
    locals: &[ValType],
    guarded: Offsets,
    derived: Items<Derivation>,
    what: &Written,
) -> bool {
    match Items::from_slice(alloc, locals) {
        Ok(locals) => writes_in(alloc, map, locals, guarded, derived, what),
        Err(_) => false,
    }
}

fn writes_behind(
    alloc: Global,
    map: &IndexMap<'_>,
    locals: &[ValType],
    guarded: Offsets,
    what: &Written,
) -> bool {
    match derived_of(alloc, map.source(), &guarded, what) {
        Ok(derived) => writes_with(alloc, map, locals, guarded, derived, what),
        Err(_) => false,
    }
}

/// Whether this is written with a context of these locals as it should be.
pub fn writes(alloc: Global, map: &IndexMap<'_>, locals: &[ValType], what: &Written) -> bool {
    match guarded_of(alloc, map.source(), what) {
        Ok(guarded) => writes_behind(alloc, map, locals, guarded, what),
        Err(_) => false,
    }
}
