//! What is known of the types of a module, and of names in it, kept for a session.

ghost use Rattle.std.specs.Prelude.{◌≡◌, IfOk};
ghost use Rattle.dwarf_info.specs.Sections.{SectionBytes5};
ghost use Rattle.debugger.specs.calls.Types.{AreTypes, AreKept};

use causes::NoMemory;
use dwarf_info::Units;
use dwarf_types::{Arrays, Structures, TypedUnits};
use std::alloc::Global;
use var_eval::{KnownNames, no_names};

/// What is known of arrays, structures and enumerations. It is asked with the units that it was made
/// of, and borrows nothing of them.
#[derive(Drop)]
pub struct KnownTypes {
    arrays: Arrays,
    structures: Structures,
}

impl KnownTypes {
    /// Those of units. It goes through all entries.
    pub fn of(alloc: Global, units: &Units<'_>) -> Result<Self, NoMemory>
        ensures { IfOk result (AreTypes units.now) }
    {
        let arrays = Arrays::of(alloc, units)?;
        let structures = Structures::of(alloc, units)?;
        Ok(KnownTypes { arrays, structures })
    }

    /// The units with what is known of their types.
    pub fn typed<'r, 'k, 'a>(&'k self, units: &'r Units<'a>) -> TypedUnits<'r, 'k, 'a>
        requires { AreTypes units.now self.now }
        ensures { result ≡ units.now }
    {
        TypedUnits::with_structures(units, &self.arrays, &self.structures)
    }
}

/// What a session keeps of the units of a module.
#[derive(Drop)]
pub struct Kept<'a> {
    pub types: KnownTypes,
    /// At the address that was asked last.
    pub names: KnownNames<'a>,
}

/// What is known of the types of units. No name was asked yet.
pub fn kept_of<'a>(alloc: Global, units: &Units<'_>) -> Result<Kept<'a>, NoMemory>
    ensures { IfOk result (λ kept. (s : SectionBytes5) → AreKept s units.now kept) }
{
    match KnownTypes::of(alloc, units) {
        Ok(types) => Ok(Kept {
            types,
            names: no_names(),
        }),
        Err(NoMemory) => Err(NoMemory),
    }
}
