//! Units, with what is known of their types.

ghost use Rattle.std.specs.Prelude.{◌≡◌, List, Some, IfSome, option_copied};
ghost use Rattle.dwarf_info.specs.declared.entry.UnitAnswer.{UnitAnswer};
ghost use Rattle.dwarf_entries.specs.Standing.{standing_at};
ghost use Rattle.dwarf_types.specs.calls.Known.{AreKnown};
ghost use Rattle.dwarf_types.specs.calls.Contents.{AreContents, AreContentsOf};
ghost use Rattle.dwarf_types.specs.calls.Numbers.{AreFirstOf};

use crate::arrays::Arrays;
use crate::enumerators::Enumerators;
use crate::structures::{MemberPositions, Structures};
use crate::type_standing::TypeStanding;
use dwarf_entries::Standing;
use dwarf_info::Units;
use std::marker::Model;

/// The units of a section, with what is known of their arrays, structures and enumerations.
/// Contracts see it as the units.
#[derive(Drop)]
pub struct TypedUnits<'r, 'k, 'a> {
    units: &'r Units<'a>,
    arrays: &'k Arrays,
    structures: Option<&'k Structures>,
}

/// What is known to stand in the structure at an offset.
fn contents_at<'k>(structures: Option<&'k Structures>, at: u32) -> Option<&'k MemberPositions>
    ensures { (units : List UnitAnswer)
        → IfSome (option_copied structures.entry) (AreContents units)
        → IfSome (option_copied result) (AreContentsOf (standing_at units at)) }
{
    match structures {
        Some(structures) => structures.contents(at),
        None => None,
    }
}

/// The enumerators that are known of the enumeration at an offset.
fn enumerators_at<'k>(structures: Option<&'k Structures>, at: u32) -> Option<&'k Enumerators>
    ensures { (units : List UnitAnswer)
        → IfSome (option_copied structures.entry) (AreContents units)
        → IfSome (option_copied result) (AreFirstOf (standing_at units at)) }
{
    match structures {
        Some(structures) => structures.enumerators(at),
        None => None,
    }
}

impl<'r, 'k, 'a> Model for TypedUnits<'r, 'k, 'a> {
    ghost use Rattle.std.specs.Prelude.{List, IfSome, option_copied};
    ghost use Rattle.dwarf_info.specs.declared.entry.UnitAnswer.{UnitAnswer};
    ghost use Rattle.dwarf_types.specs.calls.Known.{AreKnown};
    ghost use Rattle.dwarf_types.specs.calls.Contents.{AreContents};

    ghost Value = { List UnitAnswer };

    ghost view = { λ t. t.units.now };

    ghost invariant = { λ t. AreKnown t.units.now t.arrays.now
        × IfSome (option_copied t.structures) (AreContents t.units.now) };
}

impl<'r, 'k, 'a> TypedUnits<'r, 'k, 'a> {
    pub fn new(units: &'r Units<'a>, arrays: &'k Arrays) -> Self
        requires { AreKnown units.now arrays.now }
        ensures { result ≡ units.now }
    {
        TypedUnits {
            units,
            arrays,
            structures: None,
        }
    }

    /// The same where it is known too what stands in structures and enumerations.
    pub fn with_structures(
        units: &'r Units<'a>,
        arrays: &'k Arrays,
        structures: &'k Structures,
    ) -> Self
        requires arrays { AreKnown units.now arrays.now }
        requires structures { AreContents units.now structures.now }
        ensures { result ≡ units.now }
    {
        TypedUnits {
            units,
            arrays,
            structures: Some(structures),
        }
    }

    pub fn units(&self) -> &'r Units<'a>
        ensures { result.now ≡ self.now }
    {
        self.units
    }

    /// The entry of a type, with what is known of it.
    #[tactic(auto, using(crate::proofs::KeptLaws::rows_known, crate::proofs::KeptLaws::contents_known, crate::proofs::KeptLaws::numbers_known))]
    pub(crate) fn known(&self, standing: Standing<'r, 'a>) -> TypeStanding<'r, 'k, 'a>
        requires { standing_at self.now standing.entry.at ≡ Some standing }
        ensures { result ≡ standing.entry }
    {
        let at = standing.entry().at;
        let rows = self.arrays.get(at);
        let structures = self.structures;
        let contents = contents_at(structures, at);
        let enumerators = enumerators_at(structures, at);
        TypeStanding::new(standing, rows, contents, enumerators)
    }
}
