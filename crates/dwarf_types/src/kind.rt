//! Kinds of types.

ghost use Rattle.std.specs.Prelude.{◌≡◌};
ghost use Rattle.dwarf_types.specs.Kinds as kinds;

use crate::behind::{Behind, resolved, type_at};
use crate::class::{Class, class_of};
use crate::typed_units::TypedUnits;
use dwarf_entries::names::ENCODING;
use dwarf_entries::{LONGEST_CHAIN, Standing, natural, type_entry};
use dwarf_info::Units;

/// What stands behind the types passed through.
#[derive(Clone, Copy, PartialEq, Eq)]
pub enum Kind {
    Base { encoding: u64 },
    /// A pointer or a reference to the type at an offset of the section.
    Pointer { to: Option<u32> },
    Enumeration { at: u32 },
    /// A structure, a class or a union.
    Members { at: u32 },
    Array { at: u32, element: Option<u32> },
    Unsupported,
    TooDeep,
}

/// The kind of a base type with an encoding (DWARF 4 section 7.8).
fn base_kind(encoding: Option<u64>) -> Kind
    ensures { result ≡ kinds.base_kind encoding }
{
    match encoding {
        Some(encoding) => match encoding {
            1 | 2 | 4 | 5 | 6 | 7 | 8 | 16 => Kind::Base { encoding },
            _ => Kind::Unsupported,
        },
        None => Kind::Unsupported,
    }
}

/// The offset of the entry that the type of an entry refers to.
fn place_of<'r, 'a>(units: &'r Units<'a>, standing: &Standing<'r, 'a>) -> Option<u32>
    ensures { result ≡ kinds.place_in units.now standing.now }
{
    let standing = type_entry(units, &standing.entry().attributes)?;
    Some(standing.entry().at)
}

fn kind_as<'r, 'a>(units: &'r Units<'a>, standing: &Standing<'r, 'a>) -> Kind
    ensures { result ≡ kinds.kind_standing units.now standing.now }
{
    let at = standing.entry().at;
    match class_of(standing.entry().tag) {
        Class::Pointing => Kind::Pointer {
            to: place_of(units, standing),
        },
        Class::Members => Kind::Members { at },
        Class::Array => Kind::Array {
            at,
            element: place_of(units, standing),
        },
        Class::Enumeration => Kind::Enumeration { at },
        Class::Base => base_kind(natural(&standing.entry().attributes, ENCODING)),
        Class::Passed | Class::Another => Kind::Unsupported,
    }
}

/// What stands behind the type at an offset of the section.
#[tactic(auto, unfolding(crate::specs::Kinds::kind))]
pub fn kind_of(units: &TypedUnits<'_, '_, '_>, entry: u32) -> Kind
    ensures { result ≡ kinds.kind units.now entry }
{
    match resolved(units, LONGEST_CHAIN, type_at(units, entry)) {
        Behind::Nothing => Kind::Unsupported,
        Behind::TooDeep => Kind::TooDeep,
        Behind::Stands {
            standing,
            skipped: _,
        } => kind_as(units.units(), standing.standing()),
    }
}
