//! Types, and what stands behind those that are other names of types (DWARF 4 sections 5.2 and
//! 5.3).

ghost use Rattle.std.specs.Prelude.{◌≡◌, Some, IfSome};
ghost use Rattle.dwarf_entries.specs.Origins.{type_entry};
ghost use Rattle.dwarf_entries.specs.Standing.{standing_at};
ghost use Rattle.dwarf_types.specs.Types as types;

use crate::class::{Class, class_of};
use crate::type_standing::TypeStanding;
use crate::typed_units::TypedUnits;
use dwarf_entries::{Standing, standing_at, type_entry};
use dwarf_info::{Attributes, Units};

/// A type: that of an entry, or none. Of an array without its first so many subranges it is that of
/// the rows behind them (DWARF 4 section 5.4).
#[derive(Drop)]
pub enum Typed<'r, 'k, 'a> {
    Nothing,
    At {
        standing: TypeStanding<'r, 'k, 'a>,
        skipped: usize,
    },
}

/// What stands behind a type.
#[derive(Drop)]
pub enum Behind<'r, 'k, 'a> {
    Nothing,
    /// More than 16 type entries follow each other.
    TooDeep,
    Stands {
        standing: TypeStanding<'r, 'k, 'a>,
        skipped: usize,
    },
}

/// The type of an entry, if there is one.
fn type_in<'r, 'k, 'a>(
    units: &TypedUnits<'r, 'k, 'a>,
    standing: Option<Standing<'r, 'a>>,
) -> Typed<'r, 'k, 'a>
    requires { IfSome standing (λ s. standing_at units.now s.entry.at ≡ Some s) }
    ensures { result ≡ types.typed standing.entry }
{
    match standing {
        Some(standing) => Typed::At {
            standing: units.known(standing),
            skipped: 0,
        },
        None => Typed::Nothing,
    }
}

/// The entry at an offset of the section.
#[tactic(auto, using(crate::proofs::OwnLaws::own_at))]
fn entry_at<'r, 'a>(units: &'r Units<'a>, at: u32) -> Option<Standing<'r, 'a>>
    ensures is { result ≡ standing_at units.now at }
    ensures own { IfSome result (λ s. standing_at units.now s.entry.at ≡ Some s) }
{
    standing_at(units, at)
}

/// The entry of the type of an entry with these attributes.
#[tactic(auto, using(crate::proofs::OwnLaws::own_type))]
fn entry_of<'r, 'a>(
    units: &'r Units<'a>,
    attributes: &'r Attributes<'a>,
) -> Option<Standing<'r, 'a>>
    ensures is { result ≡ type_entry units.now attributes.now }
    ensures own { IfSome result (λ s. standing_at units.now s.entry.at ≡ Some s) }
{
    type_entry(units, attributes)
}

/// The type at an offset of the section.
pub fn type_at<'r, 'k, 'a>(units: &TypedUnits<'r, 'k, 'a>, at: u32) -> Typed<'r, 'k, 'a>
    ensures { result ≡ types.type_at units.now at }
{
    type_in(units, entry_at(units.units(), at))
}

/// The type of an entry with these attributes.
#[tactic(auto, unfolding(crate::specs::Types::type_of))]
pub fn type_of<'r, 'k, 'a>(
    units: &TypedUnits<'r, 'k, 'a>,
    attributes: &'r Attributes<'a>,
) -> Typed<'r, 'k, 'a>
    ensures { result ≡ types.type_of units.now attributes.now }
{
    type_in(units, entry_of(units.units(), attributes))
}

/// What stands behind a type, where the types passed through and this one are at most so many
/// entries.
#[tactic(auto, using(crate::proofs::Fuel::behind_none, crate::proofs::Fuel::behind_spent, crate::proofs::Fuel::behind_more))]
pub fn resolved<'r, 'k, 'a>(
    units: &TypedUnits<'r, 'k, 'a>,
    most: u32,
    from: Typed<'r, 'k, 'a>,
) -> Behind<'r, 'k, 'a>
    ensures { result ≡ types.behind units.now most from.entry }
{
    match from {
        Typed::Nothing => Behind::Nothing,
        Typed::At { standing, skipped } => {
            if most == 0 {
                return Behind::TooDeep;
            }
            match class_of(standing.entry().tag) {
                Class::Passed => {
                    let next = type_of(units, &standing.entry().attributes);
                    resolved(units, most - 1, next)
                }
                _ => Behind::Stands { standing, skipped },
            }
        }
    }
}
