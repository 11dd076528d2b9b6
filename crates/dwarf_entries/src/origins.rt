//! Names and types, which may stand in another entry (DWARF 4 sections 2.13 and 3.3.8).

ghost use Rattle.std.specs.Prelude.{◌≡◌, option_copied};
ghost use Rattle.dwarf_entries.specs.Origins as origins;

use crate::names::{ABSTRACT_ORIGIN, NAME, SPECIFICATION, TYPE};
use crate::search::standing_at;
use crate::standing::Standing;
use crate::values::{reference, text};
use dwarf_info::{Attributes, Units};

/// How many entries may follow each other, where one says what another does not, or a type is
/// another name of one.
pub const LONGEST_CHAIN: u32 = 16;

/// The attributes of the entry that one with these attributes completes or instantiates.
fn origin<'r, 'a>(units: &'r Units<'a>, attributes: &Attributes<'a>) -> Option<&'r Attributes<'a>>
    ensures { option_copied result ≡ origins.origin units.now attributes.now }
{
    let abstract_origin = reference(attributes, ABSTRACT_ORIGIN);
    let at = abstract_origin.or(reference(attributes, SPECIFICATION))?;
    let standing = standing_at(units, at)?;
    Some(&standing.entry().attributes)
}

#[tactic(auto, using(crate::proofs::Chains::none_further, crate::proofs::Chains::one_further))]
fn name_within<'r, 'a>(
    units: &'r Units<'a>,
    attributes: &'r Attributes<'a>,
    further: u32,
) -> Option<&'a [u8]>
    ensures { option_copied result
        ≡ origins.through units.now origins.own_name further attributes.now }
{
    if let Some(name) = text(attributes, NAME) {
        return Some(name);
    }
    if further == 0 {
        return None;
    }
    let origin = origin(units, attributes)?;
    name_within(units, origin, further - 1)
}

#[tactic(auto, using(crate::proofs::Chains::none_further, crate::proofs::Chains::one_further))]
fn type_within<'r, 'a>(
    units: &'r Units<'a>,
    attributes: &'r Attributes<'a>,
    further: u32,
) -> Option<u32>
    ensures { result ≡ origins.through units.now origins.own_type further attributes.now }
{
    if let Some(at) = reference(attributes, TYPE) {
        return Some(at);
    }
    if further == 0 {
        return None;
    }
    let origin = origin(units, attributes)?;
    type_within(units, origin, further - 1)
}

/// The name of an entry with these attributes, or of the one behind it that has one.
#[tactic(auto, unfolding(crate::specs::Origins::name_of))]
pub fn name_of<'r, 'a>(units: &'r Units<'a>, attributes: &'r Attributes<'a>) -> Option<&'a [u8]>
    ensures { option_copied result ≡ origins.name_of units.now attributes.now }
{
    name_within(units, attributes, LONGEST_CHAIN)
}

/// The name of an entry with these attributes, which is empty where neither it nor one behind it
/// has one.
pub fn name_or_empty<'r, 'a>(units: &'r Units<'a>, attributes: &'r Attributes<'a>) -> &'a [u8]
    ensures { result.now ≡ origins.name_or_empty units.now attributes.now }
{
    match name_of(units, attributes) {
        Some(name) => name,
        None => &[],
    }
}

/// The entry of the type of an entry with these attributes.
#[tactic(auto, unfolding(crate::specs::Origins::type_entry))]
pub fn type_entry<'r, 'a>(
    units: &'r Units<'a>,
    attributes: &'r Attributes<'a>,
) -> Option<Standing<'r, 'a>>
    ensures { result ≡ origins.type_entry units.now attributes.now }
{
    let at = type_within(units, attributes, LONGEST_CHAIN)?;
    standing_at(units, at)
}
