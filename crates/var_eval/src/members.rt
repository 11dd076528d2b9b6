//! Steps to members (DWARF 4 section 5.5.6).

ghost use Rattle.std.specs.Prelude.{◌≡◌, true, OnOk, find, option_map, option_and_then, option_copied, ok_or};
ghost use Rattle.var_values.specs.declared.mark.Mark.TheVariants.{UnsupportedType};
ghost use Rattle.var_values.specs.Members.{part_at as the_place};
ghost use Rattle.var_eval.specs.Steps as steps;
ghost use Rattle.var_eval.specs.inner.Named as named;
ghost use Rattle.var_eval.specs.inner.Told.{Tells};

use crate::dead_end::DeadEnd;
use crate::meeting::meet;
use crate::named::{KnownMembers, NamedMember, known_member};
use crate::part::Part;
use crate::same_name::is_same;
use crate::sourced_place::SourcedPlace;
use dwarf_entries::name_or_empty;
use dwarf_expr::FrameView;
use dwarf_info::{Entry, Units};
use dwarf_types::{Class, TypeStanding, TypedUnits, class_of, type_of};
use pm_text::Items;
use std::alloc::Global;
use var_values::{Bits, Item, Mark, constant_source, is_static, items_of, part_at};

/// A structure, class or union with where it stands, and whether that is behind the end of an array
/// whose count is known.
#[derive(Drop)]
struct Placed<'s, 'r, 'k, 'a> {
    standing: &'s TypeStanding<'r, 'k, 'a>,
    spot: SourcedPlace,
    past: bool,
}

/// Whether a member has a name, where texts differ from it at these places (see `is_same`).
fn has_name<'r, 'a>(
    units: &'r Units<'a>,
    name: &[u8],
    places: &mut Items<usize>,
    item: &Item<'r, 'a>,
) -> bool
    ensures { result ≡ steps.has_name units.now name.now item.now }
{
    match item {
        Item::Member(standing) => {
            is_same(
                name_or_empty(units, &standing.entry().attributes),
                name,
                places,
            )
        }
        Item::Unknown(_) => false,
    }
}

/// The entry of a member; none of what stands in the place of a variant part.
fn entry_of<'r, 'a>(item: &Item<'r, 'a>) -> Option<&'r Entry<'a>>
    ensures { option_copied result ≡ named.entry_of item.now }
{
    match item {
        Item::Member(standing) => Some(standing.entry()),
        Item::Unknown(_) => None,
    }
}

/// The first of a name, among what stands in a structure.
fn member_named<'r, 'a>(
    alloc: Global,
    units: &'r Units<'a>,
    name: &[u8],
    items: &[Item<'r, 'a>],
) -> Option<&'r Entry<'a>>
    ensures { option_copied result
        ≡ option_and_then named.entry_of (find (steps.has_name units.now name.now) items.now) }
{
    let mut places = Items::new(alloc);
    for item in items {
        if has_name(units, name, &mut places, item) {
            return entry_of(item);
        }
    }
    None
}

/// The offset and the bits of a member that is part of a structure that stands there; None where it
/// is of another form.
fn offset_of(spot: &SourcedPlace, member: &Entry<'_>) -> Option<(i128, Option<Bits>)>
    ensures { option_map
        (λ x. record { source = spot.now.source; offset = x.0; bits = x.1 }) result
        ≡ the_place spot.now member.now }
{
    let place = part_at(&spot.place(), member)?;
    Some((place.offset, place.bits))
}

/// A member that is part of a structure that stands there.
fn placed_part<'r, 'k, 'a>(
    units: &TypedUnits<'r, 'k, 'a>,
    member: &'r Entry<'a>,
    spot: SourcedPlace,
    past: bool,
) -> Result<Part<'r, 'k, 'a>, DeadEnd>
    ensures { Tells result (ok_or (option_map (steps.part_of units.now past member.now)
        (the_place spot member.now)) UnsupportedType) }
{
    let Some((offset, bits)) = offset_of(&spot, member) else {
        return Err(DeadEnd::Marked(Mark::UnsupportedType));
    };
    match spot.moved(offset, bits) {
        Ok(spot) => Ok(Part {
            typed: type_of(units, &member.attributes),
            spot,
            past,
        }),
        Err(end) => Err(end),
    }
}

/// A member of a structure that stands there, if there is one; a static one is no more than its
/// constant.
#[tactic(auto, unfolding(crate::specs::Steps::at_member))]
fn member_part<'r, 'k, 'a>(
    units: &TypedUnits<'r, 'k, 'a>,
    member: Option<&'r Entry<'a>>,
    spot: SourcedPlace,
    past: bool,
) -> Result<Part<'r, 'k, 'a>, DeadEnd>
    ensures { Tells result (named.member_told units.now spot past (option_copied member.entry)) }
{
    let Some(member) = member else {
        return Err(DeadEnd::Marked(Mark::UnsupportedType));
    };
    if !is_static(member) {
        return placed_part(units, member, spot, past);
    }
    let constant = constant_source(&member.attributes);
    Ok(Part {
        typed: type_of(units, &member.attributes),
        spot: SourcedPlace::start_of(constant),
        past,
    })
}

/// The entry of a member that is known.
fn entry_known<'r, 'a>(member: Option<NamedMember<'r, 'a>>) -> Option<&'r Entry<'a>>
    ensures { option_copied result ≡ member.entry }
{
    match member {
        Some(member) => Some(member.entry()),
        None => None,
    }
}

/// The member of a name among all of a structure, class or union that stands there.
#[tactic(auto, using(crate::proofs::NamedLaws::told_found))]
fn found_part<'r, 'k, 'a>(
    alloc: Global,
    units: &TypedUnits<'r, 'k, 'a>,
    view: &FrameView<'_>,
    name: &[u8],
    placed: Placed<'_, 'r, 'k, 'a>,
) -> Result<Part<'r, 'k, 'a>, DeadEnd>
    ensures { Tells result (steps.member_of units.now view.now.memory name.now
        placed.entry.standing.now placed.entry.spot placed.entry.past) }
{
    let Ok(items) = items_of(alloc, units, view, placed.standing, &placed.spot.place()) else {
        return Err(DeadEnd::NoMemory);
    };
    let member = member_named(alloc, units.units(), name, items.as_slice());
    member_part(units, member, placed.spot, placed.past)
}

/// The member of a name of a structure, class or union that stands there. It is looked for among all
/// where it is not known.
#[tactic(auto, using(crate::proofs::NamedLaws::told_known))]
fn member_of<'r, 'k, 'a>(
    alloc: Global,
    units: &TypedUnits<'r, 'k, 'a>,
    view: &FrameView<'_>,
    known: &mut KnownMembers<'r, 'a>,
    own: bool,
    name: &[u8],
    placed: Placed<'_, 'r, 'k, 'a>,
) -> Result<Part<'r, 'k, 'a>, DeadEnd>
    requires own { own ≡ true → named.IsFound units.now placed.standing.now }
    requires known { named.AreKnown units.now known.old }
    ensures told { Tells result (steps.member_of units.now view.now.memory name.now
        placed.entry.standing.now placed.entry.spot placed.entry.past) }
    ensures known { OnOk result (named.AreKnown units.now known.new) }
{
    let standing = placed.standing.standing();
    let Ok(found) = known_member(alloc, units.units(), known, own, standing, name) else {
        return Err(DeadEnd::NoMemory);
    };
    match found {
        Some(member) => member_part(units, entry_known(member), placed.spot, placed.past),
        None => found_part(alloc, units, view, name, placed),
    }
}

/// The member of a name, of a structure, class or union. Where the entry of the part's type is the one
/// at its offset, what is known of its members may serve.
#[tactic(auto, using(crate::proofs::Stops::stopped, crate::proofs::OwnLaws::own_met), unfolding(crate::specs::Steps::member_step))]
pub fn member_step<'r, 'k, 'a>(
    alloc: Global,
    units: &TypedUnits<'r, 'k, 'a>,
    view: &FrameView<'_>,
    known: &mut KnownMembers<'r, 'a>,
    own: bool,
    name: &[u8],
    part: Part<'r, 'k, 'a>,
) -> Result<Part<'r, 'k, 'a>, DeadEnd>
    requires own { own ≡ true → named.IsOwn units.now part.type }
    requires known { named.AreKnown units.now known.old }
    ensures told { Tells result
        (steps.member_step units.now view.now.memory name.now part.entry) }
    ensures known { OnOk result (named.AreKnown units.now known.new) }
{
    let Part { typed, spot, past } = part;
    let met = match meet(units, typed, spot.place().bits) {
        Ok(met) => met,
        Err(end) => return Err(end),
    };
    match class_of(met.standing.entry().tag) {
        Class::Members => {
            let placed = Placed {
                standing: &met.standing,
                spot,
                past,
            };
            member_of(alloc, units, view, known, own, name, placed)
        }
        _ => Err(DeadEnd::Marked(Mark::UnsupportedType)),
    }
}
