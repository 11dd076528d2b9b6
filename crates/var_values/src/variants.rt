//! The variant that a discriminant chooses, and what stands in a structure (DWARF 4 section 5.5.9).

ghost use Rattle.std.specs.Prelude.{◌≡◌, ◌≤◌, ◌<◌, ◌^◌, ◌&&◌, ◌++◌, true, nat_le, Some, Ok, ok_or, IfSome};
ghost use Rattle.std.specs.Prelude.{◌∷◌, [], IfOk, OnOk, flat_map};
ghost use Rattle.std.specs.Option.{is_none};
ghost use Rattle.dwarf_info.specs.Attributes.{as_block, attribute as the_attribute, valued};
ghost use Rattle.dwarf_entries.specs.Origins.{longest_chain};
ghost use Rattle.dwarf_entries.specs.Standing.{standing_in};
ghost use Rattle.dwarf_types.specs.Types.{behind, class_at, type_of as the_type};
ghost use Rattle.dwarf_types.specs.Sizes.{type_size as the_size};
ghost use Rattle.dwarf_types.specs.calls.Inside.{picked};
ghost use Rattle.dwarf_types.specs.declared.behind.Behind.TheVariants as behinds;
ghost use Rattle.var_values.specs.declared.mark.Mark.TheVariants.{OptimisedOut};
ghost use Rattle.var_values.specs.Scalars.{bits_of};
ghost use Rattle.var_values.specs.Suits.{suits};
ghost use Rattle.var_values.specs.Variants as variants;
ghost use Rattle.var_values.specs.calls.Near.{IsNear};
ghost use Rattle.var_values.specs.inner.Passing.{passes};

use crate::Mark;
use crate::discriminant::Discriminant;
use crate::item::Item;
use crate::lists::is_listed;
use crate::members::{member_place, own_source};
use crate::place::Place;
use crate::scalars::{number_of, type_is_signed};
use crate::suits::suits;
use crate::texts::equals;
use crate::word::{bits_of, word_in};
use causes::NoMemory;
use dwarf_entries::tags::MEMBER;
use dwarf_entries::{
    LONGEST_CHAIN, Standing, attribute, block, is_child, number, reference, standing_at,
};
use dwarf_expr::FrameView;
use dwarf_info::{Attributes, Entry, Unit};
use dwarf_types::{
    Behind, Class, TypeStanding, TypedUnits, VARIANT_PART, class_of, resolved, standing_among,
    type_of, type_size,
};
use pm_text::Items;
use std::alloc::Global;

const DISCR: u64 = 0x15;

const DISCR_VALUE: u64 = 0x16;

const DISCR_LIST: u64 = 0x3d;

const VARIANT: u64 = 0x19;

/// A structure that stands somewhere.
#[derive(Drop)]
struct Structure<'t, 'r, 'k, 'w, 'v, 'p, 's, 'a> {
    units: &'t TypedUnits<'r, 'k, 'a>,
    view: &'w FrameView<'v>,
    place: &'p Place<'s>,
}

// ---- the discriminant

fn is_discrete(class: Class) -> bool
    ensures { result ≡ variants.is_discrete class }
{
    match class {
        Class::Base | Class::Enumeration => true,
        Class::Passed | Class::Pointing | Class::Members | Class::Array | Class::Another => false,
    }
}

/// The number that a word in so many bits is.
fn number_in<'r, 'k, 'a>(
    units: &TypedUnits<'r, 'k, 'a>,
    standing: &Standing<'r, 'a>,
    size: u64,
    count: u64,
    word: u128,
) -> Discriminant
    requires few { count ≤ 64 }
    requires below { word < 2 ^ count }
    ensures { result ≡ variants.number_in units.now standing.now size count word }
{
    let signed = type_is_signed(units, standing);
    Discriminant {
        size,
        signed,
        number: number_of(signed, count, word),
    }
}

/// Whether a discriminant may have a type of this size and stand at the place.
#[tactic(auto, using(crate::proofs::VariantLaws::discriminant_short, crate::proofs::VariantLaws::discriminant_narrow))]
fn is_discriminant(standing: &Standing<'_, '_>, size: u64, place: &Place<'_>) -> bool
    ensures is { result ≡ (variants.is_discrete (class_at standing.now) && nat_le size 8
        && suits standing.now place.now size) }
    ensures short { result ≡ true → size ≤ 8 }
    ensures narrow { result ≡ true → (bits_of place.now size).count ≤ 64 }
{
    is_discrete(class_of(standing.entry().tag)) && size <= 8 && suits(standing, place, size)
}

/// The discriminant of a type of this size at a place, or the mark in its place.
fn sized_discriminant<'r, 'k, 'a>(
    units: &TypedUnits<'r, 'k, 'a>,
    view: &FrameView<'_>,
    standing: &Standing<'r, 'a>,
    size: u64,
    place: &Place<'_>,
) -> Result<Discriminant, Mark>
    requires near { IsNear 0 place.now.offset }
    ensures is { result ≡ variants.discriminant_as units.now view.now.memory place.now (Some size)
        (behinds.Stands standing.now 0) }
    ensures short { IfOk result (λ d. d.size ≤ 8) }
{
    if !is_discriminant(standing, size, place) {
        return Err(Mark::UnsupportedType);
    }
    let bits = bits_of(place, size);
    match word_in(view, place, bits) {
        Ok(word) => Ok(number_in(units, standing, size, bits.count, word)),
        Err(mark) => Err(mark),
    }
}

/// The discriminant that a member at a place is, or the mark in its place.
fn discriminant_at<'r, 'a>(
    structure: &Structure<'_, 'r, '_, '_, '_, '_, '_, 'a>,
    entry: &'r Entry<'a>,
    place: &Place<'_>,
) -> Result<Discriminant, Mark>
    requires near { IsNear 0 place.now.offset }
    ensures is { result ≡ variants.discriminant_as structure.now.units.now
        structure.now.view.now.memory place.now
        (the_size structure.now.units.now
        (the_type structure.now.units.now entry.now.attributes))
        (behind structure.now.units.now longest_chain
        (the_type structure.now.units.now entry.now.attributes)) }
    ensures short { IfOk result (λ d. d.size ≤ 8) }
{
    let units = structure.units;
    let attributes = &entry.attributes;
    let size = type_size(units, &type_of(units, attributes));
    let standing = match resolved(units, LONGEST_CHAIN, type_of(units, attributes)) {
        Behind::TooDeep => return Err(Mark::TypeTooDeep),
        Behind::Nothing => return Err(Mark::UnsupportedType),
        Behind::Stands {
            standing,
            skipped: _,
        } => standing,
    };
    let Some(size) = size else {
        return Err(Mark::UnsupportedType);
    };
    sized_discriminant(units, structure.view, standing.standing(), size, place)
}

/// The discriminant that a member of the structure is, or the mark in its place.
#[tactic(auto, unfolding(crate::specs::Variants::discriminant_of))]
fn discriminant_of<'r, 'a>(
    structure: &Structure<'_, 'r, '_, '_, '_, '_, '_, 'a>,
    entry: &'r Entry<'a>,
) -> Result<Discriminant, Mark>
    requires near { IsNear 1 structure.now.place.now.offset }
    ensures is { result ≡ variants.discriminant_of structure.now.units.now
        structure.now.view.now.memory structure.now.place.now entry.now }
    ensures short { IfOk result (λ d. d.size ≤ 8) }
{
    let own = own_source(entry);
    let place = member_place(structure.place, entry, &own);
    discriminant_at(structure, entry, &place)
}

// ---- the variant

/// Whether a number is in the list of a variant, where it has one.
fn in_list(attributes: &Attributes<'_>, wanted: Discriminant) -> bool
    ensures { result ≡ variants.in_list wanted (valued as_block
        variants.at_discr_list attributes.now) }
{
    match block(attributes, DISCR_LIST) {
        Some(list) => is_listed(list, wanted),
        None => false,
    }
}

/// Whether a variant has the number of a discriminant.
fn has_number(entry: &Entry<'_>, wanted: Discriminant) -> bool
    requires short { wanted.size ≤ 8 }
    ensures { result ≡ variants.has_number wanted entry.now }
{
    let attributes = &entry.attributes;
    equals(wanted.size, wanted.number, number(attributes, DISCR_VALUE))
        || in_list(attributes, wanted)
}

fn lacks(attributes: &Attributes<'_>, name: u64) -> bool
    ensures { result ≡ is_none (the_attribute name attributes.now) }
{
    match attribute(attributes, name) {
        Some(_) => false,
        None => true,
    }
}

fn is_default(entry: &Entry<'_>) -> bool
    ensures { result ≡ variants.is_default entry.now }
{
    let attributes = &entry.attributes;
    lacks(attributes, DISCR_VALUE) && lacks(attributes, DISCR_LIST)
}

/// Whether a variant has the number, or is the default one where there is no number.
fn is_wanted(entry: &Entry<'_>, wanted: Option<Discriminant>) -> bool
    requires short { IfSome wanted (λ d. d.size ≤ 8) }
    ensures { result ≡ passes wanted entry.now }
{
    match wanted {
        Some(wanted) => has_number(entry, wanted),
        None => is_default(entry),
    }
}

/// The first variant of a part that has the number, or that is the default one where there is no
/// number.
fn first_variant<'r, 'a>(
    part: &Standing<'r, 'a>,
    wanted: Option<Discriminant>,
) -> Option<Standing<'r, 'a>>
    requires short { IfSome wanted (λ d. d.size ≤ 8) }
    ensures { result ≡ variants.first_variant (passes wanted) part.now }
{
    let unit = part.unit();
    let depth = part.entry().depth;
    let mut left = part.inside();
    'entries: while let [entry, behind @ ..] = left {
        if is_child(entry, depth, VARIANT) && is_wanted(entry, wanted) {
            return Some(Standing::new(unit, entry, behind));
        }
        left = behind;
    }
    None
}

/// The default variant.
fn default_variant<'r, 'a>(part: &Standing<'r, 'a>) -> Result<Standing<'r, 'a>, Mark>
    ensures { result ≡ ok_or (variants.first_variant variants.is_default part.now) OptimisedOut }
{
    match first_variant(part, None) {
        Some(variant) => Ok(variant),
        None => Err(Mark::OptimisedOut),
    }
}

/// The variant that a number chooses.
fn variant_by<'r, 'a>(
    part: &Standing<'r, 'a>,
    number: Discriminant,
) -> Result<Standing<'r, 'a>, Mark>
    requires short { number.size ≤ 8 }
    ensures { result ≡ variants.variant_by part.now (Ok number) }
{
    match first_variant(part, Some(number)) {
        Some(variant) => Ok(variant),
        None => default_variant(part),
    }
}

/// The variant of a part that is chosen, or why there is none.
#[tactic(auto, unfolding(crate::specs::Variants::variant_of))]
fn variant_of<'r, 'a>(
    structure: &Structure<'_, 'r, '_, '_, '_, '_, '_, 'a>,
    part: &Standing<'r, 'a>,
) -> Result<Standing<'r, 'a>, Mark>
    requires near { IsNear 1 structure.now.place.now.offset }
    ensures { result ≡ variants.variant_of structure.now.units.now
        structure.now.view.now.memory structure.now.place.now part.now }
{
    let Some(at) = reference(&part.entry().attributes, DISCR) else {
        return default_variant(part);
    };
    let Some(member) = standing_at(structure.units.units(), at) else {
        return default_variant(part);
    };
    match discriminant_of(structure, member.entry()) {
        Ok(number) => variant_by(part, number),
        Err(mark) => Err(mark),
    }
}

// ---- what stands in a structure

/// Appends what stands in the place of a child of an entry of this depth.
#[cycle(variants)]
fn push_child<'r, 'a>(
    items: &mut Items<Item<'r, 'a>>,
    structure: &Structure<'_, 'r, '_, '_, '_, '_, '_, 'a>,
    further: u32,
    depth: u32,
    child: Standing<'r, 'a>,
) -> Result<(), NoMemory>
    requires near { IsNear 1 structure.now.place.now.offset }
    ensures { OnOk result (items.new ≡ items.old ++ variants.child_items structure.now.units.now
        structure.now.view.now.memory structure.now.place.now
        (variants.items structure.now.units.now structure.now.view.now.memory
        structure.now.place.now further) depth child.entry) }
{
    if is_child(child.entry(), depth, MEMBER) {
        return items.push(Item::Member(child));
    }
    if !is_child(child.entry(), depth, VARIANT_PART) {
        return Ok(());
    }
    match variant_of(structure, &child) {
        Ok(variant) => push_items(items, structure, further, &variant),
        Err(mark) => items.push(Item::Unknown(mark)),
    }
}

/// Appends what stands in a structure or a variant, where at most so many variant parts stand in
/// each other.
#[cycle(variants)]
#[tactic(auto, using(crate::proofs::VariantLaws::no_items, crate::proofs::VariantLaws::one_pushed))]
fn push_items<'r, 'a>(
    items: &mut Items<Item<'r, 'a>>,
    structure: &Structure<'_, 'r, '_, '_, '_, '_, '_, 'a>,
    most: u32,
    standing: &Standing<'r, 'a>,
) -> Result<(), NoMemory>
    requires near { IsNear 1 structure.now.place.now.offset }
    ensures { OnOk result (items.new ≡ items.old ++ variants.items structure.now.units.now
        structure.now.view.now.memory structure.now.place.now most standing.now) }
{
    if most == 0 {
        return items.push(Item::Unknown(Mark::TypeTooDeep));
    }
    let unit = standing.unit();
    let depth = standing.entry().depth;
    let mut left = standing.inside();
    'entries: while let [entry, behind @ ..] = left {
        let child = Standing::new(unit, entry, behind);
        push_child(items, structure, most - 1, depth, child)?;
        left = behind;
    }
    Ok(())
}

/// Appends what stands in the place of the child at a position among entries in one of this depth.
#[tactic(auto, using(crate::proofs::VariantLaws::none_placed, crate::proofs::VariantLaws::one_placed))]
fn push_at<'r, 'a>(
    items: &mut Items<Item<'r, 'a>>,
    structure: &Structure<'_, 'r, '_, '_, '_, '_, '_, 'a>,
    further: u32,
    depth: u32,
    unit: &'r Unit<'a>,
    inside: &'r [Entry<'a>],
    position: u32,
) -> Result<(), NoMemory>
    requires near { IsNear 1 structure.now.place.now.offset }
    ensures { OnOk result (items.new ≡ items.old ++ flat_map (variants.child_items
        structure.now.units.now structure.now.view.now.memory structure.now.place.now
        (variants.items structure.now.units.now structure.now.view.now.memory
        structure.now.place.now further) depth)
        (picked (position ∷ []) (standing_in unit.now inside.now))) }
{
    match standing_among(unit, inside, position) {
        Some(child) => push_child(items, structure, further, depth, child),
        None => Ok(()),
    }
}

/// Appends what stands in the places of the children at these positions among entries in one of this
/// depth.
#[tactic(auto, using(crate::proofs::VariantLaws::next_placed))]
fn push_children<'r, 'a>(
    items: &mut Items<Item<'r, 'a>>,
    structure: &Structure<'_, 'r, '_, '_, '_, '_, '_, 'a>,
    further: u32,
    depth: u32,
    unit: &'r Unit<'a>,
    inside: &'r [Entry<'a>],
    positions: &[u32],
) -> Result<(), NoMemory>
    requires near { IsNear 1 structure.now.place.now.offset }
    ensures { OnOk result (items.new ≡ items.old ++ flat_map (variants.child_items
        structure.now.units.now structure.now.view.now.memory structure.now.place.now
        (variants.items structure.now.units.now structure.now.view.now.memory
        structure.now.place.now further) depth)
        (picked positions.now (standing_in unit.now inside.now))) }
{
    let mut left = positions;
    'positions: while let [position, behind @ ..] = left {
        push_at(items, structure, further, depth, unit, inside, *position)?;
        left = behind;
    }
    Ok(())
}

/// Appends what stands in a structure. Of its children only members and variant parts are looked
/// at, where it is known which these are.
fn push_standing<'r, 'a>(
    items: &mut Items<Item<'r, 'a>>,
    structure: &Structure<'_, 'r, '_, '_, '_, '_, '_, 'a>,
    standing: &TypeStanding<'r, '_, 'a>,
) -> Result<(), NoMemory>
    requires near { IsNear 1 structure.now.place.now.offset }
    ensures { OnOk result (items.new ≡ items.old ++ variants.items structure.now.units.now
        structure.now.view.now.memory structure.now.place.now longest_chain standing.now) }
{
    let Some(contents) = standing.contents() else {
        return push_items(items, structure, LONGEST_CHAIN, standing.standing());
    };
    let depth = standing.entry().depth;
    push_children(
        items,
        structure,
        LONGEST_CHAIN - 1,
        depth,
        standing.standing().unit(),
        standing.inside_at(contents.range()),
        contents.positions(),
    )
}

/// What stands in a structure at a place: its members, and in the place of a variant part those of
/// the variant that is chosen.
///
/// # Errors
///
/// Want of memory.
pub fn items_of<'r, 'k, 'a>(
    alloc: Global,
    units: &TypedUnits<'r, 'k, 'a>,
    view: &FrameView<'_>,
    standing: &TypeStanding<'r, 'k, 'a>,
    place: &Place<'_>,
) -> Result<Items<Item<'r, 'a>>, NoMemory>
    requires near { IsNear 1 place.now.offset }
    ensures { IfOk result (λ items. items ≡ variants.items units.now view.now.memory place.now
        longest_chain standing.now) }
{
    let structure = Structure { units, view, place };
    let mut items = Items::new(alloc);
    push_standing(&mut items, &structure, standing).and(Ok(items))
}
