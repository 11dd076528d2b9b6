//! Texts of values, by recursion on their types (DWARF 4 sections 5.4, 5.5 and 5.7).

ghost use Rattle.std.specs.Prelude.{◌≡◌, ◌<◌, ◌^◌, ◌++◌, suc, true, drop, map, IsSome};
ghost use Rattle.std.specs.Prelude.{OnOk, IfOk, ℕ, pos};
ghost use Rattle.dwarf_entries.specs.Origins.{longest_chain};
ghost use Rattle.dwarf_types.specs.Types.{class_at, type_of as type_at};
ghost use Rattle.dwarf_types.specs.Sizes as sizes;
ghost use Rattle.dwarf_types.specs.calls.Subranges.{size_behind};
ghost use Rattle.dwarf_types.specs.declared.behind.Typed.TheVariants as typeds;
ghost use Rattle.dwarf_types.specs.declared.class.Class.TheVariants as classes;
ghost use Rattle.var_values.specs.Places.{further as further_on};
ghost use Rattle.var_values.specs.calls.Near.{IsNear};
ghost use Rattle.var_values.specs.Members.{member_place as the_member_place};
ghost use Rattle.var_values.specs.Suits as suiting;
ghost use Rattle.var_values.specs.Variants.{items as the_items};
ghost use Rattle.var_values.specs.Values as values;
ghost use Rattle.var_values.specs.Values.{value_text, in_place};
ghost use Rattle.var_values.specs.inner.Odometer as odometer;
ghost use Rattle.var_values.specs.calls.Told.{Tells};
ghost use Rattle.var_values.specs.inner.Parts.{element_text, separator};

use crate::item::Item;
use crate::levels::Rows;
use crate::members::{member_place, own_source};
use crate::place::Place;
use crate::scalars::push_scalar;
use crate::suits::suits;
use crate::variants::items_of;
use crate::{Mark, Source};
use causes::NoMemory;
use dwarf_entries::{LONGEST_CHAIN, name_or_empty};
use dwarf_expr::FrameView;
use dwarf_info::Entry;
use dwarf_types::{
    ArrayRows, Class, TypeStanding, Typed, TypedUnits, class_of, type_of, type_size,
};
use pm_text::Text;
use std::alloc::Global;

/// What all values of a variable share.
#[derive(Drop)]
struct Context<'t, 'r, 'k, 'w, 'v, 'a> {
    alloc: Global,
    units: &'t TypedUnits<'r, 'k, 'a>,
    view: &'w FrameView<'v>,
}

/// The class of a type.
fn class_at(standing: &TypeStanding<'_, '_, '_>) -> Class
    ensures { result ≡ class_at standing.now }
{
    class_of(standing.entry().tag)
}

/// The type that a type is another name of, or that its elements have.
fn inner_type<'r, 'k, 'a>(
    units: &TypedUnits<'r, 'k, 'a>,
    standing: &TypeStanding<'r, 'k, 'a>,
) -> Typed<'r, 'k, 'a>
    ensures { result ≡ type_at units.now standing.now.entry.attributes }
{
    type_of(units, &standing.entry().attributes)
}

/// Appends the text of a value, or tells the mark in its place, where at most so many type entries
/// follow each other.
#[cycle(values)]
fn push_within<'t, 'r, 'k, 'w, 'v, 'a>(
    text: &mut Text,
    context: &Context<'t, 'r, 'k, 'w, 'v, 'a>,
    most: u32,
    typed: &Typed<'r, 'k, 'a>,
    place: &Place<'_>,
) -> Result<Option<Mark>, NoMemory>
    requires near { IsNear most place.now.offset }
    ensures { IfOk result (λ mark. Tells (value_text context.now.units.now
        context.now.view.now.memory most typed.now place.now) mark text.old text.new) }
{
    let Typed::At { standing, skipped } = typed else {
        return Ok(Some(Mark::UnsupportedType));
    };
    if most == 0 {
        return Ok(Some(Mark::TypeTooDeep));
    }
    if let Class::Passed = class_at(standing) {
        let next = inner_type(context.units, standing);
        return push_within(text, context, most - 1, &next, place);
    }
    let Some(size) = type_size(context.units, typed) else {
        return Ok(Some(Mark::UnsupportedType));
    };
    push_sized(text, context, most - 1, standing, *skipped, size, place)
}

/// Appends the text of a value of this size, or tells the mark in its place.
#[cycle(values)]
fn push_sized<'t, 'r, 'k, 'w, 'v, 'a>(
    text: &mut Text,
    context: &Context<'t, 'r, 'k, 'w, 'v, 'a>,
    further: u32,
    standing: &TypeStanding<'r, 'k, 'a>,
    skipped: usize,
    size: u64,
    place: &Place<'_>,
) -> Result<Option<Mark>, NoMemory>
    requires near { IsNear (suc further) place.now.offset }
    requires size { sizes.type_size context.now.units.now (typeds.At standing.now skipped)
        ≡ Some size }
    ensures { IfOk result (λ mark. Tells (values.sized_text (Some size) context.now.units.now
        context.now.view.now.memory
        (value_text context.now.units.now context.now.view.now.memory further)
        standing.now skipped place.now) mark text.old text.new) }
{
    if !suits(standing.standing(), place, size) {
        return Ok(Some(Mark::UnsupportedType));
    }
    match place.source {
        Source::Lost(mark) => Ok(Some(*mark)),
        Source::Single(_) | Source::Pieces(_) => {
            push_content(text, context, further, standing, skipped, size, place)
        }
    }
}

/// Appends the text of a value that is somewhere, or tells the mark in its place.
#[cycle(values)]
fn push_content<'t, 'r, 'k, 'w, 'v, 'a>(
    text: &mut Text,
    context: &Context<'t, 'r, 'k, 'w, 'v, 'a>,
    further: u32,
    standing: &TypeStanding<'r, 'k, 'a>,
    skipped: usize,
    size: u64,
    place: &Place<'_>,
) -> Result<Option<Mark>, NoMemory>
    requires near { IsNear (suc further) place.now.offset }
    requires size { sizes.type_size context.now.units.now (typeds.At standing.now skipped)
        ≡ Some size }
    requires suits { suiting.suits standing.now place.now size ≡ true }
    ensures { IfOk result (λ mark. Tells (values.content_as (class_at standing.now)
        context.now.units.now
        context.now.view.now.memory
        (value_text context.now.units.now context.now.view.now.memory further)
        standing.now skipped size place.now) mark text.old text.new) }
{
    match class_at(standing) {
        Class::Members => {
            push_members(text, context, further, standing, place)?;
            Ok(None)
        }
        Class::Array => push_array(text, context, further, standing, skipped, place),
        _ => push_scalar(text, context.units, context.view, standing, size, place),
    }
}

/// Appends the text of a value, or its mark.
#[cycle(values)]
fn push_in_place<'t, 'r, 'k, 'w, 'v, 'a>(
    text: &mut Text,
    context: &Context<'t, 'r, 'k, 'w, 'v, 'a>,
    most: u32,
    typed: &Typed<'r, 'k, 'a>,
    place: &Place<'_>,
) -> Result<(), NoMemory>
    requires near { IsNear most place.now.offset }
    ensures { OnOk result (text.new ≡ text.old ++ in_place (value_text context.now.units.now
        context.now.view.now.memory most typed.now place.now)) }
{
    match push_within(text, context, most, typed, place)? {
        Some(mark) => text.push_str(mark.text()),
        None => Ok(()),
    }
}

/// Appends the value of a member, or its mark.
#[cycle(values)]
fn push_member_value<'t, 'r, 'k, 'w, 'v, 'a>(
    text: &mut Text,
    context: &Context<'t, 'r, 'k, 'w, 'v, 'a>,
    further: u32,
    entry: &'r Entry<'a>,
    place: &Place<'_>,
) -> Result<(), NoMemory>
    requires near { IsNear (suc further) place.now.offset }
    ensures { OnOk result (text.new ≡ text.old ++ in_place (value_text context.now.units.now
        context.now.view.now.memory further (type_at context.now.units.now entry.now.attributes)
        (the_member_place place.now entry.now))) }
{
    let typed = type_of(context.units, &entry.attributes);
    let own = own_source(entry);
    let member = member_place(place, entry, &own);
    push_in_place(text, context, further, &typed, &member)
}

/// Appends a member: its name and its value.
#[cycle(values)]
fn push_member<'t, 'r, 'k, 'w, 'v, 'a>(
    text: &mut Text,
    context: &Context<'t, 'r, 'k, 'w, 'v, 'a>,
    further: u32,
    entry: &'r Entry<'a>,
    place: &Place<'_>,
) -> Result<(), NoMemory>
    requires near { IsNear (suc further) place.now.offset }
    ensures { OnOk result (text.new ≡ text.old ++ values.member_text context.now.units.now
        (value_text context.now.units.now context.now.view.now.memory further)
        place.now entry.now) }
{
    text.push_plain(name_or_empty(context.units.units(), &entry.attributes))?;
    text.push_str(" = ")?;
    push_member_value(text, context, further, entry, place)
}

/// Appends a member, or the mark in the place of a variant part.
#[cycle(values)]
fn push_item<'t, 'r, 'k, 'w, 'v, 'a>(
    text: &mut Text,
    context: &Context<'t, 'r, 'k, 'w, 'v, 'a>,
    further: u32,
    item: &Item<'r, 'a>,
    place: &Place<'_>,
) -> Result<(), NoMemory>
    requires near { IsNear (suc further) place.now.offset }
    ensures { OnOk result (text.new ≡ text.old ++ values.item_text context.now.units.now
        (value_text context.now.units.now context.now.view.now.memory further)
        place.now item.now) }
{
    match item {
        Item::Member(standing) => push_member(text, context, further, standing.entry(), place),
        Item::Unknown(mark) => text.push_str(mark.text()),
    }
}

/// Appends what stands between members: nothing in front of the first one.
fn push_separator(text: &mut Text, is_first: bool) -> Result<(), NoMemory>
    ensures { OnOk result (text.new ≡ text.old ++ separator is_first) }
{
    if is_first {
        Ok(())
    } else {
        text.push_str(", ")
    }
}

/// Appends the members of a structure.
#[cycle(values)]
fn push_members<'t, 'r, 'k, 'w, 'v, 'a>(
    text: &mut Text,
    context: &Context<'t, 'r, 'k, 'w, 'v, 'a>,
    further: u32,
    standing: &TypeStanding<'r, 'k, 'a>,
    place: &Place<'_>,
) -> Result<(), NoMemory>
    requires near { IsNear (suc further) place.now.offset }
    ensures { OnOk result (text.new ≡ text.old ++ values.braced (map
        (values.item_text context.now.units.now
        (value_text context.now.units.now context.now.view.now.memory further) place.now)
        (the_items context.now.units.now context.now.view.now.memory place.now longest_chain
        standing.now))) }
{
    text.push_str("{")?;
    let items = items_of(context.alloc, context.units, context.view, standing, place)?;
    let entries = items.as_slice();
    let mut is_first = true;
    for item in entries {
        push_separator(text, is_first)?;
        push_item(text, context, further, item, place)?;
        is_first = false;
    }
    let pushed = text.push_str("}");
    drop(items);
    pushed
}

/// The place so many bytes on.
fn place_on<'s>(place: &Place<'s>, at: u64) -> Place<'s>
    requires near { IsNear 1 place.now.offset }
    ensures is { result ≡ further_on place.now (pos at) }
    ensures near { (n : ℕ) → IsNear (suc n) place.now.offset → IsNear n result.offset }
{
    Place {
        source: place.source,
        offset: place.offset + i128::from(at),
        bits: None,
    }
}

/// Appends the rows of an array without its first so many subranges.
#[cycle(values)]
fn push_rows<'t, 'r, 'k, 'w, 'v, 'a>(
    text: &mut Text,
    context: &Context<'t, 'r, 'k, 'w, 'v, 'a>,
    further: u32,
    element: &Typed<'r, 'k, 'a>,
    place: &Place<'_>,
    array: &ArrayRows,
    skipped: usize,
) -> Result<(), NoMemory>
    requires near { IsNear (suc further) place.now.offset }
    requires nested { odometer.AreNested (odometer.levels_behind array.now skipped) }
    requires fits { odometer.whole (odometer.levels_behind array.now skipped) < 2 ^ 64 }
    ensures { OnOk result (text.new ≡ text.old ++ odometer.rows_text
        (element_text context.now.units.now
        context.now.view.now.memory further element.now place.now)
        (odometer.levels_behind array.now skipped) 0) }
{
    let mut rows = Rows::new(context.alloc, skipped);
    'elements: loop {
        let Some(at) = rows.next(text, array)? else {
            return Ok(());
        };
        let there = place_on(place, at);
        push_in_place(text, context, further, element, &there)?;
    }
}

/// Appends the text of an array whose subranges are known, without its first so many, or tells the
/// mark in its place.
#[cycle(values)]
fn push_known<'t, 'r, 'k, 'w, 'v, 'a>(
    text: &mut Text,
    context: &Context<'t, 'r, 'k, 'w, 'v, 'a>,
    further: u32,
    element: &Typed<'r, 'k, 'a>,
    place: &Place<'_>,
    array: &ArrayRows,
    skipped: usize,
) -> Result<Option<Mark>, NoMemory>
    requires near { IsNear (suc further) place.now.offset }
    requires size { IsSome (size_behind array.now skipped) }
    ensures { IfOk result (λ mark. Tells (values.array_text (value_text context.now.units.now
        context.now.view.now.memory further element.now) (drop skipped array.now.counts)
        array.now.element place.now) mark text.old text.new) }
{
    let count = array.len();
    if count <= skipped {
        return push_within(text, context, further, element, place);
    }
    push_rows(text, context, further, element, place, array, skipped)?;
    Ok(None)
}

/// Appends the text of an array without its first so many subranges, or tells the mark in its
/// place. Its subranges are read where they are not known yet.
#[cycle(values)]
fn push_array<'t, 'r, 'k, 'w, 'v, 'a>(
    text: &mut Text,
    context: &Context<'t, 'r, 'k, 'w, 'v, 'a>,
    further: u32,
    standing: &TypeStanding<'r, 'k, 'a>,
    skipped: usize,
    place: &Place<'_>,
) -> Result<Option<Mark>, NoMemory>
    requires near { IsNear (suc further) place.now.offset }
    requires class { class_at standing.now ≡ classes.Array }
    requires size { IsSome (sizes.type_size context.now.units.now
        (typeds.At standing.now skipped)) }
    ensures { IfOk result (λ mark. Tells (values.content_as classes.Array context.now.units.now
        context.now.view.now.memory
        (value_text context.now.units.now context.now.view.now.memory further)
        standing.now skipped 0 place.now) mark text.old text.new) }
{
    let element = inner_type(context.units, standing);
    let size = type_size(context.units, &element).unwrap_or(0);
    if let Some(array) = standing.rows_of(size) {
        return push_known(text, context, further, &element, place, array, skipped);
    }
    let array = ArrayRows::of(context.alloc, standing.standing(), size)?;
    let pushed = push_known(text, context, further, &element, place, &array, skipped);
    drop(array);
    pushed
}

/// Appends the text of a value of a type at a place, or appends nothing and tells the mark in its
/// place.
pub fn push_value<'r, 'k, 'a>(
    alloc: Global,
    text: &mut Text,
    units: &TypedUnits<'r, 'k, 'a>,
    view: &FrameView<'_>,
    typed: &Typed<'r, 'k, 'a>,
    place: &Place<'_>,
) -> Result<Option<Mark>, NoMemory>
    requires near { IsNear 16 place.now.offset }
    ensures { IfOk result (λ mark. Tells (value_text units.now view.now.memory longest_chain
        typed.now place.now) mark text.old text.new) }
{
    let context = Context { alloc, units, view };
    push_within(text, &context, LONGEST_CHAIN, typed, place)
}
