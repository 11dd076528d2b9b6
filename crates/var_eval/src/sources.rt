//! Where the variables of one frame come from, by the entries of location lists. A long expression
//! is run once, however many of them it serves.

ghost use Rattle.std.specs.Prelude.{◌≡◌, ◌<◌, ◌^◌, IfOk, IfSome, Some, true};
ghost use Rattle.dwarf_info.specs.declared.entry.AttrValue.TheVariants.{Offset};
ghost use Rattle.dwarf_scopes.specs.calls.Knowing.{AreFound};
ghost use Rattle.var_eval.specs.Frames.{Frame};
ghost use Rattle.var_eval.specs.Locations as locations;
ghost use Rattle.var_eval.specs.calls.Sourced.{sourced_at, AreSourced, AreKnown};

use crate::frame::VariableFrame;
use crate::locations::lists_of;
use causes::NoMemory;
use dwarf_entries::names::LOCATION;
use dwarf_entries::{Standing, attribute};
use dwarf_info::{AttrValue, Sections5, Unit};
use dwarf_loc::Span;
use dwarf_scopes::{
    KnownLocations, ListWay, is_same_way, known_location_in, no_locations, way_number, way_of,
};
use std::alloc::Global;
use std::collections::BTreeMap;
use var_values::Source;

/// A shorter expression is run again for each variable.
const LONG: usize = 64;

/// Where an expression stands, and what it is read by.
#[derive(Clone, Copy)]
pub struct ExpressionPlace {
    pub way: ListWay,
    /// In the section of location lists.
    pub span: Span,
}

/// Where a variable comes from by the expression at a place.
#[derive(Drop)]
pub struct KnownSource {
    pub place: ExpressionPlace,
    pub source: Source,
}

/// What was found of location lists, and by their long expressions, for the variables of one frame.
#[derive(Drop)]
pub struct KnownSources {
    pub lists: KnownLocations,
    /// By numbers; each says what it is of.
    pub sources: BTreeMap<u128, KnownSource>,
}

/// No variable was asked yet.
#[tactic(auto, using(crate::proofs::SourceLaws::none_known))]
pub fn no_sources(alloc: Global) -> KnownSources
    ensures { (f : Frame) → AreKnown f result }
{
    KnownSources {
        lists: no_locations(alloc),
        sources: BTreeMap::new(alloc),
    }
}

fn is_same_span(span: Span, other: Span) -> bool
    ensures { result ≡ true → span ≡ other }
{
    span.at == other.at && span.len == other.len
}

fn is_same(place: ExpressionPlace, other: ExpressionPlace) -> bool
    ensures { result ≡ true → place ≡ other }
{
    is_same_way(place.way, other.way) && is_same_span(place.span, other.span)
}

/// A number for each place where the section has fewer than 2^32 bytes.
fn number_of(place: ExpressionPlace) -> u128 {
    let way = u128::from(way_number(place.way));
    let at = place.span.at as u128 % 0x1_0000_0000;
    let len = place.span.len as u128 % 0x1_0000_0000;
    (way * 0x1_0000_0000 + at) * 0x1_0000_0000 + len
}

/// Where a variable comes from by the expression at a place, where that is known.
#[tactic(auto, using(crate::proofs::SourceLaws::known_from))]
pub fn known_source(
    sources: &BTreeMap<u128, KnownSource>,
    place: ExpressionPlace,
) -> Option<&Source>
    ensures { (f : Frame) → AreSourced f sources.now
        → IfSome result (λ source. source.now ≡ sourced_at f place) }
{
    if let Some(known) = sources.get(&number_of(place)) {
        if is_same(known.place, place) {
            return Some(&known.source);
        }
    }
    None
}

/// How many long expressions fit side by side into the section of a unit's location lists.
pub fn room_of<'a>(sections: &Sections5<'a>, unit: &Unit<'a>) -> usize {
    lists_of(sections, unit).len() / LONG
}

/// Keeps where a variable comes from by a long expression, as long as there is room: no more are kept
/// than fit into the section of its lists side by side, so that those that overlap take no more
/// memory.
#[tactic(auto, using(crate::proofs::SourceLaws::source_kept, crate::proofs::SourceLaws::sources_same))]
pub fn keep_source(
    room: usize,
    sources: &mut BTreeMap<u128, KnownSource>,
    found: KnownSource,
) -> Result<(), NoMemory>
    ensures { (f : Frame) → AreSourced f sources.old → found.source ≡ sourced_at f found.place
        → AreSourced f sources.new }
{
    if sources.len() >= room {
        return Ok(());
    }
    let number = number_of(found.place);
    match sources.insert(number, found) {
        Ok(_) => Ok(()),
        Err(_) => Err(NoMemory),
    }
}

/// The span of a long expression.
fn long_span(entry: Option<Option<Span>>) -> Option<Span>
    ensures { IfSome result (λ span. entry ≡ Some (Some span)) }
{
    let Some(Some(span)) = entry else {
        return None;
    };
    if span.len > LONG { Some(span) } else { None }
}

/// The place of the long expression that the list at an offset has for a variable.
#[tactic(auto, using(crate::proofs::SourceLaws::long_source))]
fn long_place_in<'r, 'a>(
    frame: &VariableFrame<'_, '_, '_, '_, '_, 'a>,
    variable: &Standing<'r, 'a>,
    at: u32,
    lists: &mut KnownLocations,
) -> Result<Option<ExpressionPlace>, NoMemory>
    requires right { AreFound frame.now.sections frame.now.address lists.old }
    ensures is { IfOk result (λ o. IfSome o (λ place. locations.source_by frame.now
        variable.now (locations.located_by frame.now.sections frame.now.address variable.now.unit
        (Some (Offset at))) ≡ sourced_at frame.now place)) }
    ensures right { AreFound frame.now.sections frame.now.address lists.new }
{
    let unit = variable.unit();
    let entry = known_location_in(frame.sections(), unit, at, frame.address(), lists)?;
    match long_span(entry) {
        Some(span) => Ok(Some(ExpressionPlace {
            way: way_of(unit),
            span,
        })),
        None => Ok(None),
    }
}

/// The place of the long expression that a list has for a variable.
#[tactic(auto, unfolding(crate::specs::Locations::variable_source))]
pub fn long_place<'r, 'a>(
    frame: &VariableFrame<'_, '_, '_, '_, '_, 'a>,
    variable: &Standing<'r, 'a>,
    lists: &mut KnownLocations,
) -> Result<Option<ExpressionPlace>, NoMemory>
    requires right { AreFound frame.now.sections frame.now.address lists.old }
    ensures is { IfOk result (λ o. IfSome o (λ place.
        locations.variable_source frame.now variable.now ≡ sourced_at frame.now place)) }
    ensures right { AreFound frame.now.sections frame.now.address lists.new }
{
    match attribute(&variable.entry().attributes, LOCATION) {
        Some(AttrValue::Offset(at)) => long_place_in(frame, variable, at, lists),
        _ => Ok(None),
    }
}
