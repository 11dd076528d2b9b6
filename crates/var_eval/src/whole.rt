//! Whole variables.

ghost use Rattle.std.specs.Prelude.{◌≡◌, ◌++◌, IfOk, OnOk};
ghost use Rattle.var_values.specs.Values.{in_place};
ghost use Rattle.var_values.specs.calls.Told.{Tells};
ghost use Rattle.var_eval.specs.Locations.{variable_source};
ghost use Rattle.var_eval.specs.Shown as shown;
ghost use Rattle.var_eval.specs.calls.Sourced.{sourced_at, AreKnown};

use crate::frame::VariableFrame;
use crate::locations::{source_alone, source_of};
use crate::shown::Shown;
use crate::sources::{
    ExpressionPlace, KnownSource, KnownSources, keep_source, known_source, long_place, room_of,
};
use causes::NoMemory;
use dwarf_entries::{Standing, standing_at};
use dwarf_types::type_of;
use pm_text::Text;
use std::alloc::Global;
use var_values::{Mark, Place, Source, push_value};

/// Appends the text of a whole variable that comes from there, or tells the mark in its place.
#[tactic(auto, using(var_values::proofs::NearLaws::near_start), unfolding(crate::specs::Shown::variable_text))]
fn push_from<'r, 'a>(
    alloc: Global,
    text: &mut Text,
    frame: &VariableFrame<'_, 'r, '_, '_, '_, 'a>,
    variable: &Standing<'r, 'a>,
    source: &Source,
) -> Result<Option<Mark>, NoMemory>
    requires { source.now ≡ variable_source frame.now variable.now }
    ensures { IfOk result (λ mark. Tells (shown.variable_text frame.now variable.now) mark text.old
        text.new) }
{
    let units = frame.types();
    let typed = type_of(units, &variable.entry().attributes);
    let place = Place {
        source,
        offset: 0,
        bits: None,
    };
    push_value(alloc, text, units, frame.view(), &typed, &place)
}

/// The same of a variable whose source the long expression at a place gives.
fn push_long<'r, 'a>(
    alloc: Global,
    text: &mut Text,
    frame: &VariableFrame<'_, 'r, '_, '_, '_, 'a>,
    variable: &Standing<'r, 'a>,
    place: ExpressionPlace,
    known: &mut KnownSources,
) -> Result<Option<Mark>, NoMemory>
    requires right { AreKnown frame.now known.old }
    requires is { variable_source frame.now variable.now ≡ sourced_at frame.now place }
    ensures told { IfOk result (λ mark. Tells (shown.variable_text frame.now variable.now) mark
        text.old text.new) }
    ensures right { AreKnown frame.now known.new }
{
    if let Some(source) = known_source(&known.sources, place) {
        return push_from(alloc, text, frame, variable, source);
    }
    let source = source_of(alloc, frame, variable, &mut known.lists)?;
    match push_from(alloc, text, frame, variable, &source) {
        Ok(mark) => {
            let room = room_of(frame.sections(), variable.unit());
            keep_source(room, &mut known.sources, KnownSource { place, source })?;
            Ok(mark)
        }
        Err(NoMemory) => {
            drop(source);
            Err(NoMemory)
        }
    }
}

/// The same of each variable.
fn push_whole<'r, 'a>(
    alloc: Global,
    text: &mut Text,
    frame: &VariableFrame<'_, 'r, '_, '_, '_, 'a>,
    variable: &Standing<'r, 'a>,
    known: &mut KnownSources,
) -> Result<Option<Mark>, NoMemory>
    requires right { AreKnown frame.now known.old }
    ensures told { IfOk result (λ mark. Tells (shown.variable_text frame.now variable.now) mark
        text.old text.new) }
    ensures right { AreKnown frame.now known.new }
{
    if let Some(place) = long_place(frame, variable, &mut known.lists)? {
        return push_long(alloc, text, frame, variable, place, known);
    }
    let source = source_of(alloc, frame, variable, &mut known.lists)?;
    push_from(alloc, text, frame, variable, &source)
}

/// Appends what is shown of a variable: its text, or the mark in its place.
pub fn push_variable<'r, 'a>(
    alloc: Global,
    text: &mut Text,
    frame: &VariableFrame<'_, 'r, '_, '_, '_, 'a>,
    variable: &Standing<'r, 'a>,
    known: &mut KnownSources,
) -> Result<(), NoMemory>
    requires right { AreKnown frame.now known.old }
    ensures text { OnOk result (text.new
        ≡ text.old ++ in_place (shown.variable_text frame.now variable.now)) }
    ensures right { AreKnown frame.now known.new }
{
    match push_whole(alloc, text, frame, variable, known)? {
        Some(mark) => text.push_str(mark.text()),
        None => Ok(()),
    }
}

#[tactic(auto, using(crate::proofs::ShownLaws::marked_shown, crate::proofs::ShownLaws::text_shown))]
fn shown_whole<'r, 'a>(
    alloc: Global,
    frame: &VariableFrame<'_, 'r, '_, '_, '_, 'a>,
    variable: &Standing<'r, 'a>,
) -> Result<Shown, NoMemory>
    ensures { IfOk result (λ s. s ≡ shown.shown_as (shown.variable_text frame.now variable.now)) }
{
    let source = source_alone(alloc, frame, variable)?;
    let mut text = Text::new(alloc);
    match push_from(alloc, &mut text, frame, variable, &source)? {
        Some(mark) => Ok(Shown::Marked(mark)),
        None => Ok(Shown::Text(text)),
    }
}

/// What is shown of the variable whose entry stands at an offset of the section.
#[tactic(auto, unfolding(crate::specs::Shown::entry_shown))]
pub fn value_at(
    alloc: Global,
    frame: &VariableFrame<'_, '_, '_, '_, '_, '_>,
    entry: u32,
) -> Result<Shown, NoMemory>
    ensures { IfOk result (λ s. s ≡ shown.entry_shown frame.now entry) }
{
    match standing_at(frame.units(), entry) {
        Some(variable) => shown_whole(alloc, frame, &variable),
        None => Ok(Shown::NoVariable),
    }
}
