//! What is shown of parts of variables.

ghost use Rattle.std.specs.Prelude.{◌≡◌, IfOk};
ghost use Rattle.var_eval.specs.Shown.{shown_as};
ghost use Rattle.var_eval.specs.PathShown as definitions;
ghost use Rattle.var_eval.specs.calls.Names.{AreNames};
ghost use Rattle.var_eval.specs.inner.PathTold.{shown_by};

use crate::known_names::chosen_known;
use crate::locations::source_alone;
use crate::{KnownNames, Part, Shown, VariableFrame, no_names, walk};
use causes::NoMemory;
use dwarf_entries::Standing;
use dwarf_expr::FrameView;
use dwarf_types::{TypedUnits, type_of};
use pm_text::Text;
use std::alloc::Global;
use var_path::{Path, Step};
use var_values::{Mark, push_value};

/// A text, or the mark in its place. Behind the end of an array there is no text.
fn shown_of(past: bool, mark: Option<Mark>, text: Text) -> Shown
    ensures { result ≡ shown_by past mark text }
{
    match mark {
        Some(mark) => Shown::Marked(mark),
        None => {
            if past {
                Shown::Marked(Mark::OutsideArray)
            } else {
                Shown::Text(text)
            }
        }
    }
}

/// What is shown of a part.
#[tactic(auto, using(crate::proofs::Told::part_is_shown))]
fn shown_part<'r, 'k, 'a>(
    alloc: Global,
    units: &TypedUnits<'r, 'k, 'a>,
    view: &FrameView<'_>,
    part: &Part<'r, 'k, 'a>,
) -> Result<Shown, NoMemory>
    ensures { IfOk result (λ shown.
        shown ≡ shown_as (definitions.part_text units.now view.now.memory part.now)) }
{
    let mut text = Text::new(alloc);
    let mark = push_value(alloc, &mut text, units, view, part.typed(), &part.place())?;
    Ok(shown_of(part.is_past(), mark, text))
}

/// What is shown behind steps from a variable, if there is one.
#[tactic(auto, unfolding(crate::specs::PathShown::steps_text))]
fn shown_behind<'r, 'a>(
    alloc: Global,
    frame: &VariableFrame<'_, 'r, '_, '_, '_, 'a>,
    steps: &[Step<'_>],
    variable: Option<Standing<'r, 'a>>,
) -> Result<Shown, NoMemory>
    ensures { IfOk result (λ shown.
        shown ≡ definitions.shown_behind frame.now steps.now variable.entry) }
{
    let Some(variable) = variable else {
        return Ok(Shown::NoVariable);
    };
    let source = source_alone(alloc, frame, &variable)?;
    let units = frame.types();
    let typed = type_of(units, &variable.entry().attributes);
    let Ok(reached) = walk(alloc, units, frame.view(), steps, typed, source) else {
        return Err(NoMemory);
    };
    match reached {
        Ok(part) => shown_part(alloc, units, frame.view(), &part),
        Err(mark) => Ok(Shown::Marked(mark)),
    }
}

/// What is shown of the variable that a path names, or of the part of it that is behind the path's
/// steps. What is known of the names of an address serves the next path there.
///
/// # Errors
///
/// Want of memory also where the steps lead 2^118 bytes from where a variable, or what a pointer
/// leads to, begins: millions of steps do.
#[tactic(auto, using(crate::proofs::ShownLaws::shown_same), unfolding(crate::specs::PathShown::path_shown))]
pub fn value_by<'r, 'a>(
    alloc: Global,
    frame: &VariableFrame<'_, 'r, '_, '_, '_, 'a>,
    names: &mut KnownNames<'a>,
    path: &Path<'_>,
) -> Result<Shown, NoMemory>
    requires { AreNames frame.now.sections frame.now.units names.old }
    ensures is { IfOk result (λ shown. shown ≡ definitions.path_shown frame.now path.now) }
    ensures known { AreNames frame.now.sections frame.now.units names.new }
{
    let Ok(variable) = chosen_known(
        alloc,
        frame.sections(),
        frame.units(),
        frame.address(),
        frame.subprogram(),
        names,
        path.name.as_slice(),
    ) else {
        return Err(NoMemory);
    };
    shown_behind(alloc, frame, path.steps.as_slice(), variable)
}

/// The same of one path alone.
pub fn value_of<'r, 'a>(
    alloc: Global,
    frame: &VariableFrame<'_, 'r, '_, '_, '_, 'a>,
    path: &Path<'_>,
) -> Result<Shown, NoMemory>
    ensures { IfOk result (λ shown. shown ≡ definitions.path_shown frame.now path.now) }
{
    let mut names = no_names();
    value_by(alloc, frame, &mut names, path)
}
