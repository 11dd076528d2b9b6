//! The places in source that stand in the lines of frames.

ghost use Rattle.std.specs.Prelude.{◌≡◌, ◌++◌, Some, OnOk, IfOk, IfSome, option_copied, option_map};
ghost use Rattle.debug_frames.specs.Frames as definitions;
ghost use Rattle.debug_frames.specs.Programs.{program_there};
ghost use Rattle.debug_frames.specs.calls.Kept.{IsKept};
ghost use Rattle.debug_frames.specs.inner.Paths.{place_text, shown_or_mark};
ghost use Rattle.debug_frames.specs.inner.Resolving.{resolved_at};
ghost use Rattle.debug_frames.specs.inner.Standings.{IsOfKept};

use crate::files::{Path, push_path_or_mark};
use crate::information::Information;
use crate::programs::named_by;
use crate::rows::RowPlace;
use crate::symbolizer::Resolved;
use causes::NoMemory;
use dwarf_entries::{Standing, natural, number};
use pm_text::Text;
use std::alloc::Global;

/// Names of attributes (DWARF 4 and 5 section 7.5.4).
const CALL_FILE: u64 = 0x58;

const CALL_LINE: u64 = 0x59;

/// Adds the place of a row.
#[tactic(auto, unfolding(crate::specs::Frames::site))]
fn push_row(out: &mut Text, alloc: Global, place: &RowPlace<'_>) -> Result<(), NoMemory>
    ensures { OnOk result (out.new ≡ out.old ++ place_text (Some place.now)) }
{
    out.push_str(" at ")?;
    push_path_or_mark(out, alloc, &place.path)?;
    out.push_str(":")?;
    out.push_decimal(i128::from(place.line))
}

/// The name of the file of a number in the line program at an offset that a unit names, if any.
fn path_of_program<'a>(
    alloc: Global,
    information: &Information<'a>,
    at: Option<u32>,
    number: u64,
) -> Result<Option<Path<'a>>, NoMemory>
    requires { IsKept information.now.sections information.now.units at }
    ensures { IfOk result (λ path. shown_or_mark path ≡ definitions.file_in
        (option_map (program_there information.now.sections) at) (Some number)) }
{
    match at {
        Some(at) => information.programs().path(alloc, at, number),
        None => Ok(None),
    }
}

/// The name of the file of a number in the line program of the unit of an entry, if any.
fn call_path<'a>(
    alloc: Global,
    information: &Information<'a>,
    standing: &Standing<'_, '_>,
    number: Option<u64>,
) -> Result<Option<Path<'a>>, NoMemory>
    requires { IsOfKept information.now standing.now }
    ensures { IfOk result (λ path. shown_or_mark path ≡ definitions.file_in
        (definitions.program_of_unit information.now.sections standing.now) number) }
{
    let Some(number) = number else {
        return Ok(None);
    };
    let at = named_by(standing.unit().entries.as_slice());
    path_of_program(alloc, information, at, number)
}

/// Adds the file from which an inlined subroutine is called.
fn push_call_file(
    out: &mut Text,
    alloc: Global,
    information: &Information<'_>,
    standing: &Standing<'_, '_>,
) -> Result<(), NoMemory>
    requires { IsOfKept information.now standing.now }
    ensures { OnOk result (out.new
        ≡ out.old ++ definitions.call_file_text information.now standing.now) }
{
    let number = natural(&standing.entry().attributes, CALL_FILE);
    match call_path(alloc, information, standing, number) {
        Ok(path) => push_path_or_mark(out, alloc, &path),
        Err(NoMemory) => Err(NoMemory),
    }
}

/// Adds the place from which an inlined subroutine is called, where it says a line.
#[tactic(auto, unfolding(crate::specs::Frames::site))]
fn push_call(
    out: &mut Text,
    alloc: Global,
    information: &Information<'_>,
    standing: &Standing<'_, '_>,
) -> Result<(), NoMemory>
    requires { IsOfKept information.now standing.now }
    ensures { OnOk result (out.new
        ≡ out.old ++ definitions.call_site information.now standing.now) }
{
    let Some(line) = number(&standing.entry().attributes, CALL_LINE) else {
        return Ok(());
    };
    out.push_str(" at ")?;
    push_call_file(out, alloc, information, standing)?;
    out.push_str(":")?;
    out.push_decimal(line)
}

/// Adds the place of the row of an address, where there is one.
fn push_place(out: &mut Text, alloc: Global, resolved: &Resolved<'_, '_>) -> Result<(), NoMemory>
    ensures { OnOk result (out.new ≡ out.old ++ place_text resolved.now.place) }
{
    match &resolved.place {
        Some(place) => push_row(out, alloc, place),
        None => Ok(()),
    }
}

/// Adds the place of a line: of the first one that of the row of the address, of each next one that
/// of the call of the inlined subroutine before it.
pub fn push_place_behind(
    out: &mut Text,
    alloc: Global,
    information: &Information<'_>,
    resolved: &Resolved<'_, '_>,
    before: Option<&Standing<'_, '_>>,
) -> Result<(), NoMemory>
    requires resolved { resolved.now ≡ resolved_at information.now resolved.now.address }
    requires kept { IfSome (option_copied before) (IsOfKept information.now) }
    ensures { OnOk result (out.new
        ≡ out.old ++ definitions.place_behind information.now resolved.now.address
        (option_copied before.entry)) }
{
    match before {
        Some(standing) => push_call(out, alloc, information, standing),
        None => push_place(out, alloc, resolved),
    }
}
