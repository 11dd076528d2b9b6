//! The lines that show a frame.

ghost use Rattle.std.specs.Prelude.{◌≡◌, ◌++◌, List, ℕ, None, OnOk, IfSome, option_copied};
ghost use Rattle.std.specs.Option.{option_or};
ghost use Rattle.wasm_decode.specs.Names.{name_of as function_name};
ghost use Rattle.debug_frames.specs.Frames as definitions;
ghost use Rattle.debug_frames.specs.inner.Resolving.{resolved_at};
ghost use Rattle.debug_frames.specs.inner.Standings.{IsOfKept};

use crate::address::address_of;
use crate::information::Information;
use crate::places::push_place_behind;
use crate::symbolizer::{Resolved, Symbolizer};
use causes::NoMemory;
use commands::push_number;
use dump_format::Frame;
use dwarf_entries::{Standing, name_of};
use pm_text::Text;
use std::alloc::Global;
use wasm_syntax::ModuleParts;

/// Adds a name, or `?` where there is none.
fn push_name(out: &mut Text, name: Option<&[u8]>) -> Result<(), NoMemory>
    ensures { OnOk result (out.new
        ≡ out.old ++ definitions.name_or_mark (option_copied name.entry)) }
{
    match name {
        Some(name) => out.push_plain(name),
        None => out.push_str("?"),
    }
}

/// The name of the function that stands at an address, of which this is known.
fn name_at<'r, 'a>(
    information: &'r Information<'a>,
    resolved: &'r Resolved<'r, 'a>,
    function: u32,
) -> Option<&'r [u8]>
    ensures { option_copied result
        ≡ option_or resolved.now.name (function_name information.now.names function) }
{
    if let Some(name) = resolved.name {
        return Some(name);
    }
    match information.names().get(function) {
        Some(name) => Some(name.as_bytes()),
        None => None,
    }
}

#[tactic(auto, unfolding(crate::specs::Frames::function_text))]
fn push_function(
    out: &mut Text,
    information: &Information<'_>,
    resolved: &Resolved<'_, '_>,
    frame: &Frame,
) -> Result<(), NoMemory>
    requires { resolved.now ≡ resolved_at information.now resolved.now.address }
    ensures { OnOk result (out.new
        ≡ out.old ++ definitions.function_text information.now resolved.now.address frame.now) }
{
    push_name(out, name_at(information, resolved, frame.function))?;
    push_number(out, " (function ", u64::from(frame.function))?;
    push_number(out, " offset ", u64::from(frame.offset))?;
    out.push_str(")")
}

#[tactic(auto, unfolding(crate::specs::Frames::inlined_text))]
fn push_inlined(
    out: &mut Text,
    information: &Information<'_>,
    standing: &Standing<'_, '_>,
) -> Result<(), NoMemory>
    ensures { OnOk result (out.new
        ≡ out.old ++ definitions.inlined_text information.now standing.now) }
{
    out.push_str("inlined ")?;
    let attributes = &standing.entry().attributes;
    push_name(out, name_of(information.units(), attributes))
}

/// Adds what each line of the frame of an index begins with.
fn push_index(out: &mut Text, index: u64) -> Result<(), NoMemory>
    ensures { OnOk result (out.new ≡ out.old ++ definitions.index_text index) }
{
    push_number(out, "#", index)?;
    out.push_str(" ")
}

/// Adds the line of an inlined subroutine, behind that of another one, if there is one.
#[tactic(auto, unfolding(crate::specs::Frames::line))]
fn push_inlined_line(
    out: &mut Text,
    alloc: Global,
    information: &Information<'_>,
    index: u64,
    resolved: &Resolved<'_, '_>,
    before: Option<&Standing<'_, '_>>,
    standing: &Standing<'_, '_>,
) -> Result<(), NoMemory>
    requires resolved { resolved.now ≡ resolved_at information.now resolved.now.address }
    requires kept { IfSome (option_copied before) (IsOfKept information.now) }
    ensures { OnOk result (out.new ≡ out.old ++ definitions.line index
        (definitions.inlined_text information.now standing.now)
        (definitions.place_behind information.now resolved.now.address
        (option_copied before.entry))) }
{
    push_index(out, index)?;
    push_inlined(out, information, standing)?;
    push_place_behind(out, alloc, information, resolved, before)?;
    out.push_str("\n")
}

/// Adds the line of the function, behind that of an inlined subroutine, if there is one.
#[tactic(auto, unfolding(crate::specs::Frames::line))]
fn push_function_line(
    out: &mut Text,
    alloc: Global,
    information: &Information<'_>,
    index: u64,
    resolved: &Resolved<'_, '_>,
    before: Option<&Standing<'_, '_>>,
    frame: &Frame,
) -> Result<(), NoMemory>
    requires resolved { resolved.now ≡ resolved_at information.now resolved.now.address }
    requires kept { IfSome (option_copied before) (IsOfKept information.now) }
    ensures { OnOk result (out.new ≡ out.old ++ definitions.line index
        (definitions.function_text information.now resolved.now.address frame.now)
        (definitions.place_behind information.now resolved.now.address
        (option_copied before.entry))) }
{
    push_index(out, index)?;
    push_function(out, information, resolved, frame)?;
    push_place_behind(out, alloc, information, resolved, before)?;
    out.push_str("\n")
}

/// Adds the lines of the inlined subroutines that hold an address, and the line of the function
/// behind them.
fn push_lines(
    out: &mut Text,
    alloc: Global,
    information: &Information<'_>,
    index: u64,
    resolved: &Resolved<'_, '_>,
    frame: &Frame,
) -> Result<(), NoMemory>
    requires { resolved.now ≡ resolved_at information.now resolved.now.address }
    ensures { OnOk result (out.new ≡ out.old ++ definitions.lines_behind information.now index
        resolved.now.address frame.now None resolved.now.inlined) }
{
    let mut before = None;
    for standing in resolved.inlined.as_slice() {
        push_inlined_line(out, alloc, information, index, resolved, before, standing)?;
        before = Some(standing);
    }
    push_function_line(out, alloc, information, index, resolved, before, frame)
}

/// Adds the lines of a frame by its index: one for each inlined subroutine that holds its address,
/// the innermost first, and one for its function, each with its place in the source where it is
/// known.
#[tactic(auto, unfolding(crate::specs::Frames::frame_text))]
pub fn push_frame(
    out: &mut Text,
    alloc: Global,
    symbolizer: &mut Symbolizer<'_, '_>,
    m: &ModuleParts,
    index: u64,
    frame: &Frame,
) -> Result<(), NoMemory>
    ensures text { OnOk result (out.new
        ≡ out.old ++ definitions.frame_text symbolizer.old m.now index frame.now) }
    ensures same { symbolizer.new ≡ symbolizer.old }
{
    let address = address_of(m, frame);
    let information = symbolizer.information();
    if let Some(resolved) = symbolizer.get(address) {
        return push_lines(out, alloc, information, index, resolved, frame);
    }
    match Resolved::of(alloc, information, address) {
        Ok(resolved) => match push_lines(out, alloc, information, index, &resolved, frame) {
            Ok(()) => symbolizer.keep(resolved),
            Err(NoMemory) => Err(NoMemory),
        },
        Err(NoMemory) => Err(NoMemory),
    }
}
