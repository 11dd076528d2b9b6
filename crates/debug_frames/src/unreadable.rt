//! The lines on what could not be read.

ghost use Rattle.std.specs.Prelude.{◌≡◌, ◌++◌, OnOk, option_copied};
ghost use Rattle.debug_frames.specs.Programs.{named};
ghost use Rattle.debug_frames.specs.Unreadable as definitions;
ghost use Rattle.debug_frames.specs.calls.Kept.{IsKept};

use crate::information::Information;
use crate::programs::named;
use causes::NoMemory;
use commands::push_number;
use dwarf_info::UnitAnswer;
use pm_text::Text;

#[tactic(auto, unfolding(crate::specs::Unreadable::unreadable))]
fn push_line(out: &mut Text, section: &str, at: u64) -> Result<(), NoMemory>
    ensures { OnOk result (out.new ≡ out.old ++ definitions.unreadable section.now at) }
{
    out.push_str("unreadable ")?;
    out.push_str(section)?;
    push_number(out, " at ", at)?;
    out.push_str("\n")
}

/// Adds the line on a line program that a unit names.
fn push_program(
    out: &mut Text,
    information: &Information<'_>,
    at: Option<u32>,
) -> Result<(), NoMemory>
    requires { IsKept information.now.sections information.now.units at }
    ensures { OnOk result (out.new
        ≡ out.old ++ definitions.named_line information.now.sections at) }
{
    let Some(at) = at else {
        return Ok(());
    };
    if information.is_read(at) {
        return Ok(());
    }
    push_line(out, ".debug_line", u64::from(at))
}

fn push_unit(
    out: &mut Text,
    information: &Information<'_>,
    answer: &UnitAnswer<'_>,
) -> Result<(), NoMemory>
    requires { IsKept information.now.sections information.now.units (named answer.now) }
    ensures { OnOk result (out.new
        ≡ out.old ++ definitions.unit_line information.now.sections answer.now) }
{
    match answer {
        UnitAnswer::Unreadable { section, at } => push_line(out, section.as_str(), *at as u64),
        UnitAnswer::Tree(_) => push_program(out, information, named(answer)),
    }
}

/// Adds a line for each unit that could not be read, and for each unit that names a line program
/// that could not be read.
#[tactic(auto, unfolding(crate::specs::Unreadable::unreadable_text))]
pub fn push_unreadable(out: &mut Text, information: &Information<'_>) -> Result<(), NoMemory>
    ensures { OnOk result (out.new ≡ out.old ++ definitions.unreadable_text information.now) }
{
    for answer in information.units().as_slice() {
        push_unit(out, information, answer)?;
    }
    Ok(())
}
