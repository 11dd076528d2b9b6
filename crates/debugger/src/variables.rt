//! The variables that are visible in a frame.

ghost use Rattle.std.specs.Prelude.{◌≡◌, ◌++◌, flat_map, OnOk};
ghost use Rattle.var_eval.specs.calls.Sourced.{AreKnown};
ghost use Rattle.debugger.specs.Variables as definitions;

use causes::NoMemory;
use dwarf_entries::{Standing, name_or_empty};
use dwarf_scopes::variables_from;
use pm_text::Text;
use std::alloc::Global;
use var_eval::{KnownSources, VariableFrame, no_sources, push_variable};

/// Adds the line of a variable.
#[tactic(auto, unfolding(crate::specs::Variables::variable_line))]
fn push_line<'r, 'a>(
    out: &mut Text,
    alloc: Global,
    looks: &VariableFrame<'_, 'r, '_, '_, '_, 'a>,
    variable: &Standing<'r, 'a>,
    known: &mut KnownSources,
) -> Result<(), NoMemory>
    requires right { AreKnown looks.now known.old }
    ensures line { OnOk result (out.new
        ≡ out.old ++ definitions.variable_line looks.now variable.now) }
    ensures right { AreKnown looks.now known.new }
{
    let units = looks.units();
    out.push_plain(name_or_empty(units, &variable.entry().attributes))?;
    out.push_str(" = ")?;
    push_variable(alloc, out, looks, variable, known)?;
    out.push_str("\n")
}

fn push_lines<'r, 'a>(
    out: &mut Text,
    alloc: Global,
    looks: &VariableFrame<'_, 'r, '_, '_, '_, 'a>,
    variables: &[Standing<'r, 'a>],
) -> Result<(), NoMemory>
    ensures { OnOk result (out.new
        ≡ out.old ++ flat_map (definitions.variable_line looks.now) variables.now) }
{
    let mut known = no_sources(alloc);
    for variable in variables {
        push_line(out, alloc, looks, variable, &mut known)?;
    }
    Ok(())
}

/// Adds the lines of variables, or that there are none.
#[tactic(auto, using(crate::proofs::VariableLines::some_lines))]
fn push_lines_or_none<'r, 'a>(
    out: &mut Text,
    alloc: Global,
    looks: &VariableFrame<'_, 'r, '_, '_, '_, 'a>,
    variables: &[Standing<'r, 'a>],
) -> Result<(), NoMemory>
    ensures { OnOk result (out.new ≡ out.old ++ definitions.lines_or_none looks.now variables.now) }
{
    if variables.is_empty() {
        return out.push_str("no variables\n");
    }
    push_lines(out, alloc, looks, variables)
}

/// Adds a line for each variable that is visible where a frame stands, or that there are none.
#[tactic(auto, unfolding(dwarf_scopes::specs::Scopes::variables_at, dwarf_scopes::specs::Scopes::scopes_at))]
pub fn push_variables(
    out: &mut Text,
    alloc: Global,
    looks: &VariableFrame<'_, '_, '_, '_, '_, '_>,
) -> Result<(), NoMemory>
    ensures { OnOk result (out.new ≡ out.old ++ definitions.all_variables looks.now) }
{
    let subprogram = looks.subprogram();
    let Ok(variables) = variables_from(alloc, looks.sections(), looks.address(), subprogram) else {
        return Err(NoMemory);
    };
    push_lines_or_none(out, alloc, looks, variables.as_slice())
}
