//! What stands at a path in a frame.

ghost use Rattle.std.specs.Prelude.{◌≡◌, ◌++◌, OnOk};
ghost use Rattle.var_eval.specs.PathShown.{path_shown};
ghost use Rattle.var_eval.specs.calls.Names.{AreNames};
ghost use Rattle.debugger.specs.Variables as definitions;

use causes::NoMemory;
use pm_text::Text;
use std::alloc::Global;
use var_eval::{KnownNames, Shown, VariableFrame, value_by};
use var_path::Path;

fn push_no_variable(out: &mut Text, name: &[u8]) -> Result<(), NoMemory>
    ensures { OnOk result (out.new ≡ out.old ++ definitions.no_variable name.now) }
{
    out.push_str("no variable ")?;
    out.push_plain(name)?;
    out.push_str("\n")
}

#[tactic(auto, unfolding(crate::specs::Variables::value_line))]
fn push_value_line(out: &mut Text, word: &str, text: &str) -> Result<(), NoMemory>
    ensures { OnOk result (out.new ≡ out.old ++ definitions.value_line word.now text.now) }
{
    out.push_str(word)?;
    out.push_str(" = ")?;
    out.push_str(text)?;
    out.push_str("\n")
}

/// Adds the line of what is shown of a path to a variable of this name, spelled by this word.
fn push_shown(out: &mut Text, name: &[u8], word: &str, shown: &Shown) -> Result<(), NoMemory>
    ensures { OnOk result (out.new
        ≡ out.old ++ definitions.shown_line name.now word.now shown.now) }
{
    match shown {
        Shown::NoVariable => push_no_variable(out, name),
        Shown::Marked(mark) => push_value_line(out, word, mark.text()),
        Shown::Text(text) => push_value_line(out, word, text.as_str()),
    }
}

/// Adds the line of what stands at a path, which this word spells, in a frame. What is known of names
/// there serves the next path.
pub fn push_path<'a>(
    out: &mut Text,
    alloc: Global,
    looks: &VariableFrame<'_, '_, '_, '_, '_, 'a>,
    names: &mut KnownNames<'a>,
    word: &str,
    path: &Path<'_>,
) -> Result<(), NoMemory>
    requires { AreNames looks.now.sections looks.now.units names.old }
    ensures line { OnOk result (out.new ≡ out.old
        ++ definitions.shown_line path.now.name word.now (path_shown looks.now path.now)) }
    ensures known { AreNames looks.now.sections looks.now.units names.new }
{
    let shown = value_by(alloc, looks, names, path)?;
    push_shown(out, path.name.as_slice(), word, &shown)
}
