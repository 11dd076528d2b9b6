//! The texts of commands, one after the other.

ghost use Rattle.std.specs.Prelude.{IfOk, OnOk};
ghost use Rattle.debugger.specs.Session.{PrintsAll};
ghost use Rattle.debug_command.specs.calls.Steps.{Adds};

use causes::NoMemory;
use debugger::Session;
use pm_text::Text;
use std::alloc::Global;

/// Adds what a command prints.
pub fn push_command(
    out: &mut Text,
    alloc: Global,
    session: &mut Session<'_, '_, '_, '_>,
    command: &str,
) -> Result<(), NoMemory>
    ensures { OnOk result (Adds session.old out.old command.now session.new out.new) }
{
    let text = session.command(alloc, command)?;
    out.push_str(text.as_str())
}

/// What commands print, one after the other.
pub fn printed(
    alloc: Global,
    session: &mut Session<'_, '_, '_, '_>,
    commands: &[Text],
) -> Result<Text, NoMemory>
    ensures { IfOk result (PrintsAll session.old.subject session.old.chosen commands.now) }
{
    let mut out = Text::new(alloc);
    for command in commands {
        push_command(&mut out, alloc, session, command.as_str())?;
    }
    Ok(out)
}
