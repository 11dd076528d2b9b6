//! The line of a step.

ghost use Rattle.std.specs.Prelude.{◌≡◌, ◌++◌, OnOk, codes};
ghost use Rattle.std.specs.Fmt.{decimal};
ghost use Rattle.wasm_syntax.specs.Run.{Outcome as RunOutcome};
ghost use Rattle.machine_basics.specs.calls.Traps.{trap_code};
ghost use Rattle.replay.specs.Replays.{IsOutcome};
ghost use Rattle.commands.specs.Lines.{kind_text, result_text};
ghost use Rattle.replay_command.specs.ReplayText.{ending_at, ending_text, step_text};

use causes::NoMemory;
use commands::{kind_name, push_number, push_result};
use machine_basics::TrapKind;
use pm_text::Text;
use replay::RunEnd;
use wasm_syntax::Value;

fn push_finished(out: &mut Text, value: Option<Value>) -> Result<(), NoMemory>
    ensures { OnOk result (out.new ≡ out.old ++ codes " finished" ++ result_text value) }
{
    out.push_str(" finished")?;
    push_result(out, value)
}

fn push_trapped(out: &mut Text, kind: TrapKind) -> Result<(), NoMemory>
    ensures { OnOk result (out.new
        ≡ out.old ++ codes " trap " ++ decimal (trap_code kind) ++ codes " "
        ++ kind_text (trap_code kind)) }
{
    push_number(out, " trap ", u64::from(kind.code()))?;
    out.push_str(" ")?;
    out.push_str(kind_name(kind.code()))
}

/// Adds how a run ended, behind its last step. There are no devices, and memory sufficed.
fn push_ending(out: &mut Text, answer: &RunEnd) -> Result<(), NoMemory>
    ensures { (o : RunOutcome) → IsOutcome answer.now o
        → OnOk result (out.new ≡ out.old ++ ending_text o) }
{
    match answer {
        RunEnd::Finished { value } => push_finished(out, *value),
        RunEnd::Trapped { kind } => push_trapped(out, *kind),
        RunEnd::NoReply => out.push_str(" no reply"),
        RunEnd::BadReply { .. } => out.push_str(" bad reply"),
        RunEnd::FuelSpent => out.push_str(" fuel spent"),
        RunEnd::DeviceFault { .. } => Ok(()),
        RunEnd::NoMemory => Ok(()),
    }
}

/// Adds how a run ended, where the step is its last one.
fn push_ending_at(out: &mut Text, step: u64, end: u64, answer: &RunEnd) -> Result<(), NoMemory>
    ensures { (o : RunOutcome) → IsOutcome answer.now o
        → OnOk result (out.new ≡ out.old ++ ending_at step end o) }
{
    if step == end {
        push_ending(out, answer)
    } else {
        Ok(())
    }
}

/// Adds the line of a step.
pub(crate) fn push_step(
    out: &mut Text,
    step: u64,
    end: u64,
    answer: &RunEnd,
) -> Result<(), NoMemory>
    ensures { (o : RunOutcome) → IsOutcome answer.now o
        → OnOk result (out.new ≡ out.old ++ step_text step end o) }
{
    push_number(out, "step ", step)?;
    push_number(out, " of ", end)?;
    push_ending_at(out, step, end, answer)?;
    out.push_str("\n")
}
