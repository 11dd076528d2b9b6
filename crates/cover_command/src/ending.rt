//! What is answered where the invocation ended.

ghost use Rattle.std.specs.Prelude.{◌≡◌, ◌++◌, Ok, IfOk, OnOk};
ghost use Rattle.wasm_decode.specs.Decode.{module_from};
ghost use Rattle.machine_basics.specs.calls.Traps.{trap_code};
ghost use Rattle.commands.specs.Texts.{ended};
ghost use Rattle.commands.specs.Lines.{kind_line};
ghost use Rattle.run_session.specs.calls.Answers.{answer_line};
ghost use Rattle.debug_frames.specs.Information.{information};
ghost use Rattle.cover_command.specs.CoverAnswer.{finished_line};
ghost use Rattle.cover_command.specs.inner.Running.{AddsCounts, TellsCounts, AnswersEnd};

use crate::telling::push_covered;
use causes::NoMemory;
use commands::{Outcome, Status, push_kind, push_result};
use debug_frames::Information;
use machine_basics::TrapKind;
use machine_hosted::RunEnd;
use machine_steps::Tally;
use pm_text::Text;
use run_session::end_line;
use std::alloc::Global;
use wasm_syntax::Value;
use wasm_validate::Validated;

/// The first line where the invocation finished.
#[tactic(auto, unfolding(crate::specs::CoverAnswer::finished_line))]
fn finished(alloc: Global, value: Option<Value>) -> Result<Text, NoMemory>
    ensures { IfOk result (λ t. t ≡ finished_line value) }
{
    let mut text = Text::from_str(alloc, "finished")?;
    push_result(&mut text, value)?;
    text.push_str("\n").and(Ok(text))
}

/// The first line where the invocation trapped.
fn trapped(alloc: Global, kind: TrapKind) -> Result<Text, NoMemory>
    ensures { IfOk result (λ t. t ≡ kind_line (trap_code kind)) }
{
    let mut text = Text::new(alloc);
    push_kind(&mut text, kind.code()).and(Ok(text))
}

/// Adds the lines that tell where the steps fell, by what the bytes of the module say of its source.
fn push_told(
    out: &mut Text,
    alloc: Global,
    bytes: &[u8],
    source: &Validated,
    tally: &Tally,
) -> Result<(), NoMemory>
    requires { module_from bytes.now ≡ Ok source.now }
    ensures { OnOk result (AddsCounts (information bytes.now source.now.customs)
        source.now tally.now out.old out.new) }
{
    let information = Information::of(alloc, bytes, source.module())?;
    push_covered(out, alloc, &information, source.module().parts(), tally)
}

/// The answer that tells where the steps fell, behind its first line.
fn told(
    alloc: Global,
    bytes: &[u8],
    source: &Validated,
    tally: &Tally,
    first_line: Text,
) -> Result<Outcome, NoMemory>
    requires { module_from bytes.now ≡ Ok source.now }
    ensures { IfOk result (TellsCounts (information bytes.now source.now.customs)
        source.now tally.now first_line) }
{
    let mut text = first_line;
    push_told(&mut text, alloc, bytes, source, tally).and(Ok(Outcome {
        status: Status::Done,
        text,
    }))
}

/// The answer where a call of an import had no fitting reply, behind so many calls that were
/// replied to.
fn stopped(alloc: Global, end: &RunEnd, given: u64) -> Result<Outcome, NoMemory>
    ensures { IfOk result (λ o. o ≡ ended Status.HostStopped (answer_line end.now given 0)) }
{
    let text = end_line(alloc, end, given, 0)?;
    Ok(Outcome {
        status: Status::HostStopped,
        text,
    })
}

/// The answer where the invocation came to this end, behind so many calls that were replied to,
/// with the steps that were counted.
///
/// # Errors
///
/// `NoMemory` where memory runs out, or ran out in the invocation.
pub(crate) fn answer_to(
    alloc: Global,
    bytes: &[u8],
    source: &Validated,
    tally: &Tally,
    end: &RunEnd,
    given: u64,
) -> Result<Outcome, NoMemory>
    requires { module_from bytes.now ≡ Ok source.now }
    ensures { IfOk result (AnswersEnd (information bytes.now source.now.customs)
        source.now tally.now given end.now) }
{
    match end {
        RunEnd::Finished { value } => {
            let line = finished(alloc, *value)?;
            told(alloc, bytes, source, tally, line)
        }
        RunEnd::Trapped { kind } => {
            let line = trapped(alloc, *kind)?;
            told(alloc, bytes, source, tally, line)
        }
        RunEnd::FuelSpent => {
            let line = Text::from_str(alloc, "fuel spent\n")?;
            told(alloc, bytes, source, tally, line)
        }
        RunEnd::NoReply => stopped(alloc, end, given),
        RunEnd::BadReply { .. } => stopped(alloc, end, given),
        RunEnd::DeviceFault { .. } => stopped(alloc, end, given),
        RunEnd::NoMemory => Err(NoMemory),
    }
}
