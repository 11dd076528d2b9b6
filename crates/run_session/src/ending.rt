//! The end of a list of invocations.

ghost use Rattle.std.specs.Prelude.{◌≡◌, ◌++◌, IfOk, codes};
ghost use Rattle.std.specs.Fmt.{decimal};
ghost use Rattle.commands.specs.Texts.{ended};
ghost use Rattle.run_session.specs.RunText.{torn_text};
ghost use Rattle.run_session.specs.Ending.{host_stopped, trapped_or_done};
ghost use Rattle.run_session.specs.calls.Answers.{device_cause, misfit_cause, answer_line, answer_status};

use crate::lines::{not_invoked, push_torn};
use crate::turns::Lines;
use causes::NoMemory;
use commands::{Outcome, Status, numbered};
use machine_hosted::RunEnd;
use pm_text::Text;
use std::alloc::Global;

/// The line where no reply was left for a call.
#[tactic(auto, unfolding(crate::specs::Ending::host_stopped))]
fn no_reply(alloc: Global, call: u64) -> Result<Text, NoMemory>
    ensures { IfOk result (λ t. t ≡ host_stopped (codes "no reply for call " ++ decimal call)) }
{
    let mut text = numbered(alloc, "host stopped: no reply for call ", call)?;
    text.push_str("\n").and(Ok(text))
}

/// The line where the reply of a number does not fit.
#[tactic(auto, unfolding(crate::specs::Ending::host_stopped))]
fn misfit(alloc: Global, number: u64) -> Result<Text, NoMemory>
    ensures { IfOk result (λ t. t ≡ host_stopped (misfit_cause number)) }
{
    let mut text = numbered(alloc, "host stopped: reply ", number)?;
    text.push_str(" does not fit")?;
    text.push_str("\n").and(Ok(text))
}

/// The line where a device failed.
#[tactic(auto, unfolding(crate::specs::Ending::host_stopped))]
fn device_failed(alloc: Global, device: &Text) -> Result<Text, NoMemory>
    ensures { IfOk result (λ t. t ≡ host_stopped (device_cause device.now)) }
{
    let mut text = Text::from_str(alloc, "host stopped: device ")?;
    text.push_quoted(device.as_bytes())?;
    text.push_str("\n").and(Ok(text))
}

/// The last line, behind so many replies and with so many invocations that were not begun. Empty
/// where there is none.
///
/// # Errors
///
/// `NoMemory` where memory runs out.
pub fn end_line(alloc: Global, answer: &RunEnd, given: u64, due: usize) -> Result<Text, NoMemory>
    ensures { IfOk result (λ t. t ≡ answer_line answer.now given due) }
{
    match answer {
        RunEnd::Finished { .. } => Ok(Text::new(alloc)),
        RunEnd::Trapped { .. } => not_invoked(alloc, due),
        RunEnd::NoReply => no_reply(alloc, given),
        RunEnd::BadReply { .. } => misfit(alloc, given.saturating_sub(1)),
        RunEnd::DeviceFault { name } => device_failed(alloc, name),
        RunEnd::FuelSpent => Text::from_str(alloc, "fuel spent\n"),
        RunEnd::NoMemory => Ok(Text::new(alloc)),
    }
}

/// The status where all invocations finished, or all but so many, which trapped.
fn trapped_or_done(traps: u64) -> Status
    ensures { result ≡ trapped_or_done traps }
{
    if traps > 0 {
        Status::Trapped
    } else {
        Status::Done
    }
}

/// The status of a list that ends with an answer, behind so many traps.
fn answer_status(answer: &RunEnd, traps: u64) -> Status
    ensures { result ≡ answer_status answer.now traps }
{
    match answer {
        RunEnd::Finished { .. } => trapped_or_done(traps),
        RunEnd::Trapped { .. } => Status::Trapped,
        RunEnd::NoReply => Status::HostStopped,
        RunEnd::BadReply { .. } => Status::HostStopped,
        RunEnd::DeviceFault { .. } => Status::HostStopped,
        RunEnd::FuelSpent => Status::FuelSpent,
        RunEnd::NoMemory => Status::NoMemory,
    }
}

/// What is answered where a list ends with an answer.
pub(crate) fn ended_with(
    alloc: Global,
    lines: Lines,
    answer: &RunEnd,
    given: u64,
    due: usize,
) -> Result<Outcome, NoMemory>
    ensures { IfOk result (λ o. o
        ≡ ended (answer_status answer.now lines.traps)
        (lines.text ++ answer_line answer.now given due)) }
{
    let status = answer_status(answer, lines.traps);
    let mut text = lines.text;
    let line = end_line(alloc, answer, given, due)?;
    text.push_str(line.as_str())?;
    Ok(Outcome { status, text })
}

/// What is answered where collector calls are torn at an index.
pub(crate) fn torn_with(lines: Lines, at: usize) -> Result<Outcome, NoMemory>
    ensures { IfOk result (λ o. o ≡ ended Status.TornCalls (lines.text ++ torn_text at)) }
{
    let mut text = lines.text;
    push_torn(&mut text, at).and(Ok(Outcome {
        status: Status::TornCalls,
        text,
    }))
}

/// What is answered where all invocations were made.
pub(crate) fn all_made(lines: Lines) -> Outcome
    ensures { result ≡ ended (trapped_or_done lines.traps) lines.text }
{
    Outcome {
        status: trapped_or_done(lines.traps),
        text: lines.text,
    }
}
