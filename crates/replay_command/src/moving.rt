//! The commands of a replay, one after the other.

ghost use Rattle.std.specs.Prelude.{◌≡◌, ◌<◌, ◌++◌, ◌^◌, IfOk, OnOk};
ghost use Rattle.wasm_syntax.specs.Run.{Outcome as RunOutcome};
ghost use Rattle.replay.specs.Moves.{OfEach};
ghost use Rattle.replay.specs.Replays.{IsOutcome};
ghost use Rattle.replay_command.specs.declared.moves.Move.TheVariants as moves;
ghost use Rattle.replay_command.specs.ReplayText.{ReplayText, commands_in, step_text};
ghost use Rattle.replay_command.specs.inner.Steps.{EndsSo, IsShorter, Moves, Took, left_in};

use crate::looking::Viewer;
use crate::reading::first_command;
use crate::texts::push_step;
use crate::{Move, read_move};
use causes::NoMemory;
use pm_text::Text;
use replay::Replayer;
use std::alloc::Global;

/// Adds the line of the step that is shown.
fn push_shown(out: &mut Text, replayer: &Replayer<'_>) -> Result<(), NoMemory>
    ensures { (o : RunOutcome) → IsOutcome replayer.now.outcome o
        → OnOk result (out.new ≡ out.old ++ step_text replayer.now.step replayer.now.end o) }
{
    push_step(out, replayer.step(), replayer.end(), replayer.outcome())
}

/// Goes to a step, or to the last one where there are not so many.
fn go(
    out: &mut Text,
    replayer: &mut Replayer<'_>,
    viewer: &mut Viewer<'_>,
    step: u64,
) -> Result<(), NoMemory>
    ensures { OnOk result (Moves replayer.old viewer.old out.old (moves.Goto step) replayer.new
        viewer.new out.new) }
{
    replayer.goto(step)?;
    viewer.choose_innermost();
    push_shown(out, replayer)
}

/// Goes to the next step at a place, or stays where there is none; then no frame is chosen anew.
fn go_until(
    out: &mut Text,
    replayer: &mut Replayer<'_>,
    viewer: &mut Viewer<'_>,
    function: u32,
    offset: u32,
) -> Result<(), NoMemory>
    ensures { OnOk result (Moves replayer.old viewer.old out.old (moves.Until function offset)
        replayer.new viewer.new out.new) }
{
    let found = replayer.until(function, offset)?;
    if found {
        viewer.choose_innermost();
        push_shown(out, replayer)
    } else {
        out.push_str("not reached\n")
    }
}

/// Makes the first move of a text, or looks as the commands before its first move say. It hands out
/// the text that is left.
fn take_turn<'c>(
    out: &mut Text,
    alloc: Global,
    replayer: &mut Replayer<'_>,
    viewer: &mut Viewer<'_>,
    commands: &'c str,
) -> Result<Option<&'c str>, NoMemory>
    requires module_ { viewer.old.module_ ≡ replayer.old.recording.module_ }
    requires depth { replayer.old.recording.depth < 2 ^ 32 }
    ensures took { IfOk result (λ rest. Took replayer.old viewer.old out.old
        (commands_in commands.now)
        (left_in rest) replayer.new viewer.new out.new) }
    ensures shorter { IfOk result (λ rest. IsShorter rest commands.now) }
{
    let (given, behind) = first_command(commands);
    match read_move(given) {
        Move::Goto { step } => go(out, replayer, viewer, step).and(Ok(behind)),
        Move::Back => {
            let step = replayer.step().saturating_sub(1);
            go(out, replayer, viewer, step).and(Ok(behind))
        }
        Move::Until { function, offset } => {
            go_until(out, replayer, viewer, function, offset).and(Ok(behind))
        }
        Move::Look => viewer.look(out, alloc, replayer, commands),
    }
}

/// What is known of the end of a run.
fn know_end(replayer: &Replayer<'_>)
    ensures { OfEach replayer.now.recording (λ p. EndsSo p replayer.now) }
{
    let _end = replayer.end();
    let _outcome = replayer.outcome();
}

/// What commands print, one after the other, from the first step on.
pub(crate) fn replayed(
    alloc: Global,
    replayer: &mut Replayer<'_>,
    viewer: &mut Viewer<'_>,
    commands: &str,
) -> Result<Text, NoMemory>
    requires module_ { viewer.old.module_ ≡ replayer.old.recording.module_ }
    requires depth { replayer.old.recording.depth < 2 ^ 32 }
    requires step { replayer.old.step ≡ 0 }
    requires chosen { viewer.old.chosen ≡ 0 }
    ensures { IfOk result (λ text. OfEach replayer.old.recording
        (λ _. ReplayText replayer.old.recording viewer.old.bytes commands.now text)) }
{
    know_end(replayer);
    let mut out = Text::new(alloc);
    let mut rest = commands;
    loop {
        let left = take_turn(&mut out, alloc, replayer, viewer, rest)?;
        match left {
            Some(behind) => rest = behind,
            None => return Ok(out),
        }
    }
}
