//! The answer on the contents of two files.

ghost use Rattle.std.specs.Prelude.{◌≡◌, ◌≤◌, ◌<◌, ◌^◌, IfOk, Some};
ghost use Rattle.host_replies.specs.Replies.{file_replies};
ghost use Rattle.debugger.specs.Subject.{Spells};
ghost use Rattle.run_command.specs.Starting.{cause_text, not_started_with};
ghost use Rattle.replay.specs.Moves.{IsFault};
ghost use Rattle.replay.specs.Replays.{Recording, cause_in};
ghost use Rattle.replay_command.specs.ReplayAnswer.{BytesAnswer, IfReplies, IsTold, ModuleAnswer};
ghost use Rattle.replay_command.specs.inner.Told.{StandsAtStart, TellsFault};
ghost use Rattle.commands.specs.calls.Ended.{Ended};

use crate::ReplayWords;
use crate::looking::Viewer;
use crate::moving::replayed;
use causes::NoMemory;
use commands::{Given, Outcome, Status, load, numbered};
use host_replies::{ReplyFault, read_replies};
use pm_text::Text;
use replay::{Recorded, Replayer, StartRefusal};
use run_command::{bad_replies, no_export};
use std::alloc::Global;
use wasm_syntax::Reply;
use wasm_validate::Validated;

/// The cause that a fault is.
fn cause_of(alloc: Global, entry: &Text, fault: StartRefusal) -> Result<Text, NoMemory>
    ensures { IfOk result (λ t. (x : Recording) → IsFault fault x
        → cause_text entry.now (cause_in x) ≡ Some t) }
{
    match fault {
        StartRefusal::NoExport => no_export(alloc, entry),
        StartRefusal::BadArguments => Text::from_str(alloc, "arguments"),
        StartRefusal::ElementOut { index } => numbered(alloc, "element ", u64::from(index)),
        StartRefusal::DataOut { index } => numbered(alloc, "data ", u64::from(index)),
        StartRefusal::NoMemory => Err(NoMemory),
    }
}

/// The answer where the run does not start.
fn not_started(alloc: Global, entry: &Text, fault: StartRefusal) -> Result<Outcome, NoMemory>
    ensures value { IfOk result (TellsFault fault entry.now) }
    ensures ended { IfOk result (Ended (λ _. ⊥)) }
{
    let cause = cause_of(alloc, entry, fault)?;
    let mut text = Text::from_str(alloc, "not started: ")?;
    text.push_str(cause.as_str())?;
    text.push_str("\n")?;
    Ok(Outcome {
        status: Status::NotStarted,
        text,
    })
}

/// The answer where the run starts.
fn told(
    alloc: Global,
    bytes: &[u8],
    source: &Validated,
    mut replayer: Replayer<'_>,
    commands: &str,
) -> Result<Outcome, NoMemory>
    requires spells { Spells bytes.now source.now }
    requires starts { StandsAtStart source.now replayer }
    ensures value { IfOk result (IsTold replayer.entry.recording bytes.now commands.now) }
    ensures ended { IfOk result (Ended (λ _. ⊥)) }
{
    let _parts = source.module().parts();
    let mut viewer = Viewer::new(source, bytes);
    let printed = replayed(alloc, &mut replayer, &mut viewer, commands);
    drop(viewer);
    drop(replayer);
    match printed {
        Ok(text) => Ok(Outcome {
            status: Status::Done,
            text,
        }),
        Err(NoMemory) => Err(NoMemory),
    }
}

/// How many steps stand between two checkpoints at first, which are some.
fn spacing(words: &ReplayWords) -> u64
    ensures { 1 ≤ result }
{
    words.every.max(1)
}

/// How many frames may stand.
fn depth_of(words: &ReplayWords) -> u32
    ensures value { result ≡ words.now.depth }
    ensures fits { result < 2 ^ 32 }
{
    words.depth
}

/// The answer on a valid module with replies.
fn on_replies(
    alloc: Global,
    words: &ReplayWords,
    bytes: &[u8],
    source: &Validated,
    replies: &[Reply],
) -> Result<Outcome, NoMemory>
    requires { Spells bytes.now source.now }
    ensures value { IfOk result (ModuleAnswer words.now bytes.now source.now replies.now) }
    ensures ended { IfOk result (Ended (λ _. ⊥)) }
{
    let replayer = Replayer::new(
        alloc,
        Recorded {
            source,
            entry: words.entry.as_str(),
            args: words.args.as_slice(),
            replies,
            depth: depth_of(words),
            fuel: words.fuel,
        },
        spacing(words),
    );
    match replayer {
        Ok(replayer) => told(alloc, bytes, source, replayer, words.commands.as_str()),
        Err(fault) => not_started(alloc, &words.entry, fault),
    }
}

/// The answer on a valid module and the bytes of a file of replies.
fn on_log(
    alloc: Global,
    words: &ReplayWords,
    bytes: &[u8],
    source: &Validated,
    log: &[u8],
) -> Result<Outcome, NoMemory>
    requires { Spells bytes.now source.now }
    ensures value { IfOk result (IfReplies (ModuleAnswer words.now bytes.now source.now)
        (file_replies log.now)) }
    ensures ended { IfOk result (Ended (λ _. ⊥)) }
{
    match read_replies(alloc, log) {
        Ok(replies) => {
            let answer = on_replies(alloc, words, bytes, source, replies.as_slice());
            drop(replies);
            answer
        }
        Err(ReplyFault::Line(line)) => bad_replies(alloc, line),
        Err(ReplyFault::NoMemory) => Err(NoMemory),
    }
}

/// The answer on the bytes of a module and of a file of replies.
pub(crate) fn on_bytes(
    alloc: Global,
    words: &ReplayWords,
    bytes: &[u8],
    log: &[u8],
) -> Result<Outcome, NoMemory>
    ensures value { IfOk result (BytesAnswer words.now bytes.now log.now) }
    ensures ended { IfOk result (Ended (λ _. ⊥)) }
{
    let loaded = load(alloc, bytes)?;
    match loaded {
        Given::Value(source) => on_log(alloc, words, bytes, &source, log),
        Given::Refused(refusal) => Ok(refusal),
    }
}
