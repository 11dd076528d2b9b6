//! Scripts from files of replies.

ghost use Rattle.std.specs.Prelude.{◌≡◌, ◌≢◌, IfOk, Some};
ghost use Rattle.causes.specs.Counts.{Rose};
ghost use Rattle.commands.specs.Texts.{file_fault};
ghost use Rattle.commands.specs.Told.{OnContents};
ghost use Rattle.commands.specs.calls.Ended.{Ended};
ghost use Rattle.commands.specs.calls.Given.{IfRefused};
ghost use Rattle.run_command.specs.RunAnswer.{replies_input, bad_replies, script_of};
ghost use Rattle.run_command.specs.calls.Scripts.{script_result, IsAsked, IsRepliesFault};
ghost use Rattle.pm_outside.specs.calls.Kept.{FilesKept};

use causes::NoMemory;
use commands::{Given, Outcome, Status, push_number, read_input};
use host_replies::{ReplyFault, read_replies};
use pm_outside::Files;
use pm_text::{Items, Text};
use std::alloc::Global;
use wasm_syntax::{Quantity, Reply};

/// The replies of a script, where there is one, or the first line that is no reply.
#[derive(Drop)]
pub enum Script {
    Whole(Option<Items<Reply>>),
    /// The number of the line, counted from 1.
    Bad(u64),
}

/// The answer where a line of the file of replies is no reply.
///
/// # Errors
///
/// `NoMemory` where memory runs out.
pub fn bad_replies(alloc: Global, line: u64) -> Result<Outcome, NoMemory>
    ensures value { IfOk result (λ o. o ≡ bad_replies line) }
    ensures ended { IfOk result (Ended (λ _. ⊥)) }
{
    let mut text = Text::new(alloc);
    push_number(&mut text, "bad replies at line ", line)?;
    text.push_str("\n")?;
    Ok(Outcome {
        status: Status::BadReplies,
        text,
    })
}

/// The script that the bytes of a file of replies spell.
fn script_from(alloc: Global, bytes: &[u8]) -> Result<Script, NoMemory>
    ensures { IfOk result (λ script. script_result script ≡ script_of (Some bytes.now)) }
{
    match read_replies(alloc, bytes) {
        Ok(replies) => Ok(Script::Whole(Some(replies))),
        Err(ReplyFault::Line(line)) => Ok(Script::Bad(line)),
        Err(ReplyFault::NoMemory) => Err(NoMemory),
    }
}

/// The script in a file of replies, where one is asked for, or what is answered in its place.
///
/// # Errors
///
/// `NoMemory` where memory runs out.
pub fn asked_script<F: Files>(
    alloc: Global,
    files: &mut F,
    replies: &Option<Text>,
) -> Result<Given<Script>, NoMemory>
    ensures told { IfOk result (λ asked. OnContents (F.told files.old) (λ held.
        IsAsked asked (replies_input replies.now held))) }
    ensures fault { IfOk result (IfRefused
        (IsRepliesFault replies.now (F.faults files.old) (F.faults files.new))) }
    ensures memory { IfOk result (IfRefused (λ o. o.status ≢ Status.NoMemory)) }
    ensures files { FilesKept F.told F.created F.faults files.old files.new }
{
    let Some(file) = replies else {
        return Ok(Given::Value(Script::Whole(None)));
    };
    let input = read_input(alloc, files, file.as_str(), Quantity::RepliesBytes)?;
    match input {
        Given::Value(bytes) => {
            let script = script_from(alloc, &bytes)?;
            Ok(Given::Value(script))
        }
        Given::Refused(refusal) => Ok(Given::Refused(refusal)),
    }
}
