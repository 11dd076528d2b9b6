//! The command on two files.

ghost use Rattle.std.specs.Prelude.{◌≡◌, ℕ, List, IfOk};
ghost use Rattle.causes.specs.Counts.{Rose};
ghost use Rattle.wasm_syntax.specs.declared.quantity.Quantity.TheVariants.{RepliesBytes};
ghost use Rattle.commands.specs.Inputs.{input_of, Then};
ghost use Rattle.commands.specs.Told.{UnlessFault, OnContents};
ghost use Rattle.commands.specs.Texts.{file_fault};
ghost use Rattle.replay_command.specs.ReplayAnswer.{BytesAnswer, ReplayAnswer, IsReadBy};
ghost use Rattle.pm_outside.specs.calls.Kept.{FilesKept};
ghost use Rattle.commands.specs.calls.Ended.{Ended};

use crate::ReplayWords;
use crate::answering::on_bytes;
use causes::NoMemory;
use commands::{Given, Outcome, read_input};
use pm_outside::Files;
use std::alloc::Global;
use wasm_syntax::Quantity;

/// The answer on the bytes of a module and the replies in a file.
fn replay_log<F: Files>(
    alloc: Global,
    files: &mut F,
    words: &ReplayWords,
    bytes: &[u8],
) -> Result<Outcome, NoMemory>
    ensures told { IfOk result (λ o. UnlessFault o.status (OnContents (F.told files.old) (λ later.
        Then (input_of RepliesBytes words.now.log (later words.now.log))
        (BytesAnswer words.now bytes.now) o))) }
    ensures ended { IfOk result (Ended (λ o.
        (o ≡ file_fault words.now.log) × Rose (F.faults files.old) (F.faults files.new))) }
    ensures files { FilesKept F.told F.created F.faults files.old files.new }
{
    let input = read_input(alloc, files, words.log.as_str(), Quantity::RepliesBytes)?;
    match input {
        Given::Value(log) => on_bytes(alloc, words, bytes, &log),
        Given::Refused(refusal) => Ok(refusal),
    }
}

/// What moves between the steps of a recorded run print, with commands of the debugger on its
/// states: the module and the replies stand in two files.
///
/// # Errors
///
/// `NoMemory` where memory runs out.
pub fn replay_file<F: Files>(
    alloc: Global,
    files: &mut F,
    words: &ReplayWords,
) -> Result<Outcome, NoMemory>
    ensures told { IfOk result (λ o. UnlessFault o.status (OnContents (F.told files.old) (λ first.
        OnContents (F.told files.old) (λ later. ReplayAnswer words.now first later o)))) }
    ensures ended { IfOk result (Ended (λ o.
        ((file : List ℕ) × IsReadBy words.now file × (o ≡ file_fault file))
        × Rose (F.faults files.old) (F.faults files.new))) }
    ensures files { FilesKept F.told F.created F.faults files.old files.new }
{
    let input = read_input(alloc, files, words.source.as_str(), Quantity::ModuleBytes)?;
    match input {
        Given::Value(bytes) => replay_log(alloc, files, words, &bytes),
        Given::Refused(refusal) => Ok(refusal),
    }
}
