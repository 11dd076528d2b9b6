//! The command on two files.

ghost use Rattle.std.specs.Prelude.{◌≡◌, ℕ, List, IfOk};
ghost use Rattle.causes.specs.Counts.{Rose};
ghost use Rattle.wasm_syntax.specs.declared.quantity.Quantity.TheVariants.{DumpBytes};
ghost use Rattle.commands.specs.Inputs.{input_of, Then};
ghost use Rattle.commands.specs.Told.{UnlessFault, OnContents};
ghost use Rattle.commands.specs.Texts.{file_fault};
ghost use Rattle.debug_command.specs.Answer.{BytesAnswer, DebugAnswer, IsReadBy};
ghost use Rattle.pm_outside.specs.calls.Kept.{FilesKept};
ghost use Rattle.commands.specs.calls.Ended.{Ended};

use crate::answering::on_bytes;
use crate::words::DebugWords;
use causes::NoMemory;
use commands::{Given, Outcome, read_input};
use pm_outside::Files;
use std::alloc::Global;
use wasm_syntax::Quantity;

/// The answer on the bytes of a module and the dump in a file.
fn debug_dump<F: Files>(
    alloc: Global,
    files: &mut F,
    words: &DebugWords,
    bytes: &[u8],
) -> Result<Outcome, NoMemory>
    ensures told { IfOk result (λ o. UnlessFault o.status (OnContents (F.told files.old) (λ later.
        Then (input_of DumpBytes words.now.dump (later words.now.dump))
        (BytesAnswer words.now.commands bytes.now) o))) }
    ensures ended { IfOk result (Ended (λ o.
        (o ≡ file_fault words.now.dump) × Rose (F.faults files.old) (F.faults files.new))) }
    ensures files { FilesKept F.told F.created F.faults files.old files.new }
{
    let input = read_input(alloc, files, words.dump.as_str(), Quantity::DumpBytes)?;
    match input {
        Given::Value(dump_bytes) => on_bytes(alloc, bytes, &dump_bytes, words.commands.as_slice()),
        Given::Refused(refusal) => Ok(refusal),
    }
}

/// What commands of the debugger print on the module and the dump in two files, or why the dump
/// can't be one of the module.
///
/// # Errors
///
/// `NoMemory` where memory runs out.
pub fn debug_file<F: Files>(
    alloc: Global,
    files: &mut F,
    words: &DebugWords,
) -> Result<Outcome, NoMemory>
    ensures told { IfOk result (λ o. UnlessFault o.status (OnContents (F.told files.old) (λ first.
        OnContents (F.told files.old) (λ later. DebugAnswer words.now first later o)))) }
    ensures ended { IfOk result (Ended (λ o.
        ((file : List ℕ) × IsReadBy words.now file × (o ≡ file_fault file))
        × Rose (F.faults files.old) (F.faults files.new))) }
    ensures files { FilesKept F.told F.created F.faults files.old files.new }
{
    let input = read_input(alloc, files, words.source.as_str(), Quantity::ModuleBytes)?;
    match input {
        Given::Value(bytes) => debug_dump(alloc, files, words, &bytes),
        Given::Refused(refusal) => Ok(refusal),
    }
}
