//! `show`.

ghost use Rattle.std.specs.Prelude.{◌≡◌, IfOk};
ghost use Rattle.causes.specs.Counts.{Rose};
ghost use Rattle.dump_format.specs.Decode.{dump_from};
ghost use Rattle.pm_cli.specs.Answer.{ShowAnswer, shown};
ghost use Rattle.commands.specs.Texts.{file_fault};
ghost use Rattle.commands.specs.Told.{UnlessFault, OnContents};
ghost use Rattle.pm_outside.specs.calls.Kept.{FilesKept};
ghost use Rattle.commands.specs.calls.Ended.{Ended};

use crate::dump_text::show;
use causes::NoMemory;
use commands::{Given, Outcome, Status, read_input, refused_dump};
use dump_format::decode_dump;
use pm_outside::Files;
use std::alloc::Global;
use wasm_syntax::Quantity;

/// What the bytes of a dump show.
fn show_bytes(alloc: Global, bytes: &[u8]) -> Result<Outcome, NoMemory>
    ensures value { IfOk result (λ o. o ≡ shown (dump_from bytes.now)) }
    ensures ended { IfOk result (Ended (λ _. ⊥)) }
{
    match decode_dump(alloc, bytes) {
        Ok(dump) => Ok(Outcome {
            status: Status::Done,
            text: show(alloc, &dump)?,
        }),
        Err(fault) => refused_dump(alloc, fault),
    }
}

/// Shows the dump in a file.
pub fn show_file<F: Files>(alloc: Global, files: &mut F, file: &str) -> Result<Outcome, NoMemory>
    ensures told { IfOk result (λ o. UnlessFault o.status (OnContents (F.told files.old) (λ held.
        ShowAnswer file.now (held file.now) o))) }
    ensures ended { IfOk result (Ended (λ o.
        (o ≡ file_fault file.now) × Rose (F.faults files.old) (F.faults files.new))) }
    ensures files { FilesKept F.told F.created F.faults files.old files.new }
{
    let input = read_input(alloc, files, file, Quantity::DumpBytes)?;
    match input {
        Given::Value(bytes) => show_bytes(alloc, &bytes),
        Given::Refused(refusal) => Ok(refusal),
    }
}
