//! Files that a command reads whole.

ghost use Rattle.std.specs.Prelude.{◌≡◌, IfOk};
ghost use Rattle.causes.specs.Counts.{Rose};
ghost use Rattle.commands.specs.calls.Ended.{Ended};
ghost use Rattle.commands.specs.calls.Given.{IfRefused};
ghost use Rattle.commands.specs.calls.Input.{IsInput, IsUnread};
ghost use Rattle.commands.specs.Inputs.{input_of};
ghost use Rattle.commands.specs.Texts.{file_fault};
ghost use Rattle.commands.specs.Told.{OnContents};
ghost use Rattle.wasm_syntax.specs.Quantity.{greatest};
ghost use Rattle.pm_outside.specs.calls.Kept.{FilesKept};

use crate::given::Given;
use crate::outcome::{Outcome, about_file, over_limit};
use crate::status::Status;
use causes::NoMemory;
use pm_outside::{FileError, Files, read_file};
use std::alloc::Global;
use wasm_syntax::Quantity;

/// What is answered where a file is not read.
fn unread(alloc: Global, what: Quantity, file: &str, error: FileError) -> Result<Outcome, NoMemory>
    ensures { IfOk result (IsUnread what file.now error) }
{
    match error {
        FileError::Missing => about_file(alloc, Status::NoFile, "no file: ", file),
        FileError::TooLong => over_limit(alloc, what, what.limit() + 1),
        FileError::Failed => about_file(alloc, Status::FileFault, "file fault: ", file),
        FileError::NoMemory => Err(NoMemory),
    }
}

/// All bytes of a file that has at most so many, or what is answered in their place.
pub fn read_input<F: Files>(
    alloc: Global,
    files: &mut F,
    file: &str,
    what: Quantity,
) -> Result<Given<Vec<u8>>, NoMemory>
    ensures told { IfOk result (λ input. OnContents (F.told files.old)
        (λ held. IsInput input (input_of what file.now (held file.now)))) }
    ensures ended { IfOk result (IfRefused (Ended (λ o.
        (o ≡ file_fault file.now) × Rose (F.faults files.old) (F.faults files.new)))) }
    ensures files { FilesKept F.told F.created F.faults files.old files.new }
{
    match read_file(alloc, files, file, what.limit() as usize) {
        Ok(bytes) => Ok(Given::Value(bytes)),
        Err(error) => {
            let refusal = unread(alloc, what, file, error)?;
            Ok(Given::Refused(refusal))
        }
    }
}
