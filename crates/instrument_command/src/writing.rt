//! What a module is rewritten to, as a file.

ghost use Rattle.std.specs.Prelude.{◌≡◌, ◌⊎◌, IfOk};
ghost use Rattle.causes.specs.Counts.{Rose};
ghost use Rattle.pm_outside.specs.Contents.{SameBut};
ghost use Rattle.pm_outside.specs.Created.{with_name};
ghost use Rattle.commands.specs.Told.{UnlessFault};
ghost use Rattle.pm_outside.specs.Written.{OnTold};
ghost use Rattle.instrument_command.specs.InstrumentAnswer.{ModuleAnswer};
ghost use Rattle.instrument_command.specs.calls.Steps.{IsAnswered, ModuleStops, Rewrites};
ghost use Rattle.rewrite_promise.specs.Admitted.{Admits};
ghost use Rattle.run_session.specs.Stop.{OnStop};
ghost use Rattle.wasm_bytes.specs.Laws.{IsBytes};
ghost use Rattle.wasm_format_laws.specs.calls.Sized.{Sized};
ghost use Rattle.pm_outside.specs.calls.Kept.{FilesGoOn};
ghost use Rattle.commands.specs.calls.Ended.{Ended};

use crate::rewriting::weighed;
use causes::NoMemory;
use commands::{Outcome, Status, about_file};
use pm_outside::{Files, WriteAnswer, write_file};
use std::alloc::Global;
use wasm_encode::encode;
use wasm_syntax::Module;
use wasm_validate::Validated;

/// What a slice of bytes is.
fn are_bytes(bytes: &[u8])
    ensures { IsBytes bytes.now }
{
    let _ = bytes;
}

/// The bytes of what a module is rewritten to.
pub fn admitted_bytes(
    alloc: Global,
    source: &Validated,
    other: &Module,
) -> Result<Vec<u8>, NoMemory>
    requires { Rewrites source.now other.now }
    ensures { IfOk result (λ bytes. Admits source.now bytes.items) }
{
    let bytes = encode(alloc, other)?;
    are_bytes(&bytes);
    Ok(bytes)
}

/// Writes what a module is rewritten to, and tells the weight of the module.
pub(crate) fn write_rewritten<F: Files>(
    alloc: Global,
    files: &mut F,
    source: &Validated,
    other: &Module,
    out: &str,
) -> Result<Outcome, NoMemory>
    requires sized { Sized source.now }
    requires rewrites { Rewrites source.now other.now }
    ensures told { IfOk result (λ o. UnlessFault o.status (IsAnswered
        (λ writes. ModuleAnswer out.now writes source.now)
        (F.told files.old) (F.told files.new) o)) }
    ensures stops { OnStop (λ stop.
        ModuleStops stop out.now source.now (F.told files.old) (F.told files.new)) result }
    ensures ended { IfOk result (Ended (λ _. Rose (F.faults files.old) (F.faults files.new))) }
    ensures files { FilesGoOn F.told F.faults files.old files.new }
    ensures others { OnTold (SameBut out.now) (F.told files.old) (F.told files.new) }
    ensures names { (F.created files.new ≡ F.created files.old)
        ⊎ (F.created files.new ≡ with_name (F.created files.old) out.now) }
{
    let done = weighed(alloc, source)?;
    let bytes = admitted_bytes(alloc, source, other)?;
    match write_file(files, out, &bytes) {
        WriteAnswer::Done => Ok(done),
        WriteAnswer::Failed => about_file(alloc, Status::FileFault, "file fault: ", out),
        WriteAnswer::NoMemory => Err(NoMemory),
    }
}
