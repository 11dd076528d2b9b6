//! The command on the module in a file.

ghost use Rattle.std.specs.Prelude.{◌≡◌, ◌⊎◌, IfOk};
ghost use Rattle.causes.specs.Counts.{Rose};
ghost use Rattle.pm_outside.specs.Contents.{SameBut};
ghost use Rattle.pm_outside.specs.Created.{with_name};
ghost use Rattle.commands.specs.Loading.{IfLoaded};
ghost use Rattle.commands.specs.Told.{UnlessFault};
ghost use Rattle.pm_outside.specs.Written.{OnTold};
ghost use Rattle.instrument_command.specs.InstrumentAnswer.{AnsweredOn, ModuleAnswer};
ghost use Rattle.instrument_command.specs.Stops.{InstrumentStops};
ghost use Rattle.instrument_command.specs.calls.Steps.{BytesStops, IsAnswered, ModuleStops};
ghost use Rattle.run_session.specs.Stop.{OnStop};
ghost use Rattle.wasm_decode.specs.Decode.{module_from};
ghost use Rattle.wasm_format_laws.specs.calls.Sized.{Sized};
ghost use Rattle.wasm_syntax.specs.Valid.{Valid};
ghost use Rattle.pm_outside.specs.calls.Kept.{FilesGoOn};
ghost use Rattle.commands.specs.calls.Ended.{Ended};

use crate::rewriting::rewrite;
use crate::writing::write_rewritten;
use causes::NoMemory;
use commands::{Given, Outcome, load, read_input};
use pm_outside::Files;
use std::alloc::Global;
use wasm_syntax::Quantity;
use wasm_validate::Validated;

/// Rewrites a valid module into a file, or refuses it.
fn instrument_valid<F: Files>(
    alloc: Global,
    files: &mut F,
    source: &Validated,
    out: &str,
) -> Result<Outcome, NoMemory>
    requires valid { Valid source.now }
    requires sized { Sized source.now }
    ensures told { IfOk result (λ o. UnlessFault o.status (IsAnswered
        (λ writes. ModuleAnswer out.now writes source.now)
        (F.told files.old) (F.told files.new) o)) }
    ensures stops { OnStop (λ stop.
        ModuleStops stop out.now source.now (F.told files.old) (F.told files.new)) result }
    ensures ended { IfOk result (Ended (λ _. Rose (F.faults files.old) (F.faults files.new))) }
    ensures files { FilesGoOn F.told F.faults files.old files.new }
    ensures others { OnTold (SameBut out.now) (F.told files.old) (F.told files.new) }
    ensures names { (F.created files.new ≡ F.created files.old)
        ⊎ (F.created files.new ≡ with_name (F.created files.old) out.now) }
{
    let rewritten = rewrite(alloc, source)?;
    match rewritten {
        Given::Value(other) => {
            let outcome = write_rewritten(alloc, files, source, &other, out);
            drop(other);
            outcome
        }
        Given::Refused(refusal) => Ok(refusal),
    }
}

/// Rewrites the module that the bytes spell into a file.
fn instrument_bytes<F: Files>(
    alloc: Global,
    files: &mut F,
    bytes: &[u8],
    out: &str,
) -> Result<Outcome, NoMemory>
    ensures told { IfOk result (λ o. UnlessFault o.status (IsAnswered
        (λ writes. IfLoaded (ModuleAnswer out.now writes) (module_from bytes.now))
        (F.told files.old) (F.told files.new) o)) }
    ensures stops { OnStop (λ stop.
        BytesStops stop out.now bytes.now (F.told files.old) (F.told files.new)) result }
    ensures ended { IfOk result (Ended (λ _. Rose (F.faults files.old) (F.faults files.new))) }
    ensures files { FilesGoOn F.told F.faults files.old files.new }
    ensures others { OnTold (SameBut out.now) (F.told files.old) (F.told files.new) }
    ensures names { (F.created files.new ≡ F.created files.old)
        ⊎ (F.created files.new ≡ with_name (F.created files.old) out.now) }
{
    let loaded = load(alloc, bytes)?;
    match loaded {
        Given::Value(source) => {
            let outcome = instrument_valid(alloc, files, &source, out);
            drop(source);
            outcome
        }
        Given::Refused(refusal) => Ok(refusal),
    }
}

/// Rewrites the module in the file `source`, and writes what it is rewritten to under the name
/// `out`. A file that faults is named in the answer.
///
/// # Errors
///
/// `NoMemory` where memory runs out.
pub fn instrument_file<F: Files>(
    alloc: Global,
    files: &mut F,
    source: &str,
    out: &str,
) -> Result<Outcome, NoMemory>
    ensures told { IfOk result (λ o. UnlessFault o.status
        (AnsweredOn source.now out.now (F.told files.old) (F.told files.new) o)) }
    ensures stops { OnStop (λ stop.
        InstrumentStops stop source.now out.now (F.told files.old) (F.told files.new)) result }
    ensures ended { IfOk result (Ended (λ _. Rose (F.faults files.old) (F.faults files.new))) }
    ensures files { FilesGoOn F.told F.faults files.old files.new }
    ensures others { OnTold (SameBut out.now) (F.told files.old) (F.told files.new) }
    ensures names { (F.created files.new ≡ F.created files.old)
        ⊎ (F.created files.new ≡ with_name (F.created files.old) out.now) }
{
    let input = read_input(alloc, files, source, Quantity::ModuleBytes)?;
    match input {
        Given::Value(bytes) => instrument_bytes(alloc, files, &bytes, out),
        Given::Refused(refusal) => Ok(refusal),
    }
}
