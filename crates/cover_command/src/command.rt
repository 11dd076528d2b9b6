//! The command on the module in a file.

ghost use Rattle.std.specs.Prelude.{◌≡◌, ◌⊎◌, Ok, IfOk, OnErr};
ghost use Rattle.causes.specs.Counts.{Rose};
ghost use Rattle.wasm_decode.specs.Decode.{module_from};
ghost use Rattle.host_set.specs.Sets.{names, AreDistinct};
ghost use Rattle.commands.specs.Told.{UnlessFault, OnContents};
ghost use Rattle.run_session.specs.Stop.{OnStop};
ghost use Rattle.run_command.specs.RunAnswer.{AnsweredOn};
ghost use Rattle.run_command.specs.Stops.{NothingDone};
ghost use Rattle.run_command.specs.calls.Scripts.{script_result};
ghost use Rattle.cover_command.specs.CoverAnswer.{CoverAnswer, IsReadBy};
ghost use Rattle.cover_command.specs.Stops.{CoverStops};
ghost use Rattle.cover_command.specs.inner.Steps.{IsAnswered, ScriptAnswer, BytesAnswer, SourceAnswer, ScriptStops};
ghost use Rattle.cover_command.specs.inner.Steps.{BytesStops, SourceStops, StepStops};
ghost use Rattle.pm_outside.specs.calls.Kept.{FilesKept};
ghost use Rattle.commands.specs.calls.Ended.{Ended};

use crate::covering::cover_valid;
use causes::NoMemory;
use commands::{Given, Outcome, load, read_input};
use host_set::Devices;
use pm_outside::Files;
use run_command::{Script, asked_script, bad_replies};
use run_words::CoverWords;
use std::alloc::Global;
use wasm_syntax::Quantity;
use wasm_validate::Validated;

/// Covers a run of a valid module, which these bytes spell, with a script, or refuses the script.
fn cover_scripted<D: Devices>(
    alloc: Global,
    words: &CoverWords,
    bytes: &[u8],
    source: &Validated,
    script: Script,
    devices: &mut D,
) -> Result<Outcome, NoMemory>
    requires distinct { AreDistinct (names (D.shown devices.old)) }
    requires spells { module_from bytes.now ≡ Ok source.now }
    ensures told { IfOk result (IsAnswered
        (ScriptAnswer (D.shown devices.old) (D.shown devices.new)
        words.now (script_result script) bytes.now source.now)
        (D.shown devices.old) (D.shown devices.new)) }
    ensures stops { OnErr result ((D.shown devices.new ≡ D.shown devices.old)
        ⊎ ScriptStops (D.shown devices.old) (D.shown devices.new)
        words.now source.now (script_result script)) }
    ensures ended { IfOk result (Ended (λ _. ⊥)) }
    ensures distinct { AreDistinct (names (D.shown devices.new)) }
{
    match script {
        Script::Whole(script) => cover_valid(alloc, words, bytes, source, script, devices),
        Script::Bad(line) => bad_replies(alloc, line),
    }
}

/// Covers a run of the module that the bytes spell.
fn cover_bytes<D: Devices>(
    alloc: Global,
    words: &CoverWords,
    bytes: &[u8],
    script: Script,
    devices: &mut D,
) -> Result<Outcome, NoMemory>
    requires { AreDistinct (names (D.shown devices.old)) }
    ensures told { IfOk result (IsAnswered
        (BytesAnswer (D.shown devices.old) (D.shown devices.new)
        words.now (script_result script) bytes.now)
        (D.shown devices.old) (D.shown devices.new)) }
    ensures stops { OnErr result ((D.shown devices.new ≡ D.shown devices.old)
        ⊎ BytesStops (D.shown devices.old) (D.shown devices.new)
        words.now bytes.now (script_result script)) }
    ensures ended { IfOk result (Ended (λ _. ⊥)) }
    ensures distinct { AreDistinct (names (D.shown devices.new)) }
{
    let Ok(loaded) = load(alloc, bytes) else {
        drop(script);
        return Err(NoMemory);
    };
    match loaded {
        Given::Value(source) => {
            let outcome = cover_scripted(alloc, words, bytes, &source, script, devices);
            drop(source);
            outcome
        }
        Given::Refused(refusal) => {
            drop(script);
            Ok(refusal)
        }
    }
}

/// Covers a run of the module that the bytes spell, with the replies that the words ask for.
fn cover_source<F: Files, D: Devices>(
    alloc: Global,
    files: &mut F,
    words: &CoverWords,
    bytes: &[u8],
    devices: &mut D,
) -> Result<Outcome, NoMemory>
    requires { AreDistinct (names (D.shown devices.old)) }
    ensures told { IfOk result (λ o. UnlessFault o.status (OnContents (F.told files.old) (λ later.
        IsAnswered (SourceAnswer (D.shown devices.old) (D.shown devices.new)
        words.now later bytes.now)
        (D.shown devices.old) (D.shown devices.new) o))) }
    ensures stops { OnStop (StepStops (D.shown devices.old) (D.shown devices.new)
        words.now (F.told files.old) (F.told files.new)
        (SourceStops (D.shown devices.old) (D.shown devices.new)
        words.now bytes.now (F.told files.old))) result }
    ensures ended { IfOk result (Ended (λ _. Rose (F.faults files.old) (F.faults files.new))) }
    ensures distinct { AreDistinct (names (D.shown devices.new)) }
    ensures files { FilesKept F.told F.created F.faults files.old files.new }
{
    let asked = asked_script(alloc, files, &words.replies)?;
    match asked {
        Given::Value(script) => cover_bytes(alloc, words, bytes, script, devices),
        Given::Refused(refusal) => Ok(refusal),
    }
}

/// Invokes a function of the module in a file on a new instance, with devices that serve its
/// imports, and tells how many of its steps fell on each source line. The names of the devices are
/// distinct. No file is written.
///
/// # Errors
///
/// `NoMemory` where memory runs out.
pub fn cover_file<F: Files, D: Devices>(
    alloc: Global,
    files: &mut F,
    words: &CoverWords,
    devices: &mut D,
) -> Result<Outcome, NoMemory>
    requires { AreDistinct (names (D.shown devices.old)) }
    ensures told { IfOk result (λ o. UnlessFault o.status (AnsweredOn
        (CoverAnswer (D.shown devices.old) (D.shown devices.new) words.now)
        (F.told files.old) (F.told files.new) o)) }
    ensures stops { OnStop (λ stop. CoverStops stop words.now
        (D.shown devices.old) (D.shown devices.new) (F.told files.old) (F.told files.new)) result }
    ensures ended { IfOk result (Ended (λ _. Rose (F.faults files.old) (F.faults files.new))) }
    ensures distinct { AreDistinct (names (D.shown devices.new)) }
    ensures files { FilesKept F.told F.created F.faults files.old files.new }
{
    let input = read_input(alloc, files, words.source.as_str(), Quantity::ModuleBytes)?;
    match input {
        Given::Value(bytes) => cover_source(alloc, files, words, &bytes, devices),
        Given::Refused(refusal) => Ok(refusal),
    }
}
