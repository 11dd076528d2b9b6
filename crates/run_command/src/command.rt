//! The command on the module in a file.

ghost use Rattle.std.specs.Prelude.{◌≤◌, ◌<◌, ◌⊎◌, length, IfOk};
ghost use Rattle.causes.specs.Counts.{Rose};
ghost use Rattle.host_set.specs.Sets.{names, AreDistinct};
ghost use Rattle.commands.specs.Told.{UnlessFault, OnContents};
ghost use Rattle.run_session.specs.Stop.{OnStop};
ghost use Rattle.run_session.specs.Created.{CreatesOnly, IsRunName};
ghost use Rattle.run_command.specs.inner.Steps.{IsAnswered};
ghost use Rattle.run_command.specs.Stops.{NothingDone, ScriptStops, BytesStops, SourceStops, RunStops};
ghost use Rattle.run_command.specs.RunAnswer.{IsReadBy, RunAnswer, AnsweredOn};
ghost use Rattle.run_command.specs.calls.Scripts.{script_result, ScriptAnswer, BytesAnswer, SourceAnswer};
ghost use Rattle.pm_outside.specs.calls.Kept.{FilesGoOn};
ghost use Rattle.commands.specs.calls.Ended.{Ended};

use crate::running::run_valid;
use crate::scripts::{Script, asked_script, bad_replies};
use causes::NoMemory;
use commands::{Given, Outcome, load, read_input};
use host_set::Devices;
use pm_outside::Files;
use run_words::RunWords;
use std::alloc::Global;
use wasm_syntax::Quantity;
use wasm_validate::Validated;

/// Runs the invocations on a valid module with a script, or refuses the script.
fn run_scripted<F: Files, D: Devices>(
    alloc: Global,
    files: &mut F,
    words: &RunWords,
    source: &Validated,
    script: Script,
    devices: &mut D,
) -> Result<Outcome, NoMemory>
    requires distinct { AreDistinct (names (D.shown devices.old)) }
    requires some { 0 < length words.now.invocations }
    requires depth { words.now.depth ≤ 10000 }
    ensures told { IfOk result (λ o. UnlessFault o.status (IsAnswered
        (λ given writes. ScriptAnswer (D.shown devices.old) (D.shown devices.new)
        words.now given writes (script_result script) source.now)
        (D.shown devices.old) (D.shown devices.new) (F.told files.old) (F.told files.new) o)) }
    ensures stops { OnStop (λ stop.
        NothingDone stop (IsReadBy words.now)
        (D.shown devices.old) (D.shown devices.new) (F.told files.old) (F.told files.new)
        ⊎ ScriptStops stop words.now source.now (script_result script)
        (D.shown devices.old) (D.shown devices.new) (F.told files.old) (F.told files.new))
        result }
    ensures ended { IfOk result (Ended (λ _. Rose (F.faults files.old) (F.faults files.new))) }
    ensures distinct { AreDistinct (names (D.shown devices.new)) }
    ensures names { CreatesOnly (IsRunName words.now) (F.created files.old)
        (F.created files.new) }
    ensures files { FilesGoOn F.told F.faults files.old files.new }
{
    match script {
        Script::Whole(script) => run_valid(alloc, files, words, source, script, devices),
        Script::Bad(line) => bad_replies(alloc, line),
    }
}

/// Runs the invocations on the module that the bytes spell.
fn run_bytes<F: Files, D: Devices>(
    alloc: Global,
    files: &mut F,
    words: &RunWords,
    bytes: &[u8],
    script: Script,
    devices: &mut D,
) -> Result<Outcome, NoMemory>
    requires distinct { AreDistinct (names (D.shown devices.old)) }
    requires some { 0 < length words.now.invocations }
    requires depth { words.now.depth ≤ 10000 }
    ensures told { IfOk result (λ o. UnlessFault o.status (IsAnswered
        (λ given writes. BytesAnswer (D.shown devices.old) (D.shown devices.new)
        words.now given writes (script_result script) bytes.now)
        (D.shown devices.old) (D.shown devices.new) (F.told files.old) (F.told files.new) o)) }
    ensures stops { OnStop (λ stop.
        NothingDone stop (IsReadBy words.now)
        (D.shown devices.old) (D.shown devices.new) (F.told files.old) (F.told files.new)
        ⊎ BytesStops stop words.now bytes.now (script_result script)
        (D.shown devices.old) (D.shown devices.new) (F.told files.old) (F.told files.new))
        result }
    ensures ended { IfOk result (Ended (λ _. Rose (F.faults files.old) (F.faults files.new))) }
    ensures distinct { AreDistinct (names (D.shown devices.new)) }
    ensures names { CreatesOnly (IsRunName words.now) (F.created files.old)
        (F.created files.new) }
    ensures files { FilesGoOn F.told F.faults files.old files.new }
{
    let Ok(loaded) = load(alloc, bytes) else {
        drop(script);
        return Err(NoMemory);
    };
    match loaded {
        Given::Value(source) => {
            let outcome = run_scripted(alloc, files, words, &source, script, devices);
            drop(source);
            outcome
        }
        Given::Refused(refusal) => {
            drop(script);
            Ok(refusal)
        }
    }
}

/// Runs the module that the bytes spell, with the replies that the words ask for.
fn run_source<F: Files, D: Devices>(
    alloc: Global,
    files: &mut F,
    words: &RunWords,
    bytes: &[u8],
    devices: &mut D,
) -> Result<Outcome, NoMemory>
    requires distinct { AreDistinct (names (D.shown devices.old)) }
    requires some { 0 < length words.now.invocations }
    requires depth { words.now.depth ≤ 10000 }
    ensures told { IfOk result (λ o. UnlessFault o.status (OnContents (F.told files.old) (λ later.
        IsAnswered (λ given writes. SourceAnswer (D.shown devices.old) (D.shown devices.new)
        words.now later given writes bytes.now)
        (D.shown devices.old) (D.shown devices.new) (F.told files.old) (F.told files.new) o))) }
    ensures stops { OnStop (λ stop.
        NothingDone stop (IsReadBy words.now)
        (D.shown devices.old) (D.shown devices.new) (F.told files.old) (F.told files.new)
        ⊎ SourceStops stop words.now bytes.now
        (D.shown devices.old) (D.shown devices.new) (F.told files.old) (F.told files.new))
        result }
    ensures ended { IfOk result (Ended (λ _. Rose (F.faults files.old) (F.faults files.new))) }
    ensures distinct { AreDistinct (names (D.shown devices.new)) }
    ensures names { CreatesOnly (IsRunName words.now) (F.created files.old)
        (F.created files.new) }
    ensures files { FilesGoOn F.told F.faults files.old files.new }
{
    let asked = asked_script(alloc, files, &words.replies)?;
    match asked {
        Given::Value(script) => run_bytes(alloc, files, words, bytes, script, devices),
        Given::Refused(refusal) => Ok(refusal),
    }
}

/// Runs the module in a file: its functions are invoked one after the other on one instance, with
/// devices that serve its imports, and a dump is written at each trap. The names of the devices are
/// distinct. A file that faults is named in the answer; dumps that were written before it stand.
///
/// # Errors
///
/// `NoMemory` where memory runs out.
pub fn run_file<F: Files, D: Devices>(
    alloc: Global,
    files: &mut F,
    words: &RunWords,
    devices: &mut D,
) -> Result<Outcome, NoMemory>
    requires distinct { AreDistinct (names (D.shown devices.old)) }
    requires some { 0 < length words.now.invocations }
    requires depth { words.now.depth ≤ 10000 }
    ensures told { IfOk result (λ o. UnlessFault o.status (AnsweredOn
        (RunAnswer (D.shown devices.old) (D.shown devices.new) words.now)
        (F.told files.old) (F.told files.new) o)) }
    ensures stops { OnStop (λ stop. RunStops stop words.now
        (D.shown devices.old) (D.shown devices.new) (F.told files.old) (F.told files.new)) result }
    ensures ended { IfOk result (Ended (λ _. Rose (F.faults files.old) (F.faults files.new))) }
    ensures distinct { AreDistinct (names (D.shown devices.new)) }
    ensures names { CreatesOnly (IsRunName words.now) (F.created files.old)
        (F.created files.new) }
    ensures files { FilesGoOn F.told F.faults files.old files.new }
{
    let input = read_input(alloc, files, words.source.as_str(), Quantity::ModuleBytes)?;
    match input {
        Given::Value(bytes) => run_source(alloc, files, words, &bytes, devices),
        Given::Refused(refusal) => Ok(refusal),
    }
}
