//! The two files of a self-test, which are written one after the other.

ghost use Rattle.std.specs.Prelude.{◌≡◌, ◌⊎◌, ◌∷◌, [], IfOk};
ghost use Rattle.causes.specs.Counts.{Rose};
ghost use Rattle.pm_outside.specs.Contents.{SameBut};
ghost use Rattle.pm_outside.specs.Created.{with_name};
ghost use Rattle.commands.specs.Told.{UnlessFault};
ghost use Rattle.pm_outside.specs.Written.{HasFile, HasFront, OnTold};
ghost use Rattle.instrument_command.specs.Stops.{IsFailed};
ghost use Rattle.run_session.specs.Stop.{OnStop};
ghost use Rattle.pm_outside.specs.Held.{HoldThen};
ghost use Rattle.selftest_command.specs.SelftestAnswer.{module_file, rewritten_file};
ghost use Rattle.selftest_command.specs.Stops.{CreatedBoth, Left, SameButBoth};
ghost use Rattle.pm_outside.specs.calls.Kept.{FilesGoOn};
ghost use Rattle.commands.specs.calls.Ended.{Ended};

use causes::NoMemory;
use commands::{Outcome, Status, about_file};
use pm_outside::{Files, WriteAnswer, write_file};
use std::alloc::Global;

/// Writes a file, behind which this is answered.
fn write_last<F: Files>(
    alloc: Global,
    files: &mut F,
    name: &str,
    bytes: &[u8],
    done: Outcome,
) -> Result<Outcome, NoMemory>
    requires { done.status ≡ Status.Done }
    ensures told { IfOk result (λ o. UnlessFault o.status ((o ≡ done)
        × OnTold (HasFile name.now bytes.now) (F.told files.old) (F.told files.new))) }
    ensures stops { OnStop (λ stop. IsFailed stop name.now
        × OnTold (HasFront name.now bytes.now) (F.told files.old) (F.told files.new)) result }
    ensures ended { IfOk result (Ended (λ _. Rose (F.faults files.old) (F.faults files.new))) }
    ensures files { FilesGoOn F.told F.faults files.old files.new }
    ensures others { OnTold (SameBut name.now) (F.told files.old) (F.told files.new) }
    ensures names { (F.created files.new ≡ F.created files.old)
        ⊎ (F.created files.new ≡ with_name (F.created files.old) name.now) }
{
    match write_file(files, name, bytes) {
        WriteAnswer::Done => Ok(done),
        WriteAnswer::Failed => about_file(alloc, Status::FileFault, "file fault: ", name),
        WriteAnswer::NoMemory => Err(NoMemory),
    }
}

/// Writes the module and its rewriting, behind which this is answered.
pub(crate) fn write_both<F: Files>(
    alloc: Global,
    files: &mut F,
    bytes: &[u8],
    rewritten: &[u8],
    done: Outcome,
) -> Result<Outcome, NoMemory>
    requires { done.status ≡ Status.Done }
    ensures told { IfOk result (λ o. UnlessFault o.status ((o ≡ done)
        × OnTold (HoldThen ((module_file, bytes.now) ∷ (rewritten_file, rewritten.now) ∷ []))
        (F.told files.old) (F.told files.new))) }
    ensures stops { OnStop (λ stop. Left stop module_file bytes.now rewritten_file rewritten.now
        (F.told files.old) (F.told files.new)) result }
    ensures ended { IfOk result (Ended (λ _. Rose (F.faults files.old) (F.faults files.new))) }
    ensures files { FilesGoOn F.told F.faults files.old files.new }
    ensures others { OnTold (SameButBoth module_file rewritten_file)
        (F.told files.old) (F.told files.new) }
    ensures names { CreatedBoth module_file rewritten_file
        (F.created files.old) (F.created files.new) }
{
    match write_file(files, "selftest.wasm", bytes) {
        WriteAnswer::Done => write_last(alloc, files, "selftest.inst.wasm", rewritten, done),
        WriteAnswer::Failed => {
            about_file(alloc, Status::FileFault, "file fault: ", "selftest.wasm")
        }
        WriteAnswer::NoMemory => Err(NoMemory),
    }
}
