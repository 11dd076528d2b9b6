//! The files of dumps.

ghost use Rattle.std.specs.Prelude.{◌≡◌, ◌≤◌, IfOk};
ghost use Rattle.causes.specs.Counts.{Rose};
ghost use Rattle.dump_format.specs.Form.{pages_of};
ghost use Rattle.dump_format.specs.calls.Contained.{IsContained};
ghost use Rattle.dump_write.specs.Canonical.{canonical_bytes};
ghost use Rattle.pm_outside.specs.Written.{OnTold, HasFile, HasFront};
ghost use Rattle.commands.specs.Texts.{file_fault};
ghost use Rattle.commands.specs.calls.Given.{IfRefused, IfValue};
ghost use Rattle.run_session.specs.RunText.{dump_name};
ghost use Rattle.run_session.specs.calls.Creating.{MayCreate};
ghost use Rattle.pm_outside.specs.calls.Kept.{FilesGoOn};

use causes::NoMemory;
use commands::{Given, Status, about_file, push_number};
use dump_format::Dump;
use dump_write::write_dump;
use pm_outside::{Files, WriteAnswer};
use pm_text::Text;
use std::alloc::Global;

/// The file for the dump of a trap. Traps are counted from 0.
fn dump_file(alloc: Global, base: &Text, number: u64) -> Result<Text, NoMemory>
    ensures { IfOk result (λ t. t ≡ dump_name base.now number) }
{
    let mut name = Text::from_str(alloc, base.as_str())?;
    if number > 0 {
        push_number(&mut name, ".", number)?;
    }
    Ok(name)
}

/// Writes a dump into a file. The file that failed is answered in its place.
fn write_into<F: Files>(
    alloc: Global,
    files: &mut F,
    dump: &Dump<'_>,
    file: &str,
) -> Result<Given<()>, NoMemory>
    requires contained { IsContained dump.now }
    requires pages { pages_of dump.now.memory ≤ 4096 }
    ensures written { IfOk result
        (IfValue (λ _. OnTold (HasFile file.now (canonical_bytes dump.now)) (F.told files.old)
        (F.told files.new))) }
    ensures front { OnTold (HasFront file.now (canonical_bytes dump.now)) (F.told files.old)
        (F.told files.new) }
    ensures refused { IfOk result
        (IfRefused (λ o. (o ≡ file_fault file.now)
        × Rose (F.faults files.old) (F.faults files.new))) }
    ensures names { MayCreate file.now (F.created files.old) (F.created files.new) }
    ensures files { FilesGoOn F.told F.faults files.old files.new }
{
    match write_dump(alloc, dump, files, file) {
        WriteAnswer::Done => Ok(Given::Value(())),
        WriteAnswer::Failed => {
            let refusal = about_file(alloc, Status::FileFault, "file fault: ", file)?;
            Ok(Given::Refused(refusal))
        }
        WriteAnswer::NoMemory => Err(NoMemory),
    }
}

/// Writes the dump of the trap with a number, counted from 0.
pub(crate) fn dump_at_trap<F: Files>(
    alloc: Global,
    files: &mut F,
    dump: &Dump<'_>,
    base: &Text,
    number: u64,
) -> Result<Given<()>, NoMemory>
    requires contained { IsContained dump.now }
    requires pages { pages_of dump.now.memory ≤ 4096 }
    ensures written { IfOk result
        (IfValue (λ _. OnTold (HasFile (dump_name base.now number) (canonical_bytes dump.now))
        (F.told files.old) (F.told files.new))) }
    ensures front { OnTold (HasFront (dump_name base.now number) (canonical_bytes dump.now))
        (F.told files.old) (F.told files.new) }
    ensures refused { IfOk result
        (IfRefused (λ o. (o ≡ file_fault (dump_name base.now number))
        × Rose (F.faults files.old) (F.faults files.new))) }
    ensures names { MayCreate (dump_name base.now number) (F.created files.old)
        (F.created files.new) }
    ensures files { FilesGoOn F.told F.faults files.old files.new }
{
    let file = dump_file(alloc, base, number)?;
    write_into(alloc, files, dump, file.as_str())
}
