//! Files that are written whole.

ghost use Rattle.std.specs.Prelude.{◌≡◌, ◌⊎◌};
ghost use Rattle.causes.specs.Counts.{Rose};
ghost use Rattle.pm_outside.specs.Contents.{SameBut};
ghost use Rattle.pm_outside.specs.Created.{with_name};
ghost use Rattle.pm_outside.specs.Written.{OnTold, Leaves};
ghost use Rattle.pm_outside.specs.calls.Kept.{FilesGoOn};

use crate::Files;
use crate::answers::WriteAnswer;

/// Makes a file of these bytes.
pub fn write_file<F: Files>(files: &mut F, name: &str, bytes: &[u8]) -> WriteAnswer
    ensures content { OnTold (Leaves name.now bytes.now result) (F.told files.old)
        (F.told files.new) }
    ensures files { FilesGoOn F.told F.faults files.old files.new }
    ensures others { OnTold (SameBut name.now) (F.told files.old) (F.told files.new) }
    ensures names { (F.created files.new ≡ F.created files.old)
        ⊎ (F.created files.new ≡ with_name (F.created files.old) name.now) }
    ensures failed { result ≡ WriteAnswer.Failed → Rose (F.faults files.old) (F.faults files.new) }
{
    match files.create(name) {
        WriteAnswer::Done => files.append(name, bytes),
        refused => refused,
    }
}
