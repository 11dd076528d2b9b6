//! The top call.

ghost use Rattle.std.specs.Prelude.{◌≡◌, ◌≢◌, ◌≤◌, ◌⊎◌, List, ℕ, map, Some, IfSome, is_some};
ghost use Rattle.std.specs.String.{string_bytes};
ghost use Rattle.causes.specs.Counts.{Rose};
ghost use Rattle.host_set.specs.Sets.{AreDistinct, names};
ghost use Rattle.pm_cli.specs.Answer.{Answered, IfRewritten, IfDebugged};
ghost use Rattle.commands.specs.declared.outcome.Outcome.{Outcome as OutcomeThere};
ghost use Rattle.commands.specs.Told.{UnlessFault, Takes, HasTakenFront};
ghost use Rattle.commands.specs.Texts.{file_fault};
ghost use Rattle.pm_cli.specs.Stops.{Quiet, WordsStop};
ghost use Rattle.pm_cli.specs.Words.{command};
ghost use Rattle.run_session.specs.Stop.{no_memory, file_failed};

use crate::command::respond;
use commands::{Outcome, Status};
use host_set::Devices;
use pm_outside::{Files, PutAnswer, Sink};
use std::alloc::Global;

/// Writes the text of an outcome, and says how the program ends.
fn deliver<O: Sink>(out: &mut O, outcome: &Outcome) -> Status
    ensures taken { UnlessFault result
        (Takes result (O.taken out.old) (O.taken out.new) outcome.now) }
    ensures fault { result ≡ Status.FileFault
        → (outcome.now.status ≡ Status.FileFault) ⊎ Rose (O.faults out.old) (O.faults out.new) }
    ensures whole { result ≡ Status.FileFault → (Rose (O.faults out.old) (O.faults out.new) → ⊥)
        → Takes result (O.taken out.old) (O.taken out.new) outcome.now }
    ensures front { IfSome (O.taken out.old) (λ before.
        HasTakenFront before (O.taken out.new) outcome.now.text) }
    ensures wanting { result ≡ Status.NoMemory → outcome.now.status ≢ Status.NoMemory
        → Rose (O.wants out.old) (O.wants out.new) }
    ensures later { O.faults out.old ≤ O.faults out.new }
{
    match out.put(outcome.text.as_bytes()) {
        PutAnswer::Done => outcome.status,
        PutAnswer::Failed { .. } => Status::FileFault,
        PutAnswer::NoMemory { .. } => Status::NoMemory,
    }
}

/// Does all that the program does: `words` are its words without its name, `files` and `out` stand
/// for the outside, and `devices` serve imports by the names of their modules.
pub fn post_mortem<F: Files, O: Sink, D: Devices>(
    alloc: Global,
    words: &[String],
    files: &mut F,
    out: &mut O,
    devices: &mut D,
) -> Status
    // Devices have distinct names.
    requires distinct { AreDistinct (names (D.shown devices.old)) }

    // Status, text, files and the logs of devices are those of the answer, but for a fault and want
    // of memory. Where files tell nothing there are contents of them on which this is the answer;
    // where the output does, what it took is open.
    ensures answer { UnlessFault result ((o : OutcomeThere)
        × Answered (D.shown devices.old) (D.shown devices.new) (map string_bytes words.now)
        (F.told files.old) (F.told files.new) o
        × Takes result (O.taken out.old) (O.taken out.new) o) }

    // Where `instrument` is done, the module that it wrote does what the one that it read does, on
    // equal replies of its host, and hands over the dump of each trap.
    ensures instrumented { result ≡ Status.Done → IfRewritten (command (map string_bytes words.now))
        (F.told files.old) (F.told files.new) }

    // Where `debug` is done, it has read a valid module and a dump that can be one of it, and its
    // text is what the commands print on both; where it answers a mismatch, it has read such a
    // module and a dump that can't be one of it.
    ensures debugged { UnlessFault result (IfDebugged (command (map string_bytes words.now)) result
        (F.told files.old) (O.taken out.old) (O.taken out.new)) }

    // Where memory runs out, the command was stopped, or its whole answer stands but for what the
    // output has taken.
    ensures memory { result ≡ Status.NoMemory
        → WordsStop no_memory (map string_bytes words.now)
        (D.shown devices.old) (D.shown devices.new) (F.told files.old) (F.told files.new)
        ⊎ ((o : OutcomeThere)
        × Answered (D.shown devices.old) (D.shown devices.new) (map string_bytes words.now)
        (F.told files.old) (F.told files.new) o) }

    // So it is where a file or the output fails; it was stopped only where a count of the files rose.
    ensures failed { result ≡ Status.FileFault → (Rose (F.faults files.old) (F.faults files.new)
        × ((file : List ℕ) × WordsStop (file_failed file) (map string_bytes words.now)
        (D.shown devices.old) (D.shown devices.new) (F.told files.old) (F.told files.new)))
        ⊎ ((o : OutcomeThere)
        × Answered (D.shown devices.old) (D.shown devices.new) (map string_bytes words.now)
        (F.told files.old) (F.told files.new) o) }

    // However it ends, commands other than `run` and `cover`, and wrong words, call no device;
    // `instrument` leaves all files as they are but the one that it writes, `selftest` all but the
    // two that it writes, and the others but `run` leave all. `run` creates no file but those of
    // its dumps, by their numbers at most one for each invocation, and that of its record.
    ensures quiet { Quiet (command (map string_bytes words.now)) (D.shown devices.old)
        (D.shown devices.new)
        (F.told files.old) (F.told files.new) (F.created files.old) (F.created files.new) }

    // A fault is answered only where a count rose.
    ensures fault { result ≡ Status.FileFault
        → Rose (F.faults files.old) (F.faults files.new)
        ⊎ Rose (O.faults out.old) (O.faults out.new) }

    // Where the count of the output did not rise, a fault is that of a file that the command reads,
    // or one that `instrument` or `selftest` writes, or the dump of a trap in this run, or its
    // record, and the output has the whole text that names it.
    ensures named { result ≡ Status.FileFault → (Rose (O.faults out.old) (O.faults out.new) → ⊥)
        → Rose (F.faults files.old) (F.faults files.new) × ((file : List ℕ)
        × WordsStop (file_failed file) (map string_bytes words.now)
        (D.shown devices.old) (D.shown devices.new) (F.told files.old) (F.told files.new)
        × Takes result (O.taken out.old) (O.taken out.new) (file_fault file)) }

    // However it ends, the output has taken nothing, or a front of the answer's text, or, where a
    // count of the files rose, a front of the text that names such a file.
    ensures front { IfSome (O.taken out.old) (λ before. (O.taken out.new ≡ Some before)
        ⊎ (((o : OutcomeThere)
        × Answered (D.shown devices.old) (D.shown devices.new) (map string_bytes words.now)
        (F.told files.old) (F.told files.new) o
        × HasTakenFront before (O.taken out.new) o.text)
        ⊎ (Rose (F.faults files.old) (F.faults files.new) × ((file : List ℕ)
        × WordsStop (file_failed file) (map string_bytes words.now)
        (D.shown devices.old) (D.shown devices.new) (F.told files.old) (F.told files.new)
        × HasTakenFront before (O.taken out.new) (file_fault file).text)))) }

    // Where the output itself did not answer that memory is wanting, it has taken nothing if memory
    // runs out.
    ensures wanting { result ≡ Status.NoMemory → (Rose (O.wants out.old) (O.wants out.new) → ⊥)
        → O.taken out.new ≡ O.taken out.old }

    // The devices keep distinct names.
    ensures distinct { AreDistinct (names (D.shown devices.new)) }

    // Files that tell what they hold go on telling.
    ensures telling { is_some (F.told files.new) ≡ is_some (F.told files.old) }
{
    match respond(alloc, words, files, devices) {
        Ok(outcome) => deliver(out, &outcome),
        Err(_) => Status::NoMemory,
    }
}
