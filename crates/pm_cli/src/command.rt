//! What the commands answer.

ghost use Rattle.std.specs.Prelude.{◌≡◌, ℕ, List, map, Some, IfOk};
ghost use Rattle.std.specs.String.{string_bytes};
ghost use Rattle.causes.specs.Counts.{Rose};
ghost use Rattle.host_set.specs.Sets.{AreDistinct, names};
ghost use Rattle.pm_cli.specs.Answer.{IsAnswer, Answered};
ghost use Rattle.commands.specs.Told.{UnlessFault};
ghost use Rattle.pm_cli.specs.Stops.{Quiet, WordsStop};
ghost use Rattle.pm_cli.specs.Words.{HasBounds, command};
ghost use Rattle.run_session.specs.Stop.{OnStop};
ghost use Rattle.pm_outside.specs.calls.Kept.{FilesGoOn};
ghost use Rattle.commands.specs.calls.Ended.{Ended};

use crate::checking::check_file;
use crate::showing::show_file;
use crate::words::{Command, parse_words};
use causes::NoMemory;
use commands::{Outcome, Status, WordsFault, plain};
use cover_command::cover_file;
use debug_command::debug_file;
use host_set::Devices;
use instrument_command::instrument_file;
use pm_outside::Files;
use replay_command::replay_file;
use run_command::run_file;
use selftest_command::selftest_files;
use std::alloc::Global;

/// What a command gets, which some words ask for.
#[tactic(auto, unfolding(crate::specs::Answer::IsAnswer))]
fn perform<F: Files, D: Devices>(
    alloc: Global,
    asked: &Command,
    files: &mut F,
    devices: &mut D,
) -> Result<Outcome, NoMemory>
    requires distinct { AreDistinct (names (D.shown devices.old)) }
    requires bounds { HasBounds asked.now }
    ensures told { (words : List (List ℕ)) → command words ≡ Some asked.now
        → IfOk result (λ o. UnlessFault o.status
        (Answered (D.shown devices.old) (D.shown devices.new)
        words (F.told files.old) (F.told files.new) o)) }
    ensures stops { (words : List (List ℕ)) → command words ≡ Some asked.now
        → OnStop (λ stop. WordsStop stop words (D.shown devices.old) (D.shown devices.new)
        (F.told files.old) (F.told files.new)) result }
    ensures quiet { (words : List (List ℕ)) → command words ≡ Some asked.now
        → Quiet (command words) (D.shown devices.old) (D.shown devices.new)
        (F.told files.old) (F.told files.new) (F.created files.old) (F.created files.new) }
    ensures distinct { AreDistinct (names (D.shown devices.new)) }
    ensures files { FilesGoOn F.told F.faults files.old files.new }
    ensures ended { IfOk result (Ended (λ _. Rose (F.faults files.old) (F.faults files.new))) }
{
    match asked {
        Command::Check { module } => check_file(alloc, files, module.as_str()),
        Command::Run(words) => run_file(alloc, files, words, devices),
        Command::Instrument { module, out } => {
            instrument_file(alloc, files, module.as_str(), out.as_str())
        }
        Command::Show { dump } => show_file(alloc, files, dump.as_str()),
        Command::Debug(words) => debug_file(alloc, files, words),
        Command::Selftest { count } => selftest_files::<F, D>(alloc, files, *count),
        Command::Replay(words) => replay_file(alloc, files, words),
        Command::Cover(words) => cover_file(alloc, files, words, devices),
    }
}

/// What the words get.
#[tactic(auto, unfolding(crate::specs::Answer::IsAnswer))]
pub fn respond<F: Files, D: Devices>(
    alloc: Global,
    words: &[String],
    files: &mut F,
    devices: &mut D,
) -> Result<Outcome, NoMemory>
    requires distinct { AreDistinct (names (D.shown devices.old)) }
    ensures told { IfOk result (λ o. UnlessFault o.status
        (Answered (D.shown devices.old) (D.shown devices.new)
        (map string_bytes words.now) (F.told files.old) (F.told files.new) o)) }
    ensures stops { OnStop (λ stop. WordsStop stop (map string_bytes words.now)
        (D.shown devices.old) (D.shown devices.new) (F.told files.old) (F.told files.new)) result }
    ensures quiet { Quiet (command (map string_bytes words.now)) (D.shown devices.old)
        (D.shown devices.new)
        (F.told files.old) (F.told files.new) (F.created files.old) (F.created files.new) }
    ensures distinct { AreDistinct (names (D.shown devices.new)) }
    ensures files { FilesGoOn F.told F.faults files.old files.new }
    ensures ended { IfOk result (Ended (λ _. Rose (F.faults files.old) (F.faults files.new))) }
{
    match parse_words(alloc, words) {
        Ok(asked) => {
            let answer = perform(alloc, &asked, files, devices);
            drop(asked);
            answer
        }
        Err(WordsFault::Usage) => plain(
            alloc,
            Status::Usage,
            "usage: check, run, instrument, show, debug, selftest, replay or cover\n",
        ),
        Err(WordsFault::NoMemory) => Err(NoMemory),
    }
}
