//! What the words ask for.

ghost use Rattle.std.specs.Prelude.{◌≡◌, map, None, Some, IfOk};
ghost use Rattle.std.specs.String.{string_bytes};
ghost use Rattle.pm_cli.specs.Words.{one_word, both, instrument_words, command, HasBounds};

use commands::{Options, Reading, WordsFault, read_words};
use debug_command::{DebugWords, debug_words};
use pm_text::Text;
use replay_command::{ReplayWords, replay_words};
use run_words::{CoverWords, RunWords, cover_words, run_words};
use selftest_command::selftest_words;
use std::alloc::Global;

/// A command with its words.
#[derive(Drop)]
pub enum Command {
    /// `check M`
    Check { module: Text },
    /// `run M ENTRY [ARG ...] [+ ENTRY [ARG ...]] ...`
    Run(RunWords),
    /// `instrument M OUT`
    Instrument { module: Text, out: Text },
    /// `show DUMP`
    Show { dump: Text },
    /// `debug M DUMP [COMMAND ...]`
    Debug(DebugWords),
    /// `selftest N`
    Selftest { count: u32 },
    /// `replay M LOG ENTRY [ARG ...]`
    Replay(ReplayWords),
    /// `cover M ENTRY [ARG ...]`
    Cover(CoverWords),
}

/// The one plain word behind a command without options.
#[tactic(auto, unfolding(crate::specs::Words::one_word))]
fn one_word(alloc: Global, words: &[String]) -> Result<Text, WordsFault>
    ensures ok { IfOk result (λ t. one_word (map string_bytes words.now) ≡ Some t) }
    ensures usage { result ≡ Err WordsFault.Usage → one_word (map string_bytes words.now) ≡ None }
{
    let Some(reading) = read_words(alloc, words, &Options::none())? else {
        return Err(WordsFault::Usage);
    };
    match reading.plain() {
        [word] => Ok(Text::from_str(alloc, word)?),
        _ => Err(WordsFault::Usage),
    }
}

/// The file that is read and the one that is written, where there are two plain words.
fn both_words(alloc: Global, reading: &Reading<'_>) -> Result<Command, WordsFault>
    ensures ok { IfOk result (λ c. both reading.now.plain ≡ Some c) }
    ensures usage { result ≡ Err WordsFault.Usage → both reading.now.plain ≡ None }
    ensures bounds { IfOk result HasBounds }
{
    match reading.plain() {
        [module, out] => Ok(Command::Instrument {
            module: Text::from_str(alloc, module)?,
            out: Text::from_str(alloc, out)?,
        }),
        _ => Err(WordsFault::Usage),
    }
}

/// The file that is read and the one that is written, behind `instrument`.
#[tactic(auto, unfolding(crate::specs::Words::instrument_words))]
fn instrument_words(alloc: Global, words: &[String]) -> Result<Command, WordsFault>
    ensures ok { IfOk result (λ c. instrument_words (map string_bytes words.now) ≡ Some c) }
    ensures usage { result ≡ Err WordsFault.Usage
        → instrument_words (map string_bytes words.now) ≡ None }
    ensures bounds { IfOk result HasBounds }
{
    let Some(reading) = read_words(alloc, words, &Options::none())? else {
        return Err(WordsFault::Usage);
    };
    both_words(alloc, &reading)
}

/// The command that the words behind the program's name ask for.
#[tactic(auto, unfolding(crate::specs::Words::command))]
pub fn parse_words(alloc: Global, words: &[String]) -> Result<Command, WordsFault>
    ensures ok { IfOk result (λ c. command (map string_bytes words.now) ≡ Some c) }
    ensures usage { result ≡ Err WordsFault.Usage → command (map string_bytes words.now) ≡ None }
    ensures bounds { IfOk result HasBounds }
{
    let Some((name, words)) = words.split_first() else {
        return Err(WordsFault::Usage);
    };
    match name.as_str() {
        "check" => Ok(Command::Check {
            module: one_word(alloc, words)?,
        }),
        "run" => match run_words(alloc, words) {
            Ok(words) => Ok(Command::Run(words)),
            Err(fault) => Err(fault),
        },
        "instrument" => instrument_words(alloc, words),
        "show" => Ok(Command::Show {
            dump: one_word(alloc, words)?,
        }),
        "debug" => match debug_words(alloc, words) {
            Ok(words) => Ok(Command::Debug(words)),
            Err(fault) => Err(fault),
        },
        "selftest" => Ok(Command::Selftest {
            count: selftest_words(alloc, words)?,
        }),
        "replay" => match replay_words(alloc, words) {
            Ok(words) => Ok(Command::Replay(words)),
            Err(fault) => Err(fault),
        },
        "cover" => match cover_words(alloc, words) {
            Ok(words) => Ok(Command::Cover(words)),
            Err(fault) => Err(fault),
        },
        _ => Err(WordsFault::Usage),
    }
}
