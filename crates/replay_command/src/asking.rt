//! The words behind `replay`.

ghost use Rattle.std.specs.Prelude.{◌≡◌, ◌≤◌, map, Some, None, IfOk, IfSome, unwrap_or};
ghost use Rattle.std.specs.String.{string_bytes};
ghost use Rattle.commands.specs.Reading.{given_value};
ghost use Rattle.replay_command.specs.Words.{replay_options, every, commands, asked, replay_words};

use commands::{Options, Reading, WordsFault, read_words};
use pm_text::Text;
use run_words::{arguments, depth, fuel, number_or};
use std::alloc::Global;
use wasm_syntax::Values;

/// The words behind `replay`, with the defaults of what is not given.
#[derive(Drop)]
pub struct ReplayWords {
    /// The file of the module.
    pub source: Text,
    /// The file of the replies.
    pub log: Text,
    pub entry: Text,
    pub args: Values,
    /// How many steps may be made.
    pub fuel: u64,
    /// How many frames may stand.
    pub depth: u32,
    /// How many steps stand between two checkpoints at first.
    pub every: u64,
    /// The commands, between semicolons.
    pub commands: Text,
}

fn options() -> Options<'static>
    ensures { result ≡ replay_options }
{
    Options::new(&["--fuel", "--depth", "--every", "--do"], &[])
}

/// How many steps stand between two checkpoints at first.
#[tactic(auto, unfolding(crate::specs::Words::every))]
fn every(reading: &Reading<'_>) -> Option<u64>
    ensures value { result ≡ every reading.now }
    ensures bounds { IfSome result (λ n. (1 ≤ n) × (n ≤ 1000000)) }
{
    number_or(reading, "--every", 1, 1_000_000, 1_000)
}

/// The commands, between semicolons.
fn commands<'a>(reading: &Reading<'a>) -> &'a str
    ensures { result.now ≡ commands reading.now }
{
    match reading.value("--do") {
        Some(text) => text,
        None => "goto 0",
    }
}

/// What the options ask for, with these files of a module and of replies, this entry and these
/// words behind it.
#[tactic(auto, unfolding(crate::specs::Words::asked))]
fn asked(
    alloc: Global,
    source: &str,
    log: &str,
    entry: &str,
    behind: &[&str],
    reading: &Reading<'_>,
) -> Result<ReplayWords, WordsFault>
    ensures ok { IfOk result (λ r. asked source.now log.now entry.now (map (λ w. w.now) behind.now)
        reading.now ≡ Some r) }
    ensures usage { result ≡ Err WordsFault.Usage
        → asked source.now log.now entry.now (map (λ w. w.now) behind.now) reading.now ≡ None }
    ensures fuel { IfOk result (λ r. r.fuel ≤ 1000000000000) }
    ensures depth { IfOk result (λ r. (1 ≤ r.depth) × (r.depth ≤ 10000)) }
    ensures every { IfOk result (λ r. (1 ≤ r.every) × (r.every ≤ 1000000)) }
{
    let Some(fuel) = fuel(reading) else {
        return Err(WordsFault::Usage);
    };
    let Some(depth) = depth(reading) else {
        return Err(WordsFault::Usage);
    };
    let Some(every) = every(reading) else {
        return Err(WordsFault::Usage);
    };
    let commands = commands(reading);
    Ok(ReplayWords {
        source: Text::from_str(alloc, source)?,
        log: Text::from_str(alloc, log)?,
        entry: Text::from_str(alloc, entry)?,
        commands: Text::from_str(alloc, commands)?,
        args: arguments(alloc, behind)?,
        fuel,
        depth,
        every,
    })
}

/// What the words behind `replay` ask for: `M LOG ENTRY [ARG ...]`, with the options `--fuel N`,
/// `--depth N`, `--every K` and `--do TEXT` anywhere. There is one invocation, so the word `+`
/// separates nothing.
#[tactic(auto, unfolding(crate::specs::Words::replay_words))]
pub fn replay_words(alloc: Global, words: &[String]) -> Result<ReplayWords, WordsFault>
    ensures ok { IfOk result (λ r. replay_words (map string_bytes words.now) ≡ Some r) }
    ensures usage { result ≡ Err WordsFault.Usage
        → replay_words (map string_bytes words.now) ≡ None }
    ensures fuel { IfOk result (λ r. r.fuel ≤ 1000000000000) }
    ensures depth { IfOk result (λ r. (1 ≤ r.depth) × (r.depth ≤ 10000)) }
    ensures every { IfOk result (λ r. (1 ≤ r.every) × (r.every ≤ 1000000)) }
{
    let Some(reading) = read_words(alloc, words, &options())? else {
        return Err(WordsFault::Usage);
    };
    match reading.plain() {
        [source, log, entry, behind @ ..] => asked(alloc, source, log, entry, behind, &reading),
        _ => Err(WordsFault::Usage),
    }
}
