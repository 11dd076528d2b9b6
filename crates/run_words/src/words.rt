//! The words behind `run`.

ghost use Rattle.std.specs.Prelude.{◌≡◌, ◌<◌, ◌≤◌, ◌↔◌, true, false, IsTrue, drop, length, map, nat_eq, Some, None};
ghost use Rattle.std.specs.Prelude.{IfOk, IfSome, MatchOption, unwrap_or};
ghost use Rattle.std.specs.Char.{is_ascii_digit};
ghost use Rattle.std.specs.List.{AllPass, starts_with};
ghost use Rattle.std.specs.String.{string_bytes};
ghost use Rattle.commands.specs.Reading.{given_value};
ghost use Rattle.run_words.specs.RunWords.{run_options, number_or, fuel, depth, name, dump, replies, is_number};
ghost use Rattle.run_words.specs.RunWords.{is_for_dumps, log_to, collect, asked, run_words};

use crate::invocation::Invocations;
use crate::invoking::invocations;
use causes::NoMemory;
use commands::{Options, Reading, WordsFault, read_words};
use pm_text::{Text, read_decimal};
use std::alloc::Global;

/// The words behind `run`, with the defaults of what is not given.
#[derive(Drop)]
pub struct RunWords {
    /// The file of the module.
    pub source: Text,
    /// In order; at least one.
    pub invocations: Invocations,
    /// The file of replies.
    pub replies: Option<Text>,
    /// How many steps may be made.
    pub fuel: u64,
    /// How many frames may stand.
    pub depth: u32,
    /// The file for the first dump.
    pub dump: Text,
    /// The name that a dump has inside.
    pub name: Text,
    /// The file for the record of the replies, none of those for dumps.
    pub log_to: Option<Text>,
    /// Whether the collector takes the dumps that the module hands over.
    pub collect: bool,
}

fn options() -> Options<'static>
    ensures { result ≡ run_options }
{
    Options::new(
        &[
            "--replies",
            "--fuel",
            "--depth",
            "--dump",
            "--name",
            "--record",
        ],
        &["--collect"],
    )
}

/// The number that an option gives, from `least` to `greatest`, or the default where it is not
/// given.
pub fn number_or(
    reading: &Reading<'_>,
    option: &str,
    least: u64,
    greatest: u64,
    default: u64,
) -> Option<u64>
    requires low { least ≤ default }
    requires high { default ≤ greatest }
    ensures value { result ≡ number_or least greatest default (given_value option.now reading.now) }
    ensures bounds { IfSome result (λ n. (least ≤ n) × (n ≤ greatest)) }
{
    let Some(digits) = reading.value(option) else {
        return Some(default);
    };
    let number = read_decimal(digits)?;
    if least <= number && number <= greatest {
        Some(number)
    } else {
        None
    }
}

/// How many steps may be made.
#[tactic(auto, unfolding(crate::specs::RunWords::fuel))]
pub fn fuel(reading: &Reading<'_>) -> Option<u64>
    ensures value { result ≡ fuel reading.now }
    ensures bound { IfSome result (λ n. n ≤ 1000000000000) }
{
    number_or(reading, "--fuel", 0, 1_000_000_000_000, 100_000_000)
}

/// How many frames may stand.
#[tactic(auto, unfolding(crate::specs::RunWords::depth))]
pub fn depth(reading: &Reading<'_>) -> Option<u32>
    ensures value { result ≡ depth reading.now }
    ensures bounds { IfSome result (λ n. (1 ≤ n) × (n ≤ 10000)) }
{
    let depth = number_or(reading, "--depth", 1, 10_000, 1_000)?;
    Some(depth as u32)
}

/// The value of an option, or the default where it is not given.
fn text_or<'a>(reading: &Reading<'a>, option: &str, default: &'a str) -> &'a str
    ensures { result.now ≡ unwrap_or (given_value option.now reading.now) default.now }
{
    match reading.value(option) {
        Some(text) => text,
        None => default,
    }
}

/// The name that a dump has inside, of at most 4,096 bytes.
#[tactic(auto, unfolding(crate::specs::RunWords::name))]
fn name<'a>(reading: &Reading<'a>) -> Option<&'a str>
    ensures value { MatchOption result (name reading.now ≡ None)
        (λ t. name reading.now ≡ Some t.now) }
    ensures bound { IfSome result (λ t. length t.now ≤ 4096) }
{
    let name = text_or(reading, "--name", "module");
    if name.len() <= 4_096 {
        Some(name)
    } else {
        None
    }
}

/// The file for the first dump.
fn dump<'a>(reading: &Reading<'a>) -> &'a str
    ensures { result.now ≡ dump reading.now }
{
    text_or(reading, "--dump", "core.wasm")
}

/// Whether the collector is asked for.
fn collect(reading: &Reading<'_>) -> bool
    ensures { result ≡ collect reading.now }
{
    reading.value("--collect").is_some()
}

/// The file of replies, where one is asked for.
pub(crate) fn replies(alloc: Global, reading: &Reading<'_>) -> Result<Option<Text>, NoMemory>
    ensures { IfOk result (λ t. t ≡ replies reading.now) }
{
    match reading.value("--replies") {
        Some(file) => Ok(Some(Text::from_str(alloc, file)?)),
        None => Ok(None),
    }
}

fn are_digits(bytes: &[u8]) -> bool
    ensures { IsTrue result ↔ AllPass is_ascii_digit bytes.now }
{
    bytes.iter().all(|b| b.is_ascii_digit())
}

/// Digits, at least one.
fn is_number(word: &str) -> bool
    ensures { result ≡ is_number word.now }
{
    !word.is_empty() && are_digits(word.as_bytes())
}

/// What stands behind this front in a text.
#[tactic(auto, using(pm_text::proofs::NumberLaws::begins, pm_text::proofs::NumberLaws::begins_not))]
fn behind<'a>(text: &'a str, front: &str) -> Option<&'a str>
    ensures { MatchOption result (starts_with nat_eq text.now front.now ≡ false)
        (λ x. (starts_with nat_eq text.now front.now ≡ true)
        × (x.now ≡ drop (length front.now) text.now)) }
{
    text.strip_prefix(front)
}

/// Whether a file is one of those for dumps, of which the first one has this name.
fn is_for_dumps(first: &str, file: &str) -> bool
    ensures { result ≡ is_for_dumps first.now file.now }
{
    if file == first {
        return true;
    }
    let Some(rest) = behind(file, first) else {
        return false;
    };
    match behind(rest, ".") {
        Some(number) => is_number(number),
        None => false,
    }
}

/// The file for the record, where one is asked for.
#[tactic(auto, unfolding(crate::specs::RunWords::log_to))]
fn log_to(alloc: Global, reading: &Reading<'_>, first: &str) -> Result<Option<Text>, WordsFault>
    requires { first.now ≡ dump reading.now }
    ensures ok { IfOk result (λ t. log_to reading.now ≡ Some t) }
    ensures usage { result ≡ Err WordsFault.Usage → log_to reading.now ≡ None }
{
    let Some(file) = reading.value("--record") else {
        return Ok(None);
    };
    if is_for_dumps(first, file) {
        return Err(WordsFault::Usage);
    }
    Ok(Some(Text::from_str(alloc, file)?))
}

/// What the options ask for, with this file of a module and these words behind it.
#[tactic(auto, unfolding(crate::specs::RunWords::asked))]
fn asked(
    alloc: Global,
    source: &str,
    behind: &[&str],
    reading: &Reading<'_>,
) -> Result<RunWords, WordsFault>
    ensures ok { IfOk result (λ r. asked source.now (map (λ w. w.now) behind.now) reading.now
        ≡ Some r) }
    ensures usage { result ≡ Err WordsFault.Usage
        → asked source.now (map (λ w. w.now) behind.now) reading.now ≡ None }
    ensures some { IfOk result (λ r. 0 < length r.invocations) }
    ensures fuel { IfOk result (λ r. r.fuel ≤ 1000000000000) }
    ensures depth { IfOk result (λ r. (1 ≤ r.depth) × (r.depth ≤ 10000)) }
    ensures name { IfOk result (λ r. length r.name ≤ 4096) }
{
    let invocations = invocations(alloc, behind)?;
    let Some(fuel) = fuel(reading) else {
        return Err(WordsFault::Usage);
    };
    let Some(depth) = depth(reading) else {
        return Err(WordsFault::Usage);
    };
    let Some(name) = name(reading) else {
        return Err(WordsFault::Usage);
    };
    let dump = dump(reading);
    let log_to = log_to(alloc, reading, dump)?;
    Ok(RunWords {
        source: Text::from_str(alloc, source)?,
        invocations,
        replies: replies(alloc, reading)?,
        fuel,
        depth,
        dump: Text::from_str(alloc, dump)?,
        name: Text::from_str(alloc, name)?,
        log_to,
        collect: collect(reading),
    })
}

/// What the words behind `run` ask for: `M ENTRY [ARG ...]`, then any number of
/// `+ ENTRY [ARG ...]`, with the options `--replies FILE`, `--fuel N`, `--depth N`, `--dump FILE`,
/// `--name TEXT`, `--record FILE` and `--collect` anywhere. Each plain word `+` behind the first
/// plain word separates invocations, of which none is empty. The file for the record is none of
/// those for dumps.
#[tactic(auto, unfolding(crate::specs::RunWords::run_words))]
pub fn run_words(alloc: Global, words: &[String]) -> Result<RunWords, WordsFault>
    ensures ok { IfOk result (λ r. run_words (map string_bytes words.now) ≡ Some r) }
    ensures usage { result ≡ Err WordsFault.Usage → run_words (map string_bytes words.now) ≡ None }
    ensures some { IfOk result (λ r. 0 < length r.invocations) }
    ensures fuel { IfOk result (λ r. r.fuel ≤ 1000000000000) }
    ensures depth { IfOk result (λ r. (1 ≤ r.depth) × (r.depth ≤ 10000)) }
    ensures name { IfOk result (λ r. length r.name ≤ 4096) }
{
    let Some(reading) = read_words(alloc, words, &options())? else {
        return Err(WordsFault::Usage);
    };
    let Some((source, behind)) = reading.plain().split_first() else {
        return Err(WordsFault::Usage);
    };
    asked(alloc, source, behind, &reading)
}
