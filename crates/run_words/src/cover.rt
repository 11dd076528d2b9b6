//! The words behind `cover`.

ghost use Rattle.std.specs.Prelude.{◌≡◌, ◌≤◌, map, Some, None, IfOk};
ghost use Rattle.std.specs.String.{string_bytes};
ghost use Rattle.run_words.specs.CoverWords.{cover_options, cover_asked, cover_words};

use crate::invocation::Invocation;
use crate::invoking::invocation;
use crate::words::{depth, fuel, replies};
use commands::{Options, Reading, WordsFault, read_words};
use pm_text::Text;
use std::alloc::Global;

/// The words behind `cover`, with the defaults of what is not given.
#[derive(Drop)]
pub struct CoverWords {
    /// The file of the module.
    pub source: Text,
    pub called: Invocation,
    /// The file of replies.
    pub replies: Option<Text>,
    /// How many steps may be made.
    pub fuel: u64,
    /// How many frames may stand.
    pub depth: u32,
}

fn options() -> Options<'static>
    ensures { result ≡ cover_options }
{
    Options::new(&["--replies", "--fuel", "--depth"], &[])
}

/// What the options ask for, with this file of a module and these words behind it.
#[tactic(auto, unfolding(crate::specs::CoverWords::cover_asked))]
fn asked(
    alloc: Global,
    source: &str,
    behind: &[&str],
    reading: &Reading<'_>,
) -> Result<CoverWords, WordsFault>
    ensures ok { IfOk result (λ r. cover_asked source.now (map (λ w. w.now) behind.now) reading.now
        ≡ Some r) }
    ensures usage { result ≡ Err WordsFault.Usage
        → cover_asked source.now (map (λ w. w.now) behind.now) reading.now ≡ None }
    ensures fuel { IfOk result (λ r. r.fuel ≤ 1000000000000) }
    ensures depth { IfOk result (λ r. (1 ≤ r.depth) × (r.depth ≤ 10000)) }
{
    let called = invocation(alloc, behind)?;
    let Some(fuel) = fuel(reading) else {
        return Err(WordsFault::Usage);
    };
    let Some(depth) = depth(reading) else {
        return Err(WordsFault::Usage);
    };
    Ok(CoverWords {
        source: Text::from_str(alloc, source)?,
        called,
        replies: replies(alloc, reading)?,
        fuel,
        depth,
    })
}

/// What the words behind `cover` ask for: `M ENTRY [ARG ...]` with the options `--replies FILE`,
/// `--fuel N` and `--depth N` anywhere.
#[tactic(auto, unfolding(crate::specs::CoverWords::cover_words))]
pub fn cover_words(alloc: Global, words: &[String]) -> Result<CoverWords, WordsFault>
    ensures ok { IfOk result (λ r. cover_words (map string_bytes words.now) ≡ Some r) }
    ensures usage { result ≡ Err WordsFault.Usage
        → cover_words (map string_bytes words.now) ≡ None }
    ensures fuel { IfOk result (λ r. r.fuel ≤ 1000000000000) }
    ensures depth { IfOk result (λ r. (1 ≤ r.depth) × (r.depth ≤ 10000)) }
{
    let Some(reading) = read_words(alloc, words, &options())? else {
        return Err(WordsFault::Usage);
    };
    let Some((source, behind)) = reading.plain().split_first() else {
        return Err(WordsFault::Usage);
    };
    asked(alloc, source, behind, &reading)
}
