//! The words behind `debug`.

ghost use Rattle.std.specs.Prelude.{◌≡◌, map, Some, None, IfOk};
ghost use Rattle.std.specs.String.{string_bytes};
ghost use Rattle.debug_command.specs.Words.{debug_words};

use causes::NoMemory;
use commands::{Options, WordsFault, read_words};
use pm_text::{Text, Texts};
use std::alloc::Global;

/// The words behind `debug`.
#[derive(Drop)]
pub struct DebugWords {
    /// The file of the module.
    pub source: Text,
    /// The file of the dump.
    pub dump: Text,
    pub commands: Texts,
}

/// Copies of words.
fn texts_of(alloc: Global, words: &[&str]) -> Result<Texts, NoMemory>
    ensures { IfOk result (λ texts. texts ≡ map (λ w. w.now) words.now) }
{
    let mut texts = Texts::new(alloc);
    for word in words {
        texts.push(Text::from_str(alloc, word)?)?;
    }
    Ok(texts)
}

/// Two words, and commands behind them.
fn made(alloc: Global, source: &str, dump: &str, commands: &[&str]) -> Result<DebugWords, NoMemory>
    ensures { IfOk result (λ w. w ≡ record {
      source = source.now;
      dump = dump.now;
      commands = map (λ c. c.now) commands.now;
    }) }
{
    let source = Text::from_str(alloc, source)?;
    let dump = Text::from_str(alloc, dump)?;
    let commands = texts_of(alloc, commands)?;
    Ok(DebugWords {
        source,
        dump,
        commands,
    })
}

/// The words behind `debug`: a module, a dump, and commands.
#[tactic(auto, unfolding(crate::specs::Words::debug_words))]
pub fn debug_words(alloc: Global, words: &[String]) -> Result<DebugWords, WordsFault>
    ensures ok { IfOk result (λ w. debug_words (map string_bytes words.now) ≡ Some w) }
    ensures usage { result ≡ Err WordsFault.Usage
        → debug_words (map string_bytes words.now) ≡ None }
{
    let Some(reading) = read_words(alloc, words, &Options::none())? else {
        return Err(WordsFault::Usage);
    };
    match reading.plain() {
        [source, dump, commands @ ..] => Ok(made(alloc, source, dump, commands)?),
        _ => Err(WordsFault::Usage),
    }
}
