//! Commands read from a text.

ghost use Rattle.std.specs.Prelude.{◌≡◌, ◌∷◌, ◌==◌};
ghost use Rattle.std.specs.List.{slice_split};
ghost use Rattle.debugger.specs.Commands.{one_word as one_word_there, frame as frame_there};
ghost use Rattle.debugger.specs.Commands.{two_words as two_words_there, examine as examine_there};
ghost use Rattle.debugger.specs.Commands.{three_words as three_words_there, command_of, read_command as command_there};
ghost use Rattle.debugger.specs.Commands.{second_word as second_there};
ghost use Rattle.debugger.specs.calls.Words.{words_behind};

use crate::command::Command;
use pm_text::read_decimal;

/// The most bytes that are examined at once.
const MOST_BYTES: u64 = 4096;

/// The first word, and the text behind the space after it, where there is one.
pub fn first_word(text: &str) -> (&str, Option<&str>)
    ensures { slice_split (λ b. b == 32) text.now ≡ result.0.now ∷ words_behind result.1 }
{
    match text.split_once(' ') {
        Some(parts) => (parts.0, Some(parts.1)),
        None => (text, None),
    }
}

/// A command of one word.
fn one_word(word: &str) -> Command
    ensures { result ≡ one_word_there word.now }
{
    match word {
        "bt" => Command::Backtrace,
        "locals" => Command::Locals,
        "operands" => Command::Operands,
        "globals" => Command::Globals,
        "vars" => Command::Variables,
        _ => Command::Bad,
    }
}

/// The choice of a frame.
fn frame(number: &str) -> Command
    ensures { result ≡ frame_there number.now }
{
    match read_decimal(number) {
        Some(number) => Command::Frame { number },
        None => Command::Bad,
    }
}

/// A command of two words.
fn two_words(word: &str, second: &str) -> Command
    ensures { result ≡ two_words_there word.now second.now }
{
    match word {
        "frame" => frame(second),
        "print" => Command::Print,
        _ => Command::Bad,
    }
}

/// So many bytes from an address on, at least one and not too many.
fn examine(address: &str, count: &str) -> Command
    ensures { result ≡ examine_there address.now count.now }
{
    match (read_decimal(address), read_decimal(count)) {
        (Some(address), Some(count)) => {
            if 1 <= count && count <= MOST_BYTES {
                Command::Examine { address, count }
            } else {
                Command::Bad
            }
        }
        _ => Command::Bad,
    }
}

/// A command of three words.
fn three_words(word: &str, second: &str, third: &str) -> Command
    ensures { result ≡ three_words_there word.now second.now third.now }
{
    match word {
        "x" => examine(second, third),
        _ => Command::Bad,
    }
}

/// A command by its first word and the text behind it.
fn with_second(word: &str, behind: &str) -> Command
    ensures { result ≡ command_of (word.now ∷ slice_split (λ b. b == 32) behind.now) }
{
    let (second, rest) = first_word(behind);
    match rest {
        None => two_words(word, second),
        Some(rest) => with_third(word, second, rest),
    }
}

/// A command by its first two words and the text behind them.
fn with_third(word: &str, second: &str, behind: &str) -> Command
    ensures { result ≡ command_of (word.now ∷ second.now ∷ slice_split (λ b. b == 32) behind.now) }
{
    let (third, rest) = first_word(behind);
    match rest {
        None => three_words(word, second, third),
        Some(_) => Command::Bad,
    }
}

/// The command that a text spells: words with exactly one space between them. A text that spells
/// none is `Bad`; of `print` the path is not looked at.
#[tactic(auto, unfolding(crate::specs::Commands::read_command))]
pub fn read_command(text: &str) -> Command
    ensures { result ≡ command_there text.now }
{
    let (word, rest) = first_word(text);
    match rest {
        None => one_word(word),
        Some(rest) => with_second(word, rest),
    }
}

/// The second word of a text, as the path of `print`; empty where there is none.
#[tactic(auto, unfolding(crate::specs::Commands::second_word))]
pub fn second_word(text: &str) -> &str
    ensures { result.now ≡ second_there text.now }
{
    let (_, rest) = first_word(text);
    match rest {
        Some(rest) => first_word(rest).0,
        None => "",
    }
}
