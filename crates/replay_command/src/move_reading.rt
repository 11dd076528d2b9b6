//! Moves read from a text.

ghost use Rattle.std.specs.Prelude.{◌≡◌, ◌∷◌, ◌==◌};
ghost use Rattle.std.specs.List.{slice_split};
ghost use Rattle.replay_command.specs.Moves.{number_32 as number_there, place as place_there};
ghost use Rattle.replay_command.specs.Moves.{one_word as one_word_there, goto_step, until_place};
ghost use Rattle.replay_command.specs.Moves.{two_words as two_words_there, move_of, read_move as move_there};

use crate::moves::Move;
use debugger::first_word;
use pm_text::read_decimal;

/// A decimal number below 2^32.
fn number_32(digits: &str) -> Option<u32>
    ensures { result ≡ number_there digits.now }
{
    let number = read_decimal(digits)?;
    if number < 1 << 32 {
        Some(number as u32)
    } else {
        None
    }
}

/// The numbers on the two sides of the first colon.
#[tactic(auto, unfolding(crate::specs::Moves::place))]
fn place(word: &str) -> Option<(u32, u32)>
    ensures { result ≡ place_there word.now }
{
    let Some(sides) = word.split_once(':') else {
        return None;
    };
    let function = number_32(sides.0)?;
    let offset = number_32(sides.1)?;
    Some((function, offset))
}

/// A move of one word.
fn one_word(word: &str) -> Move
    ensures { result ≡ one_word_there word.now }
{
    match word {
        "back" => Move::Back,
        _ => Move::Look,
    }
}

/// The move to a step.
fn goto(number: &str) -> Move
    ensures { result ≡ goto_step number.now }
{
    match read_decimal(number) {
        Some(step) => Move::Goto { step },
        None => Move::Look,
    }
}

/// The move to a place.
fn until(word: &str) -> Move
    ensures { result ≡ until_place word.now }
{
    match place(word) {
        Some((function, offset)) => Move::Until { function, offset },
        None => Move::Look,
    }
}

/// A move of two words.
fn two_words(word: &str, second: &str) -> Move
    ensures { result ≡ two_words_there word.now second.now }
{
    match word {
        "goto" => goto(second),
        "until" => until(second),
        _ => Move::Look,
    }
}

/// A move by its first word and the text behind it.
fn with_second(word: &str, behind: &str) -> Move
    ensures { result ≡ move_of (word.now ∷ slice_split (λ b. b == 32) behind.now) }
{
    let (second, rest) = first_word(behind);
    match rest {
        None => two_words(word, second),
        Some(_) => Move::Look,
    }
}

/// The move that a text spells: words with exactly one space between them. Every other text is
/// `Look`. It takes no memory.
#[tactic(auto, unfolding(crate::specs::Moves::read_move))]
pub fn read_move(text: &str) -> Move
    ensures { result ≡ move_there text.now }
{
    let (word, rest) = first_word(text);
    match rest {
        None => one_word(word),
        Some(rest) => with_second(word, rest),
    }
}
