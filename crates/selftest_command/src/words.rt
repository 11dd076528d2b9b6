//! The words behind `selftest`.

ghost use Rattle.std.specs.Prelude.{◌≡◌, ◌≤◌, map, None, Some, IfOk, IfSome};
ghost use Rattle.std.specs.String.{string_bytes};
ghost use Rattle.selftest_command.specs.Words.{count, only_count, selftest_words};

use commands::{Options, WordsFault, read_words};
use pm_text::read_decimal;
use std::alloc::Global;

/// A number of functions, from 1 to 900.
fn count(digits: &str) -> Option<u32>
    ensures value { result ≡ count digits.now }
    ensures bounds { IfSome result (λ n. (1 ≤ n) × (n ≤ 900)) }
{
    let number = read_decimal(digits)?;
    if 1 <= number && number <= 900 {
        Some(number as u32)
    } else {
        None
    }
}

/// The number that the one plain word spells.
fn only_count(words: &[&str]) -> Option<u32>
    ensures value { result ≡ only_count (map (λ w. w.now) words.now) }
    ensures bounds { IfSome result (λ n. (1 ≤ n) × (n ≤ 900)) }
{
    match words {
        [word] => count(word),
        _ => None,
    }
}

/// The number of functions that the words behind `selftest` ask for: one plain word, and no
/// options.
///
/// # Errors
///
/// `Usage` where the words ask for none.
#[tactic(auto, unfolding(crate::specs::Words::selftest_words))]
pub fn selftest_words(alloc: Global, words: &[String]) -> Result<u32, WordsFault>
    ensures ok { IfOk result (λ n. selftest_words (map string_bytes words.now) ≡ Some n) }
    ensures usage { result ≡ Err WordsFault.Usage
        → selftest_words (map string_bytes words.now) ≡ None }
    ensures bounds { IfOk result (λ n. (1 ≤ n) × (n ≤ 900)) }
{
    let Some(reading) = read_words(alloc, words, &Options::none())? else {
        return Err(WordsFault::Usage);
    };
    match only_count(reading.plain()) {
        Some(number) => Ok(number),
        None => Err(WordsFault::Usage),
    }
}
