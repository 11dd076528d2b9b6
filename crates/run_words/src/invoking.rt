//! The words of invocations.

ghost use Rattle.std.specs.Prelude.{◌≡◌, ◌<◌, length, map, Some, None, IfOk};
ghost use Rattle.std.specs.List.{slice_split};
ghost use Rattle.run_words.specs.Invocations.{argument, each, invocation, invocations, is_plus};

use crate::invocation::{Invocation, Invocations};
use causes::NoMemory;
use commands::WordsFault;
use host_replies::typed;
use pm_text::{Items, Text, read_value};
use std::alloc::Global;
use wasm_syntax::{Value, Values};

/// A value such as `i32:-1` or `i64:255`.
fn argument(word: &str) -> Option<Value>
    ensures { result ≡ argument word.now }
{
    let number = read_value(word)?;
    Some(typed(number))
}

/// The arguments that words write.
pub fn arguments(alloc: Global, words: &[&str]) -> Result<Values, WordsFault>
    ensures ok { IfOk result (λ vs. each argument (map (λ w. w.now) words.now) ≡ Some vs) }
    ensures usage { result ≡ Err WordsFault.Usage
        → each argument (map (λ w. w.now) words.now) ≡ None }
{
    let mut values = Items::new(alloc);
    for word in words {
        let Some(value) = argument(word) else {
            return Err(WordsFault::Usage);
        };
        values.push(value)?;
    }
    Ok(values)
}

/// The entry and its arguments.
#[tactic(auto, unfolding(crate::specs::Invocations::invocation))]
pub(crate) fn invocation(alloc: Global, words: &[&str]) -> Result<Invocation, WordsFault>
    ensures ok { IfOk result (λ i. invocation (map (λ w. w.now) words.now) ≡ Some i) }
    ensures usage { result ≡ Err WordsFault.Usage → invocation (map (λ w. w.now) words.now) ≡ None }
{
    let Some((entry, words)) = words.split_first() else {
        return Err(WordsFault::Usage);
    };
    let args = arguments(alloc, words)?;
    let entry = Text::from_str(alloc, entry)?;
    Ok(Invocation { entry, args })
}

/// The words between the words `+`.
fn parts<'w, 'a>(alloc: Global, words: &'w [&'a str]) -> Result<Vec<&'w [&'a str]>, NoMemory>
    ensures { IfOk result (λ ps. map (λ p. map (λ w. w.now) p.now) ps.items
        ≡ slice_split is_plus (map (λ w. w.now) words.now)) }
{
    let parts: Vec<&[&str]> = words.split(|w| *w == "+").collect(alloc)?;
    Ok(parts)
}

/// The invocations between the words `+`.
#[tactic(auto, unfolding(crate::specs::Invocations::invocations))]
pub fn invocations(alloc: Global, words: &[&str]) -> Result<Invocations, WordsFault>
    ensures ok { IfOk result (λ is. invocations (map (λ w. w.now) words.now) ≡ Some is) }
    ensures usage { result ≡ Err WordsFault.Usage
        → invocations (map (λ w. w.now) words.now) ≡ None }
    ensures some { IfOk result (λ is. 0 < length is) }
{
    let parts = parts(alloc, words)?;
    let mut invocations = Items::new(alloc);
    for part in &parts {
        invocations.push(invocation(alloc, part)?)?;
    }
    Ok(invocations)
}
