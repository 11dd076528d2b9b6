//! The words of a line.

ghost use Rattle.std.specs.Prelude.{◌≡◌, ◌==◌, ◌<◌, ◌^◌, true, false, length, MatchOption};
ghost use Rattle.std.specs.Str.{is_utf8};
ghost use Rattle.host_replies.specs.declared.words.LineFault.TheVariants.{NoMemory};
ghost use Rattle.host_replies.specs.Replies.{first_word, address, pairs, write_word, writes_of, line_reply, Gives};
ghost use Rattle.host_replies.specs.Replies.{typed};
ghost use Rattle.host_replies.specs.inner.Parts.{parts_behind};
ghost use Rattle.std.specs.List.{slice_split};

use crate::parts::{first_part, offset_of};
use hex::FromHexError;
use pm_text::{Bytes, Items, Number, read_decimal, read_value};
use std::alloc::Global;
use wasm_syntax::{Reply, Value, Write, Writes};

/// Why a line has no reply.
#[derive(Clone, Copy, Debug)]
pub enum LineFault {
    /// It is outside the grammar.
    Outside,
    NoMemory,
}

impl From<causes::NoMemory> for LineFault {
    ghost from_gives = { λ _ e. e ≡ NoMemory };

    fn from(_e: causes::NoMemory) -> LineFault {
        LineFault::NoMemory
    }
}

/// The text that a word is.
#[tactic(auto, using(pm_text::proofs::Utf8::utf8_tests))]
fn as_text(word: &[u8]) -> Option<&str>
    ensures { MatchOption result (is_utf8 word.now ≡ false)
        (λ t. (is_utf8 word.now ≡ true) × (t.now ≡ word.now)) }
{
    match str::from_utf8(word) {
        Ok(text) => Some(text),
        Err(_) => None,
    }
}

/// A number of 32 or 64 bits as a value.
pub fn typed(number: Number) -> Value
    requires { number.wide ≡ false → number.bits < 2 ^ 32 }
    ensures { result ≡ typed number }
{
    if number.wide {
        Value::I64(number.bits)
    } else {
        Value::I32(number.bits as u32)
    }
}

/// `none`, or a value such as `i32:-1`.
#[tactic(auto, unfolding(crate::specs::Replies::first_word))]
fn first_word(word: &[u8]) -> Option<Option<Value>>
    ensures { result ≡ first_word word.now }
{
    if word == b"none".as_slice() {
        return Some(None);
    }
    let text = as_text(word)?;
    let number = read_value(text)?;
    Some(Some(typed(number)))
}

/// An address: 1 to 10 decimal digits, up to 4,294,967,295.
#[tactic(auto, unfolding(crate::specs::Replies::address))]
fn address(digits: &[u8]) -> Option<u32>
    ensures { result ≡ address digits.now }
{
    if digits.len() > 10 {
        return None;
    }
    let text = as_text(digits)?;
    let number = read_decimal(text)?;
    if number < 1 << 32 {
        Some(number as u32)
    } else {
        None
    }
}

/// One or more pairs of hexadecimal digits.
#[tactic(auto, unfolding(crate::specs::Replies::pairs))]
fn pairs(alloc: Global, digits: &[u8]) -> Result<Bytes, LineFault>
    ensures { Gives result (pairs digits.now) }
{
    if digits.is_empty() {
        return Err(LineFault::Outside);
    }
    match hex::decode(alloc, digits) {
        Ok(bytes) => Ok(Items::from_vec(bytes)),
        Err(FromHexError::OutOfMemory) => Err(LineFault::NoMemory),
        Err(_) => Err(LineFault::Outside),
    }
}

/// A write: an address, `=` and the bytes.
#[tactic(auto, unfolding(crate::specs::Replies::write_word))]
fn write_word(alloc: Global, word: &[u8]) -> Result<Write, LineFault>
    ensures { Gives result (write_word word.now) }
{
    let Some(middle) = offset_of(word, b'=') else {
        return Err(LineFault::Outside);
    };
    let Some(at) = address(&word[..middle]) else {
        return Err(LineFault::Outside);
    };
    let bytes = pairs(alloc, &word[middle + 1..])?;
    Ok(Write { at, bytes })
}

/// The writes behind the first space of a line.
fn writes(alloc: Global, parts: &[u8]) -> Result<Writes, LineFault>
    ensures { Gives result (writes_of (slice_split (λ b. b == 32) parts.now)) }
{
    let mut writes = Items::new(alloc);
    let mut rest = parts;
    loop {
        let (part, behind) = first_part(rest, b' ');
        let Some(behind) = behind else {
            writes.push(write_word(alloc, part)?)?;
            return Ok(writes);
        };
        // Between two spaces stands an empty part, which is no word.
        if !part.is_empty() {
            writes.push(write_word(alloc, part)?)?;
        }
        rest = behind;
    }
}

/// The writes of a line, where there is something behind its first word.
#[tactic(auto, unfolding(crate::specs::Replies::writes_of))]
fn writes_behind(alloc: Global, behind: Option<&[u8]>) -> Result<Writes, LineFault>
    ensures { Gives result (writes_of (parts_behind 32 behind.entry)) }
{
    match behind {
        Some(parts) => writes(alloc, parts),
        None => Ok(Items::new(alloc)),
    }
}

/// What a line says: nothing, or a reply.
#[tactic(auto, unfolding(crate::specs::Replies::line_reply))]
pub fn line_reply(alloc: Global, line: &[u8]) -> Result<Option<Reply>, LineFault>
    ensures { Gives result (line_reply line.now) }
{
    match line {
        [] | [b'#', ..] => return Ok(None),
        _ => {}
    }
    let (word, behind) = first_part(line, b' ');
    let Some(value) = first_word(word) else {
        return Err(LineFault::Outside);
    };
    let writes = writes_behind(alloc, behind)?;
    Ok(Some(Reply { value, writes }))
}
