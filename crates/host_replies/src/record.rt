//! The text of a record: a line for each reply.

ghost use Rattle.std.specs.Prelude.{◌≡◌, ◌++◌, ◌<◌, ◌^◌, All, IfSome, OnOk, Ok, codes, map};
ghost use Rattle.std.specs.Fmt.{decimal};
ghost use Rattle.hex.specs.Hex.{IsBytes, encode_lower};
ghost use Rattle.wasm_syntax.specs.Numbers.{IsValue};
ghost use Rattle.host_replies.specs.Replies.{file_replies};
ghost use Rattle.host_replies.specs.Record.{IsReplyTyped, behind_space, record_text, reply_line, value_word};
ghost use Rattle.host_replies.specs.Record.{without_empty, write_text};
ghost use Rattle.host_replies.specs.inner.Written.{IsWriteKept};

use causes::NoMemory;
use commands::{push_number, push_value};
use pm_text::Text;
use std::alloc::Global;
use wasm_syntax::{Reply, Value, Write};

/// Adds a number of 32 bits behind a space.
fn push_address(out: &mut Text, at: u32) -> Result<(), NoMemory>
    ensures text { OnOk result (out.new ≡ out.old ++ codes " " ++ decimal at) }
    ensures fits { at < 2 ^ 32 }
{
    push_number(out, " ", u64::from(at))
}

/// Adds bytes as pairs of lower-case hexadecimal digits.
fn push_pairs(alloc: Global, out: &mut Text, bytes: &[u8]) -> Result<(), NoMemory>
    ensures text { OnOk result (out.new ≡ out.old ++ encode_lower bytes.now) }
    ensures fits { IsBytes bytes.now }
{
    let digits = hex::encode(alloc, bytes)?;
    out.push_str(digits.as_str())
}

/// Adds a write behind a space. One of no bytes is left out.
#[tactic(auto, unfolding(crate::specs::Record::behind_space))]
fn push_write(alloc: Global, out: &mut Text, write: &Write) -> Result<(), NoMemory>
    ensures text { OnOk result (out.new ≡ out.old ++ behind_space write.now) }
    ensures typed { OnOk result (IsWriteKept write.now) }
{
    if write.bytes.is_empty() {
        return Ok(());
    }
    push_address(out, write.at)?;
    out.push_str("=")?;
    push_pairs(alloc, out, write.bytes.as_slice())
}

/// Adds the value of a reply, or that it has none.
fn push_word(out: &mut Text, value: Option<Value>) -> Result<(), NoMemory>
    ensures text { OnOk result (out.new ≡ out.old ++ value_word value) }
    ensures typed { IfSome value IsValue }
{
    match value {
        Some(value) => push_value(out, value),
        None => out.push_str("none"),
    }
}

/// Adds the line of a reply: its value or `none`, and its writes that have bytes.
///
/// # Errors
///
/// `NoMemory`. A part of the line may then stand at the end.
#[tactic(auto, unfolding(crate::specs::Record::reply_line))]
pub fn push_reply(alloc: Global, out: &mut Text, reply: &Reply) -> Result<(), NoMemory>
    ensures text { OnOk result (out.new ≡ out.old ++ reply_line reply.now) }
    ensures typed { OnOk result (IsReplyTyped reply.now) }
{
    push_word(out, reply.value)?;
    for write in reply.writes.as_slice() {
        push_write(alloc, out, write)?;
    }
    out.push_str("\n")
}

/// Adds the record of replies, in order.
///
/// # Errors
///
/// `NoMemory`. A part of the record may then stand at the end.
pub fn push_record(alloc: Global, out: &mut Text, replies: &[Reply]) -> Result<(), NoMemory>
    ensures text { OnOk result (out.new ≡ out.old ++ record_text replies.now) }
    ensures typed { OnOk result (All IsReplyTyped replies.now) }
    ensures read { OnOk result (file_replies (record_text replies.now)
        ≡ Ok (map without_empty replies.now)) }
{
    for reply in replies {
        push_reply(alloc, out, reply)?;
    }
    Ok(())
}
