//! Files of replies.

ghost use Rattle.std.specs.Prelude.{◌≡◌, ◌+◌, ◌^◌, ◌<◌, ◌≤◌, length};
ghost use Rattle.std.specs.Str.Lines.{strip_carriage_return};
ghost use Rattle.host_replies.specs.declared.replies.ReplyFault.TheVariants.{NoMemory};
ghost use Rattle.host_replies.specs.Replies.{file_replies, line_reply, Reads, AddsLine};

use crate::parts::first_part;
use crate::words::{LineFault, line_reply};
use pm_text::Items;
use std::alloc::Global;
use wasm_syntax::Reply;

pub type Replies = Items<Reply>;

/// Why a file of replies is refused.
#[derive(Clone, Copy, Debug, PartialEq, Eq)]
pub enum ReplyFault {
    /// The first line outside the grammar. Lines are counted from 1, and those that are skipped
    /// count too.
    Line(u64),
    NoMemory,
}

impl From<causes::NoMemory> for ReplyFault {
    ghost from_gives = { λ _ e. e ≡ NoMemory };

    fn from(_e: causes::NoMemory) -> ReplyFault {
        ReplyFault::NoMemory
    }
}

/// A line without the carriage return at its end.
fn without_return(line: &[u8]) -> &[u8]
    ensures line { result.now ≡ strip_carriage_return line.now }
    ensures inside { length result.now ≤ length line.now }
{
    match line {
        [front @ .., b'\r'] => front,
        _ => line,
    }
}

/// Adds the reply of a line, where it has one. `before` is how many lines stand before it.
fn add_line(
    alloc: Global,
    replies: &mut Replies,
    line: &[u8],
    before: u64,
) -> Result<(), ReplyFault>
    requires { before + length line.now < 2 ^ 64 }
    ensures { AddsLine result (before + 1) (line_reply line.now) replies.old replies.new }
{
    match line_reply(alloc, line) {
        Ok(None) => Ok(()),
        Ok(Some(reply)) => {
            replies.push(reply)?;
            Ok(())
        }
        Err(LineFault::Outside) => Err(ReplyFault::Line(before + 1)),
        Err(LineFault::NoMemory) => Err(ReplyFault::NoMemory),
    }
}

/// The replies that a file holds, line by line.
///
/// # Errors
///
/// `Line`, with the number of the first line outside the grammar. `NoMemory` where memory runs out.
pub fn read_replies(alloc: Global, bytes: &[u8]) -> Result<Replies, ReplyFault>
    ensures { Reads result (file_replies bytes.now) }
{
    let mut replies = Items::new(alloc);
    let mut before = 0u64;
    let mut rest = bytes;
    loop {
        let (part, behind) = first_part(rest, b'\n');
        let Some(behind) = behind else {
            add_line(alloc, &mut replies, part, before)?;
            return Ok(replies);
        };
        add_line(alloc, &mut replies, without_return(part), before)?;
        rest = behind;
        before += 1;
    }
}
