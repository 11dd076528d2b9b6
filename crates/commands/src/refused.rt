//! Dumps that are refused.

ghost use Rattle.std.specs.Prelude.{◌≡◌, ◌++◌, IfOk};
ghost use Rattle.std.specs.Fmt.{decimal};
ghost use Rattle.commands.specs.Refused.{bad_dump, refused};
ghost use Rattle.commands.specs.calls.Ended.{Ended};

use crate::{Outcome, Status, over_limit, push_number};
use causes::NoMemory;
use dump_format::{DumpFault, DumpPart};
use pm_text::Text;
use std::alloc::Global;

/// A dump that is refused for what stands at an offset.
fn bad_at(alloc: Global, cause: &str, at: usize) -> Result<Outcome, NoMemory>
    ensures { IfOk result (λ o. o ≡ bad_dump (cause.now ++ decimal at)) }
{
    let mut text = Text::from_str(alloc, "bad dump: ")?;
    push_number(&mut text, cause, at as u64)?;
    text.push_str("\n")?;
    Ok(Outcome {
        status: Status::BadDump,
        text,
    })
}

/// A dump that has a part twice.
fn bad_part(alloc: Global, part: DumpPart) -> Result<Outcome, NoMemory>
    ensures { IfOk result (λ o. o ≡ refused (DumpFault.Several part)) }
{
    let mut text = Text::from_str(alloc, "bad dump: several ")?;
    text.push_str(part.text())?;
    text.push_str("\n")?;
    Ok(Outcome {
        status: Status::BadDump,
        text,
    })
}

/// What is answered where a dump is refused.
pub fn refused_dump(alloc: Global, fault: DumpFault) -> Result<Outcome, NoMemory>
    ensures value { IfOk result (λ o. o ≡ refused fault) }
    ensures ended { IfOk result (Ended (λ _. ⊥)) }
{
    match fault {
        DumpFault::Malformed { at } => bad_at(alloc, "malformed at ", at),
        DumpFault::FloatValue { at } => bad_at(alloc, "float value at ", at),
        DumpFault::Several { part } => bad_part(alloc, part),
        DumpFault::Limit { what, count } => over_limit(alloc, what, count),
        DumpFault::NoMemory => Err(NoMemory),
    }
}
