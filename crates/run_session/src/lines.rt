//! The lines of `run`.

ghost use Rattle.std.specs.Prelude.{◌≡◌, ◌++◌, IfOk, OnOk};
ghost use Rattle.run_session.specs.RunText.{place_line, calls_text, finished_text, bare_text, torn_text};
ghost use Rattle.run_session.specs.RunText.{not_invoked_text};
ghost use Rattle.run_session.specs.inner.Dumping.{place_in, handed_text};

use causes::NoMemory;
use commands::{numbered, push_kind, push_number, push_result};
use dump_format::Dump;
use pm_text::Text;
use std::alloc::Global;
use wasm_syntax::Value;

/// Adds the line that names the place of a frame.
#[tactic(auto, unfolding(crate::specs::RunText::place_line))]
fn push_place(out: &mut Text, function: u32, offset: u32) -> Result<(), NoMemory>
    ensures { OnOk result (out.new ≡ out.old ++ place_line function offset) }
{
    push_number(out, "at function ", u64::from(function))?;
    push_number(out, " offset ", u64::from(offset))?;
    out.push_str("\n")
}

/// Adds the line that counts the replies that an invocation was given.
#[tactic(auto, unfolding(crate::specs::RunText::calls_text))]
fn push_calls(out: &mut Text, count: u64) -> Result<(), NoMemory>
    ensures { OnOk result (out.new ≡ out.old ++ calls_text count) }
{
    push_number(out, "host calls ", count)?;
    out.push_str("\n")
}

/// Adds the line that names the place of a dump's innermost frame, where it has frames.
fn push_innermost(out: &mut Text, dump: &Dump<'_>) -> Result<(), NoMemory>
    ensures { OnOk result (out.new ≡ out.old ++ place_in dump.now.frames) }
{
    match dump.frames.as_slice() {
        [frame, ..] => push_place(out, frame.function, frame.offset),
        [] => Ok(()),
    }
}

/// Adds the lines of an invocation that trapped, with the number of the trap's kind.
#[tactic(auto, unfolding(crate::specs::inner::Dumping::handed_text))]
pub(crate) fn push_trapped(
    out: &mut Text,
    kind: u32,
    dump: &Dump<'_>,
    calls: u64,
) -> Result<(), NoMemory>
    ensures { OnOk result (out.new ≡ out.old ++ handed_text kind dump.now.frames calls) }
{
    push_kind(out, kind)?;
    push_innermost(out, dump)?;
    push_calls(out, calls)
}

/// Adds the lines of an invocation that trapped without handing a dump over.
#[tactic(auto, unfolding(crate::specs::RunText::bare_text))]
pub(crate) fn push_bare(out: &mut Text, kind: u32, calls: u64) -> Result<(), NoMemory>
    ensures { OnOk result (out.new ≡ out.old ++ bare_text kind calls) }
{
    push_kind(out, kind)?;
    out.push_str("no dump collected\n")?;
    push_calls(out, calls)
}

/// Adds the line that names the first offending call.
#[tactic(auto, unfolding(crate::specs::RunText::torn_text))]
pub(crate) fn push_torn(out: &mut Text, at: usize) -> Result<(), NoMemory>
    ensures { OnOk result (out.new ≡ out.old ++ torn_text at) }
{
    push_number(out, "torn calls at ", at as u64)?;
    out.push_str("\n")
}

/// Adds the lines of an invocation that finished.
#[tactic(auto, unfolding(crate::specs::RunText::finished_text))]
pub(crate) fn push_finished(
    out: &mut Text,
    value: Option<Value>,
    calls: u64,
) -> Result<(), NoMemory>
    ensures { OnOk result (out.new ≡ out.old ++ finished_text value calls) }
{
    out.push_str("finished")?;
    push_result(out, value)?;
    out.push_str("\n")?;
    push_calls(out, calls)
}

/// The line that counts the invocations that were not begun, where there is one.
pub(crate) fn not_invoked(alloc: Global, count: usize) -> Result<Text, NoMemory>
    ensures { IfOk result (λ t. t ≡ not_invoked_text count) }
{
    if count == 0 {
        return Ok(Text::new(alloc));
    }
    let mut text = numbered(alloc, "not invoked ", count as u64)?;
    text.push_str("\n").and(Ok(text))
}
