//! The lines that show a dump.

ghost use Rattle.std.specs.Prelude.{◌≡◌, ◌++◌, OnOk, IfOk};
ghost use Rattle.commands.specs.Values.{value_text};
ghost use Rattle.pm_cli.specs.Show.{seen_text, values_text, place_text, frame_text, global_text, memory_text};
ghost use Rattle.pm_cli.specs.Show.{head_text, show_text};
ghost use Rattle.commands.specs.Values.{numbered};

use causes::NoMemory;
use commands::{push_number, push_value};
use dump_format::{Dump, Frame};
use pm_text::Text;
use std::alloc::Global;
use wasm_syntax::{Seen, Value};

fn push_seen(out: &mut Text, seen: Seen) -> Result<(), NoMemory>
    ensures { OnOk result (out.new ≡ out.old ++ seen_text seen) }
{
    match seen {
        Seen::I32(bits) => push_value(out, Value::I32(bits)),
        Seen::I64(bits) => push_value(out, Value::I64(bits)),
        Seen::Missing => out.push_str("?"),
    }
}

#[tactic(auto, unfolding(crate::specs::Show::values_text))]
fn push_values(out: &mut Text, values: &[Seen]) -> Result<(), NoMemory>
    ensures { OnOk result (out.new ≡ out.old ++ values_text values.now) }
{
    let Some((first, others)) = values.split_first() else {
        return out.push_str("-");
    };
    push_seen(out, *first)?;
    for value in others {
        out.push_str(" ")?;
        push_seen(out, *value)?;
    }
    Ok(())
}

#[tactic(auto, unfolding(crate::specs::Show::place_text))]
fn push_place(out: &mut Text, i: usize, frame: &Frame) -> Result<(), NoMemory>
    ensures { OnOk result (out.new ≡ out.old ++ place_text i frame.now) }
{
    push_number(out, "#", i as u64)?;
    push_number(out, " instance ", u64::from(frame.instance))?;
    push_number(out, " function ", u64::from(frame.function))?;
    push_number(out, " offset ", u64::from(frame.offset))
}

#[tactic(auto, unfolding(crate::specs::Show::frame_text))]
fn push_frame(out: &mut Text, i: usize, frame: &Frame) -> Result<(), NoMemory>
    ensures { OnOk result (out.new ≡ out.old ++ frame_text i frame.now) }
{
    push_place(out, i, frame)?;
    out.push_str(" locals ")?;
    push_values(out, frame.locals.as_slice())?;
    out.push_str(" operands ")?;
    push_values(out, frame.operands.as_slice())?;
    out.push_str("\n")
}

fn push_frames(out: &mut Text, frames: &[Frame]) -> Result<(), NoMemory>
    ensures { OnOk result (out.new ≡ out.old ++ numbered frame_text 0 frames.now) }
{
    for (i, frame) in frames.iter().enumerate() {
        push_frame(out, i, frame)?;
    }
    Ok(())
}

fn push_memory(out: &mut Text, memory: Option<u32>) -> Result<(), NoMemory>
    ensures { OnOk result (out.new ≡ out.old ++ memory_text memory) }
{
    let Some(pages) = memory else {
        return Ok(());
    };
    push_number(out, "memory ", u64::from(pages))?;
    out.push_str("\n")
}

#[tactic(auto, unfolding(crate::specs::Show::global_text))]
fn push_global(out: &mut Text, i: usize, value: Value) -> Result<(), NoMemory>
    ensures { OnOk result (out.new ≡ out.old ++ global_text i value) }
{
    push_number(out, "global ", i as u64)?;
    out.push_str(" ")?;
    push_value(out, value)?;
    out.push_str("\n")
}

fn push_globals(out: &mut Text, globals: &[Value]) -> Result<(), NoMemory>
    ensures { OnOk result (out.new ≡ out.old ++ numbered global_text 0 globals.now) }
{
    for (i, value) in globals.iter().enumerate() {
        push_global(out, i, *value)?;
    }
    Ok(())
}

#[tactic(auto, unfolding(crate::specs::Show::head_text))]
fn push_head(out: &mut Text, dump: &Dump<'_>) -> Result<(), NoMemory>
    ensures { OnOk result (out.new ≡ out.old ++ head_text dump.now) }
{
    out.push_str("dump ")?;
    out.push_quoted(dump.name.as_bytes())?;
    push_number(out, " frames ", dump.frames.len() as u64)?;
    out.push_str("\n")
}

/// Adds the lines that show a dump.
#[tactic(auto, unfolding(crate::specs::Show::show_text))]
fn push_dump(out: &mut Text, dump: &Dump<'_>) -> Result<(), NoMemory>
    ensures { OnOk result (out.new ≡ out.old ++ show_text dump.now) }
{
    push_head(out, dump)?;
    push_frames(out, dump.frames.as_slice())?;
    push_memory(out, dump.memory)?;
    push_globals(out, dump.globals.as_slice())
}

/// The text that shows a dump.
pub fn show(alloc: Global, dump: &Dump<'_>) -> Result<Text, NoMemory>
    ensures { IfOk result (λ t. t ≡ show_text dump.now) }
{
    let mut out = Text::new(alloc);
    push_dump(&mut out, dump).and(Ok(out))
}
