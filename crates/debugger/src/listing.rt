//! Listings of locals, operands and globals.

ghost use Rattle.std.specs.Prelude.{◌≡◌, ◌++◌, replicate, OnOk};
ghost use Rattle.debugger.specs.Listings.{seen_text, value_line, listing, none_text, recorded_or};
ghost use Rattle.commands.specs.Values.{numbered};
ghost use Rattle.wasm_syntax.specs.declared.value.Seen.TheVariants.{Missing};

use causes::NoMemory;
use commands::{push_number, push_value};
use pm_text::Text;
use wasm_syntax::{Seen, Value};

fn push_seen(out: &mut Text, seen: Seen) -> Result<(), NoMemory>
    ensures { OnOk result (out.new ≡ out.old ++ seen_text seen) }
{
    match seen {
        Seen::I32(bits) => push_value(out, Value::I32(bits)),
        Seen::I64(bits) => push_value(out, Value::I64(bits)),
        Seen::Missing => out.push_str("<not recorded>"),
    }
}

/// A line of one value, with its number behind the label.
#[tactic(auto, unfolding(crate::specs::Listings::value_line))]
fn push_line(out: &mut Text, label: &str, number: u64, seen: Seen) -> Result<(), NoMemory>
    ensures { OnOk result (out.new ≡ out.old ++ value_line label.now number seen) }
{
    out.push_str(label)?;
    push_number(out, " ", number)?;
    out.push_str(" ")?;
    push_seen(out, seen)?;
    out.push_str("\n")
}

fn push_lines(out: &mut Text, label: &str, values: &[Seen]) -> Result<(), NoMemory>
    ensures { OnOk result (out.new ≡ out.old ++ numbered (value_line label.now) 0 values.now) }
{
    for (i, seen) in values.iter().enumerate() {
        push_line(out, label, i as u64, *seen)?;
    }
    Ok(())
}

/// Lines of so many values that are not recorded.
fn push_missing(out: &mut Text, label: &str, count: u32) -> Result<(), NoMemory>
    ensures { OnOk result (out.new
        ≡ out.old ++ numbered (value_line label.now) 0 (replicate count Missing)) }
{
    for i in 0..count {
        push_line(out, label, i as u64, Seen::Missing)?;
    }
    Ok(())
}

#[tactic(auto, unfolding(crate::specs::Listings::none_text))]
fn push_none(out: &mut Text, label: &str) -> Result<(), NoMemory>
    ensures { OnOk result (out.new ≡ out.old ++ none_text label.now) }
{
    out.push_str("no ")?;
    out.push_str(label)?;
    out.push_str("s\n")
}

/// The lines of values with their numbers behind a label, as `local 0 i32:7`, or that there are
/// none. A list that is not recorded is empty, and is shown as one of `count` values that are not
/// recorded.
pub fn push_listing(
    out: &mut Text,
    label: &str,
    values: &[Seen],
    count: u32,
) -> Result<(), NoMemory>
    ensures { OnOk result (out.new ≡ out.old ++ listing label.now (recorded_or count values.now)) }
{
    if !values.is_empty() {
        return push_lines(out, label, values);
    }
    if count == 0 {
        return push_none(out, label);
    }
    push_missing(out, label, count)
}
