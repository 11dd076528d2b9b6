//! The text of counted steps.

ghost use Rattle.std.specs.Prelude.{◌≡◌, ◌++◌, map, IfOk, OnOk};
ghost use Rattle.std.specs.List.{flat_map};
ghost use Rattle.std.specs.BTreeMap.{IsOrdered};
ghost use Rattle.debug_frames.specs.Information.{SourceInformation};
ghost use Rattle.debug_frames.specs.calls.Kept.{programs_of, readable};
ghost use Rattle.cover_command.specs.CoverText.{count_text, sums_text};
ghost use Rattle.cover_command.specs.inner.Running.{AddsCounts};
ghost use Rattle.cover_command.specs.inner.Merging.{file_line_cmp, seen_line, seen_counts};

use crate::merging::{NamedLine, merge};
use causes::NoMemory;
use commands::push_number;
use debug_frames::Information;
use dwarf_line::Lines;
use line_coverage::Coverage;
use machine_steps::Tally;
use pm_text::Text;
use std::alloc::Global;
use std::collections::BTreeMap;
use wasm_syntax::ModuleParts;

/// Adds the line that tells how many steps fell on a line of a file.
#[tactic(auto, unfolding(crate::specs::CoverText::count_text))]
fn push_count(out: &mut Text, line: &NamedLine, steps: u64) -> Result<(), NoMemory>
    ensures { OnOk result (out.new ≡ out.old ++ count_text (seen_line line.now, steps)) }
{
    out.push_str(line.file.as_str())?;
    push_number(out, ":", u64::from(line.line))?;
    push_number(out, " ", steps)?;
    out.push_str("\n")
}

/// Adds the lines of all lines of files on which steps fell.
fn push_counts(out: &mut Text, counts: &BTreeMap<NamedLine, u64>) -> Result<(), NoMemory>
    ensures text { OnOk result (out.new
        ≡ out.old ++ flat_map count_text (seen_counts counts.now.entries)) }
    ensures ordered { IsOrdered file_line_cmp counts.now }
{
    for (line, steps) in counts.iter() {
        push_count(out, line, *steps)?;
    }
    Ok(())
}

/// Adds the lines that tell how many steps fell on no line, and how many were made.
#[tactic(auto, unfolding(crate::specs::CoverText::sums_text))]
fn push_sums(out: &mut Text, unplaced: u64, steps: u64) -> Result<(), NoMemory>
    ensures { OnOk result (out.new ≡ out.old ++ sums_text unplaced steps) }
{
    push_number(out, "unplaced ", unplaced)?;
    push_number(out, "\nsteps ", steps)?;
    out.push_str("\n")
}

/// References to line programs, in their order.
fn borrowed<'r, 'a>(alloc: Global, lines: &'r [Lines<'a>]) -> Result<Vec<&'r Lines<'a>>, NoMemory>
    ensures { IfOk result (λ tables. map (λ l. l.now) tables.items ≡ lines.now) }
{
    let mut tables = Vec::new(alloc);
    for program in lines {
        tables.push(program)?;
    }
    Ok(tables)
}

/// Adds the lines that tell where the steps fell, by the line programs that could be read.
fn push_placed(
    out: &mut Text,
    alloc: Global,
    tables: &Vec<&Lines<'_>>,
    source: &ModuleParts,
    tally: &Tally,
) -> Result<(), NoMemory>
    ensures { (x : SourceInformation)
        → map (λ l. l.now) tables.now.items ≡ readable (programs_of x.sections x.units)
        → OnOk result (AddsCounts x source.now tally.now out.old out.new) }
{
    let coverage = Coverage::of(alloc, tables, source, tally)?;
    let counts = merge(alloc, tables, coverage.lines())?;
    push_counts(out, &counts)?;
    push_sums(out, coverage.unplaced(), coverage.steps())
}

/// Adds the lines that tell where the steps fell that were counted of runs of a module, by what
/// its bytes say of its source.
pub(crate) fn push_covered(
    out: &mut Text,
    alloc: Global,
    information: &Information<'_>,
    source: &ModuleParts,
    tally: &Tally,
) -> Result<(), NoMemory>
    ensures { OnOk result (AddsCounts information.now source.now tally.now out.old out.new) }
{
    let lines = information.programs().lines(alloc)?;
    let tables = borrowed(alloc, lines.as_slice())?;
    push_placed(out, alloc, &tables, source, tally)
}
