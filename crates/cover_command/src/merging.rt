//! Lines of all line programs whose files have one text, added up.

ghost use Rattle.std.specs.Prelude.{◌≡◌, ◌+◌, ◌<◌, ◌^◌, Some, map, slice_get, IfOk, OnOk, if◌then◌else◌};
ghost use Rattle.std.specs.List.{AllByRecursion};
ghost use Rattle.line_coverage.specs.declared.spots.LineCount.{LineCount as Counted};
ghost use Rattle.cover_command.specs.SourceLines.{SourceLine, is_line};
ghost use Rattle.debug_frames.specs.Files.{file_text};
ghost use Rattle.cover_command.specs.inner.Merging.{seen_line, counted_on, HaveSteps, file_at, spot_line, merged};

use causes::NoMemory;
use debug_frames::push_file;
use dwarf_line::Lines;
use line_coverage::{LineCount, Spot};
use pm_text::Text;
use std::alloc::Global;
use std::collections::BTreeMap;

/// A line of a source file, by the text that names the file. They are ordered by the bytes of the
/// text, and then by the line.
#[derive(PartialEq, Eq, PartialOrd, Ord, Drop)]
pub(crate) struct NamedLine {
    pub file: String,
    pub line: u32,
}

/// The text that names the file of a number.
fn file_of(alloc: Global, lines: &Lines<'_>, number: u32) -> Result<Text, NoMemory>
    ensures { IfOk result (λ t. t ≡ file_text lines.now (Some number)) }
{
    let mut text = Text::new(alloc);
    push_file(&mut text, alloc, lines, Some(u64::from(number))).and(Ok(text))
}

/// The text that names the file of a line of a line program.
fn file_at(alloc: Global, tables: &Vec<&Lines<'_>>, spot: &Spot) -> Result<Text, NoMemory>
    ensures { IfOk result (λ t. t
        ≡ file_at (slice_get (map (λ l. l.now) tables.now.items) spot.now.table) spot.now.file) }
{
    if spot.table < tables.len() {
        file_of(alloc, tables[spot.table], spot.file)
    } else {
        Ok(Text::new(alloc))
    }
}

/// A line of a line program as one of a file.
fn file_line(alloc: Global, tables: &Vec<&Lines<'_>>, spot: &Spot) -> Result<NamedLine, NoMemory>
    ensures { IfOk result (λ line. seen_line line
        ≡ spot_line (map (λ l. l.now) tables.now.items) spot.now) }
{
    let file = file_at(alloc, tables, spot)?;
    Ok(NamedLine {
        file: file.into_string(),
        line: spot.line,
    })
}

/// So many more steps on a line.
fn add(counts: &mut BTreeMap<NamedLine, u64>, line: NamedLine, steps: u64) -> Result<(), NoMemory>
    ensures on { OnOk result ((q : SourceLine)
        → counted_on counts.old q + (if is_line q (seen_line line) then steps else 0) < 2 ^ 64
        → counted_on counts.new q ≡ counted_on counts.old q
        + (if is_line q (seen_line line) then steps else 0)) }
    ensures some { OnOk result (0 < steps → HaveSteps counts.old → HaveSteps counts.new) }
{
    let before = counts.get(&line).copied().unwrap_or(0);
    counts.insert(line, before.saturating_add(steps))?;
    Ok(())
}

/// How many steps fell on each line of each file, where so many fell on these lines of line
/// programs. A number stops at 2^64 - 1.
pub(crate) fn merge(
    alloc: Global,
    tables: &Vec<&Lines<'_>>,
    lines: &[LineCount],
) -> Result<BTreeMap<NamedLine, u64>, NoMemory>
    ensures merged { IfOk result (λ counts. (q : SourceLine)
        → merged (map (λ l. l.now) tables.now.items) lines.now q < 2 ^ 64
        → counted_on counts q ≡ merged (map (λ l. l.now) tables.now.items) lines.now q) }
    ensures some { IfOk result (λ counts. AllByRecursion (λ (l : Counted). 0 < l.steps) lines.now
        → HaveSteps counts) }
{
    let mut counts = BTreeMap::new(alloc);
    for line in lines {
        let at = file_line(alloc, tables, &line.spot)?;
        add(&mut counts, at, line.steps)?;
    }
    Ok(counts)
}
