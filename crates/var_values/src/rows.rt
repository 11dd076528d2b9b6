//! The rows of an array, written without recursion: an array may have very many subranges.

ghost use Rattle.std.specs.Prelude.{ℕ, ◌≡◌, ◌<◌, ◌+◌, ◌*◌, ◌^◌, ◌++◌, ◌∷◌, [], Some, None, List, length};
ghost use Rattle.std.specs.Prelude.{unwrap_or, OnOk};
ghost use Rattle.std.specs.Prelude.{IfOk, IfSome, IfNone, option_and_then, codes};
ghost use Rattle.dwarf_types.specs.calls.Subranges.{Subranges};
ghost use Rattle.var_values.specs.inner.Odometer as odometer;
ghost use Rattle.var_values.specs.inner.Odometer.{AreSound, IsOther, rows_left, levels_behind};

use crate::levels::{BegunRow, Level, OpenRow, Rows, Step};
use causes::NoMemory;
use dwarf_types::ArrayRows;
use pm_text::{Items, Text};
use std::alloc::Global;

/// How many elements of a row are written at most.
const SHOWN_ELEMENTS: u64 = 64;

/// How many elements of a row are written.
fn shown(level: Level) -> u64
    ensures { result ≡ odometer.shown level.count }
{
    if level.count < u128::from(SHOWN_ELEMENTS) {
        level.count as u64
    } else {
        SHOWN_ELEMENTS
    }
}

/// Appends the end of a row.
fn push_end(text: &mut Text, level: Level) -> Result<(), NoMemory>
    ensures { OnOk result (text.new ≡ text.old ++ odometer.ending level.count) }
{
    if level.count > u128::from(SHOWN_ELEMENTS) {
        text.push_str(", ...")?;
    }
    text.push_str("}")
}

/// The offset of the next element of a row.
fn offset_of(row: OpenRow) -> u64
    requires { row.start + row.next * row.level.step < 2 ^ 64 }
    ensures { result ≡ row.start + row.next * row.level.step }
{
    row.start + row.next * row.level.step
}

/// A count, or 0 where it is not known.
fn known_count(count: Option<Option<u128>>) -> u128
    ensures { result ≡ unwrap_or (option_and_then (λ c. c) count) 0 }
{
    match count {
        Some(Some(count)) => count,
        Some(None) | None => 0,
    }
}

/// The level of a subrange of an array.
fn level_at(array: &ArrayRows, number: usize) -> Level
    requires room { number + 1 < 2 ^ 64 }
    ensures { result ≡ odometer.level_at array.now number }
{
    let count = known_count(array.count(number));
    let step = array.size(number + 1).unwrap_or(0);
    Level { count, step }
}

/// Keeps the row of a subrange, if it has more elements.
fn keep(begun: &mut Items<BegunRow>, number: usize, row: OpenRow) -> Result<(), NoMemory>
    ensures { OnOk result (begun.new ≡ odometer.kept number row begun.old) }
{
    if row.next < shown(row.level) {
        begun.push(BegunRow {
            number,
            start: row.start,
            next: row.next,
        })?;
    }
    Ok(())
}

/// Takes the row of a subrange, if it is kept: then it is the innermost one.
fn take_row(begun: &mut Items<BegunRow>, number: usize) -> Option<BegunRow>
    ensures some { IfSome result (λ b. (begun.old ≡ begun.new ++ b ∷ []) × (b.number ≡ number)) }
    ensures none { IfNone result ((begun.new ≡ begun.old) × IsOther number begun.old) }
{
    let last = begun.last()?.number;
    if last != number {
        return None;
    }
    begun.pop()
}

/// Writes what stands in front of the next element of the row of a subrange. The offset of that
/// element.
fn begin_next(
    begun: &mut Items<BegunRow>,
    text: &mut Text,
    number: usize,
    row: OpenRow,
) -> Result<u64, NoMemory>
    requires fits { row.start + row.next * row.level.step < 2 ^ 64 }
    requires room { row.next + 1 < 2 ^ 64 }
    ensures at { IfOk result (λ at. at ≡ row.start + row.next * row.level.step) }
    ensures begun { OnOk result (begun.new ≡ odometer.kept number
        (odometer.row row.level row.start (row.next + 1)) begun.old) }
    ensures text { OnOk result (text.new ≡ text.old ++ codes ", ") }
{
    text.push_str(", ")?;
    let at = offset_of(row);
    let next = OpenRow {
        level: row.level,
        start: row.start,
        next: row.next + 1,
    };
    keep(begun, number, next)?;
    Ok(at)
}

impl Rows {
    /// The rows of an array without its first so many subranges.
    pub fn new(alloc: Global, skipped: usize) -> Self
        ensures sound { (a : Subranges) → odometer.AreNested (levels_behind a skipped)
            → odometer.whole (levels_behind a skipped) < 2 ^ 64 → AreSound a result }
        ensures all { (a : Subranges) (item : ℕ → List ℕ)
            → rows_left item a result ≡ odometer.rows_text item (levels_behind a skipped) 0 }
    {
        Rows {
            pending: Some(0),
            begun: Items::new(alloc),
            passed: skipped,
            opened: skipped,
        }
    }

    /// Begins a row of the next subrange at an offset.
    fn begin(&mut self, text: &mut Text, array: &ArrayRows, start: u64) -> Result<(), NoMemory>
        requires pending { self.old.pending ≡ Some start }
        requires within { self.old.opened < length array.now.counts }
        requires room { self.old.opened + 1 < 2 ^ 64 }
        requires sound { AreSound array.now self.old }
        ensures sound { OnOk result (AreSound array.now self.new) }
        ensures grows { OnOk result (length text.old < length text.new) }
        ensures keeps { OnOk result ((item : ℕ → List ℕ)
            → text.old ++ rows_left item array.now self.old
            ≡ text.new ++ rows_left item array.now self.new) }
    {
        let level = level_at(array, self.opened);
        if level.count == 0 {
            text.push_str("{}")?;
            self.pending = None;
            return Ok(());
        }
        text.push_str("{")?;
        let row = OpenRow {
            level,
            start,
            next: 1,
        };
        keep(&mut self.begun, self.opened, row)?;
        self.opened += 1;
        Ok(())
    }

    /// Goes on behind an element of the innermost row.
    fn go_on(&mut self, text: &mut Text, array: &ArrayRows) -> Result<(), NoMemory>
        requires pending { self.old.pending ≡ None }
        requires open { self.old.passed < self.old.opened }
        requires sound { AreSound array.now self.old }
        ensures sound { OnOk result (AreSound array.now self.new) }
        ensures grows { OnOk result (length text.old < length text.new) }
        ensures keeps { OnOk result ((item : ℕ → List ℕ)
            → text.old ++ rows_left item array.now self.old
            ≡ text.new ++ rows_left item array.now self.new) }
    {
        let number = self.opened - 1;
        let level = level_at(array, number);
        match take_row(&mut self.begun, number) {
            Some(begun) => {
                let row = OpenRow {
                    level,
                    start: begun.start,
                    next: begun.next,
                };
                let at = begin_next(&mut self.begun, text, number, row)?;
                self.pending = Some(at);
                Ok(())
            }
            None => {
                push_end(text, level)?;
                self.opened = number;
                Ok(())
            }
        }
    }

    /// Writes what stands in front of the next decision.
    fn step(&mut self, text: &mut Text, array: &ArrayRows) -> Result<Step, NoMemory>
        requires sound { AreSound array.now self.old }
        ensures sound { OnOk result (AreSound array.now self.new) }
        ensures falls { IfOk result (λ step. odometer.Falls array.now step self.old self.new) }
        ensures keeps { IfOk result (λ step. (item : ℕ → List ℕ)
            → text.old ++ rows_left item array.now self.old
            ≡ text.new ++ odometer.step_left item array.now step self.new) }
    {
        match self.pending {
            Some(at) => {
                if self.opened < array.len() {
                    self.begin(text, array, at)?;
                    return Ok(Step::On);
                }
                self.pending = None;
                Ok(Step::Element(at))
            }
            None => {
                if self.passed < self.opened {
                    self.go_on(text, array)?;
                    return Ok(Step::On);
                }
                Ok(Step::End)
            }
        }
    }

    /// Writes what stands in front of the next innermost element. How many bytes from the start of
    /// the array on it stands, or None where all is written.
    pub fn next(&mut self, text: &mut Text, array: &ArrayRows) -> Result<Option<u64>, NoMemory>
        requires sound { AreSound array.now self.old }
        ensures sound { OnOk result (AreSound array.now self.new) }
        ensures falls { IfOk result (λ at. odometer.Falls array.now (odometer.step_of at)
            self.old self.new) }
        ensures keeps { IfOk result (λ at. (item : ℕ → List ℕ)
            → text.old ++ rows_left item array.now self.old
            ≡ text.new ++ odometer.step_left item array.now (odometer.step_of at) self.new) }
    {
        'steps: loop {
            match self.step(text, array)? {
                Step::On => {}
                Step::Element(at) => return Ok(Some(at)),
                Step::End => return Ok(None),
            }
        }
    }
}
