//! A line program, with which of its sequences holds an address first.

ghost use Rattle.std.specs.Prelude.{◌≡◌, ◌++◌, IfOk, OnOk, slice_get, option_copied};
ghost use Rattle.dwarf_line.specs.Place.{place};
ghost use Rattle.dwarf_scopes.specs.calls.Numbered.{ranges_from, with_number};
ghost use Rattle.dwarf_scopes.specs.calls.Steps.{Answer};
ghost use Rattle.debug_frames.specs.inner.Placing.{held_by};

use causes::NoMemory;
use dwarf_line::{Lines, Row, Sequence};
use dwarf_scopes::{Range, Steps};
use std::alloc::Global;
use std::marker::Model;

/// What a line program says, which contracts see.
#[derive(Drop)]
pub struct Held<'a> {
    lines: Lines<'a>,
    // Which of the sequences holds an address first.
    steps: Steps,
}

impl<'a> Model for Held<'a> {
    ghost use Rattle.dwarf_line.specs.declared.lines.Lines.{Lines};
    ghost use Rattle.dwarf_scopes.specs.calls.Numbered.{ranges_from};
    ghost use Rattle.dwarf_scopes.specs.calls.Steps.{Answer};
    ghost use Rattle.debug_frames.specs.inner.Placing.{held_by};

    ghost Value = { Lines };

    ghost view = { λ h. h.lines };

    ghost invariant = { λ h. Answer (ranges_from held_by 0 h.lines.sequences) h.steps };
}

/// Adds the addresses that a sequence holds, with a number.
pub(crate) fn push_held(
    sequence: &Sequence,
    number: usize,
    ranges: &mut Vec<Range>,
) -> Result<(), NoMemory>
    ensures { OnOk result (ranges.new.items
        ≡ ranges.old.items ++ with_number number (held_by sequence.now)) }
{
    if let Some((first, end)) = sequence.held() {
        ranges.push(Range {
            first,
            end: i128::from(end),
            index: number,
        })?;
    }
    Ok(())
}

/// The addresses that sequences hold, with their numbers.
fn ranges_of(alloc: Global, sequences: &[Sequence]) -> Result<Vec<Range>, NoMemory>
    ensures { IfOk result (λ ranges. ranges.items ≡ ranges_from held_by 0 sequences.now) }
{
    let mut ranges = Vec::new(alloc);
    'sequences: for (number, sequence) in sequences.iter().enumerate() {
        push_held(sequence, number, &mut ranges)?;
    }
    Ok(ranges)
}

/// Which of these sequences holds an address first.
fn steps_of(alloc: Global, sequences: &[Sequence]) -> Result<Steps, NoMemory>
    ensures { IfOk result (Answer (ranges_from held_by 0 sequences.now)) }
{
    match ranges_of(alloc, sequences) {
        Ok(ranges) => {
            let steps = Steps::of(alloc, ranges.as_slice());
            drop(ranges);
            steps
        }
        Err(NoMemory) => Err(NoMemory),
    }
}

fn sequence_at(number: usize, sequences: &[Sequence]) -> Option<&Sequence>
    ensures { option_copied result ≡ slice_get sequences.now number }
{
    sequences.get(number)
}

/// The row of an address in the sequence that holds it first.
fn row_by(address: u32, steps: &Steps, sequences: &[Sequence]) -> Option<Row>
    requires { Answer (ranges_from held_by 0 sequences.now) steps.now }
    ensures { result ≡ place address sequences.now }
{
    let number = steps.at(address)?;
    let sequence = sequence_at(number, sequences)?;
    sequence.rows.nearest(address)
}

impl<'a> Held<'a> {
    pub(crate) fn new(alloc: Global, lines: Lines<'a>) -> Result<Self, NoMemory>
        ensures { IfOk result (λ h. h ≡ lines.entry) }
    {
        match steps_of(alloc, lines.sequences.as_slice()) {
            Ok(steps) => Ok(Held { lines, steps }),
            Err(NoMemory) => {
                drop(lines);
                Err(NoMemory)
            }
        }
    }

    pub(crate) fn lines(&self) -> &Lines<'a>
        ensures { result.now ≡ self.now }
    {
        &self.lines
    }

    /// The row of an address, in logarithmic time.
    pub(crate) fn place(&self, address: u32) -> Option<Row>
        ensures { result ≡ place address self.now.sequences }
    {
        row_by(address, &self.steps, self.lines.sequences.as_slice())
    }
}
